//! What a leg gives.
ghost use Rattle.stream_spec.specs.Ready.{chunk_of};
ghost use Rattle.live_leg.specs.Texts.{HasText};

use crate::kinds::ItemKind;
use rtt_base::{Chunk, NoMemory};
use std::alloc::Global;
use workers::Reusable;

/// What a leg gave, and beside it the text, where it is one. A text lies in a box, which is used again: so it is written once and
/// read once, and what is moved from place to place is small.
#[derive(Drop)]
pub struct LegItem<F> {
    pub kind: ItemKind<F>,
    pub chunk: Box<Chunk>,
    /// The moment of the take behind which it was given.
    pub at: u64,
    ghost text: { HasText kind (chunk_of chunk.value) },
}

impl<F: Copy + Drop> Reusable for LegItem<F> {
    fn blank(alloc: Global) -> Result<LegItem<F>, NoMemory> {
        let Ok(chunk) = Box::new(alloc, Chunk::default()) else {
            return Err(NoMemory);
        };
        Ok(LegItem {
            kind: ItemKind::Seen,
            chunk,
            at: 0,
        })
    }
}
