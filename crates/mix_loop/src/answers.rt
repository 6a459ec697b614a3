//! What a leg answers, on its way through a queue.
ghost use Rattle.stream_spec.specs.Ready.{chunk_of};
ghost use Rattle.mix_loop.specs.Texts.{HasText};

use crate::items::Item;
use rtt_base::Chunk;

/// What a leg answered, and beside it the text, where it is one. A text lies in a box, which is used again: so it is written once
/// and read once, and what is moved from place to place is small.
#[derive(Drop)]
pub struct Answer<F> {
    pub item: Item<F>,
    pub chunk: Box<Chunk>,
    ghost text: { HasText item (chunk_of chunk.value) },
}
