//! What a turn sends.
ghost use Rattle.std.specs.Prelude.{◌≡◌, [], length, IfOk};

use mixer_spec::limits::PLACES;
use rtt_base::{NoMemory, Text};
use std::alloc::Global;
use std::marker::Model;

/// What a terminal is sent: a text of one of its sources, to be sent in a packet with what is still to be repeated of the source.
#[derive(Drop)]
pub struct Post {
    /// The number of the terminal's leg.
    pub terminal: usize,
    /// The source: the number of a leg, or 0 where the mixer is the terminal's only source.
    pub source: usize,
    /// The media time, in milliseconds.
    pub media: u64,
    /// The text, empty where some is only repeated.
    pub text: Text,
}

/// What a turn sends, in leg order. The texts are taken where they stand, and a turn that uses the batch again moves none of
/// those of the turn before.
#[derive(Drop)]
pub struct Batch {
    pub(crate) places: Vec<Post>,
    pub(crate) len: usize,
}

impl Model for Batch {
    ghost use Rattle.std.specs.Prelude.{List};
    ghost use Rattle.mixer.specs.declared.batches.Post.{Post};

    ghost Value = { List Post };

    ghost use Rattle.mixer.specs.BatchInsides.{posts_of, IsBatch};

    ghost view = { posts_of };

    ghost invariant = { IsBatch };
}

impl Batch {
    /// A batch in which nothing is sent. It takes all memory that it ever needs.
    pub fn new(alloc: Global) -> Result<Batch, NoMemory>
        ensures { IfOk result (λ batch. batch ≡ []) }
    {
        let mut places = Vec::with_capacity(alloc, PLACES)?;
        for _ in 0..PLACES {
            let post = Post {
                terminal: 0,
                source: 0,
                media: 0,
                text: Text::new(),
            };
            places.push(post)?;
        }
        Ok(Batch { places, len: 0 })
    }

    /// What is sent, in leg order.
    pub fn posts(&self) -> &[Post]
        ensures { result.now ≡ self.now }
    {
        &self.places[..self.len]
    }

    /// Forgets all that was sent.
    pub(crate) fn clear(&mut self)
        ensures { self.new ≡ [] }
    {
        self.len = 0;
    }
}
