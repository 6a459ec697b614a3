//! What is told of a live call while it runs.
ghost use Rattle.std.specs.Prelude.{List, OnOk};
ghost use Rattle.stream_spec.specs.Ready.{chunk_of};
ghost use Rattle.rtt_live.specs.Taps.{Learns, Notice, Shows, Took};

use rtt_base::{Chunk, NoMemory};

/// Is told of each text that the mixer of a live call took, and of its turns.
pub trait Tap {
    /// It was told this, newest first.
    ghost stands: { Self → List Notice → Type 0 };

    /// The mixer took this chunk.
    fn took(&mut self, chunk: &Chunk) -> Result<(), NoMemory>
        ensures { OnOk result (Learns stands self.old self.new (Took (chunk_of chunk.now))) };

    /// A turn was made, or the call is over: from now on it shows all that it took. It waits for nobody.
    fn turned(&mut self)
        ensures { Learns stands self.old self.new Shows };
}

/// A tap that shows nothing.
#[derive(Drop)]
pub struct NoTap;

impl Tap for NoTap {
    ghost use Rattle.std.specs.Prelude.{⊤};

    ghost stands = { λ _ _. ⊤ };

    fn took(&mut self, _chunk: &Chunk) -> Result<(), NoMemory> {
        Ok(())
    }

    fn turned(&mut self) {}
}
