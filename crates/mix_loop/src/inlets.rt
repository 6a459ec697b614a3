//! Where the texts of a leg come from.
ghost use Rattle.std.specs.Prelude.{◌≡◌, true};
ghost use Rattle.stream_spec.specs.Ready.{chunk_of};
ghost use Rattle.mix_loop.specs.Items.{Gave, Gives, IsSaid, goes_on};

use crate::Item;
use rtt_base::Chunk;
use std::sync::Wait;

/// Where the texts of one leg come from: the leg itself, or a queue. It tells only what it gave, so that nothing need be
/// known of what is still to come.
pub trait Inlet {
    /// Why it can give no more.
    type Fault: Copy;

    /// From the first of these to the second it gave this.
    ghost stands: { Self → Self → Gave Self.Fault → Type 0 };

    /// It may be asked for more.
    ghost good: { Self → Type 0 };

    /// From the first of these to the second it got on, where there was no text to give.
    ghost nearer: { Self → Self → Type 0 };

    /// Puts the next text of the leg in place of what is in `chunk`, or tells why there is none. Whose text it is (`source`) is
    /// known to who asks.
    fn next<R: Wait>(&mut self, rt: &R, chunk: &mut Chunk) -> Item<Self::Fault>
        requires { good self.old }
        ensures good { goes_on result ≡ true → good self.new }
        ensures stands { Gives stands self.old self.new result (chunk_of chunk.new) }
        ensures text { result ≡ Item.Chunk → IsSaid (chunk_of chunk.new) }
        ensures nearer { result ≡ Item.Later → nearer self.old self.new };
}
