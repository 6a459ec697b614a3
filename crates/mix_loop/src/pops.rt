//! Where the items of a leg are popped.
ghost use Rattle.std.specs.Prelude.{◌≡◌, List, ◌++◌, IfSome};
ghost use Rattle.stream_spec.specs.Ready.{chunk_of};
ghost use Rattle.live_leg.specs.LinkLegs.{Item};
ghost use Rattle.live_leg.specs.Items.{items_with};
ghost use Rattle.live_leg.specs.Texts.{HasText};

use live_leg::{ItemKind, LinkStop};
use rtt_base::Chunk;
use std::sync::Wait;

/// The end of a leg's queue at which its items are popped.
pub trait Consumer {
    /// What was popped, oldest first.
    ghost popped: { Self → List Item };

    /// From the first of these on, of which nothing was popped yet, it has become the second.
    ghost began: { Self → Self → Type 0 };

    /// The next item, if one is there, and at which moment of the leg's link (milliseconds) it was given. Where it is a text, it is
    /// put in place of what is in `chunk`. Whose text it is (`source`) is known to who asks.
    fn pop<R: Wait>(
        &mut self,
        rt: &R,
        chunk: &mut Chunk,
        at: &mut u64,
    ) -> Option<ItemKind<LinkStop>>
        ensures popped { popped self.new ≡ popped self.old ++ items_with result (chunk_of chunk.new) }
        ensures text { IfSome result (λ kind. HasText kind (chunk_of chunk.new)) }
        ensures began { (first : Self) → began first self.old → began first self.new };

    /// Where none is there: waits for one, or has the leg step, where it has no thread of its own. It may come back without one.
    fn wait<R: Wait>(&mut self, rt: &R)
        ensures popped { popped self.new ≡ popped self.old }
        ensures began { (first : Self) → began first self.old → began first self.new };
}
