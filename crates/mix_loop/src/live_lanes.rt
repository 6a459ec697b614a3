//! A leg over a link that runs, as where its items are popped.
ghost use Rattle.std.specs.Prelude.{◌≡◌};
ghost use Rattle.stream_spec.specs.Ready.{chunk_of};

use crate::copy_chunk;
use crate::pops::Consumer;
use link_io::LinkIn;
use live_leg::{ItemKind, LinkItem, LinkLeg, LinkStop};
use rtt_base::Chunk;
use rtt_io::Gate;
use std::sync::Wait;
use workers::Worker;

/// Hands an item out, and what lies beside it in place of what is in `chunk`.
fn hand_out(item: &LinkItem, chunk: &mut Chunk) -> ItemKind<LinkStop>
    ensures is { result ≡ item.now.kind }
    ensures text { chunk_of chunk.new ≡ chunk_of item.now.chunk.value }
{
    copy_chunk(&item.chunk, chunk);
    item.kind
}

impl<L: LinkIn, G: Gate> Consumer for Worker<LinkItem, LinkLeg<L>, G> {
    ghost use Rattle.workers.specs.Lanes.{LaneFollows, popped_of};
    ghost use Rattle.live_leg.specs.Items.{items_of};
    ghost use Rattle.live_leg.specs.LinkLegs.{LegGave};

    ghost popped = { λ lane. items_of (popped_of lane) };

    ghost began = { LaneFollows (LegGave L.LinkIn) };

    /// What is given was popped. That the queue is asked is tested.
    fn pop<R: Wait>(
        &mut self,
        rt: &R,
        chunk: &mut Chunk,
        at: &mut u64,
    ) -> Option<ItemKind<LinkStop>> {
        match Worker::pop(self, rt) {
            Some(item) => {
                let kind = hand_out(&item, chunk);
                *at = item.at;
                self.give_back(rt, item);
                Some(kind)
            }
            None => None,
        }
    }

    /// That a leg without a thread is stepped is tested.
    fn wait<R: Wait>(&mut self, rt: &R) {
        Worker::wait(self, rt);
    }
}
