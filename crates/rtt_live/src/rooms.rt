//! All memory that the legs of a live call need to run.
ghost use Rattle.std.specs.Prelude.{IfOk};
ghost use Rattle.rtt_live.specs.Rooms.{HasCallRoom, IsUnusedCall};

use crate::threads::LinkWorker;
use link_io::LinkIn;
use live_leg::{LinkItem, LinkLeg};
use mix_loop::LivePort;
use rtt_base::NoMemory;
use rtt_io::Gate;
use std::alloc::Global;
use workers::WorkerRoom;

/// All memory that the legs of a live call need to run.
pub(crate) struct CallRoom<L: LinkIn, G: Gate> {
    pub(crate) lanes: WorkerRoom<LinkItem, LinkLeg<L>, G>,
    pub(crate) ports: Vec<LivePort<LinkWorker<L, G>>>,
    pub(crate) joined: Vec<LinkWorker<L, G>>,
}

impl<L: LinkIn, G: Gate> CallRoom<L, G> {
    /// Room for so many legs.
    pub(crate) fn new(alloc: Global, count: usize) -> Result<CallRoom<L, G>, NoMemory>
        ensures { IfOk result (HasCallRoom count) }
    {
        let Ok(ports) = Vec::with_capacity(alloc, count) else {
            return Err(NoMemory);
        };
        let Ok(joined) = Vec::with_capacity(alloc, count) else {
            ports.destroy_empty();
            return Err(NoMemory);
        };
        let Ok(lanes) = WorkerRoom::new(alloc, count) else {
            ports.destroy_empty();
            joined.destroy_empty();
            return Err(NoMemory);
        };
        Ok(CallRoom {
            lanes,
            ports,
            joined,
        })
    }

    /// Gives up room in which nothing runs.
    pub(crate) fn discard(self)
        requires { IsUnusedCall self }
    {
        let CallRoom {
            lanes,
            ports,
            joined,
        } = self;
        lanes.discard();
        ports.destroy_empty();
        joined.destroy_empty();
    }
}
