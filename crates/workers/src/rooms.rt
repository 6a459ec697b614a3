//! What lanes need to run, and lanes that run.
ghost use Rattle.std.specs.Prelude.{IfOk};
ghost use Rattle.workers.specs.Rooms.{HasRoom, IsUnused};

use crate::ends::{WorkerEnds, open_ends};
use crate::lanes::Worker;
use crate::{Producer, Reusable};
use rtt_base::NoMemory;
use rtt_io::Gate;
use std::alloc::Global;

/// All memory that lanes need to run.
pub struct WorkerRoom<Q: Drop, F: Producer<Q>, G: Gate> {
    pub(crate) ends: Vec<WorkerEnds<Q>>,
    pub(crate) lanes: Vec<Worker<Q, F, G>>,
    pub(crate) back: Vec<F>,
}

/// Lanes that run, and room for what comes back of them.
pub struct WorkerSet<Q: Drop, F: Producer<Q>, G: Gate> {
    pub lanes: Vec<Worker<Q, F, G>>,
    pub back: Vec<F>,
}

impl<Q: Drop + Reusable, F: Producer<Q>, G: Gate> WorkerRoom<Q, F, G> {
    /// Room for so many lanes.
    pub fn new(alloc: Global, count: usize) -> Result<WorkerRoom<Q, F, G>, NoMemory>
        ensures { IfOk result (HasRoom count) }
    {
        let ends = open_ends(alloc, count)?;
        let Ok(lanes) = Vec::with_capacity(alloc, count) else {
            return Err(NoMemory);
        };
        let Ok(back) = Vec::with_capacity(alloc, count) else {
            lanes.destroy_empty();
            return Err(NoMemory);
        };
        Ok(WorkerRoom { ends, lanes, back })
    }

    /// Gives up room in which nothing runs.
    pub fn discard(self)
        requires { IsUnused self }
    {
        let WorkerRoom {
            ends: _,
            lanes,
            back,
        } = self;
        lanes.destroy_empty();
        back.destroy_empty();
    }
}
