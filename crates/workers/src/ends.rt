//! Queues for what is about to run.
ghost use Rattle.std.specs.Prelude.{◌≡◌, [], vec_len, IfOk};
ghost use Rattle.std.specs.Arc.{arc_value};
ghost use Rattle.workers.specs.Passes.{IsPopOf, IsPushOf, popped, pushed};

use crate::lanes::SharedQueue;
use crate::{ItemQueue, PopPass, PushPass, Reusable};
use rtt_base::NoMemory;
use std::alloc::Global;
use std::sync::Arc;
use std::sync::atomic::AtomicBool;

/// The queue of what is about to run, for who pops and for its thread, with its two ends. Nothing was pushed.
#[derive(Drop)]
pub struct WorkerEnds<Q: Drop> {
    pub(crate) ours: Arc<SharedQueue<Q>, Global>,
    pub(crate) theirs: Arc<SharedQueue<Q>, Global>,
    pub(crate) push: PushPass<Q>,
    pub(crate) pop: PopPass<Q>,
    ghost same: { arc_value theirs ≡ arc_value ours },
    ghost push_is: { IsPushOf (arc_value ours).queue push },
    ghost pop_is: { IsPopOf (arc_value ours).queue pop },
    ghost none_pushed: { pushed push ≡ [] },
    ghost none_popped: { popped pop ≡ [] },
}

impl<Q: Drop + Reusable> WorkerEnds<Q> {
    /// A new queue. It takes all memory that the run ever needs.
    pub fn new(alloc: Global) -> Result<WorkerEnds<Q>, NoMemory> {
        let (queue, push, pop) = ItemQueue::new(alloc)?;
        let shared = SharedQueue {
            queue,
            alone: AtomicBool::new(false),
        };
        let Ok(ours) = Arc::new(alloc, shared) else {
            return Err(NoMemory);
        };
        let Ok(theirs) = Arc::try_clone(&ours) else {
            return Err(NoMemory);
        };
        Ok(WorkerEnds {
            ours,
            theirs,
            push,
            pop,
        })
    }
}

/// So many new queues.
pub(crate) fn open_ends<Q: Drop + Reusable>(
    alloc: Global,
    count: usize,
) -> Result<Vec<WorkerEnds<Q>>, NoMemory>
    ensures { IfOk result (λ ends. vec_len ends ≡ count) }
{
    let mut ends = Vec::with_capacity(alloc, count)?;
    for _ in 0..count {
        ends.push_reserved(WorkerEnds::new(alloc)?);
    }
    Ok(ends)
}
