//! What runs, and the end of its queue at which its items are popped.
ghost use Rattle.std.specs.Arc.{arc_value};
ghost use Rattle.std.proofs.Props.{props};
ghost use Rattle.workers.specs.Passes.{IsPopOf};
ghost use Rattle.workers.specs.Runners.{IsRunnerOf, IsRunnerOf-prop};

use crate::producers::GatedProducer;
use crate::{Feed, ItemQueue, PopPass, Producer};
use rtt_io::Gate;
use std::alloc::Global;
use std::mem::ManuallyDrop;
use std::snapshot::Snapshot;
use std::sync::Arc;
use std::sync::atomic::AtomicBool;
use std::thread::{Promise, PromisedHandle};

/// What a thread and who pops share: the queue, and a word by which the thread gives back what runs.
#[derive(Drop)]
pub(crate) struct SharedQueue<Q: Drop> {
    pub(crate) queue: ItemQueue<Q>,
    pub(crate) alone: AtomicBool,
}

/// What a thread promises of the feed that it gives back: its end is still one of the queue, and whatever the feed `was` began
/// with, it stands for.
pub(crate) struct KeepsAll<Q: Drop, F> {
    pub(crate) was: Snapshot<Feed<Q, F>>,
    pub(crate) of: Snapshot<ItemQueue<Q>>,
}

impl<Q: Drop, F> Drop for KeepsAll<Q, F> {
    fn drop(self) {
        let KeepsAll { was: _, of: _ } = self;
    }
}

impl<Q: Drop, F: Producer<Q>> Promise<ManuallyDrop<Feed<Q, F>>> for KeepsAll<Q, F> {
    ghost use Rattle.std.specs.Mem.{manually_drop_value};
    ghost use Rattle.workers.specs.Lent.{FeedKept};

    ghost kept_by = { λ p r. FeedKept F.stands p.of.value p.was.value (manually_drop_value r) };
}

/// What runs: on a thread, or, where none could be started, step by step at who pops.
pub(crate) enum Runner<Q: Drop, F: Producer<Q>> {
    There(PromisedHandle<ManuallyDrop<Feed<Q, F>>, KeepsAll<Q, F>>),
    Here(Feed<Q, F>),
}

/// What runs, and the end of its queue at which its items are popped.
pub struct Worker<Q: Drop, F: Producer<Q>, G: Gate> {
    pub(crate) shared: Arc<SharedQueue<Q>, Global>,
    pub(crate) pop: PopPass<Q>,
    pub(crate) runner: Runner<Q, GatedProducer<F, G>>,
    pub(crate) gate: G,
    /// By which number the gate knows it.
    pub(crate) number: u32,
    ghost popped: { IsPopOf (arc_value shared).queue pop },
    ghost runs: { IsRunnerOf (arc_value shared).queue runner } by { IsRunnerOf-prop (arc_value shared).queue runner (λ p. Prim.hlevel props) },
}
