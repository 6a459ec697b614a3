//! What runs is started, and comes back.
ghost use Rattle.std.specs.Prelude.{◌≡◌, []};
ghost use Rattle.std.specs.Arc.{arc_value};
ghost use Rattle.std.specs.Mem.{manually_drop_value};
ghost use Rattle.workers.specs.Passes.{IsPushOf};
ghost use Rattle.workers.specs.Lent.{LentFollows, LentKept};
ghost use Rattle.workers.specs.Runners.{FeedReturns, FeedRuns, IsRunnerOf};
ghost use Rattle.workers.specs.Lanes.{ComesBack, IsStarted};

use crate::ends::WorkerEnds;
use crate::lanes::{KeepsAll, Runner, SharedQueue, Worker};
use crate::loans::lend;
use crate::producers::GatedProducer;
use crate::{Feed, ItemQueue, Producer, run_feed};
use core::thread::Stack;
use rtt_io::Gate;
use std::alloc::Global;
use std::mem::ManuallyDrop;
use std::snapshot::Snapshot;
use std::sync::atomic::Ordering;
use std::sync::{Arc, Wait};
use std::thread::{Scope, Threads};

/// Steps a feed that is lent until its last item was pushed, or the caller wants it back.
fn run_lent<Q: Drop, F: Producer<Q>, R: Wait>(
    rt: &R,
    lent: ManuallyDrop<Feed<Q, F>>,
    shared: &SharedQueue<Q>,
) -> ManuallyDrop<Feed<Q, F>>
    requires { IsPushOf shared.now.queue (manually_drop_value lent).pass }
    ensures queue { IsPushOf shared.now.queue (manually_drop_value result).pass }
    ensures follows { LentFollows F.stands lent result }
{
    let feed = ManuallyDrop::into_inner(lent);
    let back = run_feed(rt, feed, &shared.queue, &shared.alone);
    // Taken back by `join_runner`, or by `start_feed` where no thread runs it; each lane is joined.
    unsafe { lend(back) }
}

/// Starts a feed on a thread of this stack, or has it back where the start is refused.
fn start_feed<'s, 'e, Q: Drop + Send + 's, F: Producer<Q> + Send + 's, R: Wait + Sync>(
    scope: &'s Scope<'s, &'e ()>,
    rt: &'s R,
    stack: Stack,
    feed: Feed<Q, F>,
    ours: &SharedQueue<Q>,
    theirs: Arc<SharedQueue<Q>, Global>,
) -> Runner<Q, F>
    requires same { arc_value theirs ≡ ours.now }
    requires push { IsPushOf ours.now.queue feed.pass }
    ensures runs { IsRunnerOf ours.now.queue result }
    ensures stands { FeedRuns F.stands feed result }
{
    let promise = KeepsAll {
        was: Snapshot::of(&feed),
        of: Snapshot::of(&ours.queue),
    };
    // Taken back first of all in `run_lent`: by the thread, or below where no thread starts.
    let lent = unsafe { lend(feed) };
    match stack.spawn_scoped_with(
        scope,
        promise,
        move || -> ManuallyDrop<Feed<Q, F>>
            requires { IsPushOf (arc_value theirs).queue (manually_drop_value lent).pass }
            ensures { LentKept F.stands (arc_value theirs).queue lent result }
        { run_lent(rt, lent, &theirs) },
    ) {
        Ok(handle) => Runner::There(handle),
        Err(refused) => {
            ours.alone.store(true, Ordering::SeqCst);
            Runner::Here(ManuallyDrop::into_inner((refused.value)()))
        }
    }
}

/// Starts what gives items, on a thread of this stack. The gate knows it by this number.
pub(crate) fn start_lane<
    's,
    'e,
    Q: Drop + Send + 's,
    F: Producer<Q> + Send + 's,
    R: Wait + Sync,
    G: Gate + Copy + Send + 's,
>(
    scope: &'s Scope<'s, &'e ()>,
    rt: &'s R,
    gate: G,
    stack: Stack,
    gives: F,
    number: u32,
    ends: WorkerEnds<Q>,
) -> Worker<Q, F, G>
    requires { F.stands gives gives [] }
    ensures { IsStarted F.stands gives result }
{
    let WorkerEnds {
        ours,
        theirs,
        push,
        pop,
    } = ends;
    let gated = GatedProducer {
        gives,
        gate,
        number,
    };
    let feed = Feed::new(gated, push);
    let runner = start_feed(scope, rt, stack, feed, &ours, theirs);
    Worker {
        shared: ours,
        pop,
        runner,
        gate,
        number,
    }
}

/// Joins what runs, and has its feed.
fn join_runner<Q: Drop, F: Producer<Q>, R: Threads>(
    runner: Runner<Q, F>,
    rt: &R,
    _queue: &ItemQueue<Q>,
) -> Feed<Q, F>
    requires { IsRunnerOf _queue.now runner }
    ensures push { IsPushOf _queue.now result.pass }
    ensures stands { FeedReturns F.stands runner result }
{
    match runner {
        Runner::There(handle) => ManuallyDrop::into_inner(handle.join(rt)),
        Runner::Here(feed) => feed,
    }
}

impl<Q: Drop, F: Producer<Q>, G: Gate + Copy> Worker<Q, F, G> {
    /// Joins what runs, and has it back. What was popped is the first of what it gave.
    pub(crate) fn close<R: Threads>(self, rt: &R) -> F
        ensures { ComesBack F.stands self result }
    {
        let Worker {
            shared,
            pop,
            runner,
            gate: _,
            number: _,
        } = self;
        let feed = join_runner(runner, rt, &shared.queue);
        let gated = feed.close(&shared.queue, pop);
        let GatedProducer {
            gives,
            gate: _,
            number: _,
        } = gated;
        gives
    }
}
