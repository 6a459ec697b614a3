//! A live call runs: each leg on a thread of its own, the turns on the caller's.
ghost use Rattle.std.specs.Prelude.{◌≡◌, ◌≤◌, ◌<◌, ◌^◌, length};
ghost use Rattle.mix_loop.specs.declared.live_turns.LiveTurnsEnd.TheVariants.{Done};
ghost use Rattle.mix_loop.specs.Clocks.{IsPaced, OnlyTimePassed, StandsPaced};
ghost use Rattle.mix_loop.specs.Addresses.{AreWithin, ports_of};
ghost use Rattle.mix_loop.specs.Order.{AreInTurn};
ghost use Rattle.mix_loop.specs.Walks.{AreAt, HaltsThen, IsPaused, WasStopped};
ghost use Rattle.rtt_live.specs.Jobs.{CanRun, LentCanRun, LentRanAs, RanAs, TurnsWere};

use crate::LiveFault;
use link_io::LinkIn;
use live_leg::{LinkItem, LinkLeg};
use mix_loop::{
    Consumer, LivePort, LiveTurnsEnd, MixerCalls, TurnClock, drain_all, live_inlets_of, ports_over,
    take_turns,
};
use rtt_io::Gate;
use std::alloc::Global;
use std::mem::ManuallyDrop;
use std::sync::atomic::{AtomicBool, Ordering};
use std::sync::{Arc, Wait};
use std::thread;
use std::thread::{Scope, Threads};
use workers::{Worker, WorkerRoom, WorkerSet, join_lanes, lend, start_lanes};

/// A leg that runs.
pub(crate) type LinkWorker<L, G> = Worker<LinkItem, LinkLeg<L>, G>;

/// A live call that is to run, with all memory that it needs.
pub(crate) struct CallJob<'w, L: LinkIn, M, C, G: Gate> {
    pub(crate) legs: Vec<LinkLeg<L>>,
    pub(crate) lanes: WorkerRoom<LinkItem, LinkLeg<L>, G>,
    pub(crate) ports: Vec<LivePort<LinkWorker<L, G>>>,
    pub(crate) joined: Vec<LinkWorker<L, G>>,
    pub(crate) mixer: M,
    /// Says that the legs are to stop.
    pub(crate) stop: Arc<AtomicBool, Global>,
    /// The links, for the clock alone.
    pub(crate) clock: &'w mut C,
    pub(crate) tick: u64,
    pub(crate) turns: u64,
}

/// How its turns ended, with all that was lent to it.
pub(crate) struct JobReturn<'w, L, M, C> {
    pub(crate) turned: LiveTurnsEnd<LiveFault>,
    pub(crate) legs: Vec<LinkLeg<L>>,
    pub(crate) mixer: M,
    pub(crate) clock: &'w mut C,
}

/// Makes the turns; then the legs are told to stop, and what they still give is let go.
fn turn_and_stop<
    I: Consumer,
    M: MixerCalls<Fault = LiveFault, Clock = C::Clock>,
    C: TurnClock,
    R: Wait,
>(
    rt: &R,
    ports: &mut [LivePort<I>],
    mixer: &mut M,
    clock: &mut C,
    stop: &AtomicBool,
    tick: u64,
    turns: u64,
) -> LiveTurnsEnd<LiveFault>
    requires at { AreAt ports.old }
    requires legs { M.legs mixer.old ≡ length ports.old }
    requires none { M.turns mixer.old ≡ 0 }
    requires turns { turns ≤ 5000000 }
    requires tick { 0 < tick }
    requires short { tick ≤ 400 }
    requires horizon { 2 ^ 47 ≤ M.horizon }
    requires given { AreWithin (C.pauses clock.old) (M.addresses mixer.old) }
    ensures were { TurnsWere I.popped I.began M.stands
        (StandsPaced C.tells tick (C.moment clock.old) (C.moment clock.new) (AreInTurn M.stands M.addresses (C.pauses clock.old)) M.stands)
        (StandsPaced C.tells tick (C.moment clock.old) (C.moment clock.new) (AreInTurn M.stands M.addresses (C.pauses clock.old)) (HaltsThen M.halted))
        turns result ports.old ports.new mixer.old mixer.new }
    ensures addresses { ports_of (M.addresses mixer.new) ≡ ports_of (M.addresses mixer.old) }
    ensures unsent { WasStopped M.unsent result mixer.new }
    ensures pauses { result ≡ Done → IsPaused turns (C.pauses clock.old) (C.pauses clock.new) }
    ensures paced { C.tells → result ≡ Done → IsPaced turns tick (C.moment clock.old) (C.moment clock.new) }
    ensures passed { OnlyTimePassed C.TurnClock clock.old clock.new }
{
    let turned = take_turns(rt, ports, mixer, clock, tick, turns);
    stop.store(true, Ordering::SeqCst);
    drain_all(rt, ports);
    turned
}

/// Runs a call, whose legs run on threads of this scope.
fn run_in<
    's,
    'e,
    'w,
    L: LinkIn + Send + 's,
    M: MixerCalls<Fault = LiveFault, Clock = C::Clock>,
    C: TurnClock,
    R: Threads + Wait + Sync,
    G: Gate + Copy + Send + 's,
>(
    scope: &'s Scope<'s, &'e ()>,
    rt: &'s R,
    gate: G,
    stack: usize,
    job: CallJob<'w, L, M, C, G>,
) -> JobReturn<'w, L, M, C>
    requires { CanRun L.LinkIn C.TurnClock M.legs M.turns M.addresses M.horizon job }
    ensures { RanAs L.LinkIn C.TurnClock M.stands M.halted M.addresses M.unsent job.entry result }
{
    let CallJob {
        legs,
        lanes,
        ports,
        joined,
        mut mixer,
        stop,
        clock,
        tick,
        turns,
    } = job;
    let WorkerSet { lanes, back } = start_lanes(scope, rt, gate, stack, legs, lanes);
    let mut ports = ports_over(lanes, ports);
    let turned = turn_and_stop(
        rt,
        ports.as_mut_slice(),
        &mut mixer,
        clock,
        &stop,
        tick,
        turns,
    );
    let lanes = live_inlets_of(ports, joined);
    let legs = join_lanes(rt, lanes, back);
    JobReturn {
        turned,
        legs,
        mixer,
        clock,
    }
}

/// The same of one that is lent.
fn run_lent_in<
    's,
    'e,
    'w,
    L: LinkIn + Send + 's,
    M: MixerCalls<Fault = LiveFault, Clock = C::Clock>,
    C: TurnClock,
    R: Threads + Wait + Sync,
    G: Gate + Copy + Send + 's,
>(
    scope: &'s Scope<'s, &'e ()>,
    rt: &'s R,
    gate: G,
    stack: usize,
    lent: ManuallyDrop<CallJob<'w, L, M, C, G>>,
) -> JobReturn<'w, L, M, C>
    requires { LentCanRun L.LinkIn C.TurnClock M.legs M.turns M.addresses M.horizon lent }
    ensures { LentRanAs L.LinkIn C.TurnClock M.stands M.halted M.addresses M.unsent lent.entry result }
{
    let job = ManuallyDrop::into_inner(lent);
    run_in(scope, rt, gate, stack, job)
}

/// The same in a scope of its own.
fn run_scope<
    'w,
    L: LinkIn + Send,
    M: MixerCalls<Fault = LiveFault, Clock = C::Clock>,
    C: TurnClock,
    R: Threads + Wait + Sync,
    G: Gate + Copy + Send,
>(
    rt: &R,
    gate: G,
    stack: usize,
    lent: ManuallyDrop<CallJob<'w, L, M, C, G>>,
) -> JobReturn<'w, L, M, C>
    requires { LentCanRun L.LinkIn C.TurnClock M.legs M.turns M.addresses M.horizon lent }
    ensures { LentRanAs L.LinkIn C.TurnClock M.stands M.halted M.addresses M.unsent lent.entry result }
{
    thread::scope(
        thread::scope_env(),
        rt,
        |scope| -> JobReturn<L, M, C>
            requires { LentCanRun L.LinkIn C.TurnClock M.legs M.turns M.addresses M.horizon lent }
            ensures { LentRanAs L.LinkIn C.TurnClock M.stands M.halted M.addresses M.unsent lent.entry result }
        { run_lent_in(scope, rt, gate, stack, lent) },
    )
}

/// Runs a call, whose legs run on threads of so many octets of stack.
pub(crate) fn run_job<
    'w,
    L: LinkIn + Send,
    M: MixerCalls<Fault = LiveFault, Clock = C::Clock>,
    C: TurnClock,
    R: Threads + Wait + Sync,
    G: Gate + Copy + Send,
>(rt: &R, gate: G, stack: usize, job: CallJob<'w, L, M, C, G>) -> JobReturn<'w, L, M, C>
    requires { CanRun L.LinkIn C.TurnClock M.legs M.turns M.addresses M.horizon job }
    ensures same_reference { result.clock.ghost_name ≡ job.entry.clock.ghost_name }
    ensures ran { RanAs L.LinkIn C.TurnClock M.stands M.halted M.addresses M.unsent job.entry result }
{
    // Taken back first of all in `run_lent_in`, which the scope calls once.
    let lent = unsafe { lend(job) };
    run_scope(rt, gate, stack, lent)
}
