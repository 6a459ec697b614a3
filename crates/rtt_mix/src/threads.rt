//! Plain mixing of recordings, with each leg on a thread of its own.
ghost use Rattle.rtt_mix.specs.Jobs.{CanDo, CanRun, LentCanRun, LentRanAs, RanAs};

use crate::jobs::{MixJob, Task};
use leg::LegInlet;
use mix_loop::{InletReturn, MixEnd, MixerCalls, Room, mix_inlets};
use rtpdump_io::DumpFault;
use rtt_base::NoMemory;
use rtt_io::{Gate, Source};
use std::alloc::Global;
use std::mem::ManuallyDrop;
use std::sync::Wait;
use std::thread;
use std::thread::{Scope, Threads};
use workers::{LentGate, WorkerRoom, WorkerSet, join_lanes, lend, start_lanes};

/// How a mixing ended, with all that was lent to it.
#[derive(Drop)]
pub struct LegReturn<S, M> {
    pub mixing: MixEnd<DumpFault, NoMemory>,
    pub legs: Vec<LegInlet<S>>,
    pub mixer: M,
}

/// Mixes what the legs of a job give, which run on threads of this scope.
fn run_in<
    's,
    'e,
    'l,
    S: Source + Send + 's,
    M: MixerCalls<Fault = NoMemory>,
    R: Threads + Wait + Sync,
    G: Gate + Copy + Send + 's,
>(
    scope: &'s Scope<'s, &'e ()>,
    rt: &'s R,
    gate: G,
    stack: usize,
    job: MixJob<'l, S, M, G>,
) -> LegReturn<S, M>
    requires { CanRun M.legs M.turns M.horizon job }
    ensures { RanAs M.stands S.tells S.left S.faults S.name job.entry.task result }
{
    let MixJob {
        task: Task {
            legs,
            lines,
            mut mixer,
            tick,
            turns,
        },
        lanes,
        room,
    } = job;
    let WorkerSet { lanes, back } = start_lanes(scope, rt, gate, stack, legs, lanes);
    let InletReturn { mixing, inlets } = mix_inlets(
        rt, lanes, lines, room, &mut mixer, tick, turns,
    );
    let legs = join_lanes(rt, inlets, back);
    LegReturn {
        mixing,
        legs,
        mixer,
    }
}

/// The same of a job that is lent, in a scope of its own.
fn run_scope<
    'l,
    S: Source + Send,
    M: MixerCalls<Fault = NoMemory>,
    R: Threads + Wait + Sync,
    G: Gate + Copy + Send,
>(rt: &R, gate: G, stack: usize, lent: ManuallyDrop<MixJob<'l, S, M, G>>) -> LegReturn<S, M>
    requires { LentCanRun M.legs M.turns M.horizon lent }
    ensures { LentRanAs M.stands S.tells S.left S.faults S.name lent.entry result }
{
    thread::scope(
        thread::scope_env(),
        rt,
        |scope| -> LegReturn<S, M>
            requires { LentCanRun M.legs M.turns M.horizon lent }
            ensures { LentRanAs M.stands S.tells S.left S.faults S.name lent.entry result }
        {
            let job = ManuallyDrop::into_inner(lent);
            run_in(scope, rt, gate, stack, job)
        },
    )
}

/// Mixes what the legs of a job give, which run on threads of so many octets of stack.
fn run_job<
    'l,
    S: Source + Send,
    M: MixerCalls<Fault = NoMemory>,
    R: Threads + Wait + Sync,
    G: Gate + Copy + Send,
>(rt: &R, gate: G, stack: usize, job: MixJob<'l, S, M, G>) -> LegReturn<S, M>
    requires { CanRun M.legs M.turns M.horizon job }
    ensures { RanAs M.stands S.tells S.left S.faults S.name job.entry.task result }
{
    // Taken back first of all in the scope of `run_scope`, which is entered once.
    let lent = unsafe { lend(job) };
    run_scope(rt, gate, stack, lent)
}

/// The answer where memory runs out before anything is mixed.
pub(crate) fn unmixed<'l, S: Source, M: MixerCalls<Fault = NoMemory>>(
    task: Task<'l, S, M>,
) -> LegReturn<S, M>
    ensures { RanAs M.stands S.tells S.left S.faults S.name task.entry result }
{
    let Task {
        legs,
        lines: _,
        mixer,
        tick: _,
        turns: _,
    } = task;
    LegReturn {
        mixing: MixEnd::Stopped(NoMemory),
        legs,
        mixer,
    }
}

/// How many octets of stack a leg's thread has.
pub(crate) const STACK: usize = 2_097_152;

/// Mixes them, each on a thread of its own; a leg whose thread can't be started is read by the caller.
pub(crate) fn mix_running<
    'l,
    S: Source + Send,
    M: MixerCalls<Fault = NoMemory>,
    R: Threads + Wait + Sync,
    G: Gate + Sync,
>(rt: &R, alloc: Global, gate: &G, stack: usize, task: Task<'l, S, M>) -> LegReturn<S, M>
    requires { CanDo M.legs M.turns M.horizon task }
    ensures { RanAs M.stands S.tells S.left S.faults S.name task.entry result }
{
    let Ok(lanes) = WorkerRoom::new(alloc, task.legs.len()) else {
        return unmixed(task);
    };
    let Ok(room) = Room::new(alloc, task.legs.len()) else {
        lanes.discard();
        return unmixed(task);
    };
    let job = MixJob { task, lanes, room };
    run_job(rt, LentGate { gate }, stack, job)
}
