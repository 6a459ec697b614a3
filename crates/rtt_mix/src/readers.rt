//! Who reads the recordings that are mixed.
ghost use Rattle.std.specs.Prelude.{◌≡◌, vec_len};
ghost use Rattle.rtt_mix.specs.Jobs.{CanDo, RanAs};
ghost use Rattle.rtt_mix.specs.Mixings.{CanMix, RanPlain};

use crate::jobs::Task;
use crate::threads::{LegReturn, STACK, mix_running, unmixed};
use file_spec::LegLine;
use leg::LegInlet;
use mix_loop::{InletReturn, MixerCalls, Room, mix_inlets};
use rtt_base::NoMemory;
use rtt_io::{Gate, Source};
use std::alloc::Global;
use std::sync::Wait;
use std::thread::Threads;

/// Who reads the recordings of the legs.
#[derive(Clone, Copy, Debug, PartialEq, Eq)]
pub enum Readers {
    /// Each is read on a thread of its own, or by the caller where a thread can't be started.
    Threads,
    /// The caller reads all. What is short costs less than the start of its thread.
    Caller,
}

/// Mixes what is heard of at most 64 recordings: that of leg `k` is `legs[k]`, and stays as long as `lines[k]` says. Each is read
/// to its end, whatever is answered. Turn `k` is at `k` ticks, of at most 400 milliseconds, and at most `turns` are made, which
/// are at most 5000000. The answer is the same whoever reads them, and for every schedule. All legs come back, also where memory
/// runs out.
pub fn mix_legs<
    S: Source + Send,
    M: MixerCalls<Fault = NoMemory>,
    R: Threads + Wait + Sync,
    G: Gate + Sync,
>(
    rt: &R,
    alloc: Global,
    readers: Readers,
    gate: &G,
    legs: Vec<LegInlet<S>>,
    lines: &[LegLine],
    mixer: M,
    tick: u64,
    turns: u64,
) -> LegReturn<S, M>
    requires { CanMix M.legs M.turns M.horizon legs lines.now mixer tick turns }
    ensures legs { vec_len result.legs ≡ vec_len legs }
    ensures mixed { RanPlain M.stands S.tells S.left S.faults S.name tick turns legs lines.now mixer result }
{
    let task = Task {
        legs,
        lines,
        mixer,
        tick,
        turns,
    };
    match readers {
        Readers::Threads => mix_running(rt, alloc, gate, STACK, task),
        Readers::Caller => mix_here(rt, alloc, task),
    }
}

/// Mixes them on the thread of the caller.
pub(crate) fn mix_here<'l, S: Source, M: MixerCalls<Fault = NoMemory>, R: Wait>(
    rt: &R,
    alloc: Global,
    task: Task<'l, S, M>,
) -> LegReturn<S, M>
    requires { CanDo M.legs M.turns M.horizon task }
    ensures { RanAs M.stands S.tells S.left S.faults S.name task.entry result }
{
    let Ok(room) = Room::new(alloc, task.legs.len()) else {
        return unmixed(task);
    };
    let Task {
        legs,
        lines,
        mut mixer,
        tick,
        turns,
    } = task;
    let InletReturn { mixing, inlets } = mix_inlets(rt, legs, lines, room, &mut mixer, tick, turns);
    LegReturn {
        mixing,
        legs: inlets,
        mixer,
    }
}
