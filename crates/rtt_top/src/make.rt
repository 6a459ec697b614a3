//! `make`: a conference is made from a number and mixed in memory, and a line is printed of it.
ghost use Rattle.std.specs.Prelude.{◌≡◌, ℕ, List, [], IfOk, IfErr};
ghost use Rattle.command_spec.specs.Making.{making};
ghost use Rattle.rtt_words.specs.Words.{Make};
ghost use Rattle.command_spec.specs.Work.{Makes};
ghost use Rattle.rtt_top.specs.Makings.{fault_in_memory, IsWhy};
ghost use Rattle.rtt_top.specs.Across.{EndsAcross, RunsAcross};

use crate::messages::{finish_with, print};
use command_spec::{Fault, Refusal};
use rtt_base::Bytes;
use rtt_io::{Gate, Sink, World};
use rtt_make::{Totals, make_conf, recordings_of, summary_of};
use rtt_mix::{MixFault, mix_held};
use std::alloc::Global;
use std::sync::Wait;
use std::thread::Threads;

/// The fault of a command for that of a mixing in memory of at most so many turns. No recording there has a fault of its
/// own.
fn fault_in_memory(turns: u32, fault: MixFault) -> Fault
    ensures { result ≡ fault_in_memory turns fault }
{
    match fault {
        MixFault::TooLong => Fault::Refused {
            input: 0,
            refusal: Refusal::AfterTurns { turns },
        },
        MixFault::Open { leg: _ } | MixFault::Dump { leg: _, fault: _ } | MixFault::NoMemory => {
            Fault::NoMemory
        }
    }
}

/// The line of the conference of this number, which is mixed in memory.
fn line_of<R: Threads + Wait + Sync, G: Gate + Sync>(
    rt: &R,
    alloc: Global,
    number: u32,
    gate: &G,
) -> Result<Bytes, Fault>
    ensures line { IfOk result (λ line. making number ≡ Makes line []) }
    ensures why { IfErr result (IsWhy (making number)) }
{
    let Ok(made) = make_conf(alloc, number) else {
        return Err(Fault::NoMemory);
    };
    let Ok(inputs) = recordings_of(alloc, &made) else {
        return Err(Fault::NoMemory);
    };
    let mixed = match mix_held(rt, alloc, &made.conference, inputs, gate) {
        Ok(mixed) => mixed,
        Err(fault) => return Err(fault_in_memory(made.conference.turns, fault)),
    };
    let heard = Totals {
        packets: mixed.packets,
        used: mixed.used,
        markers: mixed.markers,
    };
    let Ok(line) = summary_of(alloc, number, &made, heard) else {
        return Err(Fault::NoMemory);
    };
    Ok(line)
}

/// Prints the line of the conference of this number. It reads and makes no file: `world` stands here for the contract
/// alone.
fn make<R: Threads + Wait + Sync, W: World, K: Sink, G: Gate + Sync>(
    rt: &R,
    alloc: Global,
    number: u32,
    world: &W,
    out: &mut K,
    gate: &G,
) -> Result<(), Fault>
    ensures { (name : List ℕ) → EndsAcross W.World K.Sink (Make (record { number = number })) world.now out.old world.now out.new name result }
{
    match line_of(rt, alloc, number, gate) {
        Ok(line) => print(line.as_slice(), out),
        Err(fault) => Err(fault),
    }
}

/// `make`: mixes the conference of a number, and answers the status.
pub fn run_make<R: Threads + Wait + Sync, W: World, K: Sink, E: Sink, G: Gate + Sync>(
    rt: &R,
    alloc: Global,
    number: u32,
    world: &W,
    out: &mut K,
    err: &mut E,
    gate: &G,
) -> u8
    ensures { RunsAcross W.World K.Sink E.Sink
        (Make (record { number = number })) world.now out.old err.old world.now out.new err.new result }
{
    let ending = make(rt, alloc, number, world, out, gate);
    finish_with(ending, "", err)
}
