//! One run of the program.
ghost use Rattle.std.specs.Prelude.{◌≡◌, None, true, false, IsSome, IfSome};
ghost use Rattle.rtt_top.specs.Lives.{RunsCall, uses_no_link};
ghost use Rattle.rtt_top.specs.Outside.{outside_at, outside_over, output_at};
ghost use Rattle.rtt_top.specs.Runs.{asked_by, is_plain, Runs};
ghost use Rattle.rtt_top.specs.Trials.{RunsLook, tries_no_port};

use crate::check::run_check;
use crate::commands::{carry_out, carry_out_plain};
use crate::messages::finish;
use crate::serve_modes::{ServeMode, serve_file};
use command_spec::Fault;
use link_io::Links;
use rtt_check::Ports;
use rtt_io::{Gate, Sink, World};
use rtt_words::{Command, WordFault, command_of};
use std::alloc::Global;
use std::sync::Wait;
use std::thread::Threads;
use std::time::Clock;

/// Runs a command that needs no thread and no network, and waits for nobody. `words` are the words after the program's name; the
/// answer is the status, or `None` where another command is asked for; then nothing was read or written. Of another command it
/// may tell that memory ran out before the words were told apart, and nothing else.
pub fn run_plain<W: World, K: Sink, E: Sink>(
    alloc: Global,
    words: &[String],
    world: &mut W,
    out: &mut K,
    err: &mut E,
) -> Option<u8>
    ensures plain { is_plain (asked_by words.now) ≡ true → IsSome result }
    ensures others { result ≡ None → is_plain (asked_by words.now) ≡ false }
    ensures only { is_plain (asked_by words.now) ≡ false → IfSome result (λ status. status ≡ 70) }
    ensures untouched { is_plain (asked_by words.now) ≡ false → (world.new ≡ world.old) × (out.new ≡ out.old) }
    ensures runs { IfSome result (Runs (asked_by words.now) W.tells K.tells E.tells
        (outside_at W.World K.Sink world.old out.old) (outside_at W.World K.Sink world.new out.new)
        (output_at E.Sink err.old) (output_at E.Sink err.new)) }
    ensures same { result ≡ None → (world.new ≡ world.old) × (out.new ≡ out.old) × (err.new ≡ err.old) }
{
    match command_of(alloc, words) {
        Ok(command) => carry_out_plain(alloc, &command, world, out, err),
        Err(WordFault::Wrong) => Some(finish(Err(Fault::WrongWords), "", "", err)),
        Err(WordFault::NoMemory) => Some(finish(Err(Fault::NoMemory), "", "", err)),
    }
}

/// Runs one command and answers the program's status. `words` are the words after the program's name. `Runs` has what
/// a run is, a clause a line: by what the words ask for, what lay outside before and lies there after, and the status.
/// `RunsCall` has what a live call is, with a board or without: one that was served to its end, and one that was given up. `RunsLook` has
/// what `check` tells, which alone tries ports, and lets go of all that it had.
pub fn run<
    R: Threads + Wait + Clock + Copy + Send + Sync + 'static,
    W: World,
    L: Links,
    P: Ports,
    K: Sink,
    E: Sink,
    G: Gate + Sync,
>(
    rt: &R,
    alloc: Global,
    words: &[String],
    world: &mut W,
    links: &mut L,
    ports: &mut P,
    out: &mut K,
    err: &mut E,
    gate: &G,
) -> u8
    ensures runs { Runs (asked_by words.now) W.tells K.tells E.tells
        (outside_over W.World K.Sink L.Links world.old out.old links.old)
        (outside_over W.World K.Sink L.Links world.new out.new links.new)
        (output_at E.Sink err.old) (output_at E.Sink err.new) result }
    ensures call { RunsCall (asked_by words.now) W.tells K.tells L.tells
        (outside_over W.World K.Sink L.Links world.old out.old links.old)
        (outside_over W.World K.Sink L.Links world.new out.new links.new) result }
    ensures offline { uses_no_link (asked_by words.now) result ≡ true → links.new ≡ links.old }
    ensures looks { RunsLook (asked_by words.now) W.tells K.tells P.tells (P.answers ports.old) (W.contents world.old)
        (output_at K.Sink out.old) (output_at K.Sink out.new) result }
    ensures untried { tries_no_port (asked_by words.now) ≡ true → ports.new ≡ ports.old }
    ensures let_go { P.kept ports.old ≡ 0 → P.kept ports.new ≡ 0 }
{
    let command = match command_of(alloc, words) {
        Ok(command) => command,
        Err(WordFault::Wrong) => return finish(Err(Fault::WrongWords), "", "", err),
        Err(WordFault::NoMemory) => return finish(Err(Fault::NoMemory), "", "", err),
    };
    match &command {
        Command::Live(call) => {
            let alone = ServeMode::Alone;
            serve_file(alone, rt, alloc, call, world, links, out, err, gate)
        }
        Command::Watch(call) => {
            let watched = ServeMode::Watched;
            serve_file(watched, rt, alloc, call, world, links, out, err, gate)
        }
        Command::Check(words) => run_check(alloc, words, world, ports, out, err),
        _ => carry_out(rt, alloc, &command, world, out, err, gate),
    }
}
