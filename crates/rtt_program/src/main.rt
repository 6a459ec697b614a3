//! The program: its words go to `run`, over the files of the system, its network, on which terminals leave by RTCP or without a word, an
//! operator is heard and what comes and goes is recorded, and its standard streams.
#![tactic(auto)]

mod calls;
#[cfg(test)]
mod failures;
#[cfg(test)]
mod gate_tests;
#[cfg(test)]
mod plays;
#[cfg(test)]
mod port_tests;

ghost use Rattle.std.specs.Prelude.{◌≡◌, ◌≢◌, ◌++◌, true, None, Ok, drop, length, codes, string_bytes, IfOk, IfSome, IsSome, OnErr};
ghost use Rattle.std.specs.Process.{exit_status};
ghost use Rattle.recorded_links.specs.Begun.{recordings_of};
ghost use Rattle.report_spec.specs.Told.{told_name};
ghost use Rattle.command_spec.specs.Messages.{trouble};
ghost use Rattle.rtt_io.specs.Counts.{Rose};
ghost use Rattle.rtt_top.specs.Lives.{RunsCall, uses_no_link};
ghost use Rattle.rtt_top.specs.Outside.{outside_over, output_at};
ghost use Rattle.rtt_top.specs.Runs.{asked_by, Runs};
ghost use Rattle.rtt_top.specs.Trials.{RunsLook, tries_no_port};

use call_links::{LeavingLinks, OperatedLinks, Operator, OperatorPort, Silence};
use calls::{CallFault, CallService, service_of};
use command_spec::Fault;
use link_io::{Links, RealLinks};
use recorded_links::{Call, CallRecording, Journals, LinksReturn, RealJournals, RecordedLinks};
use rtt_base::NoMemory;
use rtt_check::{Ports, RealPorts};
use rtt_io::{RealWorld, Sink, StandardError, StandardOutput, StillGate, World};
use rtt_top::{finish_with, run};
use std::alloc::{AllocError, Global};
use std::env;
use std::io::ErrorKind;
use std::marker::Brand;
use std::process::ExitCode;
use std::sync::Wait;
use std::thread::Threads;
use std::time::Clock;

/// All words, of which the first is the program's name. Words that are not UTF-8 count as no words.
fn all_words(rt: &HostRuntime) -> Result<Vec<String>, AllocError> {
    let mut words = Vec::new(rt.alloc());
    let all = match env::args(rt) {
        Ok(all) => all,
        Err(error) if error.kind() == ErrorKind::OutOfMemory => return Err(AllocError),
        Err(_) => return Ok(words),
    };
    for word in all {
        words.push(word)?;
    }
    Ok(words)
}

/// The words after the program's name.
fn after_name(words: &[String]) -> &[String]
    ensures { result.now ≡ drop 1 words.now }
{
    match words {
        [] => &[],
        [_, more @ ..] => more,
    }
}

/// The status where memory ran out before the words were read, which is told.
fn no_memory<E: Sink>(err: &mut E) -> u8
    ensures status { result ≡ 70 }
    ensures told { E.tells → (Rose (E.faults err.old) (E.faults err.new) → ⊥) → E.took err.new ≡ E.took err.old ++ codes "out of memory\n" }
{
    let _ = err.write_all(b"out of memory\n");
    70
}

/// The status where the output is closed before a call begins, which is told.
fn unprinted<E: Sink>(err: &mut E) -> u8
    ensures status { result ≡ 7 }
    ensures told { E.tells → (Rose (E.faults err.old) (E.faults err.new) → ⊥) → E.took err.new ≡ E.took err.old ++ codes "cannot write the output\n" }
{
    finish_with(Err(Fault::CannotPrint), "", err)
}

/// The status where a recording of this name could not be written, which is told.
fn unwritten<E: Sink>(name: &str, err: &mut E) -> u8
    ensures status { result ≡ 7 }
    ensures told { E.tells → (Rose (E.faults err.old) (E.faults err.new) → ⊥) → E.took err.new ≡ E.took err.old ++ trouble (codes "cannot write ") (told_name name.now) }
{
    finish_with(Err(Fault::CannotWrite { output: 0 }), name, err)
}

/// The program's exit with a status.
fn exit_with(status: u8) -> ExitCode
    ensures { exit_status result ≡ status }
{
    ExitCode::from(status)
}

/// The program over this world, these links, ports and outputs. `words` are all words, of which the first is the program's name; where
/// memory ran out before they were read there are none.
fn program<
    R: Threads + Wait + Clock + Copy + Send + Sync + 'static,
    W: World,
    L: Links,
    P: Ports,
    K: Sink,
    E: Sink,
>(
    rt: &R,
    alloc: Global,
    words: Result<Vec<String>, AllocError>,
    world: &mut W,
    links: &mut L,
    ports: &mut P,
    out: &mut K,
    err: &mut E,
) -> ExitCode
    ensures runs { IfOk words (λ all. Runs (asked_by (drop 1 all.items)) W.tells K.tells E.tells
        (outside_over W.World K.Sink L.Links world.old out.old links.old) (outside_over W.World K.Sink L.Links world.new out.new links.new)
        (output_at E.Sink err.old) (output_at E.Sink err.new) (exit_status result)) }
    ensures call { IfOk words (λ all. RunsCall (asked_by (drop 1 all.items)) W.tells K.tells L.tells
        (outside_over W.World K.Sink L.Links world.old out.old links.old) (outside_over W.World K.Sink L.Links world.new out.new links.new)
        (exit_status result)) }
    ensures offline { IfOk words (λ all.
        uses_no_link (asked_by (drop 1 all.items)) (exit_status result) ≡ true → links.new ≡ links.old) }
    ensures looks { IfOk words (λ all. RunsLook (asked_by (drop 1 all.items)) W.tells K.tells P.tells (P.answers ports.old) (W.contents world.old)
        (output_at K.Sink out.old) (output_at K.Sink out.new) (exit_status result)) }
    ensures untried { IfOk words (λ all. tries_no_port (asked_by (drop 1 all.items)) ≡ true → ports.new ≡ ports.old) }
    ensures let_go { P.kept ports.old ≡ 0 → P.kept ports.new ≡ 0 }
    ensures no_memory { OnErr words (exit_status result ≡ 70) }
    ensures same { OnErr words ((world.new ≡ world.old) × (links.new ≡ links.old) × (ports.new ≡ ports.old) × (out.new ≡ out.old)) }
    ensures told { E.tells → OnErr words ((Rose (E.faults err.old) (E.faults err.new) → ⊥) → E.took err.new ≡ E.took err.old ++ codes "out of memory\n") }
{
    let Ok(all) = words else {
        return exit_with(no_memory(err));
    };
    let words = after_name(all.as_slice());
    let status = run(rt, alloc, words, world, links, ports, out, err, &StillGate);
    exit_with(status)
}

/// The exit of a program whose call's recordings ended so: where one could not be written, 7 in place of 0, which is told.
fn recorded_exit<E: Sink>(
    exit: ExitCode,
    failed: Result<Option<String>, NoMemory>,
    err: &mut E,
) -> ExitCode
    ensures stays { exit_status exit ≢ 0 → (result ≡ exit) × (err.new ≡ err.old) }
    ensures whole { failed ≡ Ok None → (result ≡ exit) × (err.new ≡ err.old) }
    ensures unwritten { exit_status exit ≡ 0 → IfOk failed (λ name. IsSome name → exit_status result ≡ 7) }
    ensures told { E.tells → exit_status exit ≡ 0 → IfOk failed (λ name. IfSome name (λ n. (Rose (E.faults err.old) (E.faults err.new) → ⊥) →
        E.took err.new ≡ E.took err.old ++ trouble (codes "cannot write ") (told_name (string_bytes n)))) }
{
    if exit != ExitCode::SUCCESS {
        return exit;
    }
    match failed {
        Ok(None) => exit,
        Ok(Some(name)) => exit_with(unwritten(name.as_str(), err)),
        Err(NoMemory) => exit_with(no_memory(err)),
    }
}

/// The exit where no command is begun, which is told.
fn unbegun<E: Sink>(fault: CallFault, err: &mut E) -> ExitCode {
    match fault {
        CallFault::NoMemory => exit_with(no_memory(err)),
        CallFault::Unprinted => exit_with(unprinted(err)),
        CallFault::Unwritten(name) => exit_with(unwritten(name.as_str(), err)),
    }
}

/// The program over links that are recorded, that terminals leave by RTCP, or without a word where they are silent so long
/// (milliseconds), and of whose call an operator may ask.
fn program_over<
    S: Silence + Send,
    C: Call + Send + 'static,
    R: Threads + Wait + Clock + Copy + Drop + Send + Sync + 'static,
    W: World,
    L: Links + Drop,
    J: Journals + Drop + Send + 'static,
    P: OperatorPort,
    T: Ports,
    K: Sink,
    E: Sink,
>(
    rt: &R,
    alloc: Global,
    words: Result<Vec<String>, AllocError>,
    gone: Option<u32>,
    operator: Operator<P>,
    world: &mut W,
    links: L,
    recording: CallRecording<J, R>,
    ports: &mut T,
    out: &mut K,
    err: &mut E,
) -> ExitCode
where
    J::File: 'static,
    requires gone { gone ≡ S.longest }
    requires recordings { C.recordings ≡ recordings_of recording }
    requires before { C.before ≡ length (L.leads links) }
{
    let recorded: RecordedLinks<L, J, R, C> = match RecordedLinks::open(recording, links) {
        Ok(recorded) => recorded,
        Err(fault) => return unbegun(CallFault::from(fault), err),
    };
    let leaving: LeavingLinks<RecordedLinks<L, J, R, C>, S> = LeavingLinks::new(recorded, gone);
    let mut links = OperatedLinks::new(leaving, operator);
    let exit = program(rt, alloc, words, world, &mut links, ports, out, err);
    let LinksReturn {
        links: _,
        journals: _,
        failed,
    } = links.into_links().into_links().finish();
    recorded_exit(exit, failed, err)
}

/// The same, for whichever silence is said, and whichever recordings are begun.
fn program_for<
    R: Threads + Wait + Clock + Copy + Drop + Send + Sync + 'static,
    W: World,
    L: Links + Drop,
    J: Journals + Drop + Send + 'static,
    P: OperatorPort,
    T: Ports,
    K: Sink,
    E: Sink,
>(
    rt: &R,
    alloc: Global,
    words: Result<Vec<String>, AllocError>,
    gone: Option<u32>,
    operator: Operator<P>,
    world: &mut W,
    links: L,
    recording: CallRecording<J, R>,
    ports: &mut T,
    out: &mut K,
    err: &mut E,
) -> ExitCode
where
    J::File: 'static,
{
    program_over::<Brand, Brand, R, W, L, J, P, T, K, E>(
        rt, alloc, words, gone, operator, world, links, recording, ports, out, err,
    )
}

fn main(rt: HostRuntime) -> ExitCode {
    let mut world = RealWorld::new(&rt, rt.alloc());
    let mut out = StandardOutput::new(rt.stdout());
    let mut err = StandardError::new(rt.stderr());
    let links = RealLinks::new(rt, rt.alloc());
    let journals = RealJournals::new(rt, rt.alloc());
    let words = all_words(&rt);
    let asked = match &words {
        Ok(all) => service_of(
            rt,
            rt.alloc(),
            after_name(all.as_slice()),
            &mut world,
            links,
            journals,
            &mut rt.stdout(),
        ),
        Err(AllocError) => Err(CallFault::NoMemory),
    };
    let CallService {
        gone,
        operator,
        links,
        recording,
    } = match asked {
        Ok(service) => service,
        Err(fault) => return unbegun(fault, &mut err),
    };
    let mut ports = RealPorts::new(&rt, rt.alloc());
    program_for(
        &rt,
        rt.alloc(),
        words,
        gone,
        operator,
        &mut world,
        links,
        recording,
        &mut ports,
        &mut out,
        &mut err,
    )
}
