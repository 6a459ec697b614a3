//! `cascade`: the conference of a file is mixed, of which some legs stand behind another mixer, whose recording is split.
ghost use Rattle.std.specs.Prelude.{◌≡◌};
ghost use Rattle.file_spec.specs.Conferences.{meaning_of};
ghost use Rattle.rtt_words.specs.Words.{Cascade};
ghost use Rattle.rtt_words.specs.Commands.{cascaded};
ghost use Rattle.cascade.specs.Inputs.{input_name};
ghost use Rattle.rtt_top.specs.Conferences.{CascadingEnds, ending_behind, fault_of_cascade, input_behind};
ghost use Rattle.rtt_top.specs.Across.{RunsAcross};

use crate::conferences::{conference_under, name_at_end};
use crate::files::fault_of_dump;
use crate::messages::finish_with;
use crate::mix::make_outputs;
use cascade::{CascadeFault, cascade, input_name, odd_line};
use command_spec::{Fault, Refusal};
use conf_text::Form;
use file_spec::{Conference, LegLine};
use rtt_io::{Gate, Sink, World};
use rtt_words::CascadeWords;
use std::alloc::Global;
use std::sync::Wait;
use std::thread::Threads;

/// The fault of a command for that of a conference behind another mixer, which may have so many turns.
fn fault_of_cascade(turns: u32, fault: CascadeFault) -> Fault
    ensures { result ≡ fault_of_cascade turns fault }
{
    match fault {
        CascadeFault::Open { input } => Fault::CannotOpen { input },
        CascadeFault::Dump { input, fault } => fault_of_dump(input, fault),
        CascadeFault::TooLong => Fault::Refused {
            input: 0,
            refusal: Refusal::AfterTurns { turns },
        },
        CascadeFault::NoMemory => Fault::NoMemory,
    }
}

/// The name of the input of this number: the conference is the first one, then comes the recording, and then each leg that does
/// not stand behind the other mixer has one.
fn input_behind<'a>(conference: &'a str, file: &'a str, legs: &'a [LegLine], input: u32) -> &'a str
    ensures { result.now ≡ input_behind conference.now file.now legs.now input }
{
    if input == 0 {
        return conference;
    }
    input_name(file, legs, input)
}

/// The name of the file that is told of where the work on a conference behind another mixer ends so.
fn name_behind<'a>(
    ending: Result<(), Fault>,
    conference: &'a str,
    file: &'a str,
    legs: &'a [LegLine],
) -> &'a str
    ensures { result.now ≡ ending_behind conference.now file.now legs.now ending }
{
    match ending {
        Err(Fault::CannotOpen { input }) => input_behind(conference, file, legs, input),
        Err(Fault::CannotRead { input }) => input_behind(conference, file, legs, input),
        Err(Fault::Refused { input, .. }) => input_behind(conference, file, legs, input),
        _ => name_at_end(ending, conference, legs),
    }
}

/// Mixes a conference behind a mixer whose recording and SSRC these words name, writes its outputs, and prints what is seen.
fn cascade_conference<R: Threads + Wait + Sync, W: World, K: Sink, G: Gate + Sync>(
    rt: &R,
    alloc: Global,
    words: &CascadeWords<'_>,
    conference: &Conference,
    world: &mut W,
    out: &mut K,
    gate: &G,
) -> Result<(), Fault>
    ensures { CascadingEnds W.World K.Sink world.old out.old world.new out.new words.now.file.now words.now.ssrc (meaning_of conference.now) result }
{
    if let Some(line) = odd_line(conference.legs.as_slice()) {
        return Err(Fault::Refused {
            input: 0,
            refusal: Refusal::AtTrunk { line },
        });
    }
    let mixed = match cascade(rt, alloc, words.file, words.ssrc, conference, world, gate) {
        Ok(mixed) => mixed,
        Err(fault) => return Err(fault_of_cascade(conference.turns, fault)),
    };
    make_outputs(rt, alloc, conference.legs.as_slice(), mixed, world, out)
}

/// `cascade`: mixes the conference of a file behind another mixer, and answers the status.
pub fn run_cascade<R: Threads + Wait + Sync, W: World, K: Sink, E: Sink, G: Gate + Sync>(
    rt: &R,
    alloc: Global,
    words: &CascadeWords<'_>,
    world: &mut W,
    out: &mut K,
    err: &mut E,
    gate: &G,
) -> u8
    ensures { RunsAcross W.World K.Sink E.Sink
        (Cascade (cascaded words.now)) world.old out.old err.old world.new out.new err.new result }
{
    let conference = match conference_under(alloc, words.conference, Form::Files, world) {
        Ok(conference) => conference,
        Err(fault) => return finish_with(Err(fault), words.conference, err),
    };
    let ending = cascade_conference(rt, alloc, words, &conference, world, out, gate);
    let name = name_behind(
        ending,
        words.conference,
        words.file,
        conference.legs.as_slice(),
    );
    finish_with(ending, name, err)
}
