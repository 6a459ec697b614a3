//! `mix`: a conference is mixed, its outputs are written, and what is seen is printed.
ghost use Rattle.std.specs.Prelude.{◌≡◌, ◌<◌, ◌≤◌, [], ◌∷◌, ◌++◌, length, vec_len, OnOk, IfOk, IfErr, IfSome};
ghost use Rattle.rtt_io.specs.Names.{NoneFalls};
ghost use Rattle.file_spec.specs.Conferences.{meaning_of};
ghost use Rattle.sent_log.specs.Files.{recording_at, recordings_of};
ghost use Rattle.sent_log.specs.States.{AreLawful};
ghost use Rattle.rtt_top.specs.Conferences.{MixingEnds, MixingEndsWith, OutputsEnd, fault_of_mixing};
ghost use Rattle.rtt_top.specs.Parts.{EachTook, HaveTaken, IsAllOrNone, TakesPart};
ghost use Rattle.rtt_top.specs.Worlds.{SavesEach, IsUnwrittenIn};
ghost use Rattle.file_spec.specs.declared.limits.TheConstants.{MOST_LEGS};

use crate::files::{fault_of_dump, save_leg};
use crate::messages::print_views;
use command_spec::{Fault, Refusal};
use file_spec::{Conference, LegLine};
use rtt_attend::count_inputs;
use rtt_base::{Bytes, NoMemory};
use rtt_io::{Gate, Sink, World};
use rtt_mix::{MixFault, Mixed, Piece, mix};
use sent_log::{SentFiles, SentLog, write_alone};
use std::alloc::Global;
use std::sync::Wait;
use std::thread;
use std::thread::Threads;

/// The fault of a command for that of a mixing of at most so many turns.
pub(crate) fn fault_of_mixing(turns: u32, fault: MixFault) -> Fault
    ensures { result ≡ fault_of_mixing turns fault }
{
    match fault {
        MixFault::Open { leg } => Fault::CannotOpen {
            input: u32::from(leg) + 1,
        },
        MixFault::Dump { leg, fault } => fault_of_dump(u32::from(leg) + 1, fault),
        MixFault::TooLong => Fault::Refused {
            input: 0,
            refusal: Refusal::AfterTurns { turns },
        },
        MixFault::NoMemory => Fault::NoMemory,
    }
}

/// The recording of what was sent to the terminal of this number, beside the name of its output.
fn part_of<W: World>(
    alloc: Global,
    legs: &[LegLine],
    log: &SentLog,
    world: &W,
    number: usize,
) -> Option<W::Part>
    requires as_many { length legs.now ≡ length log.now }
    requires lawful { AreLawful log.now }
    requires number { number < length legs.now }
    ensures { W.tells → IfSome result (λ part. W.Part.took part ≡ recording_at log.now number) }
{
    let Some(mut part) = world.part(legs[number].output.as_str()) else {
        return None;
    };
    let written = write_alone(alloc, log, number, &mut part);
    if written.is_err() {
        return None;
    }
    Some(part)
}

/// These recordings, written beside one another. One that could not be written is missing.
fn parts_there<R: Threads + Sync, W: World>(
    rt: &R,
    alloc: Global,
    legs: &[LegLine],
    log: &SentLog,
    world: &W,
) -> Result<Vec<Option<W::Part>>, NoMemory>
    requires as_many { length legs.now ≡ length log.now }
    requires lawful { AreLawful log.now }
    ensures count { IfOk result (λ parts. vec_len parts ≡ length legs.now) }
    ensures parts { W.tells → IfOk result (λ parts. EachTook W.Part.took log.now (length legs.now) parts.items) }
{
    match thread::map_indices(
        rt,
        alloc,
        legs.len(),
        &|number|
            requires { (length legs.now ≡ length log.now) × AreLawful log.now × (number < length legs.now) }
        { part_of(alloc, legs, log, world, number) },
    ) {
        Ok(parts) => Ok(parts),
        Err(_) => Err(NoMemory),
    }
}

/// Whether the outside has room for a part more, as creating an output takes it.
fn has_room<W: World>(legs: &[LegLine], world: &W) -> bool {
    match legs {
        [first, ..] => world.part(first.output.as_str()).is_some(),
        [] => false,
    }
}

/// All parts, or none where one is missing or there is no room beside them.
fn all_or_none<P: Drop>(alloc: Global, parts: Vec<Option<P>>, room: bool) -> Vec<Option<P>>
    ensures { IsAllOrNone parts.items result.items }
{
    if room && parts.iter().all(|part| part.is_some()) {
        return parts;
    }
    Vec::new(alloc)
}

/// The parts of all recordings, or none.
fn parts_of<R: Threads + Sync, W: World>(
    rt: &R,
    alloc: Global,
    legs: &[LegLine],
    log: &SentLog,
    world: &W,
) -> Vec<Option<W::Part>>
    requires as_many { length legs.now ≡ length log.now }
    requires lawful { AreLawful log.now }
    ensures { W.tells → HaveTaken W.Part.took log.now result.items }
{
    match parts_there(rt, alloc, legs, log, world) {
        Ok(parts) => all_or_none(alloc, parts, has_room(legs, world)),
        Err(NoMemory) => Vec::new(alloc),
    }
}

/// Takes the part of this number, where there is one.
fn take_part<P>(parts: &mut Vec<Option<P>>, number: usize) -> Option<P>
    ensures { TakesPart parts.old.items parts.new.items number result }
{
    if number >= parts.len() {
        return None;
    }
    parts[number].take()
}

/// Creates the outputs of the legs anew, in leg order, each with the recording of what was sent to its terminal. The first that
/// fails is the last.
fn save_outputs<R: Threads + Sync, W: World>(
    rt: &R,
    alloc: Global,
    legs: &[LegLine],
    files: &mut SentFiles,
    world: &mut W,
) -> Result<(), Fault>
    requires as_many { length legs.now ≡ length files.old }
    requires lawful { AreLawful files.old }
    requires few { length legs.now ≤ MOST_LEGS }
    ensures saved { W.tells → OnOk result (SavesEach W.World world.old world.new legs.now (recordings_of files.old)) }
    ensures unwritten { IfErr result (IsUnwrittenIn W.World world.old world.new legs.now (recordings_of files.old)) }
    ensures calls_never_fall { NoneFalls W.own_faults world.old world.new }
    ensures objects_never_fall { NoneFalls W.object_faults world.old world.new }
{
    let mut parts = parts_of(rt, alloc, legs, files.log(), world);
    for number in 0..legs.len() {
        let name = legs[number].output.as_str();
        let part = take_part(&mut parts, number);
        let saved = save_leg(number as u32, name, part, files, world);
        if saved.is_err() {
            return saved;
        }
    }
    Ok(())
}

/// Writes the outputs of a mixed conference with these legs, and prints what is seen.
pub(crate) fn make_outputs<R: Threads + Sync, W: World, K: Sink>(
    rt: &R,
    alloc: Global,
    legs: &[LegLine],
    mixed: Mixed,
    world: &mut W,
    out: &mut K,
) -> Result<(), Fault>
    requires as_many { length legs.now ≡ length mixed.outs }
    requires lawful { AreLawful mixed.outs }
    requires few { length legs.now ≤ MOST_LEGS }
    ensures { OutputsEnd W.World K.Sink world.old out.old world.new out.new legs.now mixed result }
{
    let mut files = mixed.outs;
    let saved = save_outputs(rt, alloc, legs, &mut files, world);
    if saved.is_err() {
        return saved;
    }
    print_views(mixed.views.as_slice(), out)
}

/// A mixing with these lines behind its views.
fn with_lines(alloc: Global, mixed: Mixed, lines: Bytes) -> Result<Mixed, NoMemory>
    ensures views { IfOk result (λ more. more.views.items ≡ mixed.views.items ++ lines ∷ []) }
    ensures outs { IfOk result (λ more. more.outs ≡ mixed.outs) }
{
    let mut more = mixed;
    let lines = Piece::new(alloc, lines)?;
    more.views.push(lines)?;
    Ok(more)
}

/// Mixes a conference, writes its outputs, and prints what is seen, and behind it these lines.
fn mix_with<R: Threads + Wait + Sync, W: World, K: Sink, G: Gate + Sync>(
    rt: &R,
    alloc: Global,
    conference: &Conference,
    lines: Bytes,
    world: &mut W,
    out: &mut K,
    gate: &G,
) -> Result<(), Fault>
    ensures { MixingEndsWith W.World K.Sink world.old out.old world.new out.new (meaning_of conference.now) lines
        result }
{
    let mixed = match mix(rt, alloc, conference, world, gate) {
        Ok(mixed) => mixed,
        Err(fault) => return Err(fault_of_mixing(conference.turns, fault)),
    };
    let more = match with_lines(alloc, mixed, lines) {
        Ok(more) => more,
        Err(NoMemory) => return Err(Fault::NoMemory),
    };
    make_outputs(rt, alloc, conference.legs.as_slice(), more, world, out)
}

/// Mixes a conference, writes its outputs, and prints what is seen, and what is counted of its inputs where it asks for that. To be
/// counted each input is read to its end before one is mixed.
#[inline(never)]
pub(crate) fn mix_conference<R: Threads + Wait + Sync, W: World, K: Sink, G: Gate + Sync>(
    rt: &R,
    alloc: Global,
    conference: &Conference,
    world: &mut W,
    out: &mut K,
    gate: &G,
) -> Result<(), Fault>
    ensures { MixingEnds W.World K.Sink world.old out.old world.new out.new (meaning_of conference.now) result }
{
    let lines = match count_inputs(alloc, conference, world) {
        Ok(lines) => lines,
        Err(fault) => return Err(fault_of_mixing(conference.turns, fault)),
    };
    mix_with(rt, alloc, conference, lines, world, out, gate)
}
