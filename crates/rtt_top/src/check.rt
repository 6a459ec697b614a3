//! `check`: what a file is, whether the program takes it, and if not where, why, and what to do.
ghost use Rattle.std.specs.Prelude.{◌≡◌, ◌<◌, ◌≤◌, ◌+◌, ◌^◌, length, [], ◌∷◌, None, Some, Ok, OnOk, OnErr, IfOk, IfErr, IfSome, option_map};
ghost use Rattle.rtt_io.specs.Counts.{Rose};
ghost use Rattle.rtt_words.specs.Commands.{checked};
ghost use Rattle.rtt_words.specs.Words.{Check};
ghost use Rattle.command_spec.specs.Messages.{status_of};
ghost use Rattle.command_spec.specs.Outcomes.{Same};
ghost use Rattle.report_spec.specs.Looks.{links_in};
ghost use Rattle.file_spec.specs.Conferences.{meaning_of};
ghost use Rattle.rtt_check.specs.Reports.{as_told, told_of};
ghost use Rattle.rtt_top.specs.Outside.{output_at};
ghost use Rattle.rtt_top.specs.Trials.{RunsLook};
ghost use Rattle.rtt_top.specs.Looks.{ending_of, fault_at, or_found, IsBegunIn, IsUnreadAmong, IsUnreadAt, LooksAmongIn, LooksAtIn, SameIn};
ghost use Rattle.rtt_top.specs.Sinks.{TookFront, TookIfCalm, Wrote, WrotePartly};
ghost use Rattle.rtt_top.specs.Worlds.{StopsOver};
ghost use Rattle.rtt_top.specs.Across.{RunsAcross};
ghost use Rattle.rtt_words.specs.Told.{message_of};
ghost use Rattle.wire_spec.specs.declared.limits.TheConstants.{MOST_RECORDING_OCTETS};

use crate::files::read_input;
use crate::messages::{finish_with, print};
use command_spec::Fault;
use file_spec::{Conference, LegLine, Legs};
use report_spec::limits::MOST_CHECKED_OCTETS;
use rtt_base::{Bytes, NoMemory};
use rtt_check::{
    Ports, Report, is_on_trunk, leg_told, legs_in, links_in, most_of_input, ports_told, report_of,
};
use rtt_io::{Sink, World};
use rtt_words::CheckWords;
use std::alloc::Global;

/// A file that was read, what is told of it alone, the legs whose INs are to be looked at, and the conference whose ports are.
#[derive(Debug, Drop)]
pub(crate) struct CheckStart {
    octets: Bytes,
    told: Report,
    legs: Legs,
    links: Option<Conference>,
}

/// Why an input could not be read to its end, and its name.
#[derive(Debug, Drop)]
pub(crate) struct InputFault<'a> {
    fault: Fault,
    name: &'a str,
}

/// The file that is named.
fn begin_look<W: World>(
    alloc: Global,
    words: &CheckWords<'_>,
    world: &mut W,
) -> Result<CheckStart, Fault>
    ensures stops { IfErr result (StopsOver W.World world.old world.new words.now.file.now (Check (checked words.now))) }
    ensures begun { IfOk result (λ b. IsBegunIn W.World world.old words.now.file.now b.octets (as_told b.told) b.legs) }
    ensures links { IfOk result (λ b. option_map meaning_of b.links ≡ links_in b.octets) }
    ensures same { OnOk result (SameIn W.World world.old world.new) }
    ensures same_contents { W.tells → Same (W.contents world.old) (W.contents world.new) }
{
    let octets = match read_input(alloc, words.file, MOST_CHECKED_OCTETS, world) {
        Ok(octets) => octets,
        Err(fault) => return Err(fault),
    };
    let Ok(told) = report_of(alloc, words.file, octets.as_slice()) else {
        return Err(Fault::NoMemory);
    };
    let Ok(legs) = legs_in(alloc, octets.as_slice()) else {
        return Err(Fault::NoMemory);
    };
    let Ok(links) = links_in(alloc, octets.as_slice()) else {
        return Err(Fault::NoMemory);
    };
    Ok(CheckStart {
        octets,
        told,
        legs,
        links,
    })
}

/// The fault of the input of this number for that of a first input.
fn fault_at(input: u32, fault: Fault) -> Fault
    ensures { result ≡ fault_at input fault }
{
    match fault {
        Fault::CannotOpen { input: _ } => Fault::CannotOpen { input },
        Fault::CannotRead { input: _ } => Fault::CannotRead { input },
        other => other,
    }
}

/// What is told of the IN of a leg, which is the input of this number.
fn look_input<W: World>(
    alloc: Global,
    limit: u32,
    conference: &[u8],
    leg: &LegLine,
    input: u32,
    world: &mut W,
) -> Result<Option<Report>, Fault>
    requires { limit ≤ MOST_RECORDING_OCTETS }
    ensures unread { IfErr result (IsUnreadAt W.World input world.old world.new leg.now.input) }
    ensures looks { IfOk result (LooksAtIn W.World limit conference.now leg.now world.old) }
    ensures same { OnOk result (SameIn W.World world.old world.new) }
    ensures same_contents { W.tells → Same (W.contents world.old) (W.contents world.new) }
{
    let octets = match read_input(alloc, leg.input.as_str(), MOST_CHECKED_OCTETS, world) {
        Ok(octets) => octets,
        Err(fault) => return Err(fault_at(input, fault)),
    };
    match leg_told(alloc, limit, conference, leg, octets.as_slice()) {
        Ok(found) => Ok(found),
        Err(NoMemory) => Err(Fault::NoMemory),
    }
}

/// The first of these legs, and those behind it.
fn first_of(legs: &[LegLine]) -> Option<(&LegLine, &[LegLine])>
    ensures some { IfSome result (λ p. legs.now ≡ p.0.now ∷ p.1.now) }
    ensures none { result ≡ None → legs.now ≡ [] }
{
    match legs {
        [leg, more @ ..] => Some((leg, more)),
        [] => None,
    }
}

/// What is told of the INs of these legs, up to the first of which there is something to tell. Their numbers begin with this one.
fn look_inputs<'a, W: World>(
    alloc: Global,
    limit: u32,
    conference: &[u8],
    legs: &'a [LegLine],
    input: u32,
    world: &mut W,
) -> Result<Option<Report>, InputFault<'a>>
    requires limit { limit ≤ MOST_RECORDING_OCTETS }
    requires few { input + length legs.now < 2 ^ 32 }
    ensures unread { IfErr result (λ u. IsUnreadAmong W.World limit conference.now legs.now input world.old world.new u.name.now u.fault) }
    ensures looks { IfOk result (LooksAmongIn W.World limit conference.now legs.now world.old) }
    ensures same_contents { W.tells → Same (W.contents world.old) (W.contents world.new) }
{
    let Some((leg, more)) = first_of(legs) else {
        return Ok(None);
    };
    if is_on_trunk(leg) {
        return look_inputs(alloc, limit, conference, more, input, world);
    }
    let found = match look_input(alloc, limit, conference, leg, input, world) {
        Ok(found) => found,
        Err(fault) => {
            return Err(InputFault {
                fault,
                name: leg.input.as_str(),
            });
        }
    };
    match found {
        Some(report) => Ok(Some(report)),
        None => look_inputs(alloc, limit, conference, more, input + 1, world),
    }
}

/// Prints what is told, and answers whether the program takes the file.
fn print_told<K: Sink>(told: &Report, out: &mut K) -> Result<bool, Fault>
    ensures fault { IfErr result (λ fault. fault ≡ Fault.CannotPrint) }
    ensures cause { OnErr result (Rose (K.faults out.old) (K.faults out.new)) }
    ensures printed { Wrote K.Sink out.old out.new (as_told told.now).text result }
    ensures partly { WrotePartly K.Sink out.old out.new (as_told told.now).text result }
    ensures taken { IfOk result (λ taken. taken ≡ (as_told told.now).taken) }
{
    match print(told.text.as_slice(), out) {
        Ok(()) => Ok(told.taken),
        Err(fault) => Err(fault),
    }
}

/// Prints what was found of an input, or what is told of the file.
fn print_found<K: Sink>(found: Option<Report>, told: &Report, out: &mut K) -> Result<bool, Fault>
    ensures fault { IfErr result (λ fault. fault ≡ Fault.CannotPrint) }
    ensures cause { OnErr result (Rose (K.faults out.old) (K.faults out.new)) }
    ensures printed { Wrote K.Sink out.old out.new (told_of found (as_told told.now)).text result }
    ensures partly { WrotePartly K.Sink out.old out.new (told_of found (as_told told.now)).text result }
    ensures taken { IfOk result (λ taken. taken ≡ (told_of found (as_told told.now)).taken) }
{
    match found {
        Some(report) => print_told(&report, out),
        None => print_told(told, out),
    }
}

/// How a look at a file ended.
fn ending_of(found: Result<bool, Fault>) -> Result<(), Fault>
    ensures { result ≡ ending_of found }
{
    match found {
        Ok(_) => Ok(()),
        Err(fault) => Err(fault),
    }
}

/// The status of a look at a file, of which this one was told: 1 where the program does not take it.
fn or_found(found: Result<bool, Fault>, told: u8) -> u8
    ensures { result ≡ or_found found told }
{
    match found {
        Ok(false) => 1,
        Ok(true) | Err(_) => told,
    }
}

/// Tells how a look at a file ended, where the file that is told of has this name, and answers the status.
fn finish_look<E: Sink>(found: Result<bool, Fault>, name: &str, err: &mut E) -> u8
    ensures status { result ≡ or_found found (status_of (ending_of found)) }
    ensures silent { ending_of found ≡ Ok tt → E.took err.new ≡ E.took err.old }
    ensures front { E.tells → TookFront E.Sink err.old err.new (message_of name.now (ending_of found)) }
    ensures told { E.tells → TookIfCalm E.Sink err.old err.new (message_of name.now (ending_of found)) }
{
    let told = finish_with(ending_of(found), name, err);
    or_found(found, told)
}

/// `check`, and what is told of it. Where ports are tried, all are let go of then.
pub(crate) fn run_check<W: World, P: Ports, K: Sink, E: Sink>(
    alloc: Global,
    words: &CheckWords<'_>,
    world: &mut W,
    ports: &mut P,
    out: &mut K,
    err: &mut E,
) -> u8
    ensures runs { RunsAcross W.World K.Sink E.Sink (Check (checked words.now)) world.old out.old err.old world.new out.new err.new result }
    ensures looks { RunsLook (Some (Check (checked words.now))) W.tells K.tells P.tells (P.answers ports.old) (W.contents world.old)
        (output_at K.Sink out.old) (output_at K.Sink out.new) result }
    ensures let_go { P.kept ports.old ≡ 0 → P.kept ports.new ≡ 0 }
{
    let begun = match begin_look(alloc, words, world) {
        Ok(begun) => begun,
        Err(fault) => return finish_look(Err(fault), words.file, err),
    };
    if let Some(conference) = &begun.links {
        let Ok(found) = ports_told(alloc, begun.octets.as_slice(), conference, ports) else {
            return finish_look(Err(Fault::NoMemory), words.file, err);
        };
        let printed = print_found(found, &begun.told, out);
        return finish_look(printed, words.file, err);
    }
    let legs = begun.legs.as_slice();
    let limit = most_of_input(legs);
    match look_inputs(alloc, limit, begun.octets.as_slice(), legs, 1, world) {
        Ok(found) => {
            let printed = print_found(found, &begun.told, out);
            finish_look(printed, words.file, err)
        }
        Err(unread) => finish_look(Err(unread.fault), unread.name, err),
    }
}
