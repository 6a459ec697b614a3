//! The conference of a command: how it is read from its file, and the names of its files and legs.
ghost use Rattle.std.specs.Prelude.{◌≡◌, option_map, OnOk, IfOk, IfErr};
ghost use Rattle.rtt_io.specs.Names.{NoneFalls, Same as KeepsCounts};
ghost use Rattle.mixer_spec.specs.Setups.{leg_at};
ghost use Rattle.command_spec.specs.Outcomes.{Same};
ghost use Rattle.rtt_words.specs.Words.{Command};
ghost use Rattle.rtt_top.specs.Conferences.{AsksConference, ending_name, fault_name, input_name};
ghost use Rattle.rtt_top.specs.Worlds.{StopsOver, ReadsConference};

use crate::files::{read_input, refused_line};
use command_spec::Fault;
use conf_text::{ConfFault, Form, read_conf};
use file_spec::limits::MOST_CONFERENCE_OCTETS;
use file_spec::{Conference, LegLine};
use rtt_io::World;
use std::alloc::Global;

/// The conference that lies under this name, in a file of this form.
pub(crate) fn conference_under<W: World>(
    alloc: Global,
    name: &str,
    form: Form,
    world: &mut W,
) -> Result<Conference, Fault>
    ensures stops { (c : Command) → AsksConference form name.now c → IfErr result (StopsOver W.World world.old world.new name.now c) }
    ensures read { IfOk result (ReadsConference W.World form world.old name.now) }
    ensures same_contents { W.tells → Same (W.contents world.old) (W.contents world.new) }
    ensures calm { OnOk result (KeepsCounts W.object_faults world.old world.new) }
    ensures opened { OnOk result (KeepsCounts W.own_faults world.old world.new) }
    ensures calls_never_fall { NoneFalls W.own_faults world.old world.new }
    ensures objects_never_fall { NoneFalls W.object_faults world.old world.new }
{
    let octets = match read_input(alloc, name, MOST_CONFERENCE_OCTETS, world) {
        Ok(octets) => octets,
        Err(fault) => return Err(fault),
    };
    match read_conf(alloc, octets.as_slice(), form) {
        Ok(conference) => Ok(conference),
        Err(ConfFault::Refused { line, kind }) => Err(refused_line(line, kind)),
        Err(ConfFault::NoMemory) => Err(Fault::NoMemory),
    }
}

/// The name of the input of this number: the conference is the first one, then each leg has one.
fn input_name<'a>(file: &'a str, legs: &'a [LegLine], input: u32) -> &'a str
    ensures { result.now ≡ input_name file.now legs.now input }
{
    let number = input as usize;
    if number == 0 {
        return file;
    }
    if legs.len() < number {
        return file;
    }
    let leg = &legs[number - 1];
    leg.input.as_str()
}

/// The leg of this number, if there is one.
fn leg_of<'a>(legs: &'a [LegLine], number: u32) -> Option<&'a LegLine>
    ensures { option_map (λ leg. leg.now) result ≡ leg_at legs.now number }
{
    let number = number as usize;
    if legs.len() <= number {
        return None;
    }
    let leg = &legs[number];
    Some(leg)
}

/// The name of the file or the leg of a fault.
fn fault_name<'a>(fault: Fault, file: &'a str, legs: &'a [LegLine]) -> &'a str
    ensures { result.now ≡ fault_name file.now legs.now fault }
{
    match fault {
        Fault::CannotOpen { input }
        | Fault::CannotRead { input }
        | Fault::Refused { input, refusal: _ } => input_name(file, legs, input),
        Fault::CannotWrite { output } => match leg_of(legs, output) {
            Some(leg) => leg.output.as_str(),
            None => file,
        },
        Fault::LinkFailed { leg } => match leg_of(legs, leg) {
            Some(leg) => leg.name.as_str(),
            None => file,
        },
        Fault::WrongWords | Fault::CannotPrint | Fault::NoMemory => file,
    }
}

/// The name of the file or the leg that is told of where the work on a conference ends so.
pub(crate) fn name_at_end<'a>(
    ending: Result<(), Fault>,
    file: &'a str,
    legs: &'a [LegLine],
) -> &'a str
    ensures { result.now ≡ ending_name file.now legs.now ending }
{
    match ending {
        Ok(()) => file,
        Err(fault) => fault_name(fault, file, legs),
    }
}
