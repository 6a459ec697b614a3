//! What the conference of a live call says of its links, of an operator and of recordings, before the call begins.
use call_links::{Desk, Operator, RealPort};
use conf_text::{ConfFault, Form, read_conf};
use file_spec::Conference;
use file_spec::limits::MOST_CONFERENCE_OCTETS;
use link_io::Links;
use recorded_links::{BeginFault, CallRecording, Journals, start_of};
use rtt_base::NoMemory;
use rtt_io::{ReadFault, World, read_whole};
use rtt_words::{Command, WordFault, command_of};
use std::alloc::Global;
use std::fs;
use std::fs::File;
use std::io::Write;
use std::net::Net;
use std::rt::Files;
use std::sync::Wait;
use std::thread::Threads;
use std::time::Clock;

/// What a call is given beside what `run` makes of its conference.
#[derive(Drop)]
pub(crate) struct CallService<L, J: Journals, R> {
    /// After how long without a datagram a terminal has gone (milliseconds), if it does.
    pub(crate) gone: Option<u32>,
    pub(crate) operator: Operator<RealPort>,
    pub(crate) links: L,
    /// The recordings of the links, where the conference says so.
    pub(crate) recording: CallRecording<J, R>,
}

/// Why no command is begun.
#[derive(Drop)]
pub(crate) enum CallFault {
    /// The output is closed.
    Unprinted,
    /// The recording of this name can't be made.
    Unwritten(String),
    NoMemory,
}

impl From<NoMemory> for CallFault {
    fn from(_: NoMemory) -> CallFault {
        CallFault::NoMemory
    }
}

/// The name of the conference of the live call that these words ask for, where they do.
fn name_of(alloc: Global, words: &[String]) -> Result<Option<&str>, NoMemory> {
    match command_of(alloc, words) {
        Ok(Command::Live(call)) => Ok(Some(call.conference)),
        Ok(Command::Watch(call)) => Ok(Some(call.conference)),
        Err(WordFault::NoMemory) => Err(NoMemory),
        _ => Ok(None),
    }
}

/// Whether an ordinary file has this name. What else has one may be read once alone.
fn is_ordinary<R: Files<File = File>>(rt: &R, name: &str) -> bool {
    match fs::metadata(rt, name) {
        Ok(found) => found.is_file(),
        Err(_) => false,
    }
}

/// The conference of links under this name, where one can be read.
fn conference_under<W: World>(
    alloc: Global,
    name: &str,
    world: &mut W,
) -> Result<Option<Conference>, NoMemory> {
    let Ok(mut source) = world.open_source(name) else {
        return Ok(None);
    };
    let read = read_whole(alloc, &mut source, MOST_CONFERENCE_OCTETS);
    world.done_src(source);
    let octets = match read {
        Ok(octets) => octets,
        Err(ReadFault::Failed) => return Ok(None),
        Err(ReadFault::NoMemory) => return Err(NoMemory),
    };
    match read_conf(alloc, octets.as_slice(), Form::Links) {
        Ok(conference) => Ok(Some(conference)),
        Err(ConfFault::NoMemory) => Err(NoMemory),
        Err(_) => Ok(None),
    }
}

/// The operator of the call of this conference, at the port that it says. Where the system does not give the port, nobody can be heard.
fn operator_of<R: Net>(
    rt: &R,
    alloc: Global,
    conference: Conference,
) -> Result<Operator<RealPort>, NoMemory> {
    let port = match &conference.service.operator {
        Some(operator) => operator.port,
        None => return Ok(Operator::Nobody),
    };
    let Some(port) = RealPort::new(rt, port) else {
        return Ok(Operator::Unheard);
    };
    let desk = Desk::new(alloc, conference, port)?;
    Ok(Operator::At(desk))
}

/// The conference of the live call that these words ask for, where they do, and it can be read from an ordinary file.
fn conference_of_call<R: Files<File = File>, W: World>(
    rt: &R,
    alloc: Global,
    words: &[String],
    world: &mut W,
) -> Result<Option<Conference>, NoMemory> {
    match name_of(alloc, words)? {
        Some(name) if is_ordinary(rt, name) => conference_under(alloc, name, world),
        _ => Ok(None),
    }
}

impl From<BeginFault> for CallFault {
    fn from(fault: BeginFault) -> CallFault {
        match fault {
            BeginFault::Failed(name) => CallFault::Unwritten(name),
            BeginFault::NoMemory => CallFault::NoMemory,
        }
    }
}

/// The recordings of a call of this conference over these links: where it says so they are begun, in files that are made now.
fn recording_of<
    R: Threads + Wait + Clock + Copy + Drop + Send + 'static,
    L: Links,
    J: Journals + Drop + Send + 'static,
>(
    rt: R,
    alloc: Global,
    conference: &Conference,
    links: &mut L,
    journals: J,
) -> Result<CallRecording<J, R>, CallFault> {
    let Some(prefix) = &conference.service.recorded else {
        return Ok(CallRecording::nothing(rt, alloc, journals)?);
    };
    let start = start_of(&rt, links);
    let legs = conference.legs.as_slice();
    let tick = conference.tick;
    Ok(CallRecording::begin(rt, alloc, journals, prefix.as_str(), legs, start, tick)?)
}

/// Whether a stream is open. That there is room for what is written, or that somebody reads it, is not known before.
fn is_open<O: Write>(out: &mut O) -> bool {
    out.write(b"").is_ok()
}

/// What the command is given that these words ask for: over these links, nothing more where they ask for no live call, or its conference
/// is not read from an ordinary file. What is wrong with that is not told here. Before any port is opened the output is tried, and then
/// recordings are made.
pub(crate) fn service_of<
    R: Files<File = File> + Net + Threads + Wait + Clock + Copy + Drop + Send + 'static,
    W: World,
    L: Links + Drop,
    J: Journals + Drop + Send + 'static,
    O: Write,
>(
    rt: R,
    alloc: Global,
    words: &[String],
    world: &mut W,
    mut links: L,
    journals: J,
    out: &mut O,
) -> Result<CallService<L, J, R>, CallFault> {
    let Some(conference) = conference_of_call(&rt, alloc, words, world)? else {
        return Ok(CallService {
            gone: None,
            operator: Operator::Nobody,
            links,
            recording: CallRecording::nothing(rt, alloc, journals)?,
        });
    };
    if !is_open(out) {
        return Err(CallFault::Unprinted);
    }
    let recording = recording_of(rt, alloc, &conference, &mut links, journals)?;
    let gone = conference.service.gone;
    let operator = operator_of(&rt, alloc, conference)?;
    Ok(CallService {
        gone,
        operator,
        links,
        recording,
    })
}
