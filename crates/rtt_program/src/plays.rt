//! Runs over files in memory, and what each has to leave.
use crate::failures::{End, ends_with_first};
use link_io::{Came, FailingLink, MemLinks, PlannedTake};
use rtt_base::{Bytes, NoMemory, Path};
use rtt_check::MemPorts;
use rtt_io::{Gate, MemSink, MemWorld, StillGate};
use rtt_top::run;
use std::alloc::Global;
use std::sync::Wait;
use std::test::Fail;
use std::thread::Threads;
use std::time::Clock;

/// The line and the head of a recording.
pub const OPENING: [u8; 44] =
    *b"#!rtpplay1.0 127.0.0.1/5004\n\0\0\0\0\0\0\0\0\x7F\0\0\x01\x13\x8C\0\0";

/// A piece of a recording, behind its opening.
#[derive(Clone, Copy)]
pub enum Piece<'a> {
    /// A packet: its millisecond and its octets.
    Packet(u32, &'a [u8]),
    /// A packet of plain text: its millisecond, sequence number, timestamp and text.
    Plain(u32, u16, u32, &'a [u8]),
    /// Octets as they are.
    Octets(&'a [u8]),
}

/// What a take of a link gives: its moment, what came, and the octets of a datagram.
#[derive(Clone, Copy)]
pub struct LinkEvent<'a>(pub u32, pub Came, pub &'a [u8]);

/// What the links of Ann and of Bob give, the call of a link that fails, and the line of how many turns are made.
#[derive(Clone, Copy)]
pub struct Line<'a>(
    pub &'a [LinkEvent<'a>],
    pub &'a [LinkEvent<'a>],
    pub Option<FailingLink>,
    pub &'a str,
);

/// What is run, and what that is to leave.
#[derive(Clone, Copy)]
pub enum Case<'a> {
    /// What the links of Ann and of Bob, who types nothing, give in so many turns; what `live` prints behind what Ann sees, and
    /// what `watch` prints behind that.
    Live(&'a Line<'a>, &'a str, &'a str),
    /// The same, and what stands somewhere in what `live` prints.
    Shows(&'a Line<'a>, &'a str),
    /// A live call that ends with a fault of Bob's link, by `live` and by `watch`.
    LinkFault(&'a Line<'a>),
    /// The words of a run, its outputs in the order in which they are written, and what ends it: the first of these, though the
    /// others would end it too.
    Ended(&'a str, &'a [&'a str], &'a [End<'a>]),
}

// The words of a run, its status, and what it writes on `out` and on `err`.
#[derive(Clone, Copy)]
struct RunCase<'a>(&'a str, u8, &'a str, &'a str);

/// The lines of a conference of Ann and Bob.
pub const MIXER: &str = "mixer 9000 100 5000\n";

pub const ANN: &str = "leg Ann aware 1001 a.in a.out\n";

pub const BOB: &str = "leg Bob aware 1002 b.in b.out\n";

/// The lines of a conference of Ann, who is behind another mixer, and Cy.
pub const NEXT_MIXER: &str = "mixer 9001 0 0\n";

pub const TRUNK: &str = "leg Ann aware 1001 trunk x.out\n";

pub const CY: &str = "leg Cy aware 2001 cy.in y.out\n";

// A live conference, but for how many turns it has.
const LINKS: &str = "mixer 9000 0 0
leg Ann aware 1001 5001 127.0.0.1:5101
leg Bob aware 1002 5002 127.0.0.1:5102
";

// What Ann sees of Bob, who types nothing.
const SEEN_BY_ANN: &str =
    "== Ann aware\nBob: \n-- Bob bells 0\n-- packets 0 used 0 refused 0 foreign 0\n";

fn size(octets: &[u8]) -> u16 {
    u16::try_from(octets.len()).unwrap_or(0)
}

// What stands before the octets of a record: how many they are, how many its packet had, and its moment.
fn append_head(recording: &mut Bytes, octets: u16, packet: u16, at: u32) -> Result<(), NoMemory> {
    recording.append(&octets.saturating_add(8).to_be_bytes())?;
    recording.append(&packet.to_be_bytes())?;
    recording.append(&at.to_be_bytes())
}

fn append_packet(recording: &mut Bytes, at: u32, packet: &[u8]) -> Result<(), NoMemory> {
    let size = size(packet);
    append_head(recording, size, size, at)?;
    recording.append(packet)
}

// A packet of 1001: its moment, its first two octets, sequence number, timestamp, and the octets behind its SSRC.
fn append_parts(
    recording: &mut Bytes,
    at: u32,
    first: &[u8],
    seq: u16,
    timestamp: u32,
    rest: &[u8],
) -> Result<(), NoMemory> {
    let size = size(rest).saturating_add(12);
    append_head(recording, size, size, at)?;
    recording.append(first)?;
    recording.append(&seq.to_be_bytes())?;
    recording.append(&timestamp.to_be_bytes())?;
    recording.append(b"\0\0\x03\xE9")?;
    recording.append(rest)
}

fn append_piece(recording: &mut Bytes, piece: &Piece<'_>) -> Result<(), NoMemory> {
    match piece {
        Piece::Packet(at, packet) => append_packet(recording, *at, packet),
        Piece::Plain(at, seq, timestamp, text) => {
            append_parts(recording, *at, b"\x80\x62", *seq, *timestamp, text)
        }
        Piece::Octets(octets) => recording.append(octets),
    }
}

fn append_all(recording: &mut Bytes, pieces: &[Piece<'_>]) -> Result<(), NoMemory> {
    match pieces {
        [first, rest @ ..] => {
            append_piece(recording, first)?;
            append_all(recording, rest)
        }
        [] => Ok(()),
    }
}

/// A recording of these pieces.
pub fn recording_of(alloc: Global, pieces: &[Piece<'_>]) -> Result<Bytes, NoMemory> {
    let mut recording = Bytes::new(alloc);
    recording.append(&OPENING)?;
    append_all(&mut recording, pieces)?;
    Ok(recording)
}

/// An empty sink.
pub fn sink(alloc: Global) -> Result<MemSink, NoMemory> {
    Ok(MemSink::new(alloc, Path::from_text(alloc, "")?))
}

fn words(alloc: Global, text: &str) -> Result<Vec<String>, Fail> {
    let mut words = Vec::new(alloc);
    for word in text.split(' ') {
        words.push(String::from_str(alloc, word)?)?;
    }
    Ok(words)
}

/// The status of a run of these words, whose legs go by this gate.
pub fn status_of<R: Threads + Wait + Clock + Copy + Send + Sync + 'static, G: Gate + Sync>(
    rt: &R,
    alloc: Global,
    text: &str,
    world: &mut MemWorld,
    links: &mut MemLinks,
    out: &mut MemSink,
    err: &mut MemSink,
    gate: &G,
) -> Result<u8, Fail> {
    let words = words(alloc, text)?;
    let words = words.as_slice();
    let mut ports = MemPorts::new(alloc);
    Ok(run(rt, alloc, words, world, links, &mut ports, out, err, gate))
}

/// Puts a file of these lines into the world.
pub fn add_lines(
    alloc: Global,
    world: &mut MemWorld,
    name: &str,
    lines: &[&str],
) -> Result<(), NoMemory> {
    let mut file = Bytes::new(alloc);
    for line in lines {
        file.append(line.as_bytes())?;
    }
    world.add_file(name, file.as_slice())
}

// Plans what comes at a port.
fn plan(
    links: &mut MemLinks,
    alloc: Global,
    port: u16,
    comings: &[LinkEvent<'_>],
) -> Result<(), NoMemory> {
    match comings {
        [first, rest @ ..] => {
            links.plan(port, PlannedTake::new(alloc, first.0, first.1, first.2)?)?;
            plan(links, alloc, port, rest)
        }
        [] => Ok(()),
    }
}

fn links_of(alloc: Global, line: &Line<'_>) -> Result<MemLinks, NoMemory> {
    let mut links = MemLinks::new(alloc);
    plan(&mut links, alloc, 5001, line.0)?;
    plan(&mut links, alloc, 5002, line.1)?;
    if let Some(failing) = line.2 {
        links.fail(failing)?;
    }
    Ok(links)
}

fn ends_over<R: Threads + Wait + Clock + Copy + Send + Sync + 'static>(
    rt: &R,
    alloc: Global,
    world: &mut MemWorld,
    links: &mut MemLinks,
    wanted: RunCase<'_>,
) -> Result<bool, Fail> {
    let mut out = sink(alloc)?;
    let mut err = sink(alloc)?;
    let gate = &StillGate;
    let status = status_of(rt, alloc, wanted.0, world, links, &mut out, &mut err, gate)?;
    let is_told = err.taken() == wanted.3.as_bytes();
    Ok(status == wanted.1 && out.taken() == wanted.2.as_bytes() && is_told)
}

// Whether a live call ends so.
fn ends_live<R: Threads + Wait + Clock + Copy + Send + Sync + 'static>(
    rt: &R,
    alloc: Global,
    world: &mut MemWorld,
    line: &Line<'_>,
    wanted: RunCase<'_>,
) -> Result<bool, Fail> {
    add_lines(alloc, world, "c.txt", &[LINKS, line.3])?;
    let mut links = links_of(alloc, line)?;
    ends_over(rt, alloc, world, &mut links, wanted)
}

fn is_served<R: Threads + Wait + Clock + Copy + Send + Sync + 'static>(
    rt: &R,
    alloc: Global,
    world: &mut MemWorld,
    line: &Line<'_>,
    printed: &str,
    board: &str,
) -> Result<bool, Fail> {
    let mut all = String::from_str(alloc, SEEN_BY_ANN)?;
    all.push_str(printed)?;
    let live = RunCase("live c.txt", 0, all.as_str(), "");
    let is_live = ends_live(rt, alloc, world, line, live)?;
    all.push_str(board)?;
    let watched = RunCase("watch c.txt", 0, all.as_str(), "");
    Ok(is_live && ends_live(rt, alloc, world, line, watched)?)
}

fn has(text: &[u8], part: &[u8]) -> bool {
    (0..text.len()).any(|start| text[start..].starts_with(part))
}

fn shows<R: Threads + Wait + Clock + Copy + Send + Sync + 'static>(
    rt: &R,
    alloc: Global,
    world: &mut MemWorld,
    line: &Line<'_>,
    part: &str,
) -> Result<bool, Fail> {
    add_lines(alloc, world, "c.txt", &[LINKS, line.3])?;
    let mut links = links_of(alloc, line)?;
    let mut out = sink(alloc)?;
    let mut err = sink(alloc)?;
    let words = "live c.txt";
    let gate = &StillGate;
    let status = status_of(
        rt, alloc, words, world, &mut links, &mut out, &mut err, gate,
    )?;
    Ok(status == 0 && has(out.taken(), part.as_bytes()))
}

fn is_right<R: Threads + Wait + Clock + Copy + Send + Sync + 'static>(
    rt: &R,
    alloc: Global,
    world: &mut MemWorld,
    case: &Case<'_>,
) -> Result<bool, Fail> {
    match case {
        Case::Live(line, printed, board) => is_served(rt, alloc, world, line, printed, board),
        Case::Shows(line, part) => shows(rt, alloc, world, line, part),
        Case::LinkFault(line) => {
            let told = "link fault at leg Bob\n";
            let live = ends_live(rt, alloc, world, line, RunCase("live c.txt", 8, "", told))?;
            let watch = ends_live(rt, alloc, world, line, RunCase("watch c.txt", 8, "", told))?;
            Ok(live && watch)
        }
        Case::Ended(words, outputs, ends) => ends_with_first(rt, alloc, words, outputs, ends),
    }
}

/// How many of these cases are left, in this world, from the first one on that does not end as it is to.
pub fn left<R: Threads + Wait + Clock + Copy + Send + Sync + 'static>(
    rt: &R,
    alloc: Global,
    world: &mut MemWorld,
    cases: &[Case<'_>],
) -> Result<usize, Fail> {
    match cases {
        [first, rest @ ..] => {
            if !is_right(rt, alloc, world, first)? {
                return Ok(cases.len());
            }
            left(rt, alloc, world, rest)
        }
        [] => Ok(0),
    }
}

/// So many octets of these from the first on, or all.
pub fn front(octets: &[u8], most: usize) -> &[u8] {
    &octets[..octets.len().min(most)]
}

/// Whether a file holds these octets.
pub fn holds(world: &MemWorld, name: &str, octets: &[u8]) -> bool {
    match world.contents(name) {
        Some(held) => held == octets,
        None => false,
    }
}
