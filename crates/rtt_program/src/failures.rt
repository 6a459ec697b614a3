//! Runs that calls of the outside end, and what their inputs have.
use crate::plays::Case::{Ended, LinkFault, Live, Shows};
use crate::plays::Piece::{Octets, Packet, Plain};
use crate::plays::{
    ANN, BOB, CY, Case, Line, LinkEvent, MIXER, NEXT_MIXER, OPENING, Piece, TRUNK, add_lines,
    front, holds, left, recording_of, sink, status_of,
};
use link_io::{Came, FailingLink, MemLinks};
use rtt_base::{NoMemory, Path};
use rtt_io::{FailingCall, FailingWrite, MemSink, MemWorld, StillGate};
use std::alloc::Global;
use std::sync::Wait;
use std::test::Fail;
use std::thread::Threads;
use std::time::Clock;

/// What ends a run.
#[derive(Clone, Copy)]
pub enum End<'a> {
    /// Its last turn: this is printed, and its outputs are whole.
    Done(&'a str),
    /// This file can't be opened.
    Open(&'a str),
    /// This file can't be read.
    Read(&'a str),
    /// An input is refused: the status, and what is told.
    Refused(u8, &'a str),
    /// This output can't be made.
    Create(&'a str),
    /// This output can't be written: it takes so many octets.
    Write(&'a str, usize),
    /// What is seen can't be printed: only this is.
    Print(&'a str),
}

use End::{Create, Done, Open, Print, Read, Refused, Write};

// A sender types A and B, 300 ms apart.
const A: &[u8] = b"\x80\xE4\0\0\0\0\0\0\0\0\x03\xE9\xE2\xFF\xFC\0\xE2\xFF\xFC\0\x62A";

const B: &[u8] = b"\x80\x64\0\x01\0\0\x01\x2C\0\0\x03\xE9\xE2\xFF\xFC\0\xE2\x04\xB0\x01\x62AB";

const B_AGAIN: &[u8] =
    b"\x80\x64\0\x02\0\0\x02\x58\0\0\x03\xE9\xE2\x09\x60\x01\xE2\x04\xB0\x01\x62AB";

const B_LAST: &[u8] = b"\x80\x64\0\x03\0\0\x03\x84\0\0\x03\xE9\xE2\x09\x60\x01\xE2\x04\xB0\0\x62B";

const TWO_LETTERS: [Piece<'static>; 4] = [
    Packet(0, A),
    Packet(300, B),
    Packet(600, B_AGAIN),
    Packet(900, B_LAST),
];

// The same as frames.
const FRAMES: &[u8] = b"\0\0\0\0\0\x01A\0\0\x01\x2C\0\x01B";

// What the mixer sends to Bob of Ann, who types "Hey" and a new line, record by record, 300 ms apart.
const MIXED: [Piece<'static>; 5] = [
    Octets(
        b"\0\x22\0\x1A\0\0\0\0\x81\xE4\0\x64\0\0\x13\x88\0\0\x23\x28\0\0\x03\xE9\xE2\xFF\xFC\0\xE2\xFF\xFC\0\x62H",
    ),
    Octets(
        b"\0\x23\0\x1B\0\0\x01\x2C\x81\x64\0\x65\0\0\x14\xB4\0\0\x23\x28\0\0\x03\xE9\xE2\xFF\xFC\0\xE2\x04\xB0\x01\x62He",
    ),
    Octets(
        b"\0\x27\0\x1F\0\0\x02\x58\x81\x64\0\x66\0\0\x15\xE0\0\0\x23\x28\0\0\x03\xE9\xE2\x09\x60\x01\xE2\x04\xB0\x01\x62Hey\xE2\x80\xA8",
    ),
    Octets(
        b"\0\x26\0\x1E\0\0\x03\x84\x81\x64\0\x67\0\0\x17\x0C\0\0\x23\x28\0\0\x03\xE9\xE2\x09\x60\x01\xE2\x04\xB0\x04\x62ey\xE2\x80\xA8",
    ),
    Octets(
        b"\0\x25\0\x1D\0\0\x04\xB0\x81\x64\0\x68\0\0\x18\x38\0\0\x23\x28\0\0\x03\xE9\xE2\x09\x60\x04\xE2\x04\xB0\0\x62y\xE2\x80\xA8",
    ),
];

// What Ann and Bob sent.
const SENT_BY_ANN: [Piece<'static>; 3] = [
    Plain(0, 0, 0, b"H"),
    Plain(300, 1, 300, b"e"),
    Plain(600, 2, 600, b"y\xE2\x80\xA8"),
];

const SENT_BY_BOB: [Piece<'static>; 1] = [Packet(1000, b"\x80\xE2\0\0\0\0\0\0\0\0\x03\xEAHi Ann")];

// What the mixer sends to Ann of it: at 1000 ms, and twice again.
const TO_ANN: [Piece<'static>; 3] = [
    Packet(
        1000,
        b"\x81\xE4\0\x64\0\0\x17\x70\0\0\x23\x28\0\0\x03\xEA\xE2\xFF\xFC\0\xE2\xFF\xFC\0\x62Hi Ann",
    ),
    Packet(
        1300,
        b"\x81\x64\0\x65\0\0\x18\x9C\0\0\x23\x28\0\0\x03\xEA\xE2\xFF\xFC\0\xE2\x04\xB0\x06\x62Hi Ann",
    ),
    Packet(
        1600,
        b"\x81\x64\0\x66\0\0\x19\xC8\0\0\x23\x28\0\0\x03\xEA\xE2\x09\x60\x06\xE2\x04\xB0\0\x62Hi Ann",
    ),
];

// Ann's text as frames.
const ANN_FRAMES: &[u8] = b"\0\0\0\0\0\x01H\0\0\x01\x2C\0\x01e\0\0\x02\x58\0\x04y\xE2\x80\xA8";

// A conference: its name and its lines.
#[derive(Clone, Copy)]
struct Conference<'a>(&'a str, &'a [&'a str]);

const CONFERENCES: [Conference<'static>; 7] = [
    Conference("c.txt", &[MIXER, ANN, BOB]),
    // with one turn too few, and with a recording that is broken in place of the one or the other
    Conference("short.txt", &[MIXER, ANN, BOB, "turns 16\n"]),
    Conference(
        "first.txt",
        &[MIXER, "leg Ann aware 1001 cut.in a.out\n", BOB],
    ),
    Conference(
        "last.txt",
        &[MIXER, ANN, "leg Bob aware 1002 cut.in b.out\n"],
    ),
    // Ann is behind another mixer, and Cy is not; the same with other payload types, and with one turn
    Conference("far.txt", &[NEXT_MIXER, TRUNK, CY]),
    Conference(
        "odd.txt",
        &[NEXT_MIXER, "leg Ann aware 1001 trunk x.out 97 99\n", CY],
    ),
    Conference("tired.txt", &[NEXT_MIXER, TRUNK, CY, "turns 1\n"]),
];

const CUT: End<'static> = Refused(6, "cut.in byte 44: EndsInside\n");

const LONG: End<'static> = Refused(9, "conference too long: 16 turns\n");

const ODD: End<'static> = Refused(5, "odd.txt line 2: Trunk\n");

const TIRED: End<'static> = Refused(9, "conference too long: 1 turns\n");

const PRINTED: &str = "\
== Ann aware\nBob: Hi Ann\n-- Bob bells 0\n-- packets 3 used 3 refused 0 foreign 0\n\
== Bob aware\nAnn: Hey\nAnn: \n-- Ann bells 0\n-- packets 5 used 5 refused 0 foreign 0\n";

const PRINTED_BEHIND: &str = "\
== Ann aware\nCy: \n-- Cy bells 0\n-- packets 0 used 0 refused 0 foreign 0\n\
== Cy aware\nAnn: Hey\nAnn: \n-- Ann bells 0\n-- packets 5 used 5 refused 0 foreign 0\n";

// The outputs of each conference.
const OUTS: &[&str] = &["a.out", "b.out"];

const FAR: &[&str] = &["x.out", "y.out"];

const CASCADE: &str = "cascade b.rtp 9000 far.txt";

// Of the commands that mix the conference of a file.
const OF_CONFERENCES: [Case<'static>; 30] = [
    // nothing fails
    Ended("mix c.txt", OUTS, &[Done(PRINTED)]),
    // a file can't be opened: the first in the order of the conference is named
    Ended("mix c.txt", OUTS, &[Open("c.txt")]),
    Ended("mix c.txt", OUTS, &[Open("a.in"), Open("b.in")]),
    // a file can't be read: the lowest leg's decides
    Ended("mix c.txt", OUTS, &[Read("c.txt")]),
    Ended("mix c.txt", OUTS, &[Read("a.in"), Read("b.in")]),
    Ended("mix first.txt", OUTS, &[CUT, Read("b.in")]),
    Ended("mix last.txt", OUTS, &[Read("a.in")]),
    // also where the turns are used up
    Ended("mix short.txt", OUTS, &[LONG]),
    Ended("mix short.txt", OUTS, &[Read("b.in")]),
    // an output can't be made or written: those before it are whole, and those behind it are not there
    Ended("mix c.txt", OUTS, &[Create("a.out")]),
    Ended("mix c.txt", OUTS, &[Write("a.out", 100)]),
    Ended("mix c.txt", OUTS, &[Create("b.out")]),
    Ended("mix c.txt", OUTS, &[Write("b.out", 50)]),
    // what is seen can't be printed
    Ended("mix c.txt", OUTS, &[Print("== Ann awa")]),
    // attended as mixed: all inputs are opened before one is read
    Ended("attend c.txt", OUTS, &[Done(PRINTED)]),
    Ended("attend c.txt", OUTS, &[Open("a.in"), Open("b.in")]),
    Ended("attend first.txt", OUTS, &[Open("b.in")]),
    Ended("attend first.txt", OUTS, &[CUT, Read("b.in")]),
    Ended("attend c.txt", OUTS, &[Write("b.out", 50)]),
    // behind another mixer: its recording is read to its end before an input of a leg is opened
    Ended(CASCADE, FAR, &[Done(PRINTED_BEHIND)]),
    Ended(CASCADE, FAR, &[Open("far.txt"), Open("b.rtp")]),
    Ended(CASCADE, FAR, &[Open("b.rtp"), Open("cy.in")]),
    Ended(CASCADE, FAR, &[Read("b.rtp"), Open("cy.in")]),
    Ended(CASCADE, FAR, &[Read("cy.in")]),
    Ended("cascade b.rtp 9000 odd.txt", FAR, &[ODD, Open("b.rtp")]),
    Ended("cascade cut.in 9000 far.txt", FAR, &[CUT, Read("cy.in")]),
    Ended("cascade b.rtp 9000 tired.txt", FAR, &[TIRED]),
    Ended(CASCADE, FAR, &[Write("x.out", 20)]),
    Ended(CASCADE, FAR, &[Create("y.out")]),
    // also where no leg is behind it
    Ended("cascade b.rtp 9000 c.txt", OUTS, &[Done(PRINTED)]),
];

const NONE: &[&str] = &[];

const SENT: &[&str] = &["sent"];

const SAID: &[&str] = &["said"];

// Of all others.
const OF_OTHERS: [Case<'static>; 27] = [
    // a recording or a script can't be opened
    Ended("read a.in 1001", NONE, &[Open("a.in")]),
    Ended("send two.txt sent 1001 0 0", SENT, &[Open("two.txt")]),
    // or not read
    Ended("read a.in 1001", NONE, &[Read("a.in")]),
    Ended("list a.in", NONE, &[Read("a.in")]),
    Ended("show a.in", NONE, &[Read("a.in")]),
    Ended("times a.in", NONE, &[Read("a.in")]),
    Ended("script a.in 1001", NONE, &[Read("a.in")]),
    Ended("send two.txt sent 1001 0 0", SENT, &[Read("two.txt")]),
    Ended("relay frames sent 1001 0 0", SENT, &[Read("frames")]),
    Ended("channel a.in 1001 said", SAID, &[Read("a.in")]),
    // what is made can't be written
    Ended("send two.txt sent 1001 0 0", SENT, &[Create("sent")]),
    Ended("relay frames sent 1001 0 0", SENT, &[Create("sent")]),
    Ended("channel a.in 1001 said", SAID, &[Create("said")]),
    Ended("send two.txt sent 1001 0 0", SENT, &[Write("sent", 100)]),
    Ended("relay frames sent 1001 0 0", SENT, &[Write("sent", 100)]),
    Ended("channel a.in 1001 said", SAID, &[Write("said", 9)]),
    // or not printed
    Ended("read a.in 1001", NONE, &[Print("| Hey")]),
    Ended("list a.in", NONE, &[Print("0 0 mark 0")]),
    Ended("show a.in", NONE, &[Print("== 1001")]),
    Ended("times a.in", NONE, &[Print("-- began")]),
    Ended("script a.in 1001", NONE, &[Print("0 H")]),
    Ended("make 13", NONE, &[Print("make 1")]),
    Ended("version", NONE, &[Print("rtt")]),
    // without a fault the same are whole
    Ended("send two.txt sent 1001 0 0", SENT, &[Done("")]),
    Ended("relay frames sent 1001 0 0", SENT, &[Done("")]),
    Ended("channel a.in 1001 said", SAID, &[Done("")]),
    Ended("script a.in 1001", NONE, &[Done("0 H\n300 e\n600 y\\n\n")]),
];

// What the runs find.
fn surroundings(alloc: Global) -> Result<MemWorld, Fail> {
    let mut world = MemWorld::new(alloc);
    for conference in &CONFERENCES {
        add_lines(alloc, &mut world, conference.0, conference.1)?;
    }
    add_inputs(alloc, &mut world)?;
    Ok(world)
}

fn add_inputs(alloc: Global, world: &mut MemWorld) -> Result<(), NoMemory> {
    let ann = recording_of(alloc, &SENT_BY_ANN)?;
    world.add_file("a.in", ann.as_slice())?;
    world.add_file("b.in", recording_of(alloc, &SENT_BY_BOB)?.as_slice())?;
    world.add_file("cut.in", front(ann.as_slice(), 60))?;
    world.add_file("b.rtp", recording_of(alloc, &MIXED)?.as_slice())?;
    world.add_file("cy.in", &OPENING)?;
    world.add_file("two.txt", b"0 A\n300 B\n")?;
    world.add_file("frames", FRAMES)
}

// What they leave where nothing fails. What `y.out` has is written down nowhere: it only has to be there.
fn wholes(alloc: Global) -> Result<MemWorld, Fail> {
    let mut world = MemWorld::new(alloc);
    world.add_file("a.out", recording_of(alloc, &TO_ANN)?.as_slice())?;
    world.add_file("b.out", recording_of(alloc, &MIXED)?.as_slice())?;
    world.add_file("x.out", &OPENING)?;
    world.add_file("sent", recording_of(alloc, &TWO_LETTERS)?.as_slice())?;
    world.add_file("said", ANN_FRAMES)?;
    Ok(world)
}

fn first_write(through: usize) -> FailingWrite {
    FailingWrite { write: 1, through }
}

fn let_fail(
    alloc: Global,
    world: &mut MemWorld,
    out: &mut MemSink,
    end: &End<'_>,
) -> Result<(), Fail> {
    match end {
        Done(_) | Refused(_, _) => {}
        Open(name) => world.fail(FailingCall::Open(Path::from_text(alloc, name)?))?,
        Read(name) => world.fail(FailingCall::Read(Path::from_text(alloc, name)?, 1))?,
        Create(name) => world.fail(FailingCall::Create(Path::from_text(alloc, name)?))?,
        Write(name, through) => world.fail(FailingCall::Write(
            Path::from_text(alloc, name)?,
            first_write(*through),
        ))?,
        Print(printed) => out.fail_at(first_write(printed.len()))?,
    }
    Ok(())
}

fn status(end: &End<'_>) -> u8 {
    match end {
        Done(_) => 0,
        Open(_) => 3,
        Read(_) => 4,
        Refused(status, _) => *status,
        Create(_) | Write(_, _) | Print(_) => 7,
    }
}

fn message(alloc: Global, before: &str, name: &str) -> Result<String, Fail> {
    let mut message = String::from_str(alloc, before)?;
    message.push_str(name)?;
    message.push_str("\n")?;
    Ok(message)
}

fn told(alloc: Global, end: &End<'_>) -> Result<String, Fail> {
    match end {
        Done(_) => Ok(String::new(alloc)),
        Open(name) => message(alloc, "cannot open ", name),
        Read(name) => message(alloc, "cannot read ", name),
        Refused(_, told) => Ok(String::from_str(alloc, told)?),
        Create(name) | Write(name, _) => message(alloc, "cannot write ", name),
        Print(_) => message(alloc, "cannot write ", "the output"),
    }
}

fn printed<'a>(end: &End<'a>) -> &'a str {
    match end {
        Done(printed) | Print(printed) => printed,
        _ => "",
    }
}

// How many octets are left of each output before the one that ends the run, and of that; those behind it are not there. None: it
// is not there.
#[derive(Clone, Copy)]
struct Remains<'a> {
    before: Option<usize>,
    last: &'a str,
    of_it: Option<usize>,
}

fn remains_of<'a>(end: &End<'a>) -> Remains<'a> {
    let (before, last, of_it) = match end {
        Done(_) | Print(_) => (Some(usize::MAX), "", None),
        Open(_) | Read(_) | Refused(_, _) => (None, "", None),
        Create(name) => (Some(usize::MAX), *name, None),
        Write(name, most) => (Some(usize::MAX), *name, Some(*most)),
    };
    Remains {
        before,
        last,
        of_it,
    }
}

fn is_left(world: &MemWorld, wholes: &MemWorld, name: &str, most: Option<usize>) -> bool {
    let Some(most) = most else {
        return world.contents(name).is_none();
    };
    match wholes.contents(name) {
        Some(whole) => holds(world, name, front(whole, most)),
        None => world.contents(name).is_some(),
    }
}

fn are_left(world: &MemWorld, wholes: &MemWorld, outputs: &[&str], remains: Remains<'_>) -> bool {
    let mut most = remains.before;
    for output in outputs {
        let is_last = *output == remains.last;
        if is_last {
            most = remains.of_it;
        }
        if !is_left(world, wholes, output, most) {
            return false;
        }
        if is_last {
            most = None;
        }
    }
    true
}

// Whether a run of these words ends with the first of these ends. Where fewer octets are taken than are told, `err` fails.
fn ends_so<R: Threads + Wait + Clock + Copy + Send + Sync + 'static>(
    rt: &R,
    alloc: Global,
    words: &str,
    outputs: &[&str],
    ends: &[End<'_>],
    taken: usize,
) -> Result<bool, Fail> {
    let [end, ..] = ends else {
        return Ok(false);
    };
    let mut world = surroundings(alloc)?;
    let mut out = sink(alloc)?;
    let mut err = sink(alloc)?;
    for end in ends {
        let_fail(alloc, &mut world, &mut out, end)?;
    }
    let told = told(alloc, end)?;
    if taken < told.len() {
        err.fail_at(first_write(taken))?;
    }
    let mut links = MemLinks::new(alloc);
    let ended = status_of(
        rt, alloc, words, &mut world, &mut links, &mut out, &mut err, &StillGate,
    )?;
    let is_told = err.taken() == front(told.as_bytes(), taken);
    let is_printed = out.taken() == printed(end).as_bytes();
    let are_left = are_left(&world, &wholes(alloc)?, outputs, remains_of(end));
    Ok(ended == status(end) && is_told && is_printed && are_left)
}

/// Whether a run of these words ends with the first of these ends, and leaves its outputs as that says, also where nothing can be
/// told of it behind some octets.
pub fn ends_with_first<R: Threads + Wait + Clock + Copy + Send + Sync + 'static>(
    rt: &R,
    alloc: Global,
    words: &str,
    outputs: &[&str],
    ends: &[End<'_>],
) -> Result<bool, Fail> {
    let is_whole = ends_so(rt, alloc, words, outputs, ends, usize::MAX)?;
    Ok(is_whole && ends_so(rt, alloc, words, outputs, ends, 4)?)
}

#[test]
fn each_failing_call_of_a_conference_is_told(rt: HostRuntime) -> Result<(), Fail> {
    let mut world = MemWorld::new(rt.alloc());
    assert_eq!(rt; left(&rt, rt.alloc(), &mut world, &OF_CONFERENCES)?, 0);
    Ok(())
}

#[test]
fn each_failing_call_of_another_command_is_told(rt: HostRuntime) -> Result<(), Fail> {
    let mut world = MemWorld::new(rt.alloc());
    assert_eq!(rt; left(&rt, rt.alloc(), &mut world, &OF_OTHERS)?, 0);
    Ok(())
}

const AN_A: LinkEvent<'static> = LinkEvent(0, Came::Datagram, A);

const CLOSED: LinkEvent<'static> = LinkEvent(0, Came::Closed, b"");

// Both links are closed behind the A, in a call whose legs are counted.
const ALL_COUNTED: Line<'static> = Line(&[AN_A, CLOSED], &[CLOSED], None, "turns 100\ncounts\n");

const NOTHING_COMES: Line<'static> = Line(&[], &[], None, "turns 1\n");

const AN_A_COMES: Line<'static> = Line(&[AN_A], &[], None, "turns 1\n");

const HOUR: Line<'static> = Line(&[AN_A], &[], None, "tick 200\nturns 18000\n");

const NO_LINK: Line<'static> = Line(&[], &[], Some(FailingLink::Link(5002)), "turns 2\n");

const NO_TAKE: Line<'static> = Line(&[], &[], Some(FailingLink::Take(5002, 1)), "turns 2\n");

const NO_GIVE: Line<'static> = Line(&[AN_A], &[], Some(FailingLink::Give(5002, 1)), "turns 2\n");

// A and B of a terminal, C and D of the same that began anew, with another SSRC; and an E of the SSRC before.
const A_OF_5: LinkEvent<'static> = LinkEvent(0, Came::Datagram, b"\x80\xE2\0\0\0\0\0\0\0\0\0\x05A");

const B_OF_5: LinkEvent<'static> = LinkEvent(
    100,
    Came::Datagram,
    b"\x80\x62\0\x01\0\0\0\x64\0\0\0\x05B",
);

const C_OF_6: LinkEvent<'static> = LinkEvent(
    5000,
    Came::Datagram,
    b"\x80\xE2\0\0\0\0\0\0\0\0\0\x06C",
);

const D_OF_6: LinkEvent<'static> = LinkEvent(
    5100,
    Came::Datagram,
    b"\x80\x62\0\x01\0\0\0\x64\0\0\0\x06D",
);

const E_OF_5: &[u8] = b"\x80\x62\0\x02\0\0\0\xC8\0\0\0\x05E";

const FIRST_E: LinkEvent<'static> = LinkEvent(4950, Came::Datagram, E_OF_5);

const EARLY_E: LinkEvent<'static> = LinkEvent(5200, Came::Datagram, E_OF_5);

const LATE_E: LinkEvent<'static> = LinkEvent(6100, Came::Datagram, E_OF_5);

const ENDED: LinkEvent<'static> = LinkEvent(9000, Came::Closed, b"");

// The hole between A and E is waited for no longer when the next one comes.
const A_HOLE: [LinkEvent<'static>; 5] = [A_OF_5, FIRST_E, C_OF_6, D_OF_6, ENDED];

const TOO_EARLY: [LinkEvent<'static>; 6] = [A_OF_5, B_OF_5, C_OF_6, D_OF_6, EARLY_E, ENDED];

const CAME_BACK: [LinkEvent<'static>; 6] = [A_OF_5, B_OF_5, C_OF_6, D_OF_6, LATE_E, ENDED];

const HOLE_FOLLOWED: Line<'static> = Line(&A_HOLE, &[ENDED], None, "follow Ann\n");

const EARLY_FOLLOWED: Line<'static> = Line(&TOO_EARLY, &[ENDED], None, "follow Ann\n");

const BACK_FOLLOWED: Line<'static> = Line(&CAME_BACK, &[ENDED], None, "follow Ann\n");

const NOT_FOLLOWED: Line<'static> = Line(&TOO_EARLY, &[ENDED], None, "counts\n");

const OF_LINKS: [Case<'static>; 11] = [
    // Bob is sent the A and both repeats
    Live(
        &ALL_COUNTED,
        "== Bob aware\nAnn: A\n-- Ann bells 0\n-- packets 3 used 3 refused 0 foreign 0\n-- live closed\n\
-- Ann came 1 text 1 refused 0 foreign 0 senders 1\n-- Bob came 0 text 0 refused 0 foreign 0 senders 0\n",
        "-- board Ann total 1\n-- board Bob total 0\n",
    ),
    // nothing comes, for one turn
    Live(
        &NOTHING_COMES,
        "== Bob aware\nAnn: \n-- Ann bells 0\n-- packets 0 used 0 refused 0 foreign 0\n-- live done\n",
        "-- board Ann total 0\n-- board Bob total 0\n",
    ),
    // an A comes before the only turn, and in an hour of turns
    Live(
        &AN_A_COMES,
        "== Bob aware\nAnn: A\n-- Ann bells 0\n-- packets 1 used 1 refused 0 foreign 0\n-- live done\n",
        "-- board Ann total 1\n-- board Bob total 0\n",
    ),
    Live(
        &HOUR,
        "== Bob aware\nAnn: A\n-- Ann bells 0\n-- packets 3 used 3 refused 0 foreign 0\n-- live done\n",
        "-- board Ann total 1\n-- board Bob total 0\n",
    ),
    // Bob's link can't be opened, his first take fails, and what Ann types can't be given to him
    LinkFault(&NO_LINK),
    LinkFault(&NO_TAKE),
    LinkFault(&NO_GIVE),
    // who begins anew is shown in the leg that is followed, and in no other
    Shows(&HOLE_FOLLOWED, "== Bob aware\nAnn: A\u{fffd}E\u{fffd}CD\n"),
    Shows(&EARLY_FOLLOWED, "== Bob aware\nAnn: AB\u{fffd}CD\n"),
    Shows(&BACK_FOLLOWED, "== Bob aware\nAnn: AB\u{fffd}CD\u{fffd}E\n"),
    Shows(&NOT_FOLLOWED, "== Bob aware\nAnn: \n"),
];

#[test]
fn live_calls_end_as_their_links_say(rt: HostRuntime) -> Result<(), Fail> {
    let mut world = MemWorld::new(rt.alloc());
    assert_eq!(rt; left(&rt, rt.alloc(), &mut world, &OF_LINKS)?, 0);
    Ok(())
}
