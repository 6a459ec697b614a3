ghost use Rattle.std.specs.Prelude.{◌≡◌, length};
ghost use Rattle.recorded_links.specs.Begun.{recordings_of};

use crate::backlogs::WaitingRecords;
use crate::batches::Batch;
use crate::noters::Noter;
use crate::starts::begin_track;
use crate::tracks::Track;
use crate::{
    BeginFault, Call, CallRecording, LinksReturn, MemJournals, RecordedLinks, Way, stem_of,
};
use conf_text::{Form, read_conf};
use file_spec::Conference;
use link_io::{Came, FailingLink, LinkIn, LinkOut, Links, MemLinks, PlannedTake};
use rtt_base::{Bytes, NoMemory, Packet, Path, PayloadTypes};
use rtt_io::{FailingCall, FailingWrite};
use std::alloc::Global;
use std::marker::Brand;
use std::sync::atomic::AtomicU64;
use std::sync::{Arc, Wait};
use std::test::Fail;
use std::thread::Threads;

/// Ann and Bob.
const CONFERENCE: &[u8] =
    b"mixer 9000 0 0\nleg Ann aware 1001 5001 127.0.0.1:6001\nleg Bob aware 1002 5002 127.0.0.1:6002\nturns 600\n";

/// A packet of text of SSRC 1001.
const TEXT: &[u8] = b"\x80\xE2\0\x05\0\0\0\x64\0\0\x03\xE9Hi";

/// An empty report of SSRC 1001.
const REPORT: &[u8] = b"\x80\xC9\0\x01\0\0\x03\xE9";

/// 1.5 s after the begin of 1970.
const START: u64 = 1500;

/// The line and the head of a recording that begins so.
const HEAD: &[u8] =
    b"#!rtpplay1.0 127.0.0.1/5004\n\0\0\0\x01\0\x07\xA1\x20\x7F\0\0\x01\x13\x8C\0\0";

/// What came of Ann: a text at 100 and a report at 250.
const ANN_IN: &[u8] =
    b"\0\x16\0\x0E\0\0\0\x64\x80\xE2\0\x05\0\0\0\x64\0\0\x03\xE9Hi\0\x10\0\0\0\0\0\xFA\x80\xC9\0\x01\0\0\x03\xE9";

/// What Ann was given: a text at 1000.
const ANN_OUT: &[u8] = b"\0\x16\0\x0E\0\0\x03\xE8\x80\xE2\0\x05\0\0\0\x64\0\0\x03\xE9Hi";

fn conference(alloc: Global) -> Result<Conference, NoMemory> {
    match read_conf(alloc, CONFERENCE, Form::Links) {
        Ok(conference) => Ok(conference),
        Err(_) => Err(NoMemory),
    }
}

/// Links at which this comes: of Ann a text, a datagram that is too long, and a report. What Ann is given first is not taken.
fn links(alloc: Global) -> Result<MemLinks, NoMemory> {
    let mut links = MemLinks::new(alloc);
    links.plan(5001, PlannedTake::new(alloc, 100, Came::Datagram, TEXT)?)?;
    links.plan(5001, PlannedTake::new(alloc, 200, Came::Large, b"")?)?;
    links.plan(5001, PlannedTake::new(alloc, 250, Came::Datagram, REPORT)?)?;
    links.plan(
        5001,
        PlannedTake::new(alloc, FIVE_HOURS, Came::Datagram, TEXT)?,
    )?;
    links.fail(FailingLink::Give(5001, 1))?;
    Ok(links)
}

/// Whether a head and these records, and nothing else, lie under a name.
fn holds(
    alloc: Global,
    journals: &MemJournals,
    name: &str,
    records: &[u8],
) -> Result<bool, NoMemory> {
    let mut all = Bytes::new(alloc);
    all.append(HEAD)?;
    all.append(records)?;
    Ok(match journals.contents(name) {
        Some(found) => found == all.as_slice(),
        None => false,
    })
}

/// The moment at which five hours have gone by (milliseconds).
const FIVE_HOURS: u32 = 18_000_000;

/// The line and the head of a recording that begins five hours behind the others, with the text that came then.
const BEHIND: &[u8] =
    b"#!rtpplay1.0 127.0.0.1/5004\n\0\0\x46\x51\0\x07\xA1\x20\x7F\0\0\x01\x13\x8C\0\0\
    \0\x16\0\x0E\0\0\0\0\x80\xE2\0\x05\0\0\0\x64\0\0\x03\xE9Hi";

/// How a call goes.
#[derive(Clone, Copy)]
enum Course {
    /// All is taken, and Ann is given a text at 1000.
    Whole,
    /// So it is, and five hours later another text of Ann is taken.
    Long,
    /// No link is opened.
    Unopened,
}

/// A call whose recordings are written into these journals.
fn call<R: Threads + Wait + Copy + Drop + Send + 'static>(
    rt: R,
    alloc: Global,
    journals: MemJournals,
    course: Course,
) -> Result<LinksReturn<MemLinks, MemJournals>, BeginFault> {
    let (Ok(conference), Ok(below)) = (conference(alloc), links(alloc)) else {
        return Err(BeginFault::NoMemory);
    };
    let legs = conference.legs.as_slice();
    let recording = CallRecording::begin(rt, alloc, journals, "call", legs, START, 20)?;
    call_over::<Brand, R>(recording, below, course)
}

/// A call over these links that is recorded so.
fn call_over<C: Call + Send + 'static, R: Threads + Wait + Copy + Drop + Send + 'static>(
    recording: CallRecording<MemJournals, R>,
    below: MemLinks,
    course: Course,
) -> Result<LinksReturn<MemLinks, MemJournals>, BeginFault>
    requires recordings { C.recordings ≡ recordings_of recording }
    requires before { C.before ≡ length (⟦<MemLinks as Links>⟧.leads below) }
{
    let mut links: RecordedLinks<MemLinks, MemJournals, R, C> = RecordedLinks::open(
        recording, below,
    )?;
    match course {
        Course::Whole => run(&mut links, 1000),
        Course::Long => run(&mut links, u64::from(FIVE_HOURS)),
        Course::Unopened => {}
    }
    Ok(links.finish())
}

/// Takes all that comes up to this moment (milliseconds), and gives Ann a report and a text at 1000.
fn run<L: Links>(links: &mut L, last: u64) {
    let Ok((mut ann, mut ann_out)) = links.link(5001, "127.0.0.1:6001") else {
        return;
    };
    let mut out = Packet::new();
    for _ in 0..5 {
        let _taken = ann.take(&mut out, 0);
    }
    links.pause_until(1000);
    let beat = links.beat();
    let _refused = ann_out.give(&beat, REPORT);
    let _given = ann_out.give(&beat, TEXT);
    links.pause_until(last);
    let _taken = ann.take(&mut out, 0);
    links.done_in(ann);
    links.done_out(ann_out);
}

/// Whether a fault is that the file of this name could not be made.
fn is_name<T>(answer: &Result<T, BeginFault>, name: &str) -> bool {
    match answer {
        Err(BeginFault::Failed(found)) => found.as_str() == name,
        _ => false,
    }
}

#[test]
fn what_came_and_what_was_given_is_in_the_files(rt: HostRuntime) -> Result<(), Fail> {
    let alloc = rt.alloc();
    let done = call(rt, alloc, MemJournals::new(rt.alloc()), Course::Whole)?;
    assert!(rt; done.failed?.is_none());
    assert!(rt; holds(rt.alloc(), &done.journals, "call.Ann.in.1.rtp", ANN_IN)?);
    assert!(rt; holds(rt.alloc(), &done.journals, "call.Ann.out.1.rtp", ANN_OUT)?);
    assert!(rt; holds(rt.alloc(), &done.journals, "call.Bob.in.1.rtp", b"")?);
    assert!(rt; holds(rt.alloc(), &done.journals, "call.Bob.out.1.rtp", b"")?);
    Ok(())
}

#[test]
fn a_call_of_five_hours_has_two_files_a_link(rt: HostRuntime) -> Result<(), Fail> {
    let alloc = rt.alloc();
    let done = call(rt, alloc, MemJournals::new(rt.alloc()), Course::Long)?;
    assert!(rt; done.failed?.is_none());
    assert!(rt; holds(rt.alloc(), &done.journals, "call.Ann.in.1.rtp", ANN_IN)?);
    assert!(rt; done.journals.contents("call.Ann.in.2.rtp") == Some(BEHIND));
    assert!(rt; done.journals.contents("call.Ann.in.3.rtp").is_none());
    assert!(rt; holds(rt.alloc(), &done.journals, "call.Ann.out.1.rtp", ANN_OUT)?);
    assert!(rt; done.journals.contents("call.Ann.out.2.rtp").is_none());
    Ok(())
}

#[test]
fn a_disk_that_is_full_ends_one_recording(rt: HostRuntime) -> Result<(), Fail> {
    let alloc = rt.alloc();
    let mut journals = MemJournals::new(rt.alloc());
    let write = FailingWrite {
        write: 2,
        through: 5,
    };
    let name = Path::from_text(rt.alloc(), "call.Ann.in.1.rtp")?;
    journals.fail(FailingCall::Write(name, write))?;
    let done = call(rt, alloc, journals, Course::Whole)?;
    assert!(rt;
        done.failed?
            .is_some_and(|name| name.as_str() == "call.Ann.in.1.rtp")
    );
    assert!(rt;
        holds(
            rt.alloc(),
            &done.journals,
            "call.Ann.in.1.rtp",
            b"\0\x16\0\x0E\0"
        )?
    );
    assert!(rt; holds(rt.alloc(), &done.journals, "call.Ann.out.1.rtp", ANN_OUT)?);
    Ok(())
}

#[test]
fn a_file_that_is_there_is_not_written_over(rt: HostRuntime) -> Result<(), Fail> {
    let alloc = rt.alloc();
    let mut journals = MemJournals::new(rt.alloc());
    journals.add_file("call.Ann.out.1.rtp", b"mine")?;
    let answer = call(rt, alloc, journals, Course::Whole);
    assert!(rt; is_name(&answer, "call.Ann.out.1.rtp"));
    Ok(())
}

#[test]
fn a_call_without_links_has_files_without_records(rt: HostRuntime) -> Result<(), Fail> {
    let alloc = rt.alloc();
    let done = call(rt, alloc, MemJournals::new(rt.alloc()), Course::Unopened)?;
    assert!(rt; done.failed?.is_none());
    assert!(rt; holds(rt.alloc(), &done.journals, "call.Ann.in.1.rtp", b"")?);
    assert!(rt; holds(rt.alloc(), &done.journals, "call.Bob.out.1.rtp", b"")?);
    Ok(())
}

/// So many octets came at once; of such datagrams 258 have room on a shelf.
const LARGE: [u8; 4000] = [7; 4000];

/// A recording of what came of Ann, who notes, and what waits.
type BegunTrack<R> = (Track<MemJournals>, Noter<R>, Arc<WaitingRecords, Global>);

fn begun<R: Wait + Copy + Drop>(
    rt: R,
    alloc: Global,
    journals: &mut MemJournals,
) -> Result<BegunTrack<R>, BeginFault> {
    let (Ok(clock), Ok(waiting)) = (
        Arc::new(alloc, AtomicU64::new(0)),
        Arc::new(alloc, WaitingRecords::new()),
    ) else {
        return Err(BeginFault::NoMemory);
    };
    let Ok(stem) = stem_of(alloc, "call", "Ann", Way::In) else {
        return Err(BeginFault::NoMemory);
    };
    let (track, noter) = begin_track(
        rt,
        alloc,
        journals,
        5001,
        Way::In,
        stem,
        START,
        0,
        PayloadTypes { t140: 98, red: 100 },
        &clock,
        &waiting,
    )?;
    Ok((track, noter, waiting))
}

fn size_of(batch: &Option<Batch>) -> u64 {
    match batch {
        Some(batch) => batch.size(),
        None => 0,
    }
}

/// For how many octets counts what waits of 300 datagrams, and once that was taken away what waits of one more.
fn waits<R: Wait + Copy + Drop>(rt: R, alloc: Global) -> Result<[u64; 2], BeginFault> {
    let mut journals = MemJournals::new(alloc);
    let (mut track, mut noter, _waiting) = begun(rt, alloc, &mut journals)?;
    let track = &mut track;
    for _ in 0..300u32 {
        noter.note(0, &LARGE);
    }
    let first = size_of(&track.shelf.take(&rt, &mut track.pass));
    noter.note(0, &LARGE);
    let next = size_of(&track.shelf.take(&rt, &mut track.pass));
    Ok([first, next])
}

#[test]
fn behind_what_has_no_room_nothing_is_noted(rt: HostRuntime) -> Result<(), Fail> {
    let alloc = rt.alloc();
    assert!(rt; waits(rt, alloc)? == [258 * 4064, 0]);
    Ok(())
}

/// Whether something could not be noted of 5000 datagrams, which are written 200 at a time.
fn is_over_behind_many<R: Wait + Copy + Drop>(rt: R, alloc: Global) -> Result<bool, BeginFault> {
    let mut journals = MemJournals::new(alloc);
    let (mut track, mut noter, waiting) = begun(rt, alloc, &mut journals)?;
    for _ in 0..25u32 {
        for _ in 0..200u32 {
            noter.note(0, &LARGE);
        }
        track.write(&rt, &mut journals, &waiting);
    }
    Ok(noter.is_over())
}

#[test]
fn what_was_written_waits_no_more(rt: HostRuntime) -> Result<(), Fail> {
    let alloc = rt.alloc();
    assert!(rt; !is_over_behind_many(rt, alloc)?);
    Ok(())
}

/// What lies there of a recording of which two texts and a report were written one after the other.
fn written_in_turn<R: Wait + Copy + Drop>(rt: R, alloc: Global) -> Result<MemJournals, BeginFault> {
    let mut journals = MemJournals::new(alloc);
    let (mut track, mut noter, waiting) = begun(rt, alloc, &mut journals)?;
    noter.note(100, TEXT);
    track.write(&rt, &mut journals, &waiting);
    noter.note(101, TEXT);
    track.write(&rt, &mut journals, &waiting);
    noter.note(102, REPORT);
    track.write(&rt, &mut journals, &waiting);
    let _whole = track.recorder.end(&mut journals);
    Ok(journals)
}

/// The records of these.
const IN_TURN: &[u8] =
    b"\0\x16\0\x0E\0\0\0\x64\x80\xE2\0\x05\0\0\0\x64\0\0\x03\xE9Hi\0\x16\0\x0E\0\0\0\x65\x80\xE2\0\x05\0\0\0\x64\0\0\x03\xE9Hi\
    \0\x10\0\0\0\0\0\x66\x80\xC9\0\x01\0\0\x03\xE9";

#[test]
fn what_is_noted_behind_a_write_is_in_the_file(rt: HostRuntime) -> Result<(), Fail> {
    let alloc = rt.alloc();
    let journals = written_in_turn(rt, alloc)?;
    assert!(rt; holds(rt.alloc(), &journals, "call.Ann.in.1.rtp", IN_TURN)?);
    Ok(())
}
