use crate::{MemJournals, RecordFault, Recorder, Way, file_name, stem_of};
use rtt_base::limits::MOST_PACKET_OCTETS;
use rtt_base::{NoMemory, Path};
use rtt_io::{FailingCall, FailingWrite};
use std::alloc::Global;
use std::test::Fail;

/// The last moment that a recording has (milliseconds): four hours.
const LAST: u64 = 14_400_000;

/// The line of a recording.
const LINE: &[u8] = b"#!rtpplay1.0 127.0.0.1/5004\n";

/// A recording that began 1.5 s after the begin of 1970, in which entries of so many octets were noted at these moments.
fn recorded(alloc: Global, moments: &[u64], octets: &[u8]) -> Result<MemJournals, NoMemory> {
    let mut journals = MemJournals::new(alloc);
    let stem = stem_of(alloc, "calls/one", "Ann", Way::In)?;
    let Ok(mut recorder) = Recorder::begin(&mut journals, alloc, stem, 1500) else {
        return Err(NoMemory);
    };
    for at in moments {
        if octets.len() > MOST_PACKET_OCTETS || *at > 2 * LAST {
            return Err(NoMemory);
        }
        match recorder.note(&mut journals, *at, octets) {
            Ok(()) => {}
            Err(RecordFault::Failed) => {}
            Err(RecordFault::NoMemory) => return Err(NoMemory),
        }
    }
    let _whole = recorder.end(&mut journals);
    Ok(journals)
}

/// Whether a file begins with the line and the head of this moment, and has these records behind.
fn holds(journals: &MemJournals, name: &str, moment: &[u8], records: &[u8]) -> bool {
    match journals.contents(name) {
        Some(found) => {
            found.get(..28) == Some(LINE)
                && found.get(28..36) == Some(moment)
                && found.get(44..) == Some(records)
        }
        None => false,
    }
}

#[test]
fn names_are_prefix_leg_way_and_number(rt: HostRuntime) -> Result<(), Fail> {
    let stem = stem_of(rt.alloc(), "calls/one", "Ann", Way::Out)?;
    assert!(rt; stem.as_str() == "calls/one.Ann.out.");
    assert!(rt; file_name(rt.alloc(), stem.as_str(), 12)?.as_str() == "calls/one.Ann.out.12.rtp");
    Ok(())
}

#[test]
fn a_moment_behind_four_hours_begins_the_next_file(rt: HostRuntime) -> Result<(), Fail> {
    let moments: &[u64] = &[0, LAST, LAST + 1, LAST + 101];
    let journals = recorded(rt.alloc(), moments, b"\x80\xE2")?;
    let first = b"\0\x0A\0\x02\0\0\0\0\x80\xE2\0\x0A\0\x02\0\xDB\xBA\0\x80\xE2";
    assert!(rt;
        holds(
            &journals,
            "calls/one.Ann.in.1.rtp",
            b"\0\0\0\x01\0\x07\xA1\x20",
            first
        )
    );
    let next = b"\0\x0A\0\x02\0\0\0\0\x80\xE2\0\x0A\0\x02\0\0\0\x64\x80\xE2";
    assert!(rt;
        holds(
            &journals,
            "calls/one.Ann.in.2.rtp",
            b"\0\0\x38\x41\0\x07\xA5\x08",
            next
        )
    );
    assert!(rt; journals.contents("calls/one.Ann.in.3.rtp").is_none());
    Ok(())
}

/// How many octets a file has.
fn size(journals: &MemJournals, name: &str) -> usize {
    match journals.contents(name) {
        Some(found) => found.len(),
        None => 0,
    }
}

/// The sizes of the files of a recording of 1100 entries of 4000 octets.
fn sizes(alloc: Global) -> Result<[usize; 3], NoMemory> {
    let moments = [0; 1100];
    let journals = recorded(alloc, &moments, &[7; 4000])?;
    Ok([
        size(&journals, "calls/one.Ann.in.1.rtp"),
        size(&journals, "calls/one.Ann.in.2.rtp"),
        size(&journals, "calls/one.Ann.in.3.rtp"),
    ])
}

#[test]
fn a_file_has_at_most_4_mib(rt: HostRuntime) -> Result<(), Fail> {
    assert!(rt; sizes(rt.alloc())? == [44 + 1046 * 4008, 44 + 54 * 4008, 0]);
    Ok(())
}

/// A record of two octets of RTCP at moment 0.
const RECORD: &[u8] = b"\0\x0A\0\0\0\0\0\0\x80\xC9";

/// What lies there of a recording in which three reports were noted and flushed, then four more, of which the write broke off behind so
/// many octets.
fn broken(alloc: Global, through: usize) -> Result<MemJournals, NoMemory> {
    let mut journals = MemJournals::new(alloc);
    let name = Path::from_text(alloc, "calls/one.Ann.in.1.rtp")?;
    let write = FailingWrite { write: 3, through };
    journals.fail(FailingCall::Write(name, write))?;
    let stem = stem_of(alloc, "calls/one", "Ann", Way::In)?;
    let Ok(mut recorder) = Recorder::begin(&mut journals, alloc, stem, 1500) else {
        return Err(NoMemory);
    };
    for _ in 0..3u32 {
        let _pending = recorder.note(&mut journals, 0, b"\x80\xC9");
    }
    let first = recorder.flush(&mut journals);
    for _ in 0..4u32 {
        let _pending = recorder.note(&mut journals, 0, b"\x80\xC9");
    }
    let second = recorder.flush(&mut journals);
    if first.is_err() || second != Err(RecordFault::Failed) || !recorder.is_over() {
        return Err(NoMemory);
    }
    Ok(journals)
}

/// Whether a file has a head and then so many octets, which are records of the report one behind the other.
fn has_front(journals: &MemJournals, octets: usize) -> bool {
    let Some(found) = journals.contents("calls/one.Ann.in.1.rtp") else {
        return false;
    };
    let Some(records) = found.get(44..) else {
        return false;
    };
    for record in records.chunks(10) {
        if !RECORD.starts_with(record) {
            return false;
        }
    }
    records.len() == octets
}

#[test]
fn what_is_pending_is_written_by_one_call(rt: HostRuntime) -> Result<(), Fail> {
    assert!(rt; has_front(&broken(rt.alloc(), 0)?, 30));
    assert!(rt; has_front(&broken(rt.alloc(), 4)?, 34));
    assert!(rt; has_front(&broken(rt.alloc(), 25)?, 55));
    Ok(())
}
