//! What lies in a recording of what came where the program is killed before its next full round.
use crate::backlogs::WaitingRecords;
use crate::starts::begin_track;
use crate::tracks::Round;
use crate::{BeginFault, MemJournals, Way, stem_of};
use rtt_base::{Bytes, NoMemory, PayloadTypes};
use std::alloc::Global;
use std::sync::atomic::AtomicU64;
use std::sync::{Arc, Wait};
use std::test::Fail;

/// The line and the head of a recording, at the begin of 1970.
const HEAD: &[u8] = b"#!rtpplay1.0 127.0.0.1/5004\n\0\0\0\0\0\0\0\0\x7F\0\0\x01\x13\x8C\0\0";

/// How many octets stand before the datagram in a record.
const RECORD_HEAD: usize = 8;

// Records, all at 0, of packets of SSRC 1001 with two redundant blocks, of which each number is 100 ms behind the one before.

/// 4, without text.
const SILENT_4: &[u8] =
    b"\0\x1D\0\x15\0\0\0\0\x80\x64\0\x04\0\0\x01\x90\0\0\x03\xE9\xE2\x03\x20\0\xE2\x01\x90\0\x62";

/// 5, with the letter H.
const LETTER_5: &[u8] =
    b"\0\x1E\0\x16\0\0\0\0\x80\x64\0\x05\0\0\x01\xF4\0\0\x03\xE9\xE2\x03\x20\0\xE2\x01\x90\0\x62H";

/// 6, which has the letter of 5 again.
const REPEAT_6: &[u8] =
    b"\0\x1E\0\x16\0\0\0\0\x80\x64\0\x06\0\0\x02\x58\0\0\x03\xE9\xE2\x03\x20\0\xE2\x01\x90\x01\x62H";

/// 7, which has the letter of 5 again.
const REPEAT_7: &[u8] =
    b"\0\x1E\0\x16\0\0\0\0\x80\x64\0\x07\0\0\x02\xBC\0\0\x03\xE9\xE2\x03\x20\x01\xE2\x01\x90\0\x62H";

/// 8, with the letter i.
const LETTER_8: &[u8] =
    b"\0\x1E\0\x16\0\0\0\0\x80\x64\0\x08\0\0\x03\x20\0\0\x03\xE9\xE2\x03\x20\0\xE2\x01\x90\0\x62i";

/// 5, with the letter é.
const ACCENT_5: &[u8] =
    b"\0\x1F\0\x17\0\0\0\0\x80\x64\0\x05\0\0\x01\xF4\0\0\x03\xE9\xE2\x03\x20\0\xE2\x01\x90\0\x62\xC3\xA9";

/// 6, which has that again.
const ACCENT_6: &[u8] =
    b"\0\x1F\0\x17\0\0\0\0\x80\x64\0\x06\0\0\x02\x58\0\0\x03\xE9\xE2\x03\x20\0\xE2\x01\x90\x02\x62\xC3\xA9";

/// 7 of SSRC 1002, which has the letter of 5 again.
const OTHER_7: &[u8] =
    b"\0\x1E\0\x16\0\0\0\0\x80\x64\0\x07\0\0\x02\xBC\0\0\x03\xEA\xE2\x03\x20\x01\xE2\x01\x90\0\x62H";

/// 7, of another payload type.
const FOREIGN_7: &[u8] = b"\0\x14\0\x0C\0\0\0\0\x80\x60\0\x07\0\0\x02\xBC\0\0\x03\xE9";

/// A BYE.
const BYE: &[u8] = b"\0\x10\0\0\0\0\0\0\x81\xCB\0\x01\0\0\x03\xE9";

/// An empty report.
const REPORT: &[u8] = b"\0\x10\0\0\0\0\0\0\x80\xC9\0\x01\0\0\x03\xE9";

/// The datagram of a record.
fn datagram(record: &[u8]) -> &[u8] {
    match record.get(RECORD_HEAD..) {
        Some(datagram) => datagram,
        None => &[],
    }
}

/// What lies there where the datagrams of these records came, a short round was behind each, and the program was killed then.
fn left<R: Wait + Copy + Drop>(
    rt: R,
    alloc: Global,
    way: Way,
    records: &[&[u8]],
) -> Result<MemJournals, BeginFault> {
    let mut journals = MemJournals::new(alloc);
    let (Ok(clock), Ok(waiting)) = (
        Arc::new(alloc, AtomicU64::new(0)),
        Arc::new(alloc, WaitingRecords::new()),
    ) else {
        return Err(BeginFault::NoMemory);
    };
    let Ok(stem) = stem_of(alloc, "call", "Ann", Way::In) else {
        return Err(BeginFault::NoMemory);
    };
    let payload_types = PayloadTypes { t140: 98, red: 100 };
    let (mut track, mut noter) = begin_track(
        rt,
        alloc,
        &mut journals,
        5001,
        way,
        stem,
        0,
        0,
        payload_types,
        &clock,
        &waiting,
    )?;
    for record in records {
        noter.note(0, datagram(record));
        let is_due = Round::Short.takes(0, waiting.due());
        track.write_in(&rt, &mut journals, &waiting, is_due);
    }
    // what was written is flushed, and what waits on the shelf is gone with the program
    let _whole = track.recorder.end(&mut journals);
    Ok(journals)
}

/// Whether of what came these records and no others lie there where the program was killed.
fn leaves<R: Wait + Copy + Drop>(
    rt: R,
    alloc: Global,
    came: &[&[u8]],
    there: &[&[u8]],
) -> Result<bool, Fail> {
    let journals = left(rt, alloc, Way::In, came)?;
    let mut all = Bytes::new(alloc);
    all.append(HEAD)?;
    for record in there {
        all.append(record)?;
    }
    Ok(journals.contents("call.Ann.in.1.rtp") == Some(all.as_slice()))
}

#[test]
fn repeats_of_a_letter_wait_and_the_letter_does_not(rt: HostRuntime) -> Result<(), Fail> {
    let alloc = rt.alloc();
    let came = [SILENT_4, LETTER_5, REPEAT_6, REPEAT_7];
    assert!(rt; leaves(rt, alloc, &came, &[SILENT_4, LETTER_5])?);
    Ok(())
}

#[test]
fn the_next_letter_is_behind_the_repeats(rt: HostRuntime) -> Result<(), Fail> {
    let alloc = rt.alloc();
    let came = [SILENT_4, LETTER_5, REPEAT_6, REPEAT_7, LETTER_8];
    assert!(rt; leaves(rt, alloc, &came, &came)?);
    Ok(())
}

#[test]
fn a_letter_that_was_lost_is_there_by_its_repeat(rt: HostRuntime) -> Result<(), Fail> {
    let alloc = rt.alloc();
    // 7 may have what 5 had, since the run begins with 6
    let came = [SILENT_4, REPEAT_6, REPEAT_7];
    assert!(rt; leaves(rt, alloc, &came, &came)?);
    // so does the last one, where two were lost
    let came = [SILENT_4, REPEAT_7];
    assert!(rt; leaves(rt, alloc, &came, &came)?);
    Ok(())
}

#[test]
fn the_first_packets_are_there(rt: HostRuntime) -> Result<(), Fail> {
    let alloc = rt.alloc();
    let came = [REPEAT_6, REPEAT_7];
    assert!(rt; leaves(rt, alloc, &came, &came)?);
    Ok(())
}

#[test]
fn what_is_no_packet_of_text_is_there(rt: HostRuntime) -> Result<(), Fail> {
    let alloc = rt.alloc();
    let came = [SILENT_4, LETTER_5, REPEAT_6, BYE];
    assert!(rt; leaves(rt, alloc, &came, &came)?);
    let came = [SILENT_4, LETTER_5, REPEAT_6, FOREIGN_7];
    assert!(rt; leaves(rt, alloc, &came, &came)?);
    let came = [SILENT_4, LETTER_5, REPEAT_6, OTHER_7];
    assert!(rt; leaves(rt, alloc, &came, &came)?);
    Ok(())
}

#[test]
fn a_report_is_there_and_ends_no_run(rt: HostRuntime) -> Result<(), Fail> {
    let alloc = rt.alloc();
    let came = [SILENT_4, LETTER_5, REPORT, REPEAT_6, REPEAT_7];
    assert!(rt; leaves(rt, alloc, &came, &[SILENT_4, LETTER_5, REPORT])?);
    Ok(())
}

#[test]
fn repeats_of_a_letter_beyond_ascii_wait_too(rt: HostRuntime) -> Result<(), Fail> {
    let alloc = rt.alloc();
    let came = [SILENT_4, ACCENT_5, ACCENT_6];
    assert!(rt; leaves(rt, alloc, &came, &[SILENT_4, ACCENT_5])?);
    Ok(())
}

/// How many octets lie there of 70 datagrams of 1000 octets that were given.
fn octets_given<R: Wait + Copy + Drop>(rt: R, alloc: Global) -> Result<usize, BeginFault> {
    let record = [7; 1008];
    let records = [record.as_slice(); 70];
    let journals = left(rt, alloc, Way::Out, &records)?;
    Ok(match journals.contents("call.Ann.in.1.rtp") {
        Some(octets) => octets.len(),
        None => 0,
    })
}

#[test]
fn of_what_was_given_no_more_than_64_kib_wait(rt: HostRuntime) -> Result<(), Fail> {
    let alloc = rt.alloc();
    // 62 of these count for more than 65536 octets
    assert_eq!(rt; octets_given(rt, alloc)?, HEAD.len() + 62 * 1008);
    Ok(())
}
