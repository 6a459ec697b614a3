ghost use Rattle.std.specs.Prelude.{◌≡◌, ◌≤◌, Bool, IfOk};
ghost use Rattle.leg.specs.Gives.{is_over};

use crate::{Leg, LegStep};
use receiver::{EarSettings, TextCut};
use rtpdump_io::DumpFault;
use rtt_base::{Bytes, Chunk, NoMemory, PayloadTypes};
use rtt_io::SteadySource;
use std::alloc::Global;
use std::test::Fail;
use wire_spec::DumpKind;

const ANN: EarSettings = EarSettings {
    ssrc: 1001,
    payload_types: PayloadTypes { t140: 98, red: 100 },
    wait: 1000,
    long: false,
    cut: TextCut::Long,
};

// The line and the head of a recording.
const OPENING: [u8; 44] = *b"#!rtpplay1.0 127.0.0.1/5004\n\0\0\0\0\0\0\0\0\x7F\0\0\x01\x13\x8C\0\0";

// Records at 0, 300 and 600 ms: Ann types A, then B, then nothing, and each packet repeats the two before it.
const LETTERS: [u8; 92] =
    *b"\0\x1E\0\x16\0\0\0\0\x80\xE4\0\0\0\0\0\0\0\0\x03\xE9\xE2\xFF\xFC\0\xE2\xFF\xFC\0\x62A\
    \0\x1F\0\x17\0\0\x01\x2C\x80\x64\0\x01\0\0\x01\x2C\0\0\x03\xE9\xE2\xFF\xFC\0\xE2\x04\xB0\x01\x62AB\
    \0\x1F\0\x17\0\0\x02\x58\x80\x64\0\x02\0\0\x02\x58\0\0\x03\xE9\xE2\x09\x60\x01\xE2\x04\xB0\x01\x62AB";

// A record at 1500 ms: the sixth packet, C, which repeats two without text.
const SIXTH: [u8; 30] =
    *b"\0\x1E\0\x16\0\0\x05\xDC\x80\x64\0\x05\0\0\x05\xDC\0\0\x03\xE9\xE2\x09\x60\0\xE2\x04\xB0\0\x62C";

fn recording(alloc: Global, first: &[u8], rest: &[u8]) -> Result<Bytes, NoMemory> {
    let mut recording = Bytes::new(alloc);
    recording.append(&OPENING)?;
    recording.append(first)?;
    recording.append(rest)?;
    Ok(recording)
}

fn ann(alloc: Global, recording: Bytes, limit: u32) -> Result<Leg<SteadySource>, NoMemory>
    requires { limit ≤ 4194304 }
    ensures { IfOk result (λ leg. is_over leg ≡ Bool.false) }
{
    match Leg::with_limit(alloc, SteadySource::new(recording), ANN, limit) {
        Ok(leg) => Ok(leg),
        Err(_) => Err(NoMemory),
    }
}

// Whether the chunk is this text, from this moment on.
fn is_said(chunk: &Chunk, text: &[u8], ready: u64) -> bool {
    chunk.ready == ready && chunk.text.as_slice() == text
}

#[test]
fn each_text_comes_at_its_moment(rt: HostRuntime) -> Result<(), Fail> {
    let recording = recording(rt.alloc(), &LETTERS, b"")?;
    let mut leg = ann(rt.alloc(), recording, 4194304)?;
    let mut chunk = Chunk::default();
    assert!(rt; leg.step(&mut chunk) == Ok(LegStep::Chunk));
    assert!(rt; is_said(&chunk, b"A", 0));
    assert!(rt; leg.step(&mut chunk) == Ok(LegStep::Chunk));
    assert!(rt; is_said(&chunk, b"B", 300));
    assert!(rt; leg.step(&mut chunk) == Ok(LegStep::More));
    assert!(rt; leg.step(&mut chunk) == Ok(LegStep::End));
    assert!(rt; leg.ended());
    Ok(())
}

#[test]
fn a_repeated_text_waits_for_the_lost_packet(rt: HostRuntime) -> Result<(), Fail> {
    let recording = recording(rt.alloc(), &LETTERS[..30], &LETTERS[61..])?;
    let mut leg = ann(rt.alloc(), recording, 4194304)?;
    let mut chunk = Chunk::default();
    assert!(rt; leg.step(&mut chunk) == Ok(LegStep::Chunk));
    assert!(rt; leg.step(&mut chunk) == Ok(LegStep::More));
    assert!(rt; leg.step(&mut chunk) == Ok(LegStep::Chunk));
    assert!(rt; is_said(&chunk, b"B", 1600));
    assert!(rt; leg.step(&mut chunk) == Ok(LegStep::End));
    Ok(())
}

#[test]
fn a_marker_stands_where_text_is_missing(rt: HostRuntime) -> Result<(), Fail> {
    let recording = recording(rt.alloc(), &LETTERS[..30], &SIXTH)?;
    let mut leg = ann(rt.alloc(), recording, 4194304)?;
    let mut chunk = Chunk::default();
    assert!(rt; leg.step(&mut chunk) == Ok(LegStep::Chunk));
    assert!(rt; leg.step(&mut chunk) == Ok(LegStep::More));
    assert!(rt; leg.step(&mut chunk) == Ok(LegStep::Chunk));
    assert!(rt; is_said(&chunk, "\u{FFFD}".as_bytes(), 2500));
    assert!(rt; leg.step(&mut chunk) == Ok(LegStep::Chunk));
    assert!(rt; is_said(&chunk, b"C", 2500));
    Ok(())
}

#[test]
fn a_recording_over_the_limit_ends_in_a_fault(rt: HostRuntime) -> Result<(), Fail> {
    let recording = recording(rt.alloc(), &LETTERS, b"")?;
    let mut leg = ann(rt.alloc(), recording, 80)?;
    let mut chunk = Chunk::default();
    assert!(rt; leg.step(&mut chunk) == Ok(LegStep::Chunk));
    let fault = DumpFault {
        offset: 74,
        kind: DumpKind::TooLarge,
    };
    assert!(rt; leg.step(&mut chunk) == Err(fault));
    assert!(rt; leg.ended());
    Ok(())
}
