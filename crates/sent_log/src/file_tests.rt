ghost use Rattle.std.specs.Prelude.{◌≡◌, ◌<◌, [], length, IfOk};
ghost use Rattle.packetizer.specs.OutputSettings.{AreSettings};
ghost use Rattle.sent_log.specs.States.{AreLawful};

use crate::{SentFiles, SentLog, in_memory};
use packetizer::PacketizerSettings;
use rtt_base::{NoMemory, Path, PayloadTypes};
use rtt_io::{FailingWrite, MemSink};
use std::alloc::Global;
use std::process::Abort;
use std::test::Fail;

/// The stream of a mixer to a terminal that is sent no generations.
fn settings() -> PacketizerSettings
    ensures settings { AreSettings result }
    ensures generations { result.generations ≡ 0 }
{
    PacketizerSettings {
        ssrc: 9000,
        seq: 100,
        timestamp: 5000,
        payload_types: PayloadTypes { t140: 98, red: 100 },
        generations: 0,
    }
}

/// To one terminal so many packets of no text were sent, one each millisecond.
fn log_of(
    alloc: Global,
    stream: PacketizerSettings,
    packets: u32,
    text: &[u8],
) -> Result<SentLog, NoMemory>
    requires settings { AreSettings stream }
    requires generations { stream.generations ≡ 0 }
    requires few { packets < 1000000 }
    requires text { text.now ≡ [] }
    ensures one { IfOk result (λ log. length log ≡ 1) }
    ensures lawful { IfOk result AreLawful }
{
    let mut log = SentLog::new(alloc, 1)?;
    log.add(alloc, stream, vec![in alloc; 1001u32]?)?;
    for number in 0..packets {
        log.send(0, number, u64::from(number), 0, text)?;
    }
    Ok(log)
}

/// The octets of the first record: its head, and a packet without text (RFC 3550, section 5.1).
const FIRST: [u8; 24] = *b"\0\x18\0\x10\0\0\0\0\x81\xE2\0\x64\0\0\x13\x88\0\0\x23\x28\0\0\x03\xE9";

/// Those of the last of 6,000, at 5,999 ms.
const LAST: [u8; 24] =
    *b"\0\x18\0\x10\0\0\x17\x6F\x81\xE2\x17\xD3\0\0\x2A\xF7\0\0\x23\x28\0\0\x03\xE9";

/// A recording of so many octets has these records first and last.
fn expect_ends(rt: &impl Abort, octets: &[u8], len: usize) {
    assert_eq!(rt; octets.len(), len);
    assert!(rt; octets.get(44..68) == Some(FIRST.as_slice()));
    assert!(rt; octets.ends_with(&LAST));
}

/// The recording is written as these octets; where the second write fails the sink took a page of them, and some of the
/// next one.
fn expect_written(
    rt: &impl Abort,
    alloc: Global,
    files: &mut SentFiles,
    octets: &[u8],
) -> Result<(), NoMemory>
    requires { 0 < length files.old }
    ensures { files.new ≡ files.old }
{
    let mut sink = MemSink::new(alloc, Path::from_text(alloc, "a.rtp")?);
    assert!(rt; files.write_to(0, &mut sink).is_ok());
    assert!(rt; sink.taken() == octets);
    let mut failing = MemSink::new(alloc, Path::from_text(alloc, "b.rtp")?);
    failing.fail_at(FailingWrite {
        write: 2,
        through: 10,
    })?;
    assert!(rt; files.write_to(0, &mut failing).is_err());
    let taken = failing.taken();
    assert!(rt; 60_000 < taken.len());
    assert!(rt; taken.len() < 65_600);
    assert!(rt; octets.starts_with(taken));
    Ok(())
}

#[test]
fn a_recording_of_three_pages_is_written_twice(rt: HostRuntime) -> Result<(), Fail> {
    let alloc = rt.alloc();
    let log = log_of(alloc, settings(), 6000, b"")?;
    let whole = in_memory(alloc, &log, 0)?;
    expect_ends(&rt, whole.as_slice(), 144_044);
    let mut files = SentFiles::new(alloc, log)?;
    expect_written(&rt, alloc, &mut files, whole.as_slice())?;
    expect_written(&rt, alloc, &mut files, whole.as_slice())?;
    Ok(())
}
