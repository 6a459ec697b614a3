//! Sends the lines of a script.
ghost use Rattle.std.specs.Prelude.{◌≡◌, ◌<◌, ◌^◌, None, IfOk, IfErr};
ghost use Rattle.packetizer.specs.SenderSettings.{AreSettings};
ghost use Rattle.command_spec.specs.Frames.{AreTyped};
ghost use Rattle.text_conversions.specs.Scripts.{full_line, recording, usual_settings};
ghost use Rattle.text_conversions.specs.SendAnswers.{IsCause};

use crate::SendFault;
use crate::recorders::Recorder;
use command_spec::limits::USUAL_INTERVAL;
use file_spec::limits::{USUAL_GENERATIONS, USUAL_RED, USUAL_T140};
use packetizer::SenderSettings;
use rtt_base::{Bytes, PayloadTypes};
use script_text::Script;
use std::alloc::Global;

/// By this millisecond all text of lines was sent and repeated: the last one is typed before 2^24 ms, and each of the at
/// most 16384 octets that wait then takes at most four packets, a second apart.
const LAST: u64 = 83_000_000;

/// The stream of this SSRC as it is usually sent: with the usual payload types, a packet at most each 300 ms, and each text
/// repeated twice. Its first packet has the sequence number `seq`, and the media time 0 the timestamp `timestamp`.
pub fn usual_settings(ssrc: u32, seq: u16, timestamp: u32) -> SenderSettings
    ensures settings { AreSettings result }
    ensures usual { result ≡ usual_settings ssrc seq timestamp }
{
    SenderSettings {
        ssrc,
        seq,
        timestamp,
        payload_types: PayloadTypes {
            t140: USUAL_T140,
            red: USUAL_RED,
        },
        interval: USUAL_INTERVAL,
        generations: USUAL_GENERATIONS,
    }
}

/// The recording of what a sender sends that is given the texts of these lines and asked at each millisecond, up to the
/// end, where nothing waits and nothing is to be repeated. It takes time in the lines and packets, not in the
/// milliseconds.
pub fn send_script(
    alloc: Global,
    script: &Script,
    settings: SenderSettings,
) -> Result<Bytes, SendFault>
    requires settings { AreSettings settings }
    requires lines { AreTyped script.now }
    ensures sent { IfOk result (λ octets. octets ≡ recording settings script.now) }
    ensures room { IfOk result (λ octets. full_line settings script.now ≡ None) }
    ensures cause { IfErr result (λ fault. IsCause fault (full_line settings script.now)) }
{
    let mut recorder = Recorder::new(alloc, settings)?;
    for index in 0..script.len() {
        let line = script.line(index);
        recorder.pass_to(u64::from(line.at))?;
        if recorder.type_line(line).is_err() {
            return Err(SendFault::Full { line: line.line });
        }
    }
    recorder.pass_to(LAST)?;
    Ok(recorder.octets)
}
