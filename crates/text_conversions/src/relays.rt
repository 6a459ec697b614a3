//! Sends frames.
ghost use Rattle.std.specs.Prelude.{◌≡◌, Ok, None, IfOk, IfErr};
ghost use Rattle.file_spec.specs.Frames.{read_frames};
ghost use Rattle.file_spec.specs.declared.frames.FrameRefusal.{FrameRefusal};
ghost use Rattle.packetizer.specs.SenderSettings.{AreSettings};
ghost use Rattle.command_spec.specs.Frames.{lines_of, relay};
ghost use Rattle.text_conversions.specs.Scripts.{sending_of};
ghost use Rattle.text_conversions.specs.RelayAnswers.{IsFrameCause, IsRelayCause};

use crate::{FramePosition, RelayFault, SendFault, first_frame, send_script};
use file_spec::frame_limits::FRAME_HEAD_OCTETS;
use file_spec::{FrameKind, FrameRefusal};
use packetizer::SenderSettings;
use rtt_base::Bytes;
use script_text::{Script, ScriptLine};
use std::alloc::Global;

fn refused(byte: u64, kind: FrameKind) -> RelayFault
    ensures { result ≡ RelayFault.Refused (record { offset = byte; kind = kind }) }
{
    RelayFault::Refused(FrameRefusal { offset: byte, kind })
}

/// The frames of these octets as lines, each with the byte at which it begins as its number.
fn read_lines(alloc: Global, octets: &[u8]) -> Result<Script, RelayFault>
    ensures lines { IfOk result (λ script. script ≡ lines_of (read_frames octets.now).frames) }
    ensures whole { IfOk result (λ script. (read_frames octets.now).fault ≡ None) }
    ensures cause { IfErr result (λ fault. IsFrameCause fault (read_frames octets.now).fault) }
{
    let mut script = Script::new(alloc);
    let mut place = FramePosition { byte: 0, latest: 0 };
    let mut rest = octets;
    while !rest.is_empty() {
        let view = match first_frame(place, rest) {
            Ok(Some(view)) => view,
            Ok(None) => return Err(refused(place.byte, FrameKind::EndsInside)),
            Err(kind) => return Err(refused(place.byte, kind)),
        };
        let line = ScriptLine {
            line: place.byte as u32,
            at: view.at,
            text: view.text,
        };
        let Ok(()) = script.push(line) else {
            return Err(RelayFault::NoMemory);
        };
        let size = FRAME_HEAD_OCTETS + view.text.len();
        place = FramePosition {
            byte: place.byte + size as u64,
            latest: view.at,
        };
        rest = &rest[size..];
    }
    Ok(script)
}

/// The recording of what a sender sends that is given the text of each frame at its moment. All frames are read before the first
/// one is sent.
pub fn relay_frames(
    alloc: Global,
    frames: &[u8],
    settings: SenderSettings,
) -> Result<Bytes, RelayFault>
    requires { AreSettings settings }
    ensures sent { IfOk result (λ recording. relay (sending_of settings) frames.now ≡ Ok recording) }
    ensures cause { IfErr result (λ fault. IsRelayCause fault (relay (sending_of settings) frames.now)) }
{
    let script = match read_lines(alloc, frames) {
        Ok(script) => script,
        Err(fault) => return Err(fault),
    };
    match send_script(alloc, &script, settings) {
        Ok(recording) => Ok(recording),
        Err(SendFault::Full { line }) => Err(refused(u64::from(line), FrameKind::Full)),
        Err(SendFault::NoMemory) => Err(RelayFault::NoMemory),
    }
}
