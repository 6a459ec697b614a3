//! Writing of frames.
ghost use Rattle.std.specs.Prelude.{◌≡◌, ◌≤◌, ◌++◌, length, OnOk, OnErr};
ghost use Rattle.std.specs.Int.{w16, w32, to_be_bytes};
ghost use Rattle.file_spec.specs.Frames.{frame_written};
ghost use Rattle.text_conversions.specs.Fronts.{Extends};

use byteorder::{BigEndian, ByteOrder};
use file_spec::frame_limits::FRAME_HEAD_OCTETS;
use rtt_base::{Bytes, NoMemory, Text};

/// Appends a frame of this moment (milliseconds). After `NoMemory` `out` is as before.
pub fn write_frame(at: u32, text: &Text, out: &mut Bytes) -> Result<(), NoMemory>
    ensures ok { OnOk result (out.new ≡ out.old ++ frame_written (record { at = at; text = text.now })) }
    ensures err { OnErr result (out.new ≡ out.old) }
{
    let before = out.len();
    let written = append_frame(at, text.as_slice(), out);
    if written.is_err() {
        out.truncate(before);
    }
    written
}

// Appends a frame, or its head alone where memory runs out.
fn append_frame(at: u32, text: &[u8], out: &mut Bytes) -> Result<(), NoMemory>
    requires { length text.now ≤ 65535 }
    ensures ok { OnOk result (out.new ≡ out.old ++ frame_written (record { at = at; text = text.now })) }
    ensures kept { Extends out.old out.new }
{
    out.append(&head_octets(at, text.len() as u16))?;
    out.append(text)
}

// The head of a frame with a text of so many octets.
fn head_octets(at: u32, size: u16) -> [u8; FRAME_HEAD_OCTETS]
    ensures { result ≡ to_be_bytes w32 at ++ to_be_bytes w16 size }
{
    let mut octets = [0; FRAME_HEAD_OCTETS];
    BigEndian::write_u32(&mut octets, at);
    BigEndian::write_u16(&mut octets[4..], size);
    octets
}
