//! Writing a packet.
ghost use Rattle.std.specs.Prelude.{◌≡◌, ◌<◌, ◌≤◌, ◌^◌, ◌++◌, false, [], length, take, option_to_list};
ghost use Rattle.std.specs.Int.{w32, to_be_bytes};
ghost use Rattle.std.specs.List.{flat_map};
ghost use Rattle.rtt_base.specs.Buffers.{Appends};
ghost use Rattle.wire_spec.specs.Rtp.{fixed_header, reading_of, header_size, rtp_written};
ghost use Rattle.rtp_text.specs.Headers.{spelled};

use crate::RtpHead;
use byteorder::{BigEndian, ByteOrder};
use rtt_base::OctetBuffer;

/// The version, 2, in the two highest bits.
const VERSION: u8 = 2 << 6;

/// The octets of a header with a CSRC, and how many of them are written: all, or all but the CSRC.
fn header_octets(head: &RtpHead) -> ([u8; 16], usize)
    requires { head.now.pt < 2 ^ 7 }
    ensures size { result.1 ≡ header_size (spelled head.now) }
    ensures octets { take result.1 result.0 ≡ rtp_written (spelled head.now) [] }
{
    let mut octets = [0; 16];
    octets[0] = VERSION + u8::from(head.csrc.is_some());
    octets[1] = (u8::from(head.marker_bit) << 7) + head.pt;
    BigEndian::write_u16(&mut octets[2..], head.seq);
    BigEndian::write_u32(&mut octets[4..], head.timestamp);
    BigEndian::write_u32(&mut octets[8..], head.ssrc);
    match head.csrc {
        None => (octets, 12),
        Some(source) => {
            BigEndian::write_u32(&mut octets[12..], source);
            (octets, 16)
        }
    }
}

/// Appends a header, without extension and padding. It takes no memory but the buffer's.
pub fn write_header<O: OctetBuffer>(head: &RtpHead, out: &mut O) -> Result<(), O::Refusal>
    requires { head.now.pt < 2 ^ 7 }
    ensures { Appends O.greatest (O.written out.old) (O.written out.new) (rtp_written (spelled head.now) []) result }
{
    let (octets, size) = header_octets(head);
    // of most headers, which name no source, as many octets as is known here
    if size == 12 {
        out.append(&octets[..12])
    } else {
        out.append(&octets[..size])
    }
}

/// Appends a packet of this header and payload, without extension and padding.
pub fn write_rtp<O: OctetBuffer>(
    head: &RtpHead,
    payload: &[u8],
    out: &mut O,
) -> Result<(), O::Refusal>
    requires { head.now.pt < 2 ^ 7 }
    ensures { Appends O.greatest (O.written out.old) (O.written out.new)
        (rtp_written (spelled head.now) payload.now) result }
{
    let before = out.len();
    let headed = write_header(head, out);
    if headed.is_err() {
        return headed;
    }
    let written = out.append(payload);
    if written.is_err() {
        out.truncate(before);
    }
    written
}
