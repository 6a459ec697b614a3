//! Writing RTCP packets.
ghost use Rattle.std.specs.Prelude.{◌≡◌, ◌+◌, ◌-◌, ◌*◌, ◌/◌, ◌%◌, ◌<◌, ◌≤◌, ◌∷◌, [], ◌++◌, Some, length, replicate};
ghost use Rattle.std.specs.Int.{w16, w32, to_be_bytes};
ghost use Rattle.rtt_base.specs.Buffers.{Appends};
ghost use Rattle.rtt_base.specs.declared.limits.TheConstants.{MOST_PACKET_OCTETS};
ghost use Rattle.wire_spec.specs.Rtcp.{sdes_written, bye_written};

use rtt_base::{Full, Packet};

/// The first octet of a packet of version 2 that counts one chunk or source.
const OF_ONE: u8 = 129;

/// Appends octets for which there is room.
fn put(octets: &[u8], out: &mut Packet)
    requires { length out.old + length octets.now ≤ MOST_PACKET_OCTETS }
    ensures { out.new ≡ out.old ++ octets.now }
{
    let _ = out.append(octets);
}

/// Octets 0, at most four.
fn put_zeros(count: usize, out: &mut Packet)
    requires few { count ≤ 4 }
    requires room { length out.old + count ≤ MOST_PACKET_OCTETS }
    ensures { out.new ≡ out.old ++ replicate count 0 }
{
    put(&[0; 4][..count], out);
}

/// A source description of one name of at most 255 octets.
fn sdes_octets(ssrc: u32, name: &str) -> Packet
    requires { length name.now ≤ 255 }
    ensures { result ≡ sdes_written ssrc name.now }
{
    let size = name.len();
    let words = (6 + size) / 4 + 1;
    let mut octets = Packet::new();
    put(&[OF_ONE, 202], &mut octets);
    put(&(words as u16).to_be_bytes(), &mut octets);
    put(&ssrc.to_be_bytes(), &mut octets);
    put(&[2, size as u8], &mut octets);
    put(name.as_bytes(), &mut octets);
    put_zeros(4 - (6 + size) % 4, &mut octets);
    octets
}

/// Appends a source description of one name (RFC 3550, section 6.5).
pub fn write_sdes(ssrc: u32, name: &str, out: &mut Packet) -> Result<(), Full>
    requires some { 0 < length name.now }
    requires fits { length name.now ≤ 255 }
    ensures { Appends (Some MOST_PACKET_OCTETS) out.old out.new (sdes_written ssrc name.now) result }
{
    out.append(sdes_octets(ssrc, name).as_slice())
}

/// Appends a leaving of one source (RFC 3550, section 6.6).
pub fn write_bye(ssrc: u32, out: &mut Packet) -> Result<(), Full>
    ensures { Appends (Some MOST_PACKET_OCTETS) out.old out.new (bye_written ssrc) result }
{
    let [a, b, c, d] = ssrc.to_be_bytes();
    out.append(&[OF_ONE, 203, 0, 1, a, b, c, d])
}
