//! The octets of the head and of the records of a file.
ghost use Rattle.std.specs.Prelude.{◌≡◌, ◌+◌, ◌*◌, ◌/◌, ◌%◌, ◌≤◌, ◌++◌, length, IfOk, OnOk, OnErr};
ghost use Rattle.std.specs.Int.{w16, w32, to_be_bytes};
ghost use Rattle.rtt_base.specs.declared.limits.TheConstants.{MOST_PACKET_OCTETS};
ghost use Rattle.command_spec.specs.Streams as streams;
ghost use Rattle.live_spec.specs.Recorded.{entry_written, head_written, packet_size};
ghost use Rattle.rtpdump_io.specs.Writing.{Extends};

use byteorder::{BigEndian, ByteOrder};
use rtt_base::{Bytes, NoMemory};
use std::alloc::Global;

/// The line of a recording from 127.0.0.1, port 5004.
const LINE: [u8; 28] = *b"#!rtpplay1.0 127.0.0.1/5004\n";
/// What stands behind the moment in its head.
const ADDRESS: [u8; 8] = *b"\x7F\0\0\x01\x13\x8C\0\0";
/// How many seconds have one number: they go round.
const ROUND: u64 = 1 << 32;

/// Whether octets are RTCP, by the second one (RFC 5761, section 4).
pub(crate) fn is_rtcp(octets: &[u8]) -> bool
    ensures { result ≡ streams.is_rtcp octets.now }
{
    octets
        .get(1)
        .is_some_and(|&kind| (192..=223).contains(&kind))
}

/// A moment, in milliseconds since 1970, as seconds and microseconds.
fn clock_octets(t: u64) -> [u8; 8]
    ensures { result ≡ to_be_bytes w32 (t / 1000) ++ to_be_bytes w32 (t % 1000 * 1000) }
{
    let mut octets = [0; 8];
    BigEndian::write_u32(&mut octets, (t / 1000 % ROUND) as u32);
    BigEndian::write_u32(&mut octets[4..], (t % 1000 * 1000) as u32);
    octets
}

/// Appends a head, or a part of it where memory runs out.
fn append_pieces(t: u64, out: &mut Bytes) -> Result<(), NoMemory>
    ensures ok { OnOk result (out.new ≡ out.old ++ head_written t) }
    ensures kept { Extends out.old out.new }
{
    out.append(&LINE)?;
    out.append(&clock_octets(t))?;
    out.append(&ADDRESS)
}

/// Appends the line and the head of a file that begins at `t`, in milliseconds since 1970. After `NoMemory` `out` is as before.
fn append_head(t: u64, out: &mut Bytes) -> Result<(), NoMemory>
    ensures ok { OnOk result (out.new ≡ out.old ++ head_written t) }
    ensures err { OnErr result (out.new ≡ out.old) }
{
    let before = out.len();
    let written = append_pieces(t, out);
    if written.is_err() {
        out.truncate(before);
    }
    written
}

/// The size that a record has for its packet: 0 says that it is one of RTCP.
fn packet_size(octets: &[u8]) -> u16
    requires { length octets.now ≤ MOST_PACKET_OCTETS }
    ensures { result ≡ packet_size octets.now }
{
    if is_rtcp(octets) {
        0
    } else {
        octets.len() as u16
    }
}

/// The head of a record with so many octets.
fn record_head(at: u32, size: u16, packet: u16) -> [u8; 8]
    requires { size ≤ MOST_PACKET_OCTETS }
    ensures { result ≡ to_be_bytes w16 (size + 8) ++ (to_be_bytes w16 packet ++ to_be_bytes w32 at) }
{
    let mut octets = [0; 8];
    BigEndian::write_u16(&mut octets, size + 8);
    BigEndian::write_u16(&mut octets[2..], packet);
    BigEndian::write_u32(&mut octets[4..], at);
    octets
}

/// Appends the record of octets that came, or were given, at the moment `at` of their file (milliseconds). After `NoMemory` `out` is as
/// before.
pub(crate) fn append_record(at: u32, octets: &[u8], out: &mut Bytes) -> Result<(), NoMemory>
    requires { length octets.now ≤ MOST_PACKET_OCTETS }
    ensures ok { OnOk result (out.new ≡ out.old ++ entry_written at octets.now) }
    ensures err { OnErr result (out.new ≡ out.old) }
{
    let before = out.len();
    out.append(&record_head(at, octets.len() as u16, packet_size(octets)))?;
    let written = out.append(octets);
    if written.is_err() {
        out.truncate(before);
    }
    written
}

/// The head of a file that begins at `t`, in milliseconds since 1970.
pub(crate) fn head_piece(alloc: Global, t: u64) -> Result<Bytes, NoMemory>
    ensures { IfOk result (λ piece. piece ≡ head_written t) }
{
    let mut piece = Bytes::new(alloc);
    append_head(t, &mut piece)?;
    Ok(piece)
}
