//! Writing of recordings.
ghost use Rattle.std.specs.Prelude.{◌≡◌, ◌<◌, ◌≤◌, ◌+◌, ◌++◌, length, map, flat_map, All, IfSome, IsOk, OnOk, OnErr};
ghost use Rattle.std.specs.Int.{w16, w32, to_be_bytes};
ghost use Rattle.rtt_base.specs.Buffers.{Appends};
ghost use Rattle.wire_spec.specs.Dump.{dump_opening, record_written, dump_written};
ghost use Rattle.rtpdump_io.specs.Writing.{Extends, RecordHolds, timed};

use byteorder::{BigEndian, ByteOrder};
use rtt_base::{Bytes, NoMemory, OctetBuffer, Record};

/// The line and the head: from 127.0.0.1, port 5004, at no time.
pub(crate) const OPENING: [u8; 44] =
    *b"#!rtpplay1.0 127.0.0.1/5004\n\0\0\0\0\0\0\0\0\x7F\0\0\x01\x13\x8C\0\0";

/// Appends the line and the head with which a recording begins, or refuses and leaves `out` as before: only where 44 octets
/// pass its greatest length, or for want of memory.
pub fn write_opening<O: OctetBuffer>(out: &mut O) -> Result<(), O::Refusal>
    ensures ok { OnOk result (O.written out.new ≡ O.written out.old ++ dump_opening) }
    ensures err { OnErr result (O.written out.new ≡ O.written out.old) }
    ensures fits { IfSome O.greatest (λ most. length (O.written out.old) + 44 ≤ most → IsOk result) }
{
    out.append(&OPENING)
}

/// Appends one packet, of 1 to 65527 octets, that came at `at` (milliseconds), or refuses and leaves `out` as before: only
/// where 8 octets more than the packet's pass its greatest length, or for want of memory.
pub fn write_record<O: OctetBuffer>(at: u32, packet: &[u8], out: &mut O) -> Result<(), O::Refusal>
    requires some { 0 < length packet.now }
    requires fits { length packet.now ≤ 65527 }
    ensures ok { OnOk result (O.written out.new ≡ O.written out.old ++ record_written (at, packet.now)) }
    ensures err { OnErr result (O.written out.new ≡ O.written out.old) }
    ensures fits { IfSome O.greatest (λ most.
        length (O.written out.old) + (8 + length packet.now) ≤ most → IsOk result) }
{
    append_record(at, packet, out)
}

/// Appends a whole recording, of packets of 1 to 65527 octets. After `NoMemory` `out` is as before.
pub fn write_dump(records: &[Record], out: &mut Bytes) -> Result<(), NoMemory>
    requires { All RecordHolds records.now }
    ensures ok { OnOk result (out.new ≡ out.old ++ dump_written (map timed records.now)) }
    ensures err { OnErr result (out.new ≡ out.old) }
{
    let before = out.len();
    let written = append_dump(records, out);
    if written.is_err() {
        out.truncate(before);
    }
    written
}

// Appends a whole recording, or a part of it where memory runs out.
fn append_dump(records: &[Record], out: &mut Bytes) -> Result<(), NoMemory>
    requires { All RecordHolds records.now }
    ensures ok { OnOk result (out.new ≡ out.old ++ dump_written (map timed records.now)) }
    ensures kept { Extends out.old out.new }
{
    write_opening(out)?;
    append_records(records, out)
}

// Appends records, or some of them where memory runs out.
fn append_records(records: &[Record], out: &mut Bytes) -> Result<(), NoMemory>
    requires { All RecordHolds records.now }
    ensures ok { OnOk result (out.new ≡ out.old ++ flat_map record_written (map timed records.now)) }
    ensures kept { Extends out.old out.new }
{
    for record in records {
        append_record(record.at, record.bytes.as_slice(), out)?;
    }
    Ok(())
}

// Appends a record, or refuses and leaves `out` as before.
fn append_record<O: OctetBuffer>(at: u32, packet: &[u8], out: &mut O) -> Result<(), O::Refusal>
    requires { length packet.now ≤ 65527 }
    ensures { Appends O.greatest (O.written out.old) (O.written out.new) (record_written (at, packet.now)) result }
{
    let before = out.len();
    let headed = out.append(&head_octets(at, packet.len() as u16));
    if headed.is_err() {
        return headed;
    }
    let written = out.append(packet);
    if written.is_err() {
        out.truncate(before);
    }
    written
}

// The head of a record with a packet of so many octets.
fn head_octets(at: u32, size: u16) -> [u8; 8]
    requires { size ≤ 65527 }
    ensures { result ≡ to_be_bytes w16 (size + 8) ++ (to_be_bytes w16 size ++ to_be_bytes w32 at) }
{
    let mut octets = [0; 8];
    BigEndian::write_u16(&mut octets, size + 8);
    BigEndian::write_u16(&mut octets[2..], size);
    BigEndian::write_u32(&mut octets[4..], at);
    octets
}
