//! The work of `list`: all records of a recording, one line for each.
ghost use Rattle.std.specs.Prelude.{◌≡◌, ◌++◌, OnOk, IfOk, flat_map, length};
ghost use Rattle.rtpdump_io.specs.Reading.{to_come};
ghost use Rattle.rtpdump_io.specs.Calls.{ReadsToEnd};
ghost use Rattle.command_spec.specs.Listing.{record_line, last_line};
ghost use Rattle.recording_views.specs.Lines.{AreLinesOf};

use crate::records::RecordLines;
use itoa::Buffer;
use rtpdump_io::{DumpReader, RecordingFault};
use rtt_base::{Bytes, NoMemory as OutOfMemory, Packet, PayloadTypes};
use rtt_io::Source;
use std::alloc::Global;

/// Appends the last line.
fn append_last(records: u32, out: &mut Bytes) -> Result<(), OutOfMemory>
    ensures { OnOk result (out.new ≡ out.old ++ last_line records) }
{
    let mut digits = Buffer::new();
    out.append(b"-- records ")?;
    out.append(digits.format(records).as_bytes())?;
    out.append(b"\n")
}

/// Appends the lines of all records that are still to come, and answers how many came.
fn append_records<S: Source>(
    reader: &mut DumpReader<S>,
    payload_types: PayloadTypes,
    out: &mut Bytes,
) -> Result<u32, RecordingFault>
    ensures lines { S.tells → OnOk result (out.new ≡ out.old ++ flat_map (record_line payload_types) (to_come S.left reader.old).items) }
    ensures records { S.tells → IfOk result (λ records. records ≡ length (to_come S.left reader.old).items) }
    ensures reads { ReadsToEnd S.tells S.left S.faults S.name reader.old reader.new result }
{
    let mut octets = Packet::new();
    let mut lines = RecordLines::new(payload_types);
    let mut records = 0;
    while let Some(item) = reader.next_record(&mut octets)? {
        lines.make(item, octets.as_slice());
        out.append(lines.line())?;
        records += 1;
    }
    Ok(records)
}

/// What `list` prints of a recording: a line for each record, with the payload types `payload_types` of text, and last
/// how many there are. `Dump` tells why the recording can't be read to its end: with the fault `Read` the source
/// failed. It takes no memory but that of its answer.
#[tactic(auto, unfolding(command_spec::specs::Listing::list_view))]
pub fn list_records<S: Source>(
    alloc: Global,
    reader: &mut DumpReader<S>,
    payload_types: PayloadTypes,
) -> Result<Bytes, RecordingFault>
    ensures listed { S.tells → IfOk result (AreLinesOf payload_types (to_come S.left reader.old)) }
    ensures reads { ReadsToEnd S.tells S.left S.faults S.name reader.old reader.new result }
{
    let mut out = Bytes::new(alloc);
    let records = append_records(reader, payload_types, &mut out)?;
    append_last(records, &mut out)?;
    Ok(out)
}
