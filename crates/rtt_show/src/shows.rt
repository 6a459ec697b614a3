//! The work of `show`: all records of a recording are read once, and then shown.
ghost use Rattle.std.specs.Prelude.{◌≡◌, ◌<◌, ◌≤◌, ◌^◌, ◌&&◌, not, Bool, None, [], IfErr, IfOk, IfSome, OnOk};
ghost use Rattle.rtpdump_io.specs.Reading.{is_ended, is_of_source, to_come, source_of};
ghost use Rattle.rtpdump_io.specs.Faults.{HasCause};
ghost use Rattle.command_spec.specs.Showing.{if_no_recording, is_no_recording};
ghost use Rattle.report_spec.specs.Showing.{recording_view};
ghost use Rattle.rtt_show.specs.Finds.{IsFound, IsSmall};
ghost use Rattle.rtt_show.specs.Gathers.{Gathered, RecordingIsRefused};

use crate::findings::Findings;
use crate::views::show_found;
use rtpdump_io::{DumpFault, DumpItem, DumpReader, RecordingFault};
use rtt_base::{Bytes, Packet, PayloadTypes};
use rtt_io::Source;
use std::alloc::Global;
use wire_spec::DumpKind;

/// Whether a fault of this kind ends what is shown: then there is a recording, and its source did not fail.
fn is_end(kind: DumpKind) -> bool
    ensures { result ≡ (not (is_of_source kind) && not (is_no_recording kind)) }
{
    match kind {
        DumpKind::NotDump | DumpKind::Read => false,
        DumpKind::BadLength | DumpKind::EndsInside | DumpKind::TooLong | DumpKind::TooLarge => true,
    }
}

/// Takes all records that are still to come, and answers the fault that ends them, if one does.
pub fn gather<S: Source>(
    alloc: Global,
    reader: &mut DumpReader<S>,
    found: &mut Findings,
) -> Result<Option<DumpFault>, RecordingFault>
    requires open { is_ended reader.old ≡ Bool.false }
    requires nothing { IsFound found.old [] }
    requires small { IsSmall 0 found.old }
    ensures gathered { IfOk result (Gathered S.tells (to_come S.left reader.old) found.new) }
    ensures payload_types { found.new.payload_types ≡ found.old.payload_types }
    ensures refused { S.tells → IfErr result (RecordingIsRefused (to_come S.left reader.old)) }
    ensures read { IfErr result (HasCause S.faults reader.old reader.new) }
    ensures never_falls { S.faults (source_of reader.old) ≤ S.faults (source_of reader.new) }
    ensures same_name { S.name (source_of reader.new) ≡ S.name (source_of reader.old) }
{
    let mut octets = Packet::new();
    loop {
        let item = match reader.next(&mut octets) {
            Ok(item) => item,
            Err(fault) => {
                if is_end(fault.kind) {
                    return Ok(Some(fault));
                }
                return Err(RecordingFault::Dump(fault));
            }
        };
        if let DumpItem::End = item {
            return Ok(None);
        }
        let Ok(()) = found.take(alloc, item, octets.as_slice()) else {
            return Err(RecordingFault::NoMemory);
        };
    }
}

/// What `show` prints of a recording that began at `start`, in milliseconds since 1970, where these are the payload types of
/// text: what was typed in each stream, what else is there, the fault behind which it can't be read, if there is one, and the
/// start, where it is not 0. `Dump` is answered only of octets that are no recording, `NotDump`, or where the source failed,
/// `Read`.
pub fn show_recording<S: Source>(
    alloc: Global,
    reader: &mut DumpReader<S>,
    start: Option<u64>,
    payload_types: PayloadTypes,
) -> Result<Bytes, RecordingFault>
    requires open { is_ended reader.old ≡ Bool.false }
    requires start { IfSome start (λ start. start < 2 ^ 48) }
    ensures shown { S.tells → IfOk result (λ printed. printed
        ≡ recording_view payload_types start (to_come S.left reader.old)) }
    ensures accepted { S.tells → OnOk result (if_no_recording (to_come S.left reader.old).fault ≡ None) }
    ensures refused { S.tells → IfErr result (RecordingIsRefused (to_come S.left reader.old)) }
    ensures read { IfErr result (HasCause S.faults reader.old reader.new) }
    ensures never_falls { S.faults (source_of reader.old) ≤ S.faults (source_of reader.new) }
    ensures same_name { S.name (source_of reader.new) ≡ S.name (source_of reader.old) }
{
    let mut found = Findings::new(alloc, payload_types);
    let end = match gather(alloc, reader, &mut found) {
        Ok(end) => end,
        Err(fault) => return Err(fault),
    };
    match show_found(alloc, &found, start, end) {
        Ok(printed) => Ok(printed),
        Err(_) => Err(RecordingFault::NoMemory),
    }
}
