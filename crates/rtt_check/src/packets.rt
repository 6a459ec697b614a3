//! How many packets a recording has.
ghost use Rattle.std.specs.Prelude.{◌≡◌, List, ℕ, IfOk};
ghost use Rattle.rtpdump_io.specs.Answers.{record_of};
ghost use Rattle.rtpdump_io.specs.Calls.{ReadsToEnd};
ghost use Rattle.rtpdump_io.specs.Reading.{to_come};
ghost use Rattle.report_spec.specs.Checking.{packets_in, packets_of};

use rtpdump_io::{DumpItem, DumpReader, RecordingFault};
use rtt_base::Packet;
use rtt_io::Source;

/// 1 for a packet, 0 for a record of RTCP or the end.
fn packets_of(item: DumpItem) -> u32
    ensures { (octets : List ℕ) → result ≡ packets_of (record_of item octets).what }
{
    match item {
        DumpItem::Packet { .. } | DumpItem::Cut { .. } | DumpItem::Large { .. } => 1,
        DumpItem::Rtcp { .. } | DumpItem::End => 0,
    }
}

/// Reads a recording to its end, and answers how many packets came.
pub(crate) fn count_packets<S: Source>(reader: &mut DumpReader<S>) -> Result<u32, RecordingFault>
    ensures packets { S.tells → IfOk result (λ packets. packets ≡ packets_in (to_come S.left reader.old).items) }
    ensures reads { ReadsToEnd S.tells S.left S.faults S.name reader.old reader.new result }
{
    let mut octets = Packet::new();
    let mut packets = 0;
    while let Some(item) = reader.next_record(&mut octets)? {
        packets += packets_of(item);
    }
    Ok(packets)
}
