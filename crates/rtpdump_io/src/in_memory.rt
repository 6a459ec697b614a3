//! Recordings that lie in memory, as they are written.
ghost use Rattle.std.specs.Prelude.{◌+◌, ◌≤◌, length, IfSome};
ghost use Rattle.rtpdump_io.specs.InMemory.{IsDump, IsBehindOpening, IsSplit, TellsFirst};

use crate::record_heads::RecordHead;
use crate::writers::OPENING;

/// The records of a written recording: the octets behind its line and its head.
pub fn records_of(recording: &[u8]) -> &[u8]
    requires { IsDump recording.now }
    ensures { IsBehindOpening result.now recording.now }
{
    &recording[OPENING.len()..]
}

/// The moment (milliseconds) and the packet of the first of these records, and what follows it; none where there are no
/// octets.
#[inline(always)]
pub fn next_record(records: &[u8]) -> Option<(u32, &[u8], &[u8])>
    ensures record { TellsFirst records.now result (λ x. IsSplit x.0 x.1.now x.2.now) }
    ensures shorter { IfSome result (λ x. length x.2.now + 8 ≤ length records.now) }
{
    let (octets, behind) = records.split_first_chunk()?;
    let head = RecordHead::from_octets(octets);
    if head.is_short() {
        return None;
    }
    let (packet, more) = behind.split_at_checked(head.body_size())?;
    Some((head.time, packet, more))
}
