//! Where in a recording the next record goes.
ghost use Rattle.std.specs.Prelude.{◌≡◌, ◌+◌, ◌-◌, ◌≤◌, true, length};
ghost use Rattle.rtt_base.specs.declared.limits.TheConstants.{MOST_PACKET_OCTETS};
ghost use Rattle.wire_spec.specs.declared.limits.TheConstants.{LAST_RECORD_MOMENT, MOST_RECORDING_OCTETS};
ghost use Rattle.recorded_links.specs.Places.{TellsRoom, IsAfter, IsBegun};

use crate::places::FilePosition;
use wire_spec::limits::{LAST_RECORD_MOMENT, MOST_RECORDING_OCTETS};

/// How many octets a head has.
const HEAD_OCTETS: u32 = 44;

/// How many octets the record of these octets has.
fn record_size(octets: &[u8]) -> u32
    requires { length octets.now ≤ MOST_PACKET_OCTETS }
    ensures { result ≡ 8 + length octets.now }
{
    8 + octets.len() as u32
}

impl FilePosition {
    /// That of a file in which nothing stands yet.
    pub(crate) fn at(begins: u64) -> FilePosition
        ensures is { IsBegun begins result }
        ensures size { result.size ≡ 44 }
    {
        FilePosition {
            begins,
            size: HEAD_OCTETS,
        }
    }

    /// The moment `at` in the file.
    pub(crate) fn moment(self, at: u64) -> u64
        ensures { result ≡ at - self.begins }
    {
        at.saturating_sub(self.begins)
    }

    /// Whether a record of these octets has room, and a moment that a recording has.
    pub(crate) fn has_room(self, at: u64, octets: &[u8]) -> bool
        requires { length octets.now ≤ MOST_PACKET_OCTETS }
        ensures tells { TellsRoom self at octets.now result }
        ensures small { result ≡ true → self.size + (8 + length octets.now) ≤ MOST_RECORDING_OCTETS }
        ensures early { result ≡ true → at - self.begins ≤ LAST_RECORD_MOMENT }
    {
        let end = self.size + record_size(octets);
        let moment = self.moment(at);
        end <= MOST_RECORDING_OCTETS && moment <= u64::from(LAST_RECORD_MOMENT)
    }

    /// That behind one more record of these octets, for which there is room.
    pub(crate) fn after(self, octets: &[u8]) -> FilePosition
        requires few { length octets.now ≤ MOST_PACKET_OCTETS }
        requires room { self.size + (8 + length octets.now) ≤ MOST_RECORDING_OCTETS }
        ensures { IsAfter self octets.now result }
    {
        FilePosition {
            begins: self.begins,
            size: self.size + record_size(octets),
        }
    }
}
