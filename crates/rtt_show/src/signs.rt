//! What the payloads of packets show of their type.
ghost use Rattle.std.specs.Prelude.{◌≡◌, ◌+◌, ◌<◌, ◌≤◌, ◌^◌, []};
ghost use Rattle.command_spec.specs.Streams.{first_type, has_redundant};
ghost use Rattle.rtpdump_io.specs.InMemory.{HasRecords};
ghost use Rattle.rtt_show.specs.Records.{OfRecords};
ghost use Rattle.rtt_show.specs.Signs.{AreSigns, SignsMore};

use crate::record_kinds::{has_octets, payload_of};
use crate::sums::one_if;
use rtpdump_io::next_record;

/// How many packets there are, the type in the first header of the first payload, whether F is 1 in the first header
/// of a payload, and how many payloads are not empty.
#[derive(Clone, Copy)]
pub(crate) struct Signs {
    pub packets: u64,
    pub inside: u8,
    pub redundant: bool,
    pub filled: u64,
}

/// The type in the first header of a red payload; 0 of an empty one.
fn first_type_of(payload: &[u8]) -> u8
    ensures { result ≡ first_type payload.now }
{
    payload.first().map_or(0, |first| first % 128)
}

/// Whether F is 1 in the first header.
fn begins_redundant(payload: &[u8]) -> bool
    ensures { result ≡ has_redundant payload.now }
{
    payload.first().map_or(false, |first| *first >= 128)
}

impl Signs {
    fn none() -> Signs
        ensures signs { AreSigns result [] }
        ensures filled { result.filled ≤ result.packets }
    {
        Signs {
            packets: 0,
            inside: 0,
            redundant: false,
            filled: 0,
        }
    }

    /// A packet with this payload came.
    fn take(&mut self, payload: &[u8])
        requires few { self.old.packets < 2 ^ 32 }
        requires filled { self.old.filled ≤ self.old.packets }
        ensures more { SignsMore self.old payload.now self.new }
        ensures packets { self.new.packets ≡ self.old.packets + 1 }
        ensures filled { self.new.filled ≤ self.new.packets }
    {
        if self.packets == 0 {
            self.inside = first_type_of(payload);
        }
        self.packets += 1;
        self.redundant = self.redundant || begins_redundant(payload);
        self.filled += one_if(has_octets(payload));
    }
}

/// What the payloads of these packets show.
pub(crate) fn signs_of(records: &[u8]) -> Signs
    requires { HasRecords records.now }
    ensures { OfRecords records.now (AreSigns result) }
{
    let mut signs = Signs::none();
    let mut rest = records;
    while let Some((_, octets, more)) = next_record(rest) {
        signs.take(payload_of(octets));
        rest = more;
    }
    signs
}
