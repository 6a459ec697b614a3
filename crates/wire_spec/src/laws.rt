//! Laws of the definitions. Each is the contract of a function that does nothing.
ghost use Rattle.std.specs.Prelude.{◌≡◌, ℕ, List, Ok};
ghost use Rattle.wire_spec.specs.Rtp.{IsOctets, Reading, Rtp, rtp};
ghost use Rattle.wire_spec.specs.ReadBack.{BlocksAreReadBack, BlocksReadOneWay, HeadersAreReadBack, HeadersReadOneWay, ReadAreSums, RecordingsAreReadBack, RecordsUnroll, RedPacketsAreReadBack, SentPacketsAreReadBack, StepsAreEnough, SumsAreRead};

/// A packet is read as what it is the sum of, and only such a sum is read: so a packet has one reading at most.
pub fn packets_are_sums()
    ensures only { (octets : List ℕ) (r : Reading) → Rtp octets r → rtp octets ≡ Ok r }
    ensures found { (octets : List ℕ) (r : Reading) → IsOctets octets → rtp octets ≡ Ok r → Rtp octets r }
{}

/// A packet that is written is read back, and has no other reading.
pub fn headers_are_read_back()
    ensures again { HeadersAreReadBack }
    ensures alone { HeadersReadOneWay }
{}

/// A payload is read as the blocks that it is the sum of, and only such a sum is read: so a payload has one reading at
/// most.
pub fn payloads_are_sums()
    ensures only { SumsAreRead }
    ensures found { ReadAreSums }
{}

/// Blocks that are written are read back, and have no other reading.
pub fn blocks_are_read_back()
    ensures again { BlocksAreReadBack }
    ensures alone { BlocksReadOneWay }
{}

/// A packet of text that is written in red form is read back, where its stream is asked for.
pub fn packets_are_read_back()
    ensures { RedPacketsAreReadBack }
{}

/// A packet of text that is sent, in red form or in plain form, is read back, where its stream is asked for.
pub fn sent_packets_are_read_back()
    ensures { SentPacketsAreReadBack }
{}

/// What is still to come of a recording is one step and what comes after it. More steps than there are octets change
/// nothing.
pub fn records_unroll()
    ensures one_step { RecordsUnroll }
    ensures enough { StepsAreEnough }
{}

/// A recording that is written is read back, wherever its packets and times fit and it has at most `limit` octets.
pub fn recordings_are_read_back()
    ensures { RecordingsAreReadBack }
{}
