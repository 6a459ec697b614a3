//! What octets are appended to.
ghost use Rattle.std.specs.Prelude.{ℕ, List, Option, Some, None, ◌≡◌, ◌≤◌, length, take, IfSome};
ghost use Rattle.rtt_base.specs.Buffers.{Appends};
ghost use Rattle.rtt_base.specs.declared.limits.TheConstants.{MOST_PACKET_OCTETS};

use crate::{Bytes, Full, NoMemory, Packet};

/// Octets that grow at their end: a packet, which has a greatest length, or a list that has none.
pub trait OctetBuffer {
    /// Why octets are not appended.
    type Refusal: Drop;

    // the octets that are there
    ghost written: { Self → List ℕ };

    // how many fit at most, where there is a bound
    ghost greatest: { Option ℕ };

    /// The number of octets.
    fn len(&self) -> usize
        ensures value { result ≡ length (written self.now) }
        ensures fits { IfSome greatest (λ most. result ≤ most) };

    /// Appends octets, or refuses and stays as before: where there is a greatest length, exactly where they pass it;
    /// else only for want of memory.
    fn append(&mut self, octets: &[u8]) -> Result<(), Self::Refusal>
        ensures { Appends greatest (written self.old) (written self.new) octets.now result };

    /// Keeps the first `len` octets, or all where they are not more.
    fn truncate(&mut self, len: usize)
        ensures { written self.new ≡ take len (written self.old) };
}

impl OctetBuffer for Packet {
    type Refusal = Full;

    ghost written = { λ octets. octets };

    ghost greatest = { Some MOST_PACKET_OCTETS };

    fn len(&self) -> usize {
        self.len()
    }

    fn append(&mut self, octets: &[u8]) -> Result<(), Full> {
        self.append(octets)
    }

    fn truncate(&mut self, len: usize) {
        self.truncate(len);
    }
}

impl OctetBuffer for Bytes {
    type Refusal = NoMemory;

    ghost written = { λ octets. octets };

    ghost greatest = { None };

    fn len(&self) -> usize {
        self.len()
    }

    fn append(&mut self, octets: &[u8]) -> Result<(), NoMemory> {
        self.append(octets)
    }

    fn truncate(&mut self, len: usize) {
        self.truncate(len);
    }
}
