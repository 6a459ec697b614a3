//! Octets of which there are only so many: a text of one block, and one packet.
ghost use Rattle.std.specs.Prelude.{◌≡◌, ◌+◌, ◌≤◌, ◌<◌, ◌==◌, ◌↔◌, [], ◌∷◌, ◌++◌, length, take, IsOk, OnOk, OnErr};

use crate::Full;
use crate::limits::{MOST_PACKET_OCTETS, MOST_PRIMARY_OCTETS, MOST_TEXT_OCTETS};
use std::marker::Model;

/// The text of a block, at most 1023 octets (RFC 2198, section 3: a length has 10 bits).
pub type Text = Octets<MOST_TEXT_OCTETS>;

/// A primary text as it is read, at most 4212 octets.
pub type PrimaryText = Octets<MOST_PRIMARY_OCTETS>;

/// The octets of one packet, at most 4224.
pub type Packet = Octets<MOST_PACKET_OCTETS>;

/// At most so many octets.
#[derive(Debug, Drop)]
pub struct Octets<const MOST: usize> {
    octets: [u8; MOST],
    len: usize,
}

impl<const MOST: usize> Default for Octets<MOST> {
    ghost is_default = { λ o. o ≡ [] };

    fn default() -> Octets<MOST> {
        Octets::new()
    }
}

impl<const MOST: usize> Model for Octets<MOST> {
    ghost use Rattle.std.specs.Prelude.{ℕ, List, ◌≤◌, take};

    ghost Value = { List ℕ };

    ghost view = { λ o. take o.len o.octets };

    ghost invariant = { λ o. o.len ≤ MOST };
}

impl<const MOST: usize> Octets<MOST> {
    /// How many octets fit.
    pub const CAPACITY: usize = MOST;

    /// No octets.
    pub fn new() -> Octets<MOST>
        ensures { result ≡ [] }
    {
        Octets {
            octets: [0; MOST],
            len: 0,
        }
    }

    /// The number of octets.
    pub fn len(&self) -> usize
        ensures value { result ≡ length self.now }
        ensures fits { result ≤ MOST }
    {
        self.len
    }

    pub fn is_empty(&self) -> bool
        ensures { result ≡ (length self.now == 0) }
    {
        self.len == 0
    }

    pub fn as_slice(&self) -> &[u8]
        ensures value { result.now ≡ self.now }
        ensures fits { length result.now ≤ MOST }
    {
        &self.octets[..self.len]
    }

    /// Appends one octet, for which there must be room.
    pub fn push(&mut self, octet: u8)
        requires { length self.old < MOST }
        ensures { self.new ≡ self.old ++ octet ∷ [] }
    {
        self.octets[self.len] = octet;
        self.len += 1;
    }

    /// Appends octets, or nothing where they pass the room left.
    pub fn append(&mut self, octets: &[u8]) -> Result<(), Full>
        ensures room { IsOk result ↔ (length self.old + length octets.now ≤ MOST) }
        ensures ok { OnOk result (self.new ≡ self.old ++ octets.now) }
        ensures err { OnErr result (self.new ≡ self.old) }
    {
        if octets.len() > MOST - self.len {
            return Err(Full);
        }
        let end = self.len + octets.len();
        let places = &mut self.octets[..];
        places[self.len..end].copy_from_slice(octets);
        self.len = end;
        Ok(())
    }

    /// Keeps the first `len` octets, or all where they are not more.
    pub fn truncate(&mut self, len: usize)
        ensures { self.new ≡ take len self.old }
    {
        self.len = self.len.min(len);
    }

    pub fn clear(&mut self)
        ensures { self.new ≡ [] }
    {
        self.len = 0;
    }
}
