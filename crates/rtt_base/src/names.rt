//! The name of a leg.
ghost use Rattle.std.specs.Prelude.{◌≡◌, ◌+◌, ◌≤◌, ◌==◌, [], ◌++◌, length, encode_utf8, IsUtf8};

use arrayvec::ArrayString;
use std::marker::Model;

/// A name of at most 32 octets of UTF-8. Contracts see its octets.
#[derive(Debug, Default, Drop)]
pub struct Name {
    text: ArrayString<32>,
}

impl Model for Name {
    ghost use Rattle.std.specs.Prelude.{ℕ, List};

    ghost Value = { List ℕ };

    ghost view = { λ n. n.text.bytes };
}

impl Name {
    /// How many octets fit.
    pub const CAPACITY: usize = 32;

    /// The empty name.
    pub fn new() -> Name
        ensures { result ≡ [] }
    {
        Name {
            text: ArrayString::new(),
        }
    }

    /// The number of octets.
    pub fn len(&self) -> usize
        ensures value { result ≡ length self.now }
        ensures fits { result ≤ 32 }
    {
        self.text.len()
    }

    pub fn is_empty(&self) -> bool
        ensures { result ≡ (length self.now == 0) }
    {
        self.text.is_empty()
    }

    pub fn as_str(&self) -> &str
        ensures { result.now ≡ self.now }
    {
        self.text.as_str()
    }

    /// The octets of the name.
    pub fn as_slice(&self) -> &[u8]
        ensures value { result.now ≡ self.now }
        ensures utf8 { IsUtf8 result.now }
    {
        self.text.as_str().as_bytes()
    }

    /// Appends a character, for which there must be room.
    pub fn push(&mut self, character: char)
        requires { length self.old + length (encode_utf8 character) ≤ 32 }
        ensures { self.new ≡ self.old ++ encode_utf8 character }
    {
        self.text.push(character);
    }

    pub fn clear(&mut self)
        ensures { self.new ≡ [] }
    {
        self.text.clear();
    }
}
