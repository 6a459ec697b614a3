//! What RTCP tells.
ghost use Rattle.std.specs.Prelude.{◌≡◌, ◌≤◌, [], length};

use arrayvec::{ArrayString, ArrayVec};
use std::marker::Model;

/// A name of at most 255 octets of UTF-8, as an item of a source description has it. Contracts see its octets.
#[derive(Debug, Default, Drop)]
pub struct SdesName {
    text: ArrayString<255>,
}

impl Model for SdesName {
    ghost use Rattle.std.specs.Prelude.{ℕ, List};

    ghost Value = { List ℕ };

    ghost view = { λ n. n.text.bytes };
}

impl SdesName {
    /// The name that is this text.
    pub fn from_text(text: &str) -> SdesName
        requires { length text.now ≤ 255 }
        ensures { result ≡ text.now }
    {
        let mut name = ArrayString::new();
        name.push_str(text);
        SdesName { text: name }
    }

    pub fn as_str(&self) -> &str
        ensures text { result.now ≡ self.now }
        ensures fits { length result.now ≤ 255 }
    {
        self.text.as_str()
    }
}

/// What RTCP tells of a source.
#[derive(Debug, Drop)]
pub enum Event {
    /// It has this name (RFC 3550, section 6.5.2).
    Name { ssrc: u32, name: SdesName },
    /// It leaves (section 6.6).
    Bye { ssrc: u32 },
}

/// A place that no event was put into.
impl Default for Event {
    fn default() -> Event {
        Event::Bye { ssrc: 0 }
    }
}

/// What one datagram tells, oldest first.
pub type Events = ArrayVec<Event, 64>;
