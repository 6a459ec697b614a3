//! The packets that the next ones of a source repeat.
ghost use Rattle.std.specs.Prelude.{◌≡◌, ◌<◌, ◌≤◌, ◌^◌, length};
ghost use Rattle.sent_log.specs.Repeats.{fresh, last_kept, nothing, offset_of, with_one};

use rtt_base::limits::MOST_OFFSET;
use std::marker::Model;

/// A packet, by its timestamp and its number, counted from 0; or nothing yet.
#[derive(Clone, Copy, Debug)]
pub struct PacketKey {
    pub sent: bool,
    pub timestamp: u32,
    pub number: usize,
}

impl PacketKey {
    /// Nothing yet.
    pub fn new() -> PacketKey
        ensures { result ≡ nothing }
    {
        PacketKey {
            sent: false,
            timestamp: 0,
            number: 0,
        }
    }

    /// How far the packet lies before one with this timestamp.
    pub fn offset(&self, timestamp: u32) -> u16
        ensures value { result ≡ offset_of timestamp self.now }
        ensures fits { result < 2 ^ 14 }
    {
        if !self.sent {
            return MOST_OFFSET;
        }
        timestamp
            .wrapping_sub(self.timestamp)
            .min(u32::from(MOST_OFFSET)) as u16
    }
}

/// The last three packets of a source, oldest first.
#[derive(Debug, Drop)]
pub struct Repeats {
    kept: [PacketKey; 3],
}

impl Model for Repeats {
    ghost use Rattle.std.specs.Prelude.{List, ◌≡◌, length};
    ghost use Rattle.sent_log.specs.declared.repeats.PacketKey.{PacketKey};

    ghost Value = { List PacketKey };

    ghost view = { λ r. r.kept };

    ghost invariant = { λ r. length r.kept ≡ 3 };
}

impl Repeats {
    /// Of a source of which nothing was sent.
    pub fn new() -> Repeats
        ensures { result ≡ fresh }
    {
        Repeats {
            kept: [PacketKey::new(), PacketKey::new(), PacketKey::new()],
        }
    }

    /// The last so many, oldest first.
    pub fn last(&self, count: usize) -> &[PacketKey]
        requires { count ≤ 3 }
        ensures are { result.now ≡ last_kept count self.now }
        ensures few { length result.now ≡ count }
    {
        &self.kept[3 - count..]
    }

    /// One packet more was sent.
    pub fn keep(&mut self, now: PacketKey)
        ensures { self.new ≡ with_one now self.old }
    {
        self.kept[0] = self.kept[1];
        self.kept[1] = self.kept[2];
        self.kept[2] = now;
    }
}
