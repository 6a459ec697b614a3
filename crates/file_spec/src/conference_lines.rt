//! What the lines of a conference say.
use rtt_base::{Name, Path, PayloadTypes};

/// What the legs of a conference are.
#[derive(Clone, Copy, Debug, PartialEq, Eq)]
pub enum Form {
    /// Recordings in files.
    Files,
    /// Links to the outside.
    Links,
}

/// The mixer's own stream.
#[derive(Clone, Copy, Debug, PartialEq, Eq)]
pub struct MixerLine {
    pub ssrc: u32,
    /// Its first sequence number.
    pub seq: u16,
    /// The timestamp at media time 0.
    pub timestamp: u32,
}

/// When a leg stays, in milliseconds.
#[derive(Clone, Copy, Debug, PartialEq, Eq)]
pub struct Stay {
    /// Its first moment.
    pub from: u32,
    /// Its end, which is no part of it; without one the leg stays for good.
    pub until: Option<u32>,
}

impl Stay {
    ghost use Rattle.std.specs.Prelude.{◌≡◌};
    ghost use Rattle.file_spec.specs.Stays.{is_before_end, stays_at};

    /// Whether this moment, in milliseconds, is before its end, if it has one.
    pub fn is_before_end(self, moment: u64) -> bool
        ensures { result ≡ is_before_end moment self.until }
    {
        match self.until {
            Some(end) => moment < u64::from(end),
            None => true,
        }
    }

    /// Whether this moment, in milliseconds, lies in it.
    pub fn contains(self, moment: u64) -> bool
        ensures { result ≡ stays_at moment self }
    {
        u64::from(self.from) <= moment && self.is_before_end(moment)
    }
}

/// A leg: one participant, what it sends and where it is sent to.
#[derive(Debug, Drop)]
pub struct LegLine {
    /// The number of the line in its file, from 1; 0 where there is no file.
    pub line: u32,
    pub name: Name,
    /// Whether its terminal knows that packets may have several sources.
    pub aware: bool,
    pub ssrc: u32,
    pub input: Path,
    pub output: Path,
    /// The payload types of both directions.
    pub payload_types: PayloadTypes,
    /// How many redundant generations its terminal is sent.
    pub generations: u8,
    pub stay: Stay,
    /// Whether whoever sends from its terminal is heard, also under another SSRC.
    pub follow: bool,
    /// Whether its packets may have a primary text of more than 1023 octets.
    pub long: bool,
}

/// How many redundant generations the terminal of a leg is sent. The leg is counted from 0.
#[derive(Clone, Copy, Debug, PartialEq, Eq)]
pub struct GenerationsLine {
    pub leg: u8,
    pub generations: u8,
}

/// When a leg stays. The leg is counted from 0.
#[derive(Clone, Copy, Debug, PartialEq, Eq)]
pub struct StayLine {
    pub leg: u8,
    pub stay: Stay,
}

/// What becomes of a packet on its way to a terminal.
#[derive(Clone, Copy, Debug, PartialEq, Eq)]
pub enum What {
    /// It is lost.
    Lose,
    /// It comes so many milliseconds late.
    Delay(u32),
    /// It comes twice.
    Twice,
}

/// One packet to one terminal, and what becomes of it.
#[derive(Clone, Copy, Debug, PartialEq, Eq)]
pub struct PlanLine {
    /// The leg whose terminal it is sent to, counted from 0.
    pub terminal: u8,
    /// The packet, counted from 0.
    pub packet: u32,
    pub what: What,
}
