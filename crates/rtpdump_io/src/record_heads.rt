//! The head of a record.
ghost use Rattle.std.specs.Prelude.{◌≡◌, ◌≤◌, ◌-◌, nat_lt};
ghost use Rattle.wire_spec.specs.Dump.{size_of, packet_size_of, time_of};
ghost use Rattle.rtpdump_io.specs.Found.{kind_of, kept_of, wanted_of};
ghost use Rattle.rtpdump_io.specs.Heads.{body_size, kept_size};

use crate::items::DumpItem;
use rtt_base::limits::MOST_PACKET_OCTETS;
use wire_spec::limits::LAST_RECORD_MOMENT;

/// The eight octets at the front of a record.
#[derive(Clone, Copy, Debug)]
pub(crate) struct RecordHead {
    /// The octets of the whole record.
    pub size: u16,
    /// The octets that the packet had.
    pub packet_size: u16,
    /// In milliseconds.
    pub time: u32,
}

impl RecordHead {
    pub fn from_octets(octets: &[u8; 8]) -> RecordHead
        ensures size { result.size ≡ size_of octets.now }
        ensures packet_size { result.packet_size ≡ packet_size_of octets.now }
        ensures time { result.time ≡ time_of octets.now }
    {
        RecordHead {
            size: u16::from_be_bytes([octets[0], octets[1]]),
            packet_size: u16::from_be_bytes([octets[2], octets[3]]),
            time: u32::from_be_bytes([octets[4], octets[5], octets[6], octets[7]]),
        }
    }

    /// Whether the record's own length does not even count its head.
    pub fn is_short(&self) -> bool
        ensures { result ≡ nat_lt self.now.size 8 }
    {
        self.size < 8
    }

    /// Whether the record lies behind the first four hours.
    pub fn is_late(&self) -> bool
        ensures { result ≡ nat_lt LAST_RECORD_MOMENT self.now.time }
    {
        self.time > LAST_RECORD_MOMENT
    }

    /// How many octets the record has behind its head.
    pub fn body_size(&self) -> usize
        requires { 8 ≤ self.now.size }
        ensures { result ≡ body_size self.now }
    {
        usize::from(self.size - 8)
    }

    /// What the record is.
    pub fn item(&self) -> DumpItem
        requires { 8 ≤ self.now.size }
        ensures { result ≡ kind_of self.now.packet_size (self.now.size - 8) self.now.time }
    {
        let at = self.time;
        if self.packet_size == 0 {
            DumpItem::Rtcp { at }
        } else if self.packet_size > self.size - 8 {
            DumpItem::Cut { at }
        } else if usize::from(self.packet_size) > MOST_PACKET_OCTETS {
            DumpItem::Large { at }
        } else {
            DumpItem::Packet { at }
        }
    }

    /// How many octets behind the head are handed out, where they are at most 4224: those of a packet, and those of a record
    /// of RTCP where these are wanted too.
    pub fn kept(&self, with_rtcp: bool) -> usize
        requires { 8 ≤ self.now.size }
        ensures value { result ≡ kept_size with_rtcp self.now }
        ensures within { result ≤ self.now.size - 8 }
        ensures fits { result ≤ MOST_PACKET_OCTETS }
    {
        let wanted = self.wanted(with_rtcp);
        if wanted > self.size - 8 || usize::from(wanted) > MOST_PACKET_OCTETS {
            0
        } else {
            usize::from(wanted)
        }
    }

    // How many octets behind the head belong to a packet, or to a record of RTCP where these are wanted too.
    fn wanted(&self, with_rtcp: bool) -> u16
        requires { 8 ≤ self.now.size }
        ensures { result ≡ wanted_of with_rtcp self.now.packet_size (body_size self.now) }
    {
        if self.packet_size == 0 && with_rtcp {
            self.size - 8
        } else {
            self.packet_size
        }
    }
}
