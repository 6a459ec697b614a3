//! What was found in a recording.
ghost use Rattle.std.specs.Prelude.{◌≡◌, ℕ, ◌+◌, ◌<◌, ◌≤◌, ◌^◌, [], length, OnOk, Bool};
ghost use Rattle.wire_spec.specs.Dump.{Whole, sent_item};
ghost use Rattle.command_spec.specs.Streams.{Headed, sort_of, sort_of_what};
ghost use Rattle.rtp_text.specs.Headers.{reading};
ghost use Rattle.rtpdump_io.specs.Answers.{record_of, is_end};
ghost use Rattle.rtt_base.specs.declared.limits.TheConstants.{MOST_PACKET_OCTETS};
ghost use Rattle.rtt_show.specs.Finds.{FindsMore, IsFound, IsNoPacket, IsSmall, Tallies, unread_sort};

use crate::groups::Groups;
use crate::record_kinds::{RecordKind, has_text_type, sort_packet};
use rtp_text::RtpView;
use rtpdump_io::DumpItem;
use rtt_base::{NoMemory, PayloadTypes};
use std::alloc::Global;

/// A record of which no packet is read.
#[derive(Clone, Copy)]
pub(crate) enum OtherRecord {
    Rtcp,
    Cut,
    Large,
    NoRtp,
}

/// What a record is of which no packet is read.
fn unread_of(item: DumpItem) -> OtherRecord
    requires { IsNoPacket item }
    ensures { unread_sort result ≡ sort_of (record_of item []) }
{
    match item {
        DumpItem::Cut { .. } => OtherRecord::Cut,
        DumpItem::Large { .. } => OtherRecord::Large,
        DumpItem::Packet { .. } | DumpItem::Rtcp { .. } | DumpItem::End => OtherRecord::Rtcp,
    }
}

/// The packets of streams and of pairs, and how many records are neither.
#[derive(Drop)]
pub struct Findings {
    /// The payload types of text.
    pub payload_types: PayloadTypes,
    pub streams: Groups,
    pub pairs: Groups,
    pub rtcp: u64,
    pub cut: u64,
    pub large: u64,
    pub no_rtp: u64,
}

impl Findings {
    pub fn new(alloc: Global, payload_types: PayloadTypes) -> Findings
        ensures payload_types { result.payload_types ≡ payload_types }
        ensures nothing { IsFound result [] }
        ensures small { IsSmall 0 result }
    {
        Findings {
            payload_types,
            streams: Groups::new(alloc),
            pairs: Groups::new(alloc),
            rtcp: 0,
            cut: 0,
            large: 0,
            no_rtp: 0,
        }
    }

    /// A record came of which no packet is read.
    fn tally(&mut self, unread: OtherRecord)
        requires { (n : ℕ) × (n < 2 ^ 32) × IsSmall n self.old }
        ensures tallied { Tallies self.old unread self.new }
        ensures small { (n : ℕ) → IsSmall n self.old → IsSmall (n + 1) self.new }
    {
        match unread {
            OtherRecord::Rtcp => self.rtcp += 1,
            OtherRecord::Cut => self.cut += 1,
            OtherRecord::Large => self.large += 1,
            OtherRecord::NoRtp => self.no_rtp += 1,
        }
    }

    /// A packet with this header came.
    fn take_headed(
        &mut self,
        alloc: Global,
        at: u32,
        octets: &[u8],
        view: &RtpView<'_>,
    ) -> Result<(), NoMemory>
        requires headed { sort_of_what (Whole octets.now) ≡ Headed (reading view.now) }
        requires fits { length octets.now ≤ MOST_PACKET_OCTETS }
        requires small { (n : ℕ) × (n < 2 ^ 32) × IsSmall n self.old }
        ensures more { OnOk result (FindsMore self.old (sent_item (at, octets.now)) self.new) }
        ensures small { OnOk result ((n : ℕ) → IsSmall n self.old → IsSmall (n + 1) self.new) }
        ensures payload_types { self.new.payload_types ≡ self.old.payload_types }
    {
        let ssrc = u64::from(view.ssrc);
        if has_text_type(view, self.payload_types) {
            return self.streams.take(alloc, ssrc, at, octets);
        }
        let pair = 128 * ssrc + u64::from(view.pt);
        self.pairs.take(alloc, pair, at, octets)
    }

    /// A packet came.
    fn take_packet(&mut self, alloc: Global, at: u32, octets: &[u8]) -> Result<(), NoMemory>
        requires fits { length octets.now ≤ MOST_PACKET_OCTETS }
        requires small { (n : ℕ) × (n < 2 ^ 32) × IsSmall n self.old }
        ensures more { OnOk result (FindsMore self.old (sent_item (at, octets.now)) self.new) }
        ensures small { OnOk result ((n : ℕ) → IsSmall n self.old → IsSmall (n + 1) self.new) }
        ensures payload_types { self.new.payload_types ≡ self.old.payload_types }
    {
        let unread = match sort_packet(octets) {
            RecordKind::Headed(view) => return self.take_headed(alloc, at, octets, &view),
            RecordKind::NoRtp => OtherRecord::NoRtp,
            RecordKind::Rtcp => OtherRecord::Rtcp,
        };
        self.tally(unread);
        Ok(())
    }

    /// A record came, whose octets are these where it is a packet.
    pub(crate) fn take(
        &mut self,
        alloc: Global,
        item: DumpItem,
        octets: &[u8],
    ) -> Result<(), NoMemory>
        requires fits { length octets.now ≤ MOST_PACKET_OCTETS }
        requires more { is_end item ≡ Bool.false }
        requires small { (n : ℕ) × (n < 2 ^ 32) × IsSmall n self.old }
        ensures more { OnOk result (FindsMore self.old (record_of item octets.now) self.new) }
        ensures small { OnOk result ((n : ℕ) → IsSmall n self.old → IsSmall (n + 1) self.new) }
        ensures payload_types { self.new.payload_types ≡ self.old.payload_types }
    {
        if let DumpItem::Packet { at } = item {
            return self.take_packet(alloc, at, octets);
        }
        self.tally(unread_of(item));
        Ok(())
    }
}
