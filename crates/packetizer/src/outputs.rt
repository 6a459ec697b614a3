//! The output of a terminal.
ghost use Rattle.std.specs.Prelude.{◌≡◌, ◌+◌, ◌%◌, ◌^◌, ◌<◌, ◌≤◌, ◌∷◌, [], length, IfOk, IfSome, IsOk, OnOk, OnErr};
ghost use Rattle.rtt_base.specs.Buffers.{Appends};

use crate::speakers::{Speaker, forget_all};
use rtp_text::{TextHead, write_text};
use rtt_base::{NoMemory, OctetBuffer, PayloadTypes};
use std::alloc::Global;
use std::marker::Model;

/// The stream of an output.
#[derive(Clone, Copy, Debug)]
pub struct PacketizerSettings {
    pub ssrc: u32,
    /// The first sequence number.
    pub seq: u16,
    /// The timestamp at the media time 0.
    pub timestamp: u32,
    /// The payload types, below 128 and different.
    pub payload_types: PayloadTypes,
    /// How many blocks each packet repeats, 0 to 3.
    pub generations: u8,
}

/// The packets to one terminal: one numbering, and redundancy for each source.
#[derive(Drop)]
pub struct Packetizer {
    settings: PacketizerSettings,
    /// The next sequence number.
    seq: u16,
    speakers: Vec<Speaker>,
}

impl Model for Packetizer {
    ghost use Rattle.packetizer.specs.OutputStates.{State};
    ghost use Rattle.packetizer.specs.OutputSettings.{AreSettings};

    ghost Value = { State };

    ghost view = { λ o. record { settings = o.settings; seq = o.seq; speakers = o.speakers.items } };

    ghost invariant = { λ o. AreSettings o.settings };
}

impl Packetizer {
    ghost use Rattle.rtt_base.specs.declared.limits.TheConstants.{MOST_PACKET_OCTETS};
    ghost use Rattle.packetizer.specs.OutputSettings.{AreSettings};
    ghost use Rattle.packetizer.specs.Speakers.{AreDistinct};
    ghost use Rattle.packetizer.specs.OutputStanding.{PacketizerStandsFor};
    ghost use Rattle.packetizer.specs.Sending.{OfSent, OfNext, OfStamped, has_repeats, octets_of};

    /// An output that has sent nothing, to these sources, all different: each is written as the CSRC of its packets, or
    /// without CSRC where it is the SSRC itself. It takes all memory that it ever needs.
    pub fn new(
        alloc: Global,
        settings: PacketizerSettings,
        sources: &[u32],
    ) -> Result<Packetizer, NoMemory>
        requires settings { AreSettings settings }
        requires distinct { AreDistinct sources.now }
        ensures { IfOk result (λ output. PacketizerStandsFor settings sources.now output []) }
    {
        let mut speakers = Vec::new(alloc);
        for source in sources {
            speakers.push(Speaker::new(*source, settings.generations))?;
        }
        let seq = settings.seq;
        Ok(Packetizer {
            settings,
            seq,
            speakers,
        })
    }

    /// As if nothing was sent. It takes no memory.
    pub fn restart(&mut self)
        ensures stands { OfSent self.old (λ settings sources past. PacketizerStandsFor settings sources self.new []) }
        ensures sources { length self.new.speakers ≡ length self.old.speakers }
    {
        self.seq = self.settings.seq;
        forget_all(&mut self.speakers, self.settings.generations);
    }

    /// The number of sources.
    pub fn sources(&self) -> usize
        ensures { result ≡ length self.now.speakers }
    {
        self.speakers.len()
    }

    /// Whether text of the source, counted from 0, is still to be repeated.
    pub fn due(&self, source: usize) -> bool
        requires { source < length self.now.speakers }
        ensures { OfSent self.now (λ settings sources past. result ≡ has_repeats settings sources past source) }
    {
        self.speakers[source].window.due()
    }

    /// Appends the packet of the source, counted from 0, with this text of at most 1023 octets of UTF-8, at this media time in
    /// ms: it is later than that of the call before, less than 2^31 after that of the first, and, where text of the source is
    /// still to be repeated, at most 8000 after that of its last packet, or 5000 with three generations. A buffer with room
    /// for 4224 octets more does not refuse it. Where the buffer refuses the packet, the output is as before.
    pub fn packet<O: OctetBuffer>(
        &mut self,
        media: u64,
        source: usize,
        text: &[u8],
        out: &mut O,
    ) -> Result<(), O::Refusal>
        requires source { source < length self.old.speakers }
        requires text { length text.now < 1024 }
        ensures packet { OfNext self.old source media text.now (λ settings sources past e.
            Appends O.greatest (O.written out.old) (O.written out.new) (octets_of settings past e) result) }
        ensures fits { IfSome O.greatest (λ most.
            length (O.written out.old) + MOST_PACKET_OCTETS ≤ most → IsOk result) }
        ensures some { OnOk result (length (O.written out.old) < length (O.written out.new)) }
        ensures stands { OfNext self.old source media text.now (λ settings sources past e.
            OnOk result (PacketizerStandsFor settings sources self.new (e ∷ past))) }
        ensures sources { length self.new.speakers ≡ length self.old.speakers }
        ensures err { OnErr result (self.new ≡ self.old) }
    {
        let timestamp = self.timestamp_at(media);
        let written = self.write(timestamp, source, text, out);
        if written.is_ok() {
            self.keep(timestamp, source, text);
        }
        written
    }

    /// The timestamp at this media time.
    fn timestamp_at(&self, media: u64) -> u32
        ensures { result ≡ (self.now.settings.timestamp + media) % 2 ^ 32 }
    {
        self.settings
            .timestamp
            .wrapping_add((media % (1 << 32)) as u32)
    }

    /// Appends the packet.
    fn write<O: OctetBuffer>(
        &self,
        timestamp: u32,
        source: usize,
        text: &[u8],
        out: &mut O,
    ) -> Result<(), O::Refusal>
        requires source { source < length self.now.speakers }
        requires text { length text.now < 1024 }
        ensures packet { OfStamped self.now source timestamp text.now (λ settings sources past e.
            Appends O.greatest (O.written out.old) (O.written out.new) (octets_of settings past e) result) }
        ensures fits { IfSome O.greatest (λ most.
            length (O.written out.old) + MOST_PACKET_OCTETS ≤ most → IsOk result) }
        ensures some { OnOk result (length (O.written out.old) < length (O.written out.new)) }
    {
        let speaker = &self.speakers[source];
        speaker.window.packets_fit();
        let head = TextHead {
            marker_bit: speaker.is_after_pause(),
            seq: self.seq,
            timestamp,
            ssrc: self.settings.ssrc,
            source: speaker.source,
        };
        write_text(
            &head,
            &speaker.window,
            text,
            self.settings.payload_types,
            out,
        )
    }

    /// Counts the packet, and keeps its text.
    fn keep(&mut self, timestamp: u32, source: usize, text: &[u8])
        requires source { source < length self.old.speakers }
        requires text { length text.now < 1024 }
        ensures sources { length self.new.speakers ≡ length self.old.speakers }
        ensures stands { OfStamped self.old source timestamp text.now (λ settings sources past e.
            PacketizerStandsFor settings sources self.new (e ∷ past)) }
    {
        self.speakers[source].keep(timestamp, text);
        self.seq = self.seq.wrapping_add(1);
    }
}
