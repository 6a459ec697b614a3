//! The texts of one source, written as a recording of that source's own packets.
ghost use Rattle.std.specs.Prelude.{◌≡◌, ◌≤◌, ◌<◌, ◌^◌, [], length, min, Bool, IsTrue, OnOk, IfOk};
ghost use Rattle.wire_spec.specs.SentPackets.{packet_written};
ghost use Rattle.stream_spec.specs.Ready.{chunk};
ghost use Rattle.command_spec.specs.Splitting.{packet_of};
ghost use Rattle.cascade.specs.Splitters.{Splits, AddsChunk, Joins, Parts, Writes, Closes};
ghost use Rattle.rtt_base.specs.declared.limits.TheConstants.{MOST_TEXT_OCTETS};
ghost use Rattle.wire_spec.specs.declared.limits.TheConstants.{LAST_RECORD_MOMENT};

use rtp_text::{RtpHead, write_rtp};
use rtpdump_io::{write_opening, write_record};
use rtt_base::{Bytes, NoMemory, Packet, PayloadTypes, Text};
use std::alloc::Global;
use wire_spec::limits::LAST_RECORD_MOMENT;

/// The texts of one source, written as a recording. Neighbours that are ready at one moment go into one packet, as many as
/// fit.
#[derive(Drop)]
pub struct SourceRecording {
    /// The packets bear it as their SSRC.
    pub(crate) source: u32,
    payload_types: PayloadTypes,
    /// What is written of the recording.
    octets: Bytes,
    /// The sequence number of the next packet.
    seq: u16,
    /// The next packet is stamped so, or later.
    least: u32,
    /// Whether a group is in hand, which is not written yet.
    holds: bool,
    /// The moment at which it is ready.
    ready: u64,
    text: Text,
}

/// The moment of the record of what is ready at this one: a recording has no later one.
fn moment_of(ready: u64) -> u32
    ensures { result ≡ min ready LAST_RECORD_MOMENT }
{
    ready.min(u64::from(LAST_RECORD_MOMENT)) as u32
}

/// Puts a packet of the source in plain form in place of what is in `out`.
fn write_plain(
    source: u32,
    payload_types: PayloadTypes,
    seq: u16,
    timestamp: u32,
    text: &[u8],
    out: &mut Packet,
)
    requires t140 { payload_types.t140 < 2 ^ 7 }
    requires few { length text.now ≤ MOST_TEXT_OCTETS }
    ensures packet { out.new ≡ packet_written payload_types (packet_of source seq timestamp text.now) }
{
    let head = RtpHead {
        marker_bit: false,
        pt: payload_types.t140,
        seq,
        timestamp,
        ssrc: source,
        csrc: None,
    };
    out.clear();
    let _ = write_rtp(&head, text, out);
}

impl SourceRecording {
    /// A recording without packets.
    pub fn new(
        alloc: Global,
        source: u32,
        payload_types: PayloadTypes,
    ) -> Result<SourceRecording, NoMemory>
        ensures splits { IfOk result (λ splitter. Splits splitter payload_types source []) }
    {
        let mut octets = Bytes::new(alloc);
        write_opening(&mut octets)?;
        Ok(SourceRecording {
            source,
            payload_types,
            octets,
            seq: 0,
            least: 0,
            holds: false,
            ready: 0,
            text: Text::new(),
        })
    }

    /// Writes the group in hand, by way of `out`.
    fn write(&mut self, out: &mut Packet) -> Result<(), NoMemory>
        requires t140 { self.old.payload_types.t140 < 2 ^ 7 }
        ensures writes { OnOk result (Writes self.old self.new) }
        ensures payload_types { self.new.payload_types ≡ self.old.payload_types }
    {
        let moment = moment_of(self.ready);
        let timestamp = moment.max(self.least);
        let text = self.text.as_slice();
        write_plain(
            self.source,
            self.payload_types,
            self.seq,
            timestamp,
            text,
            out,
        );
        write_record(moment, out.as_slice(), &mut self.octets)?;
        self.seq = self.seq.wrapping_add(1);
        self.least = timestamp.wrapping_add(1);
        Ok(())
    }

    /// Puts a text behind the group in hand, if it is ready at the same moment and fits.
    fn join(&mut self, ready: u64, text: &[u8]) -> bool
        ensures joins { IsTrue result → Joins self.old self.new (chunk 0 ready text.now) }
        ensures parts { result ≡ Bool.false → Parts self.old self.new (chunk 0 ready text.now) }
    {
        if self.ready != ready {
            return false;
        }
        self.text.append(text).is_ok()
    }

    /// Takes a text of at most 1023 octets as the group in hand.
    fn begin(&mut self, ready: u64, text: &[u8])
        requires few { length text.now ≤ MOST_TEXT_OCTETS }
        ensures { self.new ≡ record self.old { holds = Bool.true; ready = ready; text = text.now } }
    {
        self.holds = true;
        self.ready = ready;
        self.text.clear();
        let _ = self.text.append(text);
    }

    /// Adds a text of at most 1023 octets that is ready at this moment. After `NoMemory` the recording is of no use.
    pub fn add(&mut self, ready: u64, text: &[u8], out: &mut Packet) -> Result<(), NoMemory>
        requires t140 { self.old.payload_types.t140 < 2 ^ 7 }
        requires few { length text.now ≤ MOST_TEXT_OCTETS }
        ensures adds { OnOk result (AddsChunk self.old self.new (chunk 0 ready text.now)) }
        ensures payload_types { self.new.payload_types ≡ self.old.payload_types }
    {
        if self.holds {
            if self.join(ready, text) {
                return Ok(());
            }
            self.write(out)?;
        }
        self.begin(ready, text);
        Ok(())
    }

    /// Writes what is in hand: all texts were added. After `NoMemory` the recording is of no use.
    pub fn close(&mut self, out: &mut Packet) -> Result<(), NoMemory>
        requires t140 { self.old.payload_types.t140 < 2 ^ 7 }
        ensures closes { OnOk result (Closes self.old self.new) }
        ensures payload_types { self.new.payload_types ≡ self.old.payload_types }
    {
        if self.holds {
            self.write(out)?;
        }
        Ok(())
    }

    /// The octets of the recording.
    pub fn octets(&self) -> &[u8]
        ensures { result.now ≡ self.now.octets }
    {
        self.octets.as_slice()
    }
}
