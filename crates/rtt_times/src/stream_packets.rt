//! What came of a stream: who typed in it, which numbers were heard, and which came.
ghost use Rattle.std.specs.Prelude.{◌≡◌, ℕ, ◌+◌, ◌<◌, ◌≤◌, ◌^◌, Bool, IfOk, OnOk};
ghost use Rattle.rtt_base.specs.declared.limits.TheConstants.{END_OF_MOMENTS};
ghost use Rattle.rtpdump_io.specs.InMemory.{HasRecords};
ghost use Rattle.reorder_buffer.specs.States.{IsNext, arrival_count, current_of, has_ready, is_finished};
ghost use Rattle.reorder_buffer.specs.Views.{next_number};
ghost use Rattle.rtt_show.specs.Records.{OfRecords};
ghost use Rattle.rtt_times.specs.Heard.{Counts, Drains, HearsCurrent, HearsOctets, HearsRecords, HearsViewed, IsEmpty, IsHeard, IsSmall, number_from};

use reorder_buffer::{Due, ReorderBuffer};
use rtp_text::{TextView, read_text, view_text};
use rtpdump_io::next_record;
use rtt_base::limits::USUAL_WAIT;
use rtt_base::{NoMemory, PayloadTypes};
use rtt_show::FirstSources;
use std::alloc::Global;

/// A packet that came: its number, and the moment at which it came, in milliseconds.
#[derive(Clone, Copy)]
pub(crate) struct TimedPacket {
    pub number: u64,
    pub time: u64,
}

/// The packets of text of a stream, as far as their sources and numbers tell.
#[derive(Drop)]
pub(crate) struct StreamPackets {
    pub sources: FirstSources,
    /// Those that are used, in rising number.
    pub used: Vec<Due>,
    /// All, in the order in which they came.
    pub came: Vec<TimedPacket>,
    /// The greatest number so far, and the greatest moment.
    pub top: u64,
    pub moment: u64,
}

/// The number of the next packet, where `top` is the greatest so far, or 0 where none came.
fn number_after(top: u64, seq: u16) -> u64
    requires { top < 2 ^ 60 }
    ensures number { result ≡ number_from top seq }
    ensures near { result ≤ top + 131071 }
{
    let seq = u64::from(seq);
    if top == 0 {
        return seq + 65536;
    }
    let base = top.saturating_sub(32768);
    base + (seq + 65536 - base % 65536) % 65536
}

/// Takes what the buffer gives.
fn drain(buffer: &mut ReorderBuffer, used: &mut Vec<Due>) -> Result<(), NoMemory>
    ensures drains { OnOk result (Drains buffer.old used.old.items buffer.new used.new.items) }
    ensures quiet { OnOk result (has_ready buffer.new ≡ Bool.false) }
    ensures arrivals { OnOk result (arrival_count buffer.new ≡ arrival_count buffer.old) }
    ensures finished { OnOk result (is_finished buffer.new ≡ is_finished buffer.old) }
{
    while let Some(due) = buffer.next() {
        used.push(due)?;
    }
    Ok(())
}

impl StreamPackets {
    fn new(alloc: Global) -> StreamPackets
        ensures empty { IsEmpty result }
        ensures small { IsSmall 0 result }
    {
        StreamPackets {
            sources: FirstSources::new(alloc),
            used: Vec::new(alloc),
            came: Vec::new(alloc),
            top: 0,
            moment: 0,
        }
    }

    /// Counts a packet of this source, with this sequence number, which came at this moment.
    #[inline(always)]
    fn count(&mut self, source: u32, seq: u16, at: u64) -> Result<(), NoMemory>
        requires { (n : ℕ) × (n < 2 ^ 32) × IsSmall n self.old }
        ensures counts { OnOk result (Counts source seq at self.old self.new) }
        ensures small { OnOk result ((n : ℕ) → IsSmall n self.old → IsSmall (n + 1) self.new) }
    {
        self.sources.name(source)?;
        let number = number_after(self.top, seq);
        self.top = self.top.max(number);
        self.moment = self.moment.max(at);
        self.came.push(TimedPacket {
            number,
            time: self.moment,
        })?;
        Ok(())
    }

    /// Takes the packet of text that is current at the buffer, and came at this moment.
    fn take(&mut self, buffer: &mut ReorderBuffer, at: u64) -> Result<(), NoMemory>
        requires at { at < END_OF_MOMENTS }
        requires quiet { has_ready buffer.old ≡ Bool.false }
        requires few { arrival_count buffer.old < 2 ^ 32 }
        requires small { IsSmall (arrival_count buffer.old) self.old }
        ensures hears { OnOk result (HearsCurrent at buffer.old self.old buffer.new self.new) }
        ensures small { OnOk result (IsSmall (arrival_count buffer.new) self.new) }
        ensures quiet { OnOk result (has_ready buffer.new ≡ Bool.false) }
        ensures arrivals { OnOk result (arrival_count buffer.new ≡ arrival_count buffer.old + 1) }
        ensures finished { OnOk result (is_finished buffer.new ≡ is_finished buffer.old) }
    {
        let current = buffer.packet();
        self.count(current.source, current.seq, at)?;
        let _taken = buffer.arrive(at);
        drain(buffer, &mut self.used)
    }

    /// Takes a packet of text with this number, which is next in order and came at this moment, where it lies.
    #[inline(always)]
    fn take_viewed(
        &mut self,
        buffer: &mut ReorderBuffer,
        at: u64,
        number: u64,
        view: &TextView<'_>,
    ) -> Result<(), NoMemory>
        requires at { at < END_OF_MOMENTS }
        requires next { IsNext buffer.old number }
        requires number { number ≡ next_number buffer.old view.now.seq }
        requires few { arrival_count buffer.old < 2 ^ 32 }
        requires small { IsSmall (arrival_count buffer.old) self.old }
        ensures hears { OnOk result (HearsViewed at view.now buffer.old self.old buffer.new self.new) }
        ensures small { OnOk result (IsSmall (arrival_count buffer.new) self.new) }
        ensures quiet { OnOk result (has_ready buffer.new ≡ Bool.false) }
        ensures arrivals { OnOk result (arrival_count buffer.new ≡ arrival_count buffer.old + 1) }
        ensures finished { OnOk result (is_finished buffer.new ≡ is_finished buffer.old) }
    {
        self.count(view.source, view.seq, at)?;
        let ready = buffer.give_at_once(at, number);
        self.used.push(Due { number, ready })?;
        Ok(())
    }

    /// Takes a packet that came at this moment, if it is one of text of the stream.
    fn take_octets(
        &mut self,
        buffer: &mut ReorderBuffer,
        ssrc: u32,
        payload_types: PayloadTypes,
        at: u64,
        octets: &[u8],
    ) -> Result<(), NoMemory>
        requires at { at < END_OF_MOMENTS }
        requires quiet { has_ready buffer.old ≡ Bool.false }
        requires few { arrival_count buffer.old < 2 ^ 32 }
        requires small { IsSmall (arrival_count buffer.old) self.old }
        ensures hears { OnOk result (HearsOctets ssrc payload_types at octets.now buffer.old self.old buffer.new
            self.new) }
        ensures small { OnOk result (IsSmall (arrival_count buffer.new) self.new) }
        ensures quiet { OnOk result (has_ready buffer.new ≡ Bool.false) }
        ensures arrivals { OnOk result (arrival_count buffer.new ≤ arrival_count buffer.old + 1) }
        ensures finished { OnOk result (is_finished buffer.new ≡ is_finished buffer.old) }
    {
        if let Some(view) = view_text(octets, Some(ssrc), payload_types) {
            if let Some(number) = buffer.next_in_order(view.seq) {
                return self.take_viewed(buffer, at, number, &view);
            }
        }
        match read_text(octets, Some(ssrc), payload_types, buffer.packet_mut()) {
            Ok(()) => self.take(buffer, at),
            Err(_) => Ok(()),
        }
    }

    /// Takes these records as they stand.
    fn take_records(
        &mut self,
        buffer: &mut ReorderBuffer,
        ssrc: u32,
        payload_types: PayloadTypes,
        records: &[u8],
    ) -> Result<(), NoMemory>
        requires records { HasRecords records.now }
        requires quiet { has_ready buffer.old ≡ Bool.false }
        requires none { arrival_count buffer.old ≡ 0 }
        requires small { IsSmall 0 self.old }
        requires open { is_finished buffer.old ≡ Bool.false }
        ensures hears { OnOk result (HearsRecords ssrc payload_types records.now buffer.old self.old buffer.new
            self.new) }
        ensures few { OnOk result (self.new.sources.others < 2 ^ 32) }
        ensures quiet { OnOk result (has_ready buffer.new ≡ Bool.false) }
        ensures open { OnOk result (is_finished buffer.new ≡ Bool.false) }
    {
        let mut rest = records;
        while let Some((at, octets, more)) = next_record(rest) {
            self.take_octets(buffer, ssrc, payload_types, u64::from(at), octets)?;
            rest = more;
        }
        Ok(())
    }
}

/// Hears these records of a stream to their end.
pub(crate) fn heard_of(
    alloc: Global,
    ssrc: u32,
    payload_types: PayloadTypes,
    records: &[u8],
) -> Result<StreamPackets, NoMemory>
    requires { HasRecords records.now }
    ensures heard { IfOk result (λ heard. OfRecords records.now (IsHeard ssrc payload_types heard)) }
    ensures few { IfOk result (λ heard. heard.sources.others < 2 ^ 32) }
{
    let mut buffer = ReorderBuffer::new(alloc, u64::from(USUAL_WAIT))?;
    let mut heard = StreamPackets::new(alloc);
    heard.take_records(&mut buffer, ssrc, payload_types, records)?;
    buffer.finish();
    drain(&mut buffer, &mut heard.used)?;
    Ok(heard)
}
