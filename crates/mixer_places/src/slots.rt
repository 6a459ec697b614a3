//! What waits in a mixer, of each source at each terminal.
ghost use Rattle.std.specs.Prelude.{◌≡◌, ◌+◌, ◌<◌, ◌≤◌, ◌++◌, ◌↔◌, ◌==◌, ◌&&◌, not, true, List, length, IsOk, IfOk, OnOk, OnErr, IsUtf8};
ghost use Rattle.stream_spec.specs.Ready.{chunk_of};
ghost use Rattle.mixer_spec.specs.Setups.{Setup};
ghost use Rattle.mixer_spec.specs.Chunks.{joined, octets, front, has_chunk};
ghost use Rattle.mixer_spec.specs.Table.{Table, is_fit, given, span_with};
ghost use Rattle.mixer_places.specs.Lanes.{Waiting};
ghost use Rattle.mixer_places.specs.SlotInsides.{IsSlots};
ghost use Rattle.rtt_base.specs.declared.limits.TheConstants.{MOST_TEXT_OCTETS};

use crate::lanes::SourceQueue;
use rtt_base::{Chunk, Full, NoMemory, Text};
use std::alloc::Global;
use std::marker::Model;

/// The chunks that wait. Each leg is a source and a terminal. It takes all memory when it is made.
#[derive(Drop)]
pub struct Slots {
    lanes: Vec<SourceQueue>,
}

impl Model for Slots {
    ghost Value = { List Waiting };

    ghost view = { λ s. s.lanes.items };

    ghost invariant = { IsSlots };
}

/// Whether a terminal that listens, or no more, hears the source: not its own.
fn hears(terminal: usize, source: usize, on: bool) -> bool
    ensures { result ≡ (not (terminal == source) && on) }
{
    terminal != source && on
}

impl Slots {
    ghost use Rattle.mixer_places.specs.Words.{all_listen, listening, fetched, NoneWaits};
    ghost use Rattle.mixer_places.specs.SlotStanding.{SlotsStandFor, SlotsTell, LeadsSlots};

    /// Nothing waits, and every terminal listens.
    pub fn new(alloc: Global, legs: usize) -> Result<Slots, NoMemory>
        ensures legs { IfOk result (λ slots. length slots ≡ legs) }
        ensures stands { IfOk result (λ slots. (s : Setup) → s.legs ≡ legs → SlotsStandFor s slots all_listen) }
    {
        let mut lanes = Vec::with_capacity(alloc, legs)?;
        for source in 0..legs {
            let lane = SourceQueue::new(alloc, legs, source)?;
            lanes.push(lane)?;
        }
        Ok(Slots { lanes })
    }

    /// Whether the terminal hears what is offered from now on. Where it is to, nothing may wait for it.
    pub fn listen(&mut self, terminal: usize, on: bool)
        requires { terminal < length self.old }
        ensures legs { length self.new ≡ length self.old }
        ensures stands { SlotsTell self.old (λ s table. (on ≡ true → NoneWaits s terminal table)
            → SlotsStandFor s self.new (listening terminal on table)) }
    {
        for source in 0..self.lanes.len() {
            let on = hears(terminal, source, on);
            let lane = &mut self.lanes[source];
            lane.listen(terminal, on);
        }
    }

    /// Lets a chunk of its source wait for each other terminal that listens. `Full`: the source's span with the chunk has
    /// more than 16384 octets or 512 chunks; then all is as before.
    pub fn offer(&mut self, chunk: &Chunk) -> Result<(), Full>
        requires source { chunk.now.source < length self.old }
        requires utf8 { IsUtf8 chunk.now.text }
        ensures legs { length self.new ≡ length self.old }
        ensures room { SlotsTell self.old (λ s table.
            IsOk result ↔ (is_fit (span_with s chunk.now.source (chunk_of chunk.now) table) ≡ true)) }
        ensures ok { OnOk result (LeadsSlots self.old self.new (given chunk.now.source (chunk_of chunk.now))) }
        ensures err { OnErr result (self.new ≡ self.old) }
    {
        let lane = &mut self.lanes[chunk.source as usize];
        lane.offer(chunk.text.as_slice())
    }

    /// The octets of the source that wait at the terminal.
    pub fn waiting(&self, terminal: usize, source: usize) -> usize
        requires { (terminal < length self.now) × (source < length self.now) }
        ensures { SlotsTell self.now (λ s table. result ≡ octets ((table.terminals terminal).waits source)) }
    {
        let lane = &self.lanes[source];
        lane.waiting(terminal)
    }

    /// Whether a chunk of the source waits at the terminal.
    pub fn has_waiting(&self, terminal: usize, source: usize) -> bool
        requires { (terminal < length self.now) × (source < length self.now) }
        ensures { SlotsTell self.now (λ s table. result ≡ has_chunk ((table.terminals terminal).waits source)) }
    {
        let lane = &self.lanes[source];
        lane.has_waiting(terminal)
    }

    /// Appends the longest list of whole chunks with at most `room` octets that waits of the source at the terminal, and
    /// takes it from this waiting list alone.
    pub fn take(&mut self, terminal: usize, source: usize, room: usize, text: &mut Text)
        requires within { (terminal < length self.old) × (source < length self.old) }
        requires fits { length text.old + room ≤ MOST_TEXT_OCTETS }
        ensures legs { length self.new ≡ length self.old }
        ensures text { SlotsTell self.old (λ s table.
            text.new ≡ text.old ++ joined (front room ((table.terminals terminal).waits source))) }
        ensures fits { length text.new ≤ length text.old + room }
        ensures utf8 { IsUtf8 text.old → IsUtf8 text.new }
        ensures stands { LeadsSlots self.old self.new (fetched terminal source room) }
    {
        let lane = &mut self.lanes[source];
        lane.take(terminal, room, text);
    }
}
