//! What waits of one source, at every terminal.
ghost use Rattle.std.specs.Prelude.{◌≡◌, ◌+◌, ◌<◌, ◌≤◌, ◌++◌, [], length, if◌then◌else◌, IsOk, IfOk, OnOk, OnErr, IsUtf8};
ghost use Rattle.mixer_spec.specs.Rounds.{set_at};
ghost use Rattle.mixer_spec.specs.Chunks.{joined, octets, front, behind, has_chunk};
ghost use Rattle.mixer_spec.specs.Table.{is_given};
ghost use Rattle.mixer_places.specs.Lanes.{Waiting};
ghost use Rattle.mixer_places.specs.LaneInsides.{waiting_in, IsLane};
ghost use Rattle.rtt_base.specs.declared.limits.TheConstants.{MOST_TEXT_OCTETS};

use crate::parts::{Part, count_from, first_parts, oldest};
use crate::rings::{Ring, RingPosition};
use rtt_base::{Full, NoMemory, Text};
use std::alloc::Global;
use std::marker::Model;

/// The chunks of one source, and the part of them that waits for each terminal.
#[derive(Drop)]
pub struct SourceQueue {
    ring: Ring,
    parts: Vec<Part>,
}

impl Model for SourceQueue {
    ghost Value = { Waiting };

    ghost view = { waiting_in };

    ghost invariant = { IsLane };
}

impl SourceQueue {
    ghost use Rattle.mixer_places.specs.Words.{all_listen};
    ghost use Rattle.mixer_places.specs.SlotStanding.{AddsText, FitsChunk, SlotHolds, LaneTells, TellsRoom};

    /// The lane of the source `own`, which is heard by each of so many terminals but its own.
    pub fn new(alloc: Global, terminals: usize, own: usize) -> Result<SourceQueue, NoMemory>
        ensures terminals { IfOk result (λ w. length w.parts ≡ terminals) }
        ensures holds { IfOk result (λ w. SlotHolds w [] (is_given all_listen.seats own) (λ j. [])) }
    {
        let ring = Ring::new(alloc)?;
        let parts = first_parts(alloc, terminals, own)?;
        Ok(SourceQueue { ring, parts })
    }

    /// Whether the terminal hears what comes from now on. Where it is to, what waits for it is let go.
    pub fn listen(&mut self, terminal: usize, on: bool)
        requires { terminal < length self.old.parts }
        ensures terminals { length self.new.parts ≡ length self.old.parts }
        ensures holds { LaneTells self.old (λ taken listens waits.
            SlotHolds self.new taken (set_at listens terminal on) (if on then set_at waits terminal [] else waits)) }
    {
        let heard = self.parts[terminal].heard(on, self.ring.end());
        self.parts[terminal] = heard;
    }

    /// The octets that wait at the terminal.
    pub fn waiting(&self, terminal: usize) -> usize
        requires { terminal < length self.now.parts }
        ensures { LaneTells self.now (λ taken listens waits. result ≡ octets (waits terminal)) }
    {
        let part = self.parts[terminal];
        let end = part.end(self.ring.end());
        end.octets - part.from.octets
    }

    /// Whether a chunk waits at the terminal.
    pub fn has_waiting(&self, terminal: usize) -> bool
        requires { terminal < length self.now.parts }
        ensures { LaneTells self.now (λ taken listens waits. result ≡ has_chunk (waits terminal)) }
    {
        let part = self.parts[terminal];
        let end = part.end(self.ring.end());
        part.from.chunks < end.chunks
    }

    /// Appends the longest list of whole chunks with at most `room` octets that waits at the terminal, and takes it from there.
    pub fn take(&mut self, terminal: usize, room: usize, text: &mut Text)
        requires terminal { terminal < length self.old.parts }
        requires fits { length text.old + room ≤ MOST_TEXT_OCTETS }
        ensures terminals { length self.new.parts ≡ length self.old.parts }
        ensures text { LaneTells self.old
            (λ taken listens waits. text.new ≡ text.old ++ joined (front room (waits terminal))) }
        ensures fits { length text.new ≤ length text.old + room }
        ensures utf8 { IsUtf8 text.old → IsUtf8 text.new }
        ensures holds { LaneTells self.old (λ taken listens waits.
            SlotHolds self.new taken listens (set_at waits terminal (behind room (waits terminal)))) }
    {
        let all = self.ring.end();
        let part = self.parts[terminal];
        let end = part.end(all);
        let place = self.ring.place_behind(part.from, end.chunks, room);
        self.ring.append_to(part.from.octets, place.octets, text);
        self.parts[terminal].from = place;
    }

    /// Appends a chunk. `Full`: the span with it has more than 16384 octets or 512 chunks; then all is as before.
    pub fn offer(&mut self, text: &[u8]) -> Result<(), Full>
        requires { FitsChunk text.now }
        ensures terminals { length self.new.parts ≡ length self.old.parts }
        ensures room { TellsRoom text.now self.old (IsOk result) }
        ensures ok { OnOk result (AddsText text.now self.old self.new) }
        ensures err { OnErr result (self.new ≡ self.old) }
    {
        if self.ring.has_room(RingPosition::START, text.len()) {
            self.ring.push(text);
            return Ok(());
        }
        self.offer_where_full(text)
    }

    /// `offer`, where chunks must be given up first.
    #[inline(never)]
    fn offer_where_full(&mut self, text: &[u8]) -> Result<(), Full>
        requires { FitsChunk text.now }
        ensures terminals { length self.new.parts ≡ length self.old.parts }
        ensures room { TellsRoom text.now self.old (IsOk result) }
        ensures ok { OnOk result (AddsText text.now self.old self.new) }
        ensures err { OnErr result (self.new ≡ self.old) }
    {
        let front = oldest(&self.parts, self.ring.end());
        if !self.ring.has_room(front, text.len()) {
            return Err(Full);
        }
        self.ring.give_up(front);
        count_from(&mut self.parts, front);
        self.ring.push(text);
        Ok(())
    }
}
