//! The mixer.
ghost use Rattle.std.specs.Prelude.{◌≡◌, ◌+◌, ◌^◌, ◌<◌, ◌↔◌, true, [], length, IsOk, IfOk, IsUtf8, is_some};
ghost use Rattle.stream_spec.specs.Ready.{chunk_of};
ghost use Rattle.mixer_spec.specs.Setups.{setup};
ghost use Rattle.mixer_spec.specs.Table.{Admit, Hush, Leave, Offer, Turn, free_place, has_room, is_idle, may_leave};
ghost use Rattle.file_spec.specs.Conferences.{meaning_of};
ghost use Rattle.mixer.specs.Making.{source_counts};
ghost use Rattle.mixer.specs.States.{State};
ghost use Rattle.mixer.specs.Insides.{state_of, IsMixer};

use crate::batches::Batch;
use crate::builders::{names_of, schedulers_of, silent_slots};
use crate::calm::turn_from;
use crate::looks::{are_quiet, is_done};
use crate::turns::next_media;
use crate::wakes::wake;
use file_spec::Conference;
use mixer_places::{SeatingPlan, Slots};
use rtt_base::{Chunk, Full, Name, NoMemory};
use std::alloc::Global;
use std::marker::Model;
use terminal_scheduler::TerminalScheduler;

/// The mixer of a conference: it takes text of each leg, and sends it to the terminals of the others, turn by turn.
#[derive(Drop)]
pub struct Mixer {
    seating: SeatingPlan,
    slots: Slots,
    /// The terminal_scheduler of each leg's terminal.
    schedulers: Vec<TerminalScheduler>,
    /// The name of each leg.
    names: Vec<Name>,
    /// The media time of the last turn, in milliseconds.
    media: Option<u64>,
    /// How many turns were made.
    turns: u64,
    /// Before this media time, in milliseconds, a turn changes nothing at any terminal.
    calm: u64,
}

impl Model for Mixer {
    ghost Value = { State };

    ghost view = { state_of };

    ghost invariant = { IsMixer };
}

impl Mixer {
    ghost use Rattle.mixer.specs.States.{legs_of, sources_of};
    ghost use Rattle.mixer.specs.Standing.{MixerStandsFor, MixerTells, LeadsByCall};
    ghost use Rattle.mixer.specs.Turns.{HasBatch, OfCalls};
    ghost use Rattle.mixer.specs.Posts.{ArePosts};

    /// The mixer of this conference, of which no leg came. It takes all memory that it ever needs.
    pub fn new(alloc: Global, conference: &Conference) -> Result<Mixer, NoMemory>
        ensures legs { IfOk result (λ mixer. legs_of mixer ≡ length conference.now.legs) }
        ensures turns { IfOk result (λ mixer. mixer.turns ≡ 0) }
        ensures sources { IfOk result (λ mixer. sources_of mixer ≡ source_counts (meaning_of conference.now)) }
        ensures stands { IfOk result (λ mixer. MixerStandsFor (setup (meaning_of conference.now)) mixer []) }
    {
        let legs = conference.legs.as_slice();
        let names = names_of(alloc, legs)?;
        let seating = SeatingPlan::new(alloc, legs.len())?;
        let slots = silent_slots(alloc, legs.len())?;
        let schedulers = schedulers_of(alloc, conference)?;
        Ok(Mixer {
            seating,
            slots,
            schedulers,
            names,
            media: None,
            turns: 0,
            calm: 0,
        })
    }

    /// The number of legs.
    pub fn legs(&self) -> usize
        ensures { result ≡ legs_of self.now }
    {
        self.schedulers.len()
    }

    /// How many turns were made.
    pub fn turns(&self) -> u64
        ensures { result ≡ self.now.turns }
    {
        self.turns
    }

    /// The leg, which never came, comes to the lowest free place, and listens or not. False where all 16 are held; then all
    /// is as before.
    pub fn admit(&mut self, leg: usize, listens: bool) -> bool
        requires { leg < legs_of self.old }
        ensures legs { legs_of self.new ≡ legs_of self.old }
        ensures sources { sources_of self.new ≡ sources_of self.old }
        ensures turns { self.new.turns ≡ self.old.turns }
        ensures free { MixerTells self.old (λ s table. result ≡ is_some (free_place s table.seats)) }
        ensures stands { LeadsByCall self.old self.new (Admit leg listens) }
    {
        self.calm = 0;
        if !self.seating.admit(leg, listens) {
            return false;
        }
        self.slots.listen(leg, listens);
        true
    }

    /// The leg, which holds a place, listens no more. What waits for it is still sent to it.
    pub fn hush(&mut self, leg: usize)
        requires { leg < legs_of self.old }
        ensures legs { legs_of self.new ≡ legs_of self.old }
        ensures sources { sources_of self.new ≡ sources_of self.old }
        ensures turns { self.new.turns ≡ self.old.turns }
        ensures stands { LeadsByCall self.old self.new (Hush leg) }
    {
        self.calm = 0;
        self.seating.hush(leg);
        self.slots.listen(leg, false);
    }

    /// Whether the leg gives up its place: it listens no more, nothing waits of it or for it, and no text of it or at its
    /// terminal is still to be repeated. Else all is as before.
    pub fn leave(&mut self, leg: usize) -> bool
        requires { leg < legs_of self.old }
        ensures legs { legs_of self.new ≡ legs_of self.old }
        ensures sources { sources_of self.new ≡ sources_of self.old }
        ensures turns { self.new.turns ≡ self.old.turns }
        ensures may { MixerTells self.old (λ s table. result ≡ may_leave s leg table) }
        ensures stands { LeadsByCall self.old self.new (Leave leg) }
    {
        if !self.may_leave(leg) {
            return false;
        }
        self.calm = 0;
        self.seating.free(leg);
        true
    }

    fn may_leave(&self, leg: usize) -> bool
        requires { leg < legs_of self.now }
        ensures { MixerTells self.now (λ s table. result ≡ may_leave s leg table) }
    {
        !self.seating.is_listening(leg) && is_done(leg, &self.schedulers, &self.slots)
    }

    /// Takes a chunk of text of its leg for all other legs that listen. `Full`: the leg holds no place, or more than 16384
    /// octets or 512 chunks of it would wait; then all is as before.
    pub fn offer(&mut self, chunk: &Chunk) -> Result<(), Full>
        requires source { chunk.now.source < legs_of self.old }
        requires utf8 { IsUtf8 chunk.now.text }
        ensures legs { legs_of self.new ≡ legs_of self.old }
        ensures sources { sources_of self.new ≡ sources_of self.old }
        ensures turns { self.new.turns ≡ self.old.turns }
        ensures room { MixerTells self.old (λ s table. IsOk result
            ↔ (has_room s chunk.now.source (chunk_of chunk.now) table ≡ true)) }
        ensures stands { LeadsByCall self.old self.new (Offer (chunk_of chunk.now)) }
    {
        if !self.seating.is_seated(chunk.source as usize) {
            return Err(Full);
        }
        let Ok(()) = self.slots.offer(chunk) else {
            return Err(Full);
        };
        self.calm = 0;
        wake(&mut self.schedulers);
        Ok(())
    }

    /// Whether nothing waits, and no text is still to be repeated.
    pub fn idle(&self) -> bool
        ensures { MixerTells self.now (λ s table. result ≡ is_idle s table) }
    {
        are_quiet(&self.schedulers, &self.slots)
    }

    /// A turn at this moment, in milliseconds: each terminal whose leg holds a place is sent at most one text, new or to be
    /// repeated. What is sent is put into the batch, in leg order, in place of that of the turn before.
    pub fn turn(&mut self, now: u64, batch: &mut Batch)
        requires moment { now < 2 ^ 47 }
        requires turns { self.old.turns < 5000000 }
        ensures legs { legs_of self.new ≡ legs_of self.old }
        ensures sources { sources_of self.new ≡ sources_of self.old }
        ensures turns { self.new.turns ≡ self.old.turns + 1 }
        ensures batch { OfCalls self.old (λ s table. HasBatch s now table batch.new) }
        ensures posts { ArePosts (sources_of self.old) batch.new }
        ensures stands { LeadsByCall self.old self.new (Turn now) }
    {
        let media = next_media(self.media, now);
        let calm = turn_from(
            self.calm,
            &mut self.schedulers,
            media,
            &self.names,
            &self.seating,
            &mut self.slots,
            batch,
        );
        self.calm = calm;
        self.media = Some(media);
        self.turns += 1;
    }
}
