//! The terminal_scheduler of a terminal that tells sources apart.
ghost use Rattle.std.specs.Prelude.{◌≡◌, ◌-◌, ◌<◌, ◌≤◌, ◌||◌, ◌==◌, not, ℕ, false, [], length, IfOk, IfSome};
ghost use Rattle.mixer_spec.specs.Rounds.{first_from};
ghost use Rattle.mixer_spec.specs.Setups.{IsRoom, Setup};
ghost use Rattle.mixer_spec.specs.Table.{empty, has_work, is_due, is_due_at, is_quiet, last_media, sent_from, served};
ghost use Rattle.mixer_places.specs.SlotStanding.{SlotsTell, LeadsSlots};
ghost use Rattle.mixer_places.specs.Words.{fetched};
ghost use Rattle.terminal_scheduler.specs.AwareTurns.{AtTerminal, AtTable, IsCalmBefore, ServesLeg, StandsWoken, calm_behind, is_free, kept_served, left_behind, text_of_leg};
ghost use Rattle.terminal_scheduler.specs.Turns.{free_after};
ghost use Rattle.terminal_scheduler.specs.AwareStanding.{NoneDue};
ghost use Rattle.terminal_scheduler.specs.AwareStates.{AwareState, SameLeg};
ghost use Rattle.terminal_scheduler.specs.AwareInsides.{state_of, AwareIsSound};
ghost use Rattle.rtt_base.specs.declared.limits.TheConstants.{END_OF_MOMENTS};

use mixer_places::{SeatingPlan, Slots};
use mixer_spec::limits::PLACES;
use rtt_base::{NoMemory, Text};
use std::alloc::Global;
use std::marker::Model;

/// What a mixer keeps of a terminal that tells sources apart (RFC 9071), to which each packet is of one source.
#[derive(Drop)]
pub struct AwareScheduler {
    /// The number of the terminal's own leg.
    own: usize,
    /// The most octets of a text.
    room: usize,
    /// The least media time, in milliseconds, between two packets of a source.
    spacing: u32,
    /// In how many packets a text is repeated.
    generations: u8,
    /// For each leg how many packets are still to repeat its last text.
    left: Vec<u8>,
    /// For each leg the media time from which it may be served again.
    free_at: Vec<u64>,
    /// The place after the one served last.
    next: usize,
    /// Before this media time, in milliseconds, no leg is due.
    calm: u64,
}

impl Model for AwareScheduler {
    ghost Value = { AwareState };

    ghost view = { state_of };

    ghost invariant = { AwareIsSound };
}

/// Takes what goes into this room of the text of the leg that waits at the terminal, in place of what `text` had.
fn fetch(terminal: usize, room: usize, leg: usize, slots: &mut Slots, text: &mut Text)
    requires within { (terminal < length slots.old) × (leg < length slots.old) }
    requires room { IsRoom room }
    ensures legs { length slots.new ≡ length slots.old }
    ensures text { SlotsTell slots.old (λ s table. text.new ≡ text_of_leg room (table.terminals terminal) leg) }
    ensures stands { LeadsSlots slots.old slots.new (fetched terminal leg room) }
{
    text.clear();
    slots.take(terminal, leg, room, text);
}

impl AwareScheduler {
    ghost use Rattle.terminal_scheduler.specs.AwareStanding.{AwareStandsFor, IsMadeFor};
    ghost use Rattle.terminal_scheduler.specs.AwareRounds.{AtSeats, Serves, Turns};

    /// The terminal_scheduler of the terminal of this leg, to which nothing was sent, where there are so many legs. A text has `room`
    /// octets at most, and is repeated in so many packets. It takes all memory that it ever needs.
    pub fn new(
        alloc: Global,
        generations: u8,
        legs: usize,
        own: usize,
        room: usize,
        spacing: u32,
    ) -> Result<AwareScheduler, NoMemory>
        requires own { own < legs }
        requires room { IsRoom room }
        ensures stands { IfOk result (λ o. (s : Setup) → IsMadeFor s generations legs own room spacing
            → AwareStandsFor s own o (empty.terminals own)) }
        ensures own { IfOk result (λ o. o.own ≡ own) }
        ensures legs { IfOk result (λ o. length o.free_at ≡ legs) }
    {
        let left = vec![in alloc; 0; legs]?;
        let free_at = vec![in alloc; 0; legs]?;
        Ok(AwareScheduler {
            own,
            room,
            spacing,
            generations,
            left,
            free_at,
            next: 0,
            calm: 0,
        })
    }

    /// Whether a packet of the leg may be sent at this media time, as far as its last packet goes.
    fn is_spaced(&self, leg: usize, media: u64) -> bool
        requires { leg < length self.now.free_at }
        ensures { AtTerminal self.now (λ s d. result ≡ is_free s media d leg) }
    {
        self.free_at[leg] <= media
    }

    /// Whether text of the leg waits here, or is still to be repeated.
    pub fn has_work(&self, leg: usize, slots: &Slots) -> bool
        requires leg { leg < length self.now.free_at }
        requires slots { length slots.now ≡ length self.now.free_at }
        ensures { AtTable self.now slots.now (λ s table d. result ≡ has_work s self.now.own d leg) }
    {
        slots.has_waiting(self.own, leg) || self.left[leg] > 0
    }

    /// Whether no text of the leg waits here or is still to be repeated; its own leg has none here.
    fn is_done_with(&self, leg: usize, slots: &Slots) -> bool
        requires leg { leg < length self.now.free_at }
        requires slots { length slots.now ≡ length self.now.free_at }
        ensures { AtTable self.now slots.now (λ s table d.
            result ≡ ((leg == self.now.own) || not (has_work s self.now.own d leg))) }
    {
        leg == self.own || !self.has_work(leg, slots)
    }

    /// Whether nothing waits here, and no text is still to be repeated.
    pub fn is_quiet(&self, slots: &Slots) -> bool
        requires { length slots.now ≡ length self.now.free_at }
        ensures { AtTable self.now slots.now (λ s table d. result ≡ is_quiet s self.now.own d) }
    {
        for leg in 0..self.free_at.len() {
            if !self.is_done_with(leg, slots) {
                return false;
            }
        }
        true
    }

    /// The media time from which a packet of the leg may be sent, as far as its last packet goes.
    fn spaced_from(&self, leg: usize) -> u64
        requires { leg < length self.now.free_at }
        ensures { AtTerminal self.now (λ s d.
            result ≡ free_after s.spacing (last_media (sent_from (s.ssrc leg) d))) }
    {
        self.free_at[leg]
    }

    /// Before this media time the leg is not due, if no more text comes.
    fn due_from(&self, leg: usize, slots: &Slots) -> u64
        requires leg { leg < length self.now.free_at }
        requires slots { length slots.now ≡ length self.now.free_at }
        ensures { AtTable self.now slots.now (λ s table d.
            (t : ℕ) → t < result → is_due s self.now.own t d leg ≡ false) }
    {
        if self.is_done_with(leg, slots) {
            return u64::MAX;
        }
        self.spaced_from(leg)
    }

    /// Before this media time no leg is due, if no more text comes.
    fn any_due_from(&self, slots: &Slots) -> u64
        requires { length slots.now ≡ length self.now.free_at }
        ensures { AtTable self.now slots.now (λ s table d.
            (t : ℕ) → t < result → NoneDue s self.now.own t d) }
    {
        let mut from = u64::MAX;
        for leg in 0..self.free_at.len() {
            from = from.min(self.due_from(leg, slots));
        }
        from
    }

    /// Finds out from when on a leg is due.
    fn rest(&mut self, slots: &Slots)
        requires { length slots.now ≡ length self.old.free_at }
        ensures same { SameLeg self.old self.new }
        ensures stands { AtTable self.old slots.now (λ s table d. AwareStandsFor s self.old.own self.new d) }
    {
        let calm = self.any_due_from(slots);
        self.calm = calm;
    }

    /// Whether the leg is due at this media time: another one than the terminal's own, which has work and is spaced.
    fn is_due(&self, leg: usize, media: u64, slots: &Slots) -> bool
        requires leg { leg < length self.now.free_at }
        requires slots { length slots.now ≡ length self.now.free_at }
        ensures { AtTable self.now slots.now (λ s table d. result ≡ is_due s self.now.own media d leg) }
    {
        leg != self.own && self.is_spaced(leg, media) && self.has_work(leg, slots)
    }

    /// Whether the leg at the place is due.
    fn is_due_at(&self, place: usize, media: u64, seating: &SeatingPlan, slots: &Slots) -> bool
        requires place { place < PLACES }
        requires slots { length slots.now ≡ length self.now.free_at }
        requires seating { length seating.now.legs ≡ length self.now.free_at }
        ensures { AtSeats self.now seating.now slots.now (λ s table d.
            result ≡ is_due_at s table.seats self.now.own media d place) }
    {
        match seating.leg_at(place) {
            Some(leg) => self.is_due(leg, media, slots),
            None => false,
        }
    }

    /// The first of the places from `low` on, below `high`, whose leg is due.
    fn first_from(
        &self,
        low: usize,
        high: usize,
        media: u64,
        seating: &SeatingPlan,
        slots: &Slots,
    ) -> Option<usize>
        requires order { low ≤ high }
        requires high { high ≤ PLACES }
        requires slots { length slots.now ≡ length self.now.free_at }
        requires seating { length seating.now.legs ≡ length self.now.free_at }
        ensures first { AtSeats self.now seating.now slots.now (λ s table d.
            result ≡ first_from (is_due_at s table.seats self.now.own media d) low (high - low)) }
        ensures within { IfSome result (λ place. place < high) }
    {
        let end = high.min(seating.reach());
        for place in low..end {
            if self.is_due_at(place, media, seating, slots) {
                return Some(place);
            }
        }
        None
    }

    /// The place that a turn at this media time serves: counted round from the one after the place served last. Where all
    /// type that is mostly the first.
    fn served(&self, media: u64, seating: &SeatingPlan, slots: &Slots) -> Option<usize>
        requires slots { length slots.now ≡ length self.now.free_at }
        requires seating { length seating.now.legs ≡ length self.now.free_at }
        ensures served { AtSeats self.now seating.now slots.now (λ s table d.
            result ≡ served s table.seats self.now.own media d) }
        ensures within { IfSome result (λ place. place < PLACES) }
    {
        if self.next < PLACES {
            if self.is_due_at(self.next, media, seating, slots) {
                return Some(self.next);
            }
        }
        self.served_round(media, seating, slots)
    }

    /// `served`, wherever that place is.
    #[inline(never)]
    fn served_round(&self, media: u64, seating: &SeatingPlan, slots: &Slots) -> Option<usize>
        requires slots { length slots.now ≡ length self.now.free_at }
        requires seating { length seating.now.legs ≡ length self.now.free_at }
        ensures served { AtSeats self.now seating.now slots.now (λ s table d.
            result ≡ served s table.seats self.now.own media d) }
        ensures within { IfSome result (λ place. place < PLACES) }
    {
        match self.first_from(self.next, PLACES, media, seating, slots) {
            Some(place) => Some(place),
            None => self.first_from(0, self.next, media, seating, slots),
        }
    }

    /// Takes what is sent of the leg at the place: what fits of the text that waits, or an empty text.
    fn serve_leg(
        &mut self,
        place: usize,
        leg: usize,
        media: u64,
        slots: &mut Slots,
        text: &mut Text,
    )
        requires place { place < PLACES }
        requires leg { leg < length self.old.free_at }
        requires slots { length slots.old ≡ length self.old.free_at }
        requires media { media < END_OF_MOMENTS }
        ensures slots { length slots.new ≡ length slots.old }
        ensures same { SameLeg self.old self.new }
        ensures turned { ServesLeg self.old slots.old place leg media self.new slots.new text.new }
    {
        fetch(self.own, self.room, leg, slots, text);
        self.keep(place, leg, media, text);
    }

    /// How many packets of the leg are still to repeat its last text, behind one with this text.
    fn left_behind(&self, leg: usize, text: &Text) -> u8
        requires { leg < length self.now.free_at }
        ensures { result ≡ left_behind leg text.now self.now }
    {
        if text.is_empty() {
            self.left[leg].saturating_sub(1)
        } else {
            self.generations
        }
    }

    /// Before this media time nobody is due behind a packet of the leg at `media`: of two legs the other is the terminal's own, which is
    /// never due here.
    fn calm_behind(&self, leg: usize, media: u64) -> u64
        requires { media < END_OF_MOMENTS }
        ensures { result ≡ calm_behind leg media self.now }
    {
        if self.free_at.len() == 2 && leg != self.own {
            media + u64::from(self.spacing)
        } else {
            0
        }
    }

    /// Keeps that the leg at the place was served at this media time, with this text.
    fn keep(&mut self, place: usize, leg: usize, media: u64, text: &Text)
        requires place { place < PLACES }
        requires leg { leg < length self.old.free_at }
        requires media { media < END_OF_MOMENTS }
        ensures { self.new ≡ kept_served place leg media text.now self.old }
    {
        let left = self.left_behind(leg, text);
        let calm = self.calm_behind(leg, media);
        self.left[leg] = left;
        self.free_at[leg] = media + u64::from(self.spacing);
        self.next = place + 1;
        self.calm = calm;
    }

    /// Takes what is sent of the leg that holds the place, and answers which leg that is.
    fn serve(
        &mut self,
        place: usize,
        media: u64,
        seating: &SeatingPlan,
        slots: &mut Slots,
        text: &mut Text,
    ) -> Option<usize>
        requires place { place < PLACES }
        requires slots { length slots.old ≡ length self.old.free_at }
        requires seating { length seating.now.legs ≡ length self.old.free_at }
        requires media { media < END_OF_MOMENTS }
        ensures slots { length slots.new ≡ length slots.old }
        ensures same { SameLeg self.old self.new }
        ensures turned { Serves self.old seating.now slots.old place media self.new slots.new result text.new }
        ensures within { IfSome result (λ leg. leg < length self.old.free_at) }
    {
        let leg = seating.leg_at(place)?;
        self.serve_leg(place, leg, media, slots, text);
        Some(leg)
    }

    /// One turn at this media time, in milliseconds: answers which leg is served, if one is: the first that is due, by places,
    /// counted round from the one after the place served last. `text` is its text then, empty where one is only repeated, and
    /// is used up otherwise.
    pub fn turn(
        &mut self,
        media: u64,
        seating: &SeatingPlan,
        slots: &mut Slots,
        text: &mut Text,
    ) -> Option<usize>
        requires slots { length slots.old ≡ length self.old.free_at }
        requires seating { length seating.now.legs ≡ length self.old.free_at }
        requires media { media < END_OF_MOMENTS }
        ensures slots { length slots.new ≡ length slots.old }
        ensures same { SameLeg self.old self.new }
        ensures turned { Turns self.old seating.now slots.old media self.new slots.new result text.new }
        ensures within { IfSome result (λ leg. leg < length self.old.free_at) }
    {
        if media < self.calm {
            return None;
        }
        match self.served(media, seating, slots) {
            Some(place) => self.serve(place, media, seating, slots, text),
            None => {
                self.rest(slots);
                None
            }
        }
    }

    /// Before this media time, in milliseconds, a turn serves nobody, if no text comes.
    pub fn calm_until(&self) -> u64
        ensures { IsCalmBefore result self.now }
    {
        self.calm
    }

    /// Is told that text may wait here that did not before.
    pub fn wake(&mut self)
        ensures same { SameLeg self.old self.new }
        ensures stands { StandsWoken self.old self.new }
    {
        self.calm = 0;
    }
}
