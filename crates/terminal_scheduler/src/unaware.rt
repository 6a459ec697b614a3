//! A terminal that shows one text of many speakers.
ghost use Rattle.std.specs.Prelude.{◌≡◌, ◌+◌, ◌<◌, ◌≤◌, ◌&&◌, ◌||◌, [], false, length, IfOk, IfSome, nat_le};
ghost use Rattle.mixer_spec.specs.Rounds.{all_below};
ghost use Rattle.mixer_spec.specs.Setups.{IsRoom};
ghost use Rattle.mixer_spec.specs.Table.{has_work, is_quiet};
ghost use Rattle.mixer_places.specs.SlotStanding.{SlotsStandFor, SlotsTell};
ghost use Rattle.terminal_scheduler.specs.Turns.{Puts, with_terminal};
ghost use Rattle.terminal_scheduler.specs.UnawareStates.{SameLeg, UnawareState, legs_of, next_turn, own_of};
ghost use Rattle.terminal_scheduler.specs.UnawareInsides.{UnawareIsSound, state_of};
ghost use Rattle.terminal_scheduler.specs.UnawareStanding.{Composes, OfAsks, OfTerminals, OfTurns, UnawareStandsFor, StandsNew, StandsWoken, entry_here, kept_sent, left_behind, none_here, turned_here};
ghost use Rattle.rtt_base.specs.declared.limits.TheConstants.{END_OF_MOMENTS};

use mixer_places::Slots;
use rtt_base::{Name, NoMemory, Text};
use std::alloc::Global;
use std::marker::Model;
use unaware_view::Composer;

/// What is kept of a terminal that is sent one text of all other legs under the mixer's SSRC.
#[derive(Drop)]
pub struct UnawareScheduler {
    /// The terminal's leg.
    own: usize,
    legs: usize,
    /// How long after a packet the next one is sent at the earliest, in milliseconds of media time.
    spacing: u32,
    composer: Composer,
    /// In how many packets a text is repeated.
    generations: u8,
    /// How many packets are still to repeat the last text.
    left: u8,
    /// From when a packet may be sent again, in milliseconds of media time.
    free_at: u64,
    /// Whether it is known that nothing of another leg waits at the terminal.
    none_waits: bool,
}

impl Model for UnawareScheduler {
    ghost Value = { UnawareState };

    ghost view = { state_of };

    ghost invariant = { UnawareIsSound };
}

impl UnawareScheduler {
    /// The terminal_scheduler of the terminal of the leg `own`, where there are so many legs, to which nothing was sent yet. A text has
    /// `room` octets at most, and is repeated in so many packets; and a run that goes on is labelled again after `relabel`
    /// milliseconds without text, if at all. It takes all memory that it ever needs.
    pub fn new(
        alloc: Global,
        generations: u8,
        legs: usize,
        own: usize,
        room: usize,
        spacing: u32,
        relabel: Option<u32>,
    ) -> Result<UnawareScheduler, NoMemory>
        requires own { own < legs }
        requires room { IsRoom room }
        ensures stands { IfOk result (λ scheduler. StandsNew generations legs own room spacing relabel scheduler) }
        ensures own { IfOk result (λ scheduler. own_of scheduler ≡ own) }
        ensures legs { IfOk result (λ scheduler. legs_of scheduler ≡ legs) }
        ensures next { IfOk result (λ scheduler. next_turn scheduler ≡ 0) }
    {
        let composer = Composer::new(alloc, legs, own, room, relabel)?;
        Ok(UnawareScheduler {
            own,
            legs,
            spacing,
            composer,
            generations,
            left: 0,
            free_at: 0,
            none_waits: true,
        })
    }

    /// Whether text waits of another leg at the terminal, or is still to be repeated under that leg's SSRC.
    pub fn has_work(&self, source: usize, slots: &Slots) -> bool
        requires slots { length slots.now ≡ legs_of self.now }
        requires source { source < legs_of self.now }
        ensures { OfTerminals self.now slots.now (λ s j d. result ≡ has_work s j d source) }
    {
        slots.has_waiting(self.own, source)
    }

    /// Whether nothing waits at the terminal, and no text is still to be repeated there.
    pub fn is_quiet(&self, slots: &Slots) -> bool
        requires { length slots.now ≡ legs_of self.now }
        ensures { OfTerminals self.now slots.now (λ s j d. result ≡ is_quiet s j d) }
    {
        if self.left > 0 {
            return false;
        }
        is_empty(self.own, slots, self.legs)
    }

    /// One turn at this media time, in milliseconds: answers whether a packet is sent of the terminal's one source, 0, which is
    /// the mixer. `text` is its text then, empty where one is only repeated, and is used up otherwise; of the names each has
    /// its leg's number.
    pub fn turn(
        &mut self,
        media: u64,
        names: &[Name],
        slots: &mut Slots,
        text: &mut Text,
    ) -> Option<usize>
        requires slots { length slots.old ≡ legs_of self.old }
        requires names { length names.now ≡ legs_of self.old }
        requires rises { next_turn self.old ≤ media }
        requires media { media < END_OF_MOMENTS }
        ensures stands { OfTurns self.old slots.old names.now media (λ s j table now.
            UnawareStandsFor s j self.new (turned_here s j now media table)) }
        ensures waits { OfTurns self.old slots.old names.now media (λ s j table now.
            SlotsStandFor s slots.new (with_terminal j (turned_here s j now media table) table)) }
        ensures puts { OfTurns self.old slots.old names.now media (λ s j table now.
            Puts false media (entry_here s j now media table) result text.new) }
        ensures within { IfSome result (λ source. source ≡ 0) }
        ensures slots { length slots.new ≡ length slots.old }
        ensures same { SameLeg self.old self.new }
        ensures next { next_turn self.new ≡ media + 1 }
    {
        let is_asked = has_come(self.free_at, media);
        let gave = self.ask(media, is_asked, names, slots, text);
        let is_sent = or_repeats(gave, is_asked, self.left > 0);
        if !is_sent {
            return None;
        }
        self.keep(media, text);
        Some(0)
    }

    /// Asks the composer at this media time for text, where some may be given.
    fn ask(
        &mut self,
        media: u64,
        is_asked: bool,
        names: &[Name],
        slots: &mut Slots,
        text: &mut Text,
    ) -> bool
        requires slots { length slots.old ≡ legs_of self.old }
        requires names { length names.now ≡ legs_of self.old }
        requires rises { next_turn self.old ≤ media }
        requires media { media < END_OF_MOMENTS }
        ensures composes { OfAsks self.old slots.old names.now (λ s table asks.
            Composes s table self.old.composer media is_asked asks result text.new self.new slots.new) }
        ensures slots { length slots.new ≡ length slots.old }
        ensures same { SameLeg self.old self.new }
        ensures next { next_turn self.new ≡ media + 1 }
        ensures repeats { (self.new.generations ≡ self.old.generations) × (self.new.left ≡ self.old.left) }
        ensures times { (self.new.spacing ≡ self.old.spacing) × (self.new.free_at ≡ self.old.free_at) }
    {
        if self.none_waits {
            self.composer.pass(media);
            text.clear();
            return false;
        }
        let gave = self.composer.turn(media, is_asked, names, slots, text);
        let none_waits = is_empty(self.own, slots, self.legs);
        self.none_waits = none_waits;
        gave
    }

    /// Is told that text may wait here that did not before.
    pub fn wake(&mut self)
        ensures stands { StandsWoken self.old self.new }
        ensures same { SameLeg self.old self.new }
        ensures next { next_turn self.new ≡ next_turn self.old }
    {
        self.none_waits = false;
    }

    /// How many packets are still to repeat the last text, behind one with this text.
    fn left_behind(&self, text: &Text) -> u8
        ensures { result ≡ left_behind self.now text.now }
    {
        if text.is_empty() {
            self.left.saturating_sub(1)
        } else {
            self.generations
        }
    }

    /// Keeps that a packet with this text is sent at this media time.
    fn keep(&mut self, media: u64, text: &Text)
        requires { media < END_OF_MOMENTS }
        ensures { self.new ≡ kept_sent media text.now self.old }
    {
        let left = self.left_behind(text);
        self.left = left;
        self.free_at = media + u64::from(self.spacing);
    }
}

/// Whether the moment has come at this media time.
fn has_come(moment: u64, media: u64) -> bool
    ensures { result ≡ nat_le moment media }
{
    moment <= media
}

/// Whether nothing of the leg waits at the terminal, or it is its own.
fn none_here(own: usize, source: usize, slots: &Slots) -> bool
    requires { (own < length slots.now) × (source < length slots.now) }
    ensures { SlotsTell slots.now (λ s table. result ≡ none_here own (table.terminals own) source) }
{
    if source == own {
        return true;
    }
    !slots.has_waiting(own, source)
}

/// Whether nothing of any other leg waits at the terminal.
fn is_empty(own: usize, slots: &Slots, legs: usize) -> bool
    requires own { own < length slots.now }
    requires legs { length slots.now ≡ legs }
    ensures { SlotsTell slots.now (λ s table. result ≡ all_below (none_here own (table.terminals own)) legs) }
{
    for source in 0..legs {
        if !none_here(own, source, slots) {
            return false;
        }
    }
    true
}

/// Whether a packet is sent: text was given, or some is still to be repeated where text could be given.
fn or_repeats(gave: bool, is_asked: bool, is_due: bool) -> bool
    ensures { result ≡ (gave || (is_asked && is_due)) }
{
    gave || (is_asked && is_due)
}
