//! The terminal_scheduler of a terminal, be it aware or not.
ghost use Rattle.std.specs.Prelude.{◌≡◌, ◌+◌, ◌<◌, ◌≤◌, length, IfOk, IfSome, if◌then◌else◌};
ghost use Rattle.mixer_spec.specs.Setups.{IsRoom};
ghost use Rattle.mixer_spec.specs.Table.{has_work, is_quiet};
ghost use Rattle.terminal_scheduler.specs.Schedulers.{IsCalmBefore, IsTurned, OfTerminals, OfTurns, SameLeg, StandsNew, StandsWoken, legs_of, next_turn, own_of, sources_of};
ghost use Rattle.rtt_base.specs.declared.limits.TheConstants.{END_OF_MOMENTS};

use crate::aware::AwareScheduler;
use crate::unaware::UnawareScheduler;
use mixer_places::{SeatingPlan, Slots};
use rtt_base::{Name, NoMemory, Text};
use std::alloc::Global;

/// What a mixer keeps of a terminal.
#[derive(Drop)]
pub enum TerminalScheduler {
    Aware(AwareScheduler),
    Unaware(UnawareScheduler),
}

impl TerminalScheduler {
    /// The terminal_scheduler of the terminal of this leg, aware or not, to which nothing was sent, where there are so many legs. A text
    /// has `room` octets at most, and is repeated in so many packets. Where it is not aware, a run that goes on is labelled again
    /// after `relabel` milliseconds without text, if at all. It takes all memory that it ever needs.
    pub fn new(
        alloc: Global,
        aware: bool,
        generations: u8,
        legs: usize,
        own: usize,
        room: usize,
        spacing: u32,
        relabel: Option<u32>,
    ) -> Result<TerminalScheduler, NoMemory>
        requires own { own < legs }
        requires room { IsRoom room }
        ensures stands { IfOk result (λ scheduler.
            StandsNew aware generations legs own room spacing relabel scheduler) }
        ensures own { IfOk result (λ scheduler. own_of scheduler ≡ own) }
        ensures legs { IfOk result (λ scheduler. legs_of scheduler ≡ legs) }
        ensures sources { IfOk result (λ scheduler. sources_of scheduler ≡ (if aware then legs else 1)) }
        ensures next { IfOk result (λ scheduler. next_turn scheduler ≡ 0) }
    {
        if aware {
            let scheduler = AwareScheduler::new(alloc, generations, legs, own, room, spacing)?;
            return Ok(TerminalScheduler::Aware(scheduler));
        }
        let scheduler = UnawareScheduler::new(
            alloc,
            generations,
            legs,
            own,
            room,
            spacing,
            relabel,
        )?;
        Ok(TerminalScheduler::Unaware(scheduler))
    }

    /// Whether text of the leg waits at the terminal, or is still to be repeated there under its SSRC.
    pub fn has_work(&self, source: usize, slots: &Slots) -> bool
        requires slots { length slots.now ≡ legs_of self.now }
        requires source { source < legs_of self.now }
        ensures { OfTerminals self.now slots.now (λ s j d. result ≡ has_work s j d source) }
    {
        match self {
            TerminalScheduler::Aware(scheduler) => scheduler.has_work(source, slots),
            TerminalScheduler::Unaware(scheduler) => scheduler.has_work(source, slots),
        }
    }

    /// Whether nothing waits at the terminal, and no text is still to be repeated there.
    pub fn is_quiet(&self, slots: &Slots) -> bool
        requires { length slots.now ≡ legs_of self.now }
        ensures { OfTerminals self.now slots.now (λ s j d. result ≡ is_quiet s j d) }
    {
        match self {
            TerminalScheduler::Aware(scheduler) => scheduler.is_quiet(slots),
            TerminalScheduler::Unaware(scheduler) => scheduler.is_quiet(slots),
        }
    }

    /// One turn at this media time, in milliseconds, of a terminal that holds a place: answers of which of the terminal's
    /// sources a packet is sent, counted from 0, if one is; `text` is its text then, and used up otherwise. Of the names each
    /// has its leg's number.
    pub fn turn(
        &mut self,
        media: u64,
        names: &[Name],
        seating: &SeatingPlan,
        slots: &mut Slots,
        text: &mut Text,
    ) -> Option<usize>
        requires slots { length slots.old ≡ legs_of self.old }
        requires names { length names.now ≡ legs_of self.old }
        requires seating { length seating.now.legs ≡ legs_of self.old }
        requires rises { next_turn self.old ≤ media }
        requires media { media < END_OF_MOMENTS }
        ensures turned { OfTurns self.old seating.now slots.old names.now media (λ s j table now.
            IsTurned s j table now media self.new slots.new result text.new) }
        ensures within { IfSome result (λ source. source < sources_of self.old) }
        ensures slots { length slots.new ≡ length slots.old }
        ensures same { SameLeg self.old self.new }
        ensures next { next_turn self.new ≤ media + 1 }
    {
        match self {
            TerminalScheduler::Aware(scheduler) => scheduler.turn(media, seating, slots, text),
            TerminalScheduler::Unaware(scheduler) => scheduler.turn(media, names, slots, text),
        }
    }

    /// Before this media time, in milliseconds, a turn changes nothing at the terminal, if no text comes.
    pub fn calm_until(&self) -> u64
        ensures { IsCalmBefore result self.now }
    {
        match self {
            TerminalScheduler::Aware(scheduler) => scheduler.calm_until(),
            TerminalScheduler::Unaware(_) => 0,
        }
    }

    /// Is told that text may wait here that did not before.
    pub fn wake(&mut self)
        ensures stands { StandsWoken self.old self.new }
        ensures same { SameLeg self.old self.new }
        ensures next { next_turn self.new ≡ next_turn self.old }
    {
        match self {
            TerminalScheduler::Aware(scheduler) => scheduler.wake(),
            TerminalScheduler::Unaware(scheduler) => scheduler.wake(),
        }
    }
}
