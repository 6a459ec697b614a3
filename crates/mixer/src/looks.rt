//! What a mixer finds at all terminals.
ghost use Rattle.std.specs.Prelude.{◌≡◌, ◌<◌, length};
ghost use Rattle.mixer_spec.specs.Rounds.{all_below};
ghost use Rattle.mixer_spec.specs.Table.{is_done, is_quiet};
ghost use Rattle.terminal_scheduler.specs.Schedulers.{OfTerminals, legs_of};
ghost use Rattle.mixer.specs.Looks.{AreAll, OfTables, is_free_of};

use mixer_places::Slots;
use terminal_scheduler::TerminalScheduler;

/// Whether nothing waits at any terminal, and no text is still to be repeated.
pub fn are_quiet(schedulers: &[TerminalScheduler], slots: &Slots) -> bool
    requires { AreAll (length slots.now) schedulers.now }
    ensures { OfTables schedulers.now slots.now (λ s table.
        result ≡ all_below (λ j. is_quiet s j (table.terminals j)) (length schedulers.now)) }
{
    for terminal in 0..schedulers.len() {
        let scheduler = &schedulers[terminal];
        if !scheduler.is_quiet(slots) {
            return false;
        }
    }
    true
}

/// Whether at the terminal, where it is another leg's, nothing of the leg waits and none of its text is to be repeated.
fn is_free_of(leg: usize, terminal: usize, scheduler: &TerminalScheduler, slots: &Slots) -> bool
    requires slots { length slots.now ≡ legs_of scheduler.now }
    requires leg { leg < legs_of scheduler.now }
    ensures { OfTerminals scheduler.now slots.now (λ s j d. j ≡ terminal → result ≡ is_free_of s leg j d) }
{
    terminal == leg || !scheduler.has_work(leg, slots)
}

/// Whether each terminal of another leg is.
fn are_free_of(leg: usize, schedulers: &[TerminalScheduler], slots: &Slots) -> bool
    requires all { AreAll (length slots.now) schedulers.now }
    requires leg { leg < length slots.now }
    ensures { OfTables schedulers.now slots.now (λ s table.
        result ≡ all_below (λ j. is_free_of s leg j (table.terminals j)) (length schedulers.now)) }
{
    for terminal in 0..schedulers.len() {
        let scheduler = &schedulers[terminal];
        if !is_free_of(leg, terminal, scheduler, slots) {
            return false;
        }
    }
    true
}

/// Whether nothing of the leg or for it waits, and no text of it or at its terminal is still to be repeated.
pub fn is_done(leg: usize, schedulers: &[TerminalScheduler], slots: &Slots) -> bool
    requires all { AreAll (length slots.now) schedulers.now }
    requires legs { length schedulers.now ≡ length slots.now }
    requires leg { leg < length slots.now }
    ensures { OfTables schedulers.now slots.now (λ s table. result ≡ is_done s leg table) }
{
    let scheduler = &schedulers[leg];
    scheduler.is_quiet(slots) && are_free_of(leg, schedulers, slots)
}
