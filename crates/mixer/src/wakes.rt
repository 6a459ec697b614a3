//! Terminals to which text comes.
ghost use Rattle.mixer.specs.Waking.{AreWoken};

use terminal_scheduler::TerminalScheduler;

/// Wakes each terminal.
pub fn wake(schedulers: &mut Vec<TerminalScheduler>)
    ensures { AreWoken schedulers.old.items schedulers.new.items }
{
    for terminal in 0..schedulers.len() {
        let scheduler = &mut schedulers[terminal];
        scheduler.wake();
    }
}
