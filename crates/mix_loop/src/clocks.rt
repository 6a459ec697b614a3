//! The clock of the turns.
ghost use Rattle.std.specs.Prelude.{◌≡◌, ℕ, ◌<◌, ◌≤◌, ◌^◌, Bool, List};
ghost use Rattle.rtt_io.specs.Counts.{counted};
ghost use Rattle.link_io.specs.Ports.{Same};

use link_io::{Beat, Links};

/// What turns ask of the links of a call: the clock (milliseconds), and that it lets time go by. Nothing else of the links
/// changes with it.
pub trait TurnClock {
    /// The kind of clock.
    type Clock;

    /// Whether the links tell what is stored under a port.
    ghost tells: { Type 0 };

    /// A link was opened at this port.
    ghost opened: { Self → ℕ → Bool };

    /// The links that were opened, oldest first: of each its port, and the peer that it leads to.
    ghost leads: { Self → List (ℕ × List ℕ) };

    /// How often a call that opens this port failed.
    ghost own_faults: { Self → ℕ → ℕ };

    /// How often the ends of this port that were handed back had failed.
    ghost object_faults: { Self → ℕ → ℕ };

    /// The last moment that it told.
    ghost moment: { Self → ℕ };

    /// How often it paused.
    ghost pauses: { Self → ℕ };

    /// The moment. It never falls.
    fn clock_now(&mut self) -> u64
        ensures is { result ≡ moment self.new }
        ensures early { result < 2 ^ 47 }
        ensures rises { moment self.old ≤ moment self.new }
        ensures same_pauses { pauses self.new ≡ pauses self.old }
        ensures same_own { Same own_faults self.old self.new }
        ensures same_objects { Same object_faults self.old self.new }
        ensures same_opened { tells → Same opened self.old self.new }
        ensures same_leads { tells → leads self.new ≡ leads self.old };

    /// How often it paused, for what is given before it pauses again.
    fn clock_beat(&self) -> Beat<'_, Self::Clock>
        ensures { result.pauses ≡ pauses self.now };

    /// Lets time go by until this moment, where that is still to come, and counts a pause.
    fn sleep_until(&mut self, until: u64)
        ensures counted { pauses self.new ≡ counted (pauses self.old) 1 }
        ensures rises { moment self.old ≤ moment self.new }
        ensures same_own { Same own_faults self.old self.new }
        ensures same_objects { Same object_faults self.old self.new }
        ensures reached { tells → until < 2 ^ 47 → until ≤ moment self.new }
        ensures same_opened { tells → Same opened self.old self.new }
        ensures same_leads { tells → leads self.new ≡ leads self.old };
}

impl<W: Links> TurnClock for W {
    type Clock = W::Clock;

    ghost tells = { W.Links.tells };

    ghost opened = { W.Links.opened };

    ghost leads = { W.Links.leads };

    ghost own_faults = { W.Links.own_faults };

    ghost object_faults = { W.Links.object_faults };

    ghost moment = { W.Links.moment };

    ghost pauses = { W.Links.pauses };

    fn clock_now(&mut self) -> u64 {
        self.now()
    }

    fn clock_beat(&self) -> Beat<'_, W::Clock> {
        self.beat()
    }

    fn sleep_until(&mut self, until: u64) {
        self.pause_until(until);
    }
}
