//! What links are opened in, with its clock.
ghost use Rattle.std.specs.Prelude.{◌≡◌, ℕ, ◌<◌, ◌≤◌, ◌^◌, Bool, true, false, List, [], ◌∷◌, ◌++◌, OnOk, OnErr, IfOk};
ghost use Rattle.rtt_io.specs.Counts.{Rose, counted};
ghost use Rattle.stream_spec.specs.Links.{Takes};
ghost use Rattle.link_io.specs.Ports.{Same, SameBut, Replaces, StayOpened, NoneFalls, CountsMore, CountsNoOther};

use crate::{Beat, LinkIn, LinkOut};
use rtt_base::Failed;

/// What links are opened in, each at a port of its own, and a clock (milliseconds). Each end that it gives is handed back
/// by its `done_` call.
pub trait Links {
    type In: LinkIn + Send;

    type Out: LinkOut<Clock = Self::Clock>;

    /// The kind of its clock, of which no links of another kind have one.
    type Clock;

    /// Whether it tells what is stored under a port. Those over real sockets don't.
    ghost tells: { Type 0 };

    /// A link was opened at this port.
    ghost opened: { Self → ℕ → Bool };

    /// The links that were opened, oldest first: of each its port, and the peer that it leads to.
    ghost leads: { Self → List (ℕ × List ℕ) };

    /// What the takes of the inbound end gave that was handed back last of this port, newest first.
    ghost taken_at: { Self → ℕ → Takes };

    /// The packets that the outbound end was given that was handed back last of this port, oldest first, each with how often the clock
    /// had paused.
    ghost given_at: { Self → ℕ → List (ℕ × List ℕ) };

    /// How often a call that opens this port failed.
    ghost own_faults: { Self → ℕ → ℕ };

    /// How often the ends of this port that were handed back had failed.
    ghost object_faults: { Self → ℕ → ℕ };

    /// The last moment that its clock told.
    ghost moment: { Self → ℕ };

    /// How often it paused.
    ghost pauses: { Self → ℕ };

    /// Opens a link at a port, to a peer. Nothing came yet, and nothing was given. After `Failed` what is stored is as
    /// before.
    fn link(&mut self, port: u16, to: &str) -> Result<(Self::In, Self::Out), Failed>
        ensures own_never_falls { NoneFalls own_faults self.old self.new }
        ensures failed { OnErr result (Rose (own_faults self.old port) (own_faults self.new port)) }
        ensures calm { OnOk result (Same own_faults self.old self.new) }
        ensures same_objects { Same object_faults self.old self.new }
        ensures same_moment { moment self.new ≡ moment self.old }
        ensures same_pauses { pauses self.new ≡ pauses self.old }
        ensures ports { IfOk result (λ ends. (Self.In.port ends.0 ≡ port) × (Self.Out.port ends.1 ≡ port)) }
        ensures fresh { IfOk result (λ ends. (Self.In.faults ends.0 ≡ 0) × (Self.Out.faults ends.1 ≡ 0)) }
        ensures not_closed { IfOk result (λ ends. Self.In.closed ends.0 ≡ false) }
        ensures none { IfOk result (λ ends. (Self.In.taken ends.0 ≡ []) × (Self.Out.given ends.1 ≡ [])) }

        ensures told { tells → OnOk result (Self.In.tells × Self.Out.tells) }
        ensures opens { tells → OnOk result (opened self.new port ≡ true) }
        ensures leads_there { tells → OnOk result (leads self.new ≡ leads self.old ++ (port, to.now) ∷ []) }
        ensures leads_nowhere { tells → OnErr result (leads self.new ≡ leads self.old) }
        ensures stay_opened { tells → StayOpened opened self.old self.new }
        ensures same_taken { tells → Same taken_at self.old self.new }
        ensures same_given { tells → Same given_at self.old self.new };

    /// Takes back an inbound end, stores what its takes gave under its port, and adds its faults to those of its port.
    fn done_in(&mut self, link: Self::In)
        ensures same_own { Same own_faults self.old self.new }
        ensures objects_never_fall { NoneFalls object_faults self.old self.new }
        ensures calm { Self.In.faults link ≡ 0 → Same object_faults self.old self.new }
        ensures added { CountsMore object_faults (Self.In.port link) (Self.In.faults link) self.old self.new }
        ensures same_moment { moment self.new ≡ moment self.old }
        ensures same_pauses { pauses self.new ≡ pauses self.old }

        ensures no_other { tells → CountsNoOther opened object_faults (Self.In.port link) self.old self.new }
        ensures stored { tells → Replaces opened taken_at (Self.In.port link) (Self.In.taken link) self.old self.new }
        ensures other_taken { tells → SameBut (Self.In.port link) taken_at self.old self.new }
        ensures same_given { tells → Same given_at self.old self.new }
        ensures same_opened { tells → Same opened self.old self.new }
        ensures same_leads { tells → leads self.new ≡ leads self.old };

    /// Takes back an outbound end, stores what it was given under its port, and adds its faults to those of its port.
    fn done_out(&mut self, link: Self::Out)
        ensures same_own { Same own_faults self.old self.new }
        ensures objects_never_fall { NoneFalls object_faults self.old self.new }
        ensures calm { Self.Out.faults link ≡ 0 → Same object_faults self.old self.new }
        ensures added { CountsMore object_faults (Self.Out.port link) (Self.Out.faults link) self.old self.new }
        ensures same_moment { moment self.new ≡ moment self.old }
        ensures same_pauses { pauses self.new ≡ pauses self.old }

        ensures no_other { tells → CountsNoOther opened object_faults (Self.Out.port link) self.old self.new }
        ensures stored { tells → Replaces opened given_at (Self.Out.port link) (Self.Out.given link) self.old self.new }
        ensures other_given { tells → SameBut (Self.Out.port link) given_at self.old self.new }
        ensures same_taken { tells → Same taken_at self.old self.new }
        ensures same_opened { tells → Same opened self.old self.new }
        ensures same_leads { tells → leads self.new ≡ leads self.old };

    /// The moment of its clock. It never falls.
    fn now(&mut self) -> u64
        ensures is { result ≡ moment self.new }
        ensures early { result < 2 ^ 47 }
        ensures rises { moment self.old ≤ moment self.new }
        ensures same_pauses { pauses self.new ≡ pauses self.old }
        ensures same_own { Same own_faults self.old self.new }
        ensures same_objects { Same object_faults self.old self.new }

        ensures same_opened { tells → Same opened self.old self.new }
        ensures same_leads { tells → leads self.new ≡ leads self.old }
        ensures same_taken { tells → Same taken_at self.old self.new }
        ensures same_given { tells → Same given_at self.old self.new };

    /// How often it paused, for what is given before it pauses again.
    fn beat(&self) -> Beat<'_, Self::Clock>
        ensures { result.pauses ≡ pauses self.now };

    /// Lets time go by until this moment of its clock, where that is still to come, and counts a pause.
    fn pause_until(&mut self, until: u64)
        ensures counted { pauses self.new ≡ counted (pauses self.old) 1 }
        ensures rises { moment self.old ≤ moment self.new }
        ensures same_own { Same own_faults self.old self.new }
        ensures same_objects { Same object_faults self.old self.new }

        ensures reached { tells → until < 2 ^ 47 → until ≤ moment self.new }
        ensures same_opened { tells → Same opened self.old self.new }
        ensures same_leads { tells → leads self.new ≡ leads self.old }
        ensures same_taken { tells → Same taken_at self.old self.new }
        ensures same_given { tells → Same given_at self.old self.new };
}
