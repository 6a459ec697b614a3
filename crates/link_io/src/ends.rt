//! The two ends of a link to a terminal.
ghost use Rattle.std.specs.Prelude.{◌≡◌, ℕ, ◌≤◌, ◌<◌, ◌^◌, Bool, true, ◌||◌, List, [], ◌∷◌, ◌++◌, OnOk, OnErr, IfOk};
ghost use Rattle.rtt_io.specs.Counts.{Rose};
ghost use Rattle.stream_spec.specs.Links.{Takes};
ghost use Rattle.link_io.specs.Taking.{taken_of, closes};
ghost use Rattle.link_io.specs.Given.{GivesAfter};

use crate::Beat;
use rtt_base::{Failed, Packet};

/// What came of a link, where it was asked.
#[derive(Clone, Copy, Debug, PartialEq, Eq)]
pub enum Came {
    /// A datagram, which is handed out beside it.
    Datagram,
    /// A datagram of more than 4224 octets.
    Large,
    /// Nothing, by now.
    Quiet,
    /// The link is closed for good.
    Closed,
}

/// What came, and at which moment (milliseconds).
#[derive(Clone, Copy, Debug, PartialEq, Eq)]
pub struct LinkTake {
    pub at: u64,
    pub came: Came,
}

/// The end of a link at which datagrams come in.
pub trait LinkIn {
    /// Whether links of this type tell what they gave. Those over real sockets don't.
    ghost tells: { Type 0 };

    /// What the takes so far gave, newest first.
    ghost taken: { Self → Takes };

    /// A take said that it is closed.
    ghost closed: { Self → Bool };

    /// The greatest moment that it told.
    ghost moment: { Self → ℕ };

    /// How often it failed.
    ghost faults: { Self → ℕ };

    /// The port that it was opened at.
    ghost port: { Self → ℕ };

    /// Tells what came, and puts the octets of a datagram in place of what is in `out`. Where none came it waits for one until
    /// this moment of its clock, before it says `Quiet`. Its moments never fall. After
    /// `Failed` nothing was given.
    fn take(&mut self, out: &mut Packet, until: u64) -> Result<LinkTake, Failed>
        ensures never_falls { faults self.old ≤ faults self.new }
        ensures failed { OnErr result (Rose (faults self.old) (faults self.new)) }
        ensures calm { OnOk result (faults self.new ≡ faults self.old) }
        ensures same_port { port self.new ≡ port self.old }
        ensures rises { moment self.old ≤ moment self.new }
        ensures at { IfOk result (λ t. t.at ≡ moment self.new) }
        ensures early { IfOk result (λ t. t.at < 2 ^ 48) }
        ensures closing { IfOk result (λ t. closed self.new ≡ (closed self.old || closes t.came)) }
        ensures for_good { closed self.old ≡ true → IfOk result (λ t. closes t.came ≡ true) }
        ensures still_open { OnErr result (closed self.new ≡ closed self.old) }

        ensures appended { tells → IfOk result (λ t. taken self.new ≡ taken_of t out.new ∷ taken self.old) }
        ensures unchanged { tells → OnErr result (taken self.new ≡ taken self.old) };
}

/// The end of a link at which packets go out.
pub trait LinkOut {
    /// The kind of clock at whose beats it is given packets.
    type Clock;

    /// Whether links of this type tell what they were given. Those over real sockets don't.
    ghost tells: { Type 0 };

    /// The packets that it was given, oldest first, each with how often the clock had paused.
    ghost given: { Self → List (ℕ × List ℕ) };

    /// How often it failed.
    ghost faults: { Self → ℕ };

    /// The port that it was opened at.
    ghost port: { Self → ℕ };

    /// Gives a packet at this beat of the clock. That it arrives is not promised, and the call does not wait for it. After `Failed`
    /// it was not given.
    fn give(&mut self, beat: &Beat<'_, Self::Clock>, packet: &[u8]) -> Result<(), Failed>
        ensures never_falls { faults self.old ≤ faults self.new }
        ensures failed { OnErr result (Rose (faults self.old) (faults self.new)) }
        ensures calm { OnOk result (faults self.new ≡ faults self.old) }
        ensures same_port { port self.new ≡ port self.old }

        ensures now { GivesAfter beat.now.pauses (given self.old) (given self.new) }
        ensures appended { tells → OnOk result (given self.new ≡ given self.old ++ (beat.now.pauses, packet.now) ∷ []) }
        ensures unchanged { tells → OnErr result (given self.new ≡ given self.old) };
}
