//! Inbound ends in memory.
ghost use Rattle.std.specs.Prelude.{◌≡◌, ◌<◌, ◌≤◌, ◌^◌, true, false, [], ◌∷◌, IfOk, OnOk, OnErr};
ghost use Rattle.link_io.specs.Alike.{SameIn};
ghost use Rattle.link_io.specs.Taking.{taken_of, closes};
ghost use Rattle.link_io.specs.Told.{takes_told};

use crate::clocks::LAST_MOMENT;
use crate::{Came, LinkIn, LinkTake};
use rtt_base::{Bytes, Failed, NoMemory, Packet};
use rtt_io::FailingCalls;
use std::alloc::Global;

/// What a link is to give at a moment (milliseconds), or at that of the take before, where that is later.
#[derive(Debug, Drop)]
pub struct PlannedTake {
    pub at: u32,
    pub came: Came,
    /// The octets of a datagram.
    pub octets: Bytes,
}

impl PlannedTake {
    /// This at this moment, with a copy of these octets.
    pub fn new(alloc: Global, at: u32, came: Came, octets: &[u8]) -> Result<PlannedTake, NoMemory>
        ensures { IfOk result (λ planned. planned ≡ record { at = at; came = came; octets = octets.now }) }
    {
        let mut copy = Bytes::new(alloc);
        copy.append(octets)?;
        Ok(PlannedTake {
            at,
            came,
            octets: copy,
        })
    }

    /// The same once more.
    pub fn copy(&self, alloc: Global) -> Result<PlannedTake, NoMemory>
        ensures { IfOk result (λ planned. planned ≡ self.now) }
    {
        PlannedTake::new(alloc, self.at, self.came, self.octets.as_slice())
    }
}

/// What a link gave.
#[derive(Debug, Drop)]
pub struct TakeLog {
    pub taken: LinkTake,
    /// The octets of a datagram.
    pub octets: Bytes,
}

/// An inbound end in memory, which gives what is planned and is quiet behind that. It waits for nothing. Some of its takes
/// are to fail; they use up nothing of the plan. One for which there is no memory fails too.
#[derive(Debug, Drop)]
pub struct MemIn {
    alloc: Global,
    pub(crate) port: u16,
    pub(crate) plan: Vec<PlannedTake>,
    // how much of the plan it gave
    used: usize,
    pub(crate) takes: FailingCalls,
    pub(crate) told: Vec<TakeLog>,
    pub(crate) closed: bool,
    moment: u64,
    pub(crate) faults: u64,
    ghost early: { moment < 2 ^ 48 },
}

impl LinkIn for MemIn {
    ghost use Rattle.link_io.specs.Told.{takes_told};

    ghost tells = { Unit {0} };

    ghost taken = { λ link. takes_told link.told.items };

    ghost closed = { λ link. link.closed };

    ghost moment = { λ link. link.moment };

    ghost faults = { λ link. link.faults };

    ghost port = { λ link. link.port };

    fn take(&mut self, out: &mut Packet, until: u64) -> Result<LinkTake, Failed> {
        if self.takes.next_fails() {
            self.faults = self.faults.saturating_add(1);
            return Err(Failed);
        }
        let taken = self.next(out, until);
        if self.keep(taken, out).is_err() {
            self.faults = self.faults.saturating_add(1);
            return Err(Failed);
        }
        self.moment = taken.at;
        self.closed = self.closed || taken.came == Came::Closed;
        self.used = self.used.saturating_add(1).min(self.plan.len());
        Ok(taken)
    }
}

impl MemIn {
    /// An end that is quiet for good, none of whose takes is to fail. It takes no memory.
    pub fn new(alloc: Global, port: u16) -> MemIn
        ensures none { ⟦<MemIn as LinkIn>⟧.taken result ≡ [] }
        ensures at { ⟦<MemIn as LinkIn>⟧.port result ≡ port }
        ensures fresh { ⟦<MemIn as LinkIn>⟧.faults result ≡ 0 }
        ensures not_closed { ⟦<MemIn as LinkIn>⟧.closed result ≡ false }
        ensures at_first { ⟦<MemIn as LinkIn>⟧.moment result ≡ 0 }
    {
        MemIn {
            alloc,
            port,
            plan: Vec::new(alloc),
            used: 0,
            takes: FailingCalls::none(alloc),
            told: Vec::new(alloc),
            closed: false,
            moment: 0,
            faults: 0,
        }
    }

    /// Plans one take more, behind those that are planned.
    pub fn plan(&mut self, next: PlannedTake) -> Result<(), NoMemory>
        ensures { SameIn ⟦<MemIn as LinkIn>⟧ self.old self.new }
    {
        self.plan.push(next)?;
        Ok(())
    }

    /// The take of this number is to fail. The first one has number 1.
    pub fn fail_at(&mut self, take: u64) -> Result<(), NoMemory>
        ensures { SameIn ⟦<MemIn as LinkIn>⟧ self.old self.new }
    {
        self.takes.fail_at(take)
    }

    /// What its takes gave, oldest first.
    pub fn told(&self) -> &[TakeLog]
        ensures { takes_told result.now ≡ ⟦<MemIn as LinkIn>⟧.taken self.now }
    {
        self.told.as_slice()
    }

    // What the next take gives, and its octets.
    fn next(&self, out: &mut Packet, until: u64) -> LinkTake
        ensures rises { self.now.moment ≤ result.at }
        ensures early { result.at < 2 ^ 48 }
        ensures for_good { self.now.closed ≡ true → closes result.came ≡ true }
    {
        out.clear();
        if self.closed {
            return self.at_once(Came::Closed);
        }
        match self.plan.get(self.used) {
            Some(planned) => LinkTake {
                at: later(self.moment, planned.at),
                came: hand_out(planned, out),
            },
            None => LinkTake {
                at: self.moment.max(until.min(LAST_MOMENT)),
                came: Came::Quiet,
            },
        }
    }

    // This comes at the moment of the take before.
    fn at_once(&self, came: Came) -> LinkTake
        ensures { result ≡ record { at = self.now.moment; came = came } }
    {
        LinkTake {
            at: self.moment,
            came,
        }
    }

    // Keeps what a take gives.
    #[tactic(auto, using(crate::proofs::Keeping::told_more))]
    fn keep(&mut self, taken: LinkTake, out: &Packet) -> Result<(), NoMemory>
        ensures ok { OnOk result (takes_told self.new.told.items ≡ taken_of taken out.now ∷ takes_told self.old.told.items) }
        ensures err { OnErr result (self.new.told.items ≡ self.old.told.items) }
        ensures closed { self.new.closed ≡ self.old.closed }
        ensures moment { self.new.moment ≡ self.old.moment }
        ensures faults { self.new.faults ≡ self.old.faults }
        ensures port { self.new.port ≡ self.old.port }
    {
        let mut octets = Bytes::new(self.alloc);
        octets.append(out.as_slice())?;
        self.told.push(TakeLog { taken, octets })?;
        Ok(())
    }
}

// The later of two moments.
fn later(moment: u64, at: u32) -> u64
    requires { moment < 2 ^ 48 }
    ensures rises { moment ≤ result }
    ensures early { result < 2 ^ 48 }
{
    moment.max(u64::from(at))
}

// What is planned, and its octets, which stand in an empty packet. A datagram that does not fit is a large one.
fn hand_out(planned: &PlannedTake, out: &mut Packet) -> Came {
    if planned.came == Came::Datagram && out.append(planned.octets.as_slice()).is_err() {
        return Came::Large;
    }
    planned.came
}
