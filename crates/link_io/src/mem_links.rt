//! Links in memory.
ghost use Rattle.std.specs.Prelude.{◌≡◌, ◌<◌, ◌^◌, ℕ, true, false, [], ◌∷◌, ◌++◌, OnOk, OnErr, IfOk, IfSome};
ghost use Rattle.link_io.specs.Alike.{SameLinks};
ghost use Rattle.link_io.specs.Ports.{Same, StayOpened};
ghost use Rattle.link_io.specs.Told.{takes_told};
ghost use Rattle.link_io.specs.GivenTold.{gives_told};
ghost use Rattle.link_io.specs.MemPorts.{leads_of};
ghost use Rattle.link_io.specs.Held.{opened_in, taken_in, given_in, own_in, objects_in, Stores, Counts};

use crate::clocks::StillClock;
use crate::mem_ports::{MemLead, MemPort, place};
use crate::{Beat, GivenPacket, Links, MemIn, MemOut, PlannedTake, TakeLog};
use rtt_base::{Failed, NoMemory, Path};
use rtt_io::{FailingCalls, Faults};
use std::alloc::Global;

/// A call that is to fail.
#[derive(Clone, Copy, Debug, PartialEq, Eq)]
pub enum FailingLink {
    /// Each `link` at this port.
    Link(u16),
    /// A take at this port, by its number. The first take has number 1.
    Take(u16, u64),
    /// A give at this port, by its number. The first give has number 1.
    Give(u16, u64),
}

/// What comes at a port.
#[derive(Debug, Drop)]
struct PortEvents {
    port: u16,
    planned: PlannedTake,
}

/// Links in memory: what is planned to come at each port, what is stored under it, a list of the calls that are to fail, and
/// a clock that stands still but for pauses. Where that list is empty, a call fails only where memory runs out. Each link
/// that is opened at a port gives its whole plan, to whichever peer. A fault that no port can count, since no link was opened
/// at it, counts for every port.
#[derive(Debug, Drop)]
pub struct MemLinks {
    alloc: Global,
    ports: Vec<MemPort>,
    leads: Vec<MemLead>,
    coming: Vec<PortEvents>,
    failing: Vec<FailingLink>,
    clock: StillClock,
    pauses: u64,
    faults: Faults,
}

impl Links for MemLinks {
    type In = MemIn;

    type Out = MemOut;

    type Clock = MemLinks;

    ghost use Rattle.link_io.specs.MemPorts.{opened_of, leads_of, takes_of, given_of, own_of, objects_of};

    ghost tells = { Unit {0} };

    ghost opened = { λ links. opened_of links.ports.items };

    ghost leads = { λ links. leads_of links.leads.items };

    ghost taken_at = { λ links. takes_of links.ports.items };

    ghost given_at = { λ links. given_of links.ports.items };

    ghost own_faults = { λ links. own_of links.faults links.ports.items };

    ghost object_faults = { λ links. objects_of links.faults links.ports.items };

    ghost moment = { λ links. links.clock.moment };

    ghost pauses = { λ links. links.pauses };

    fn link(&mut self, port: u16, to: &str) -> Result<(MemIn, MemOut), Failed> {
        if let Some(ends) = self.ends(port) {
            if self.open(port).is_ok() && self.lead(port, to).is_ok() {
                return Ok(ends);
            }
        }
        self.count(port, Faults::one_own());
        Err(Failed)
    }

    fn done_in(&mut self, link: MemIn) {
        self.count(link.port, Faults::of_objects(link.faults));
        self.store_taken(link.port, link.told);
    }

    fn done_out(&mut self, link: MemOut) {
        self.count(link.port, Faults::of_objects(link.faults));
        self.store_given(link.port, link.given);
    }

    fn now(&mut self) -> u64 {
        self.clock.moment()
    }

    fn beat(&self) -> Beat<'_, MemLinks> {
        Beat::of(&self.pauses)
    }

    fn pause_until(&mut self, until: u64) {
        self.clock.put_on(until);
        self.pauses = self.pauses.saturating_add(1);
    }
}

impl MemLinks {
    /// Links that are quiet for good, where no call is to fail, at moment 0. It takes no memory.
    pub fn new(alloc: Global) -> MemLinks
        ensures none { (p : ℕ) → ⟦<MemLinks as Links>⟧.taken_at result p ≡ [] }
        ensures none_opened { (p : ℕ) → ⟦<MemLinks as Links>⟧.opened result p ≡ false }
        ensures no_lead { ⟦<MemLinks as Links>⟧.leads result ≡ [] }
        ensures none_given { (p : ℕ) → ⟦<MemLinks as Links>⟧.given_at result p ≡ [] }
        ensures fresh { (p : ℕ) → ⟦<MemLinks as Links>⟧.own_faults result p ≡ 0 }
        ensures fresh_objects { (p : ℕ) → ⟦<MemLinks as Links>⟧.object_faults result p ≡ 0 }
        ensures at_first { ⟦<MemLinks as Links>⟧.moment result ≡ 0 }
        ensures no_pause { ⟦<MemLinks as Links>⟧.pauses result ≡ 0 }
    {
        MemLinks {
            alloc,
            ports: Vec::new(alloc),
            leads: Vec::new(alloc),
            coming: Vec::new(alloc),
            failing: Vec::new(alloc),
            clock: StillClock::new(),
            pauses: 0,
            faults: Faults::none(),
        }
    }

    /// Plans what comes next at a port, behind what is planned there.
    pub fn plan(&mut self, port: u16, planned: PlannedTake) -> Result<(), NoMemory>
        ensures { SameLinks ⟦<MemLinks as Links>⟧ self.old self.new }
    {
        self.coming.push(PortEvents { port, planned })?;
        Ok(())
    }

    /// This call is to fail.
    pub fn fail(&mut self, call: FailingLink) -> Result<(), NoMemory>
        ensures { SameLinks ⟦<MemLinks as Links>⟧ self.old self.new }
    {
        self.failing.push(call)?;
        Ok(())
    }

    /// What the takes of the end gave that was handed back last of a port, oldest first.
    pub fn taken(&self, port: u16) -> &[TakeLog]
        ensures { takes_told result.now ≡ ⟦<MemLinks as Links>⟧.taken_at self.now port }
    {
        match place(self.ports.as_slice(), port) {
            Some(at) => self.ports[at].taken.as_slice(),
            None => &[],
        }
    }

    /// The packets that the end was given that was handed back last of a port, oldest first, each with how often the clock had paused.
    pub fn given(&self, port: u16) -> &[GivenPacket]
        ensures { gives_told result.now ≡ ⟦<MemLinks as Links>⟧.given_at self.now port }
    {
        match place(self.ports.as_slice(), port) {
            Some(at) => self.ports[at].given.as_slice(),
            None => &[],
        }
    }

    // The ends of a port, where its opening is not to fail and there is memory.
    fn ends(&self, port: u16) -> Option<(MemIn, MemOut)>
        ensures ports { IfSome result (λ ends. (ends.0.port ≡ port) × (ends.1.port ≡ port)) }
        ensures fresh { IfSome result (λ ends. (ends.0.faults ≡ 0) × (ends.1.faults ≡ 0)) }
        ensures none { IfSome result (λ ends. (takes_told ends.0.told.items ≡ []) × (gives_told ends.1.given.items ≡ [])) }
        ensures not_closed { IfSome result (λ ends. ends.0.closed ≡ false) }
    {
        if self.fails_to_link(port) {
            return None;
        }
        let (takes, gives) = self.failing_at(port).ok()?;
        let mut inbound = MemIn::new(self.alloc, port);
        inbound.plan = self.coming_at(port).ok()?;
        inbound.takes = takes;
        let outbound = MemOut {
            alloc: self.alloc,
            port,
            given: Vec::new(self.alloc),
            gives,
            faults: 0,
        };
        Some((inbound, outbound))
    }

    fn fails_to_link(&self, port: u16) -> bool {
        self.failing.as_slice().contains(&FailingLink::Link(port))
    }

    // What is to come at a port.
    fn coming_at(&self, port: u16) -> Result<Vec<PlannedTake>, NoMemory> {
        let mut plan = Vec::new(self.alloc);
        for coming in &self.coming {
            if coming.port == port {
                plan.push(coming.planned.copy(self.alloc)?)?;
            }
        }
        Ok(plan)
    }

    // The takes and the gives at a port that are to fail.
    fn failing_at(&self, port: u16) -> Result<(FailingCalls, FailingCalls), NoMemory> {
        let mut takes = FailingCalls::none(self.alloc);
        let mut gives = FailingCalls::none(self.alloc);
        for call in &self.failing {
            match call {
                FailingLink::Take(at, take) if *at == port => takes.fail_at(*take)?,
                FailingLink::Give(at, give) if *at == port => gives.fail_at(*give)?,
                _ => {}
            }
        }
        Ok((takes, gives))
    }

    // Makes the entry of a port, where there is none.
    fn open(&mut self, port: u16) -> Result<(), NoMemory>
        ensures ok { OnOk result (opened_in self.new port ≡ true) }
        ensures stay_opened { StayOpened opened_in self.old self.new }
        ensures same_taken { Same taken_in self.old self.new }
        ensures same_given { Same given_in self.old self.new }
        ensures same_own { Same own_in self.old self.new }
        ensures same_objects { Same objects_in self.old self.new }
        ensures same_leads { self.new.leads ≡ self.old.leads }
        ensures same_clock { self.new.clock ≡ self.old.clock }
        ensures same_pauses { self.new.pauses ≡ self.old.pauses }
    {
        if let Some(_at) = place(self.ports.as_slice(), port) {
            return Ok(());
        }
        let entry = MemPort {
            number: port,
            taken: Vec::new(self.alloc),
            given: Vec::new(self.alloc),
            faults: Faults::none(),
        };
        self.ports.push(entry)?;
        Ok(())
    }

    // Keeps to whom the link of a port leads.
    fn lead(&mut self, port: u16, to: &str) -> Result<(), NoMemory>
        ensures ok { OnOk result (leads_of self.new.leads.items ≡ leads_of self.old.leads.items ++ (port, to.now) ∷ []) }
        ensures err { OnErr result (self.new.leads.items ≡ self.old.leads.items) }
        ensures same_ports { self.new.ports ≡ self.old.ports }
        ensures same_faults { self.new.faults ≡ self.old.faults }
        ensures same_clock { self.new.clock ≡ self.old.clock }
        ensures same_pauses { self.new.pauses ≡ self.old.pauses }
    {
        let to = Path::from_text(self.alloc, to)?;
        self.leads.push(MemLead { port, to })?;
        Ok(())
    }

    // Puts this in place of what came at a port, where a link was opened there.
    fn store_taken(&mut self, port: u16, taken: Vec<TakeLog>)
        ensures { Stores taken_in given_in port (takes_told taken.items) self.old self.new }
    {
        if let Some(at) = place(self.ports.as_slice(), port) {
            let entry = &mut self.ports[at];
            entry.taken = taken;
        }
    }

    // Puts this in place of what was given at a port, where a link was opened there.
    fn store_given(&mut self, port: u16, given: Vec<GivenPacket>)
        ensures { Stores given_in taken_in port (gives_told given.items) self.old self.new }
    {
        if let Some(at) = place(self.ports.as_slice(), port) {
            let entry = &mut self.ports[at];
            entry.given = given;
        }
    }

    // Counts so many more faults of a port.
    fn count(&mut self, port: u16, more: Faults)
        ensures { Counts port more self.old self.new }
    {
        match place(self.ports.as_slice(), port) {
            Some(at) => {
                let entry = &mut self.ports[at];
                entry.faults = entry.faults.and(more);
            }
            None => self.faults = self.faults.and(more),
        }
    }
}
