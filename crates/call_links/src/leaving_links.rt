//! Links whose peers may leave.
ghost use Rattle.std.specs.Prelude.{◌≡◌, ℕ};
ghost use Rattle.call_links.specs.Leaving.{takes_told};

use crate::{LeavingIn, Silence};
use link_io::{Beat, Links};
use rtt_base::Failed;
use std::marker::PhantomData;

/// Links over others, each of which is closed for good once its peer has left ([`LeavingIn`]). All else is as below: the outbound ends,
/// the clock, what is stored and the counts of faults.
#[derive(Drop)]
pub struct LeavingLinks<L: Links, S: Silence> {
    links: L,
    /// How long a peer may be silent.
    longest: Option<u32>,
    of: PhantomData<S>,
    ghost agreed: { longest ≡ S.longest },
}

impl<L: Links, S: Silence + Send> LeavingLinks<L, S> {
    /// The links over these, whose peers may be silent for so many milliseconds, where there is an end to it.
    pub fn new(links: L, longest: Option<u32>) -> LeavingLinks<L, S>
        requires { longest ≡ S.longest }
        ensures opened { (p : ℕ) → ⟦<LeavingLinks<L, S> as Links>⟧.opened result p ≡ L.opened links p }
        ensures leads { ⟦<LeavingLinks<L, S> as Links>⟧.leads result ≡ L.leads links }
        ensures taken { (p : ℕ) → ⟦<LeavingLinks<L, S> as Links>⟧.taken_at result p
            ≡ takes_told S.longest (L.taken_at links p) }
        ensures given { (p : ℕ) → ⟦<LeavingLinks<L, S> as Links>⟧.given_at result p ≡ L.given_at links p }
        ensures own { (p : ℕ) → ⟦<LeavingLinks<L, S> as Links>⟧.own_faults result p ≡ L.own_faults links p }
        ensures objects { (p : ℕ) → ⟦<LeavingLinks<L, S> as Links>⟧.object_faults result p ≡ L.object_faults links p }
        ensures moment { ⟦<LeavingLinks<L, S> as Links>⟧.moment result ≡ L.moment links }
        ensures pauses { ⟦<LeavingLinks<L, S> as Links>⟧.pauses result ≡ L.pauses links }
    {
        LeavingLinks {
            links,
            longest,
            of: PhantomData,
        }
    }

    /// The links below.
    pub fn into_links(self) -> L
        ensures opened { (p : ℕ) → ⟦<LeavingLinks<L, S> as Links>⟧.opened self p ≡ L.opened result p }
        ensures leads { ⟦<LeavingLinks<L, S> as Links>⟧.leads self ≡ L.leads result }
        ensures taken { (p : ℕ) → ⟦<LeavingLinks<L, S> as Links>⟧.taken_at self p
            ≡ takes_told S.longest (L.taken_at result p) }
        ensures given { (p : ℕ) → ⟦<LeavingLinks<L, S> as Links>⟧.given_at self p ≡ L.given_at result p }
        ensures own { (p : ℕ) → ⟦<LeavingLinks<L, S> as Links>⟧.own_faults self p ≡ L.own_faults result p }
        ensures objects { (p : ℕ) → ⟦<LeavingLinks<L, S> as Links>⟧.object_faults self p ≡ L.object_faults result p }
        ensures moment { ⟦<LeavingLinks<L, S> as Links>⟧.moment self ≡ L.moment result }
        ensures pauses { ⟦<LeavingLinks<L, S> as Links>⟧.pauses self ≡ L.pauses result }
    {
        let LeavingLinks {
            links,
            longest: _,
            of: _,
        } = self;
        links
    }
}

impl<L: Links, S: Silence + Send> Links for LeavingLinks<L, S> {
    ghost use Rattle.call_links.specs.Leaving.{takes_told};

    type In = LeavingIn<L::In, S>;

    type Out = L::Out;

    type Clock = L::Clock;

    ghost tells = { L.tells };

    ghost opened = { λ all. L.opened all.links };

    ghost leads = { λ all. L.leads all.links };

    ghost taken_at = { λ all port. takes_told S.longest (L.taken_at all.links port) };

    ghost given_at = { λ all. L.given_at all.links };

    ghost own_faults = { λ all. L.own_faults all.links };

    ghost object_faults = { λ all. L.object_faults all.links };

    ghost moment = { λ all. L.moment all.links };

    ghost pauses = { λ all. L.pauses all.links };

    fn link(&mut self, port: u16, to: &str) -> Result<(LeavingIn<L::In, S>, L::Out), Failed> {
        let Ok((inbound, outbound)) = self.links.link(port, to) else {
            return Err(Failed);
        };
        Ok((LeavingIn::new(inbound, self.longest), outbound))
    }

    fn done_in(&mut self, link: LeavingIn<L::In, S>) {
        self.links.done_in(link.into_link());
    }

    fn done_out(&mut self, link: L::Out) {
        self.links.done_out(link);
    }

    fn now(&mut self) -> u64 {
        self.links.now()
    }

    fn beat(&self) -> Beat<'_, L::Clock> {
        self.links.beat()
    }

    fn pause_until(&mut self, until: u64) {
        self.links.pause_until(until);
    }
}
