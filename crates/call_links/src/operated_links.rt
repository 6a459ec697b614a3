//! Links of a call that an operator asks how it stands, and stops.
ghost use Rattle.std.specs.Prelude.{◌≡◌, ℕ};
ghost use Rattle.rtt_io.specs.Counts.{counted};

use crate::{OperatedIn, Operator, OperatorPort};
use link_io::{Beat, Links};
use rtt_base::Failed;

/// Links over others, whose call an operator asks how it stands, and stops ([`OperatedIn`]). In each pause what was asked is looked at
/// first. Where an operator is to be heard and can't be, no link is opened, which is a fault of each port. All else is as below. They
/// tell nothing of what is stored.
#[derive(Drop)]
pub struct OperatedLinks<L: Links, P> {
    links: L,
    pub(crate) operator: Operator<P>,
    /// How often a link was not opened, since no operator can be heard.
    refused: u64,
}

impl<L: Links, P: OperatorPort> OperatedLinks<L, P> {
    /// The links over these, whose call this operator may ask.
    pub fn new(links: L, operator: Operator<P>) -> OperatedLinks<L, P>
        ensures own { (p : ℕ) → ⟦<OperatedLinks<L, P> as Links>⟧.own_faults result p
            ≡ counted (L.own_faults links p) 0 }
        ensures objects { (p : ℕ) → ⟦<OperatedLinks<L, P> as Links>⟧.object_faults result p ≡ L.object_faults links p }
        ensures pauses { ⟦<OperatedLinks<L, P> as Links>⟧.pauses result ≡ L.pauses links }
    {
        OperatedLinks {
            links,
            operator,
            refused: 0,
        }
    }

    /// The links below.
    pub fn into_links(self) -> L
        ensures objects { (p : ℕ) → ⟦<OperatedLinks<L, P> as Links>⟧.object_faults self p ≡ L.object_faults result p }
        ensures pauses { ⟦<OperatedLinks<L, P> as Links>⟧.pauses self ≡ L.pauses result }
    {
        let OperatedLinks {
            links,
            operator: _,
            refused: _,
        } = self;
        links
    }
}

impl<L: Links, P: OperatorPort> Links for OperatedLinks<L, P> {
    ghost use Rattle.std.specs.Prelude.{false, []};
    ghost use Rattle.rtt_io.specs.Counts.{counted};

    type In = OperatedIn<L::In>;

    type Out = L::Out;

    type Clock = L::Clock;

    ghost tells = { ⊥ };

    ghost opened = { λ _ _. false };

    ghost leads = { λ _. [] };

    ghost taken_at = { λ _ _. [] };

    ghost given_at = { λ _ _. [] };

    ghost own_faults = { λ all port. counted (L.own_faults all.links port) all.refused };

    ghost object_faults = { λ all. L.object_faults all.links };

    ghost moment = { λ all. L.moment all.links };

    ghost pauses = { λ all. L.pauses all.links };

    fn link(&mut self, port: u16, to: &str) -> Result<(OperatedIn<L::In>, L::Out), Failed> {
        let seat = match &mut self.operator {
            Operator::Nobody => None,
            Operator::At(desk) => desk.next_seat(),
            Operator::Unheard => {
                self.refused = self.refused.saturating_add(1);
                return Err(Failed);
            }
        };
        let Ok((inbound, outbound)) = self.links.link(port, to) else {
            return Err(Failed);
        };
        Ok((OperatedIn::new(inbound, seat), outbound))
    }

    fn done_in(&mut self, link: OperatedIn<L::In>) {
        self.links.done_in(link.into_link());
    }

    fn done_out(&mut self, link: L::Out) {
        self.links.done_out(link);
    }

    fn now(&mut self) -> u64 {
        self.links.now()
    }

    fn beat(&self) -> Beat<'_, L::Clock> {
        self.links.beat()
    }

    fn pause_until(&mut self, until: u64) {
        if let Operator::At(desk) = &mut self.operator {
            desk.turned(self.links.now());
        }
        self.links.pause_until(until);
    }
}
