//! What gives items, with a gate.
use crate::Producer;
use rtt_io::Gate;
use std::sync::Wait;

/// What gives items, with the gate that is told of each before it is pushed.
pub(crate) struct GatedProducer<F, G> {
    pub(crate) gives: F,
    pub(crate) gate: G,
    /// By which number the gate knows it.
    pub(crate) number: u32,
}

/// Tells a gate of what is about to be pushed, if it is something.
fn tell_pass<G: Gate>(gate: &G, number: u32, is_given: bool) {
    if is_given {
        gate.pass(number);
    }
}

impl<Q, F: Producer<Q>, G: Gate> Producer<Q> for GatedProducer<F, G> {
    ghost use Rattle.workers.specs.Gates.{gated_gives};

    ghost stands = { gated_gives F.stands };

    ghost over = { λ g. F.over g.gives };

    ghost nearer = { λ old new. F.nearer old.gives new.gives };

    fn is_over(&self) -> bool {
        self.gives.is_over()
    }

    fn next<R: Wait>(&mut self, rt: &R, item: &mut Q) -> bool {
        let is_given = self.gives.next(rt, item);
        tell_pass(&self.gate, self.number, is_given);
        is_given
    }
}
