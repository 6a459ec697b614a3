//! A leg as what gives items.
use crate::arrivals::Arrivals;
use crate::items::LegItem;
use crate::kinds::ItemKind;
use crate::legs::Leg;
use std::sync::Wait;
use workers::Producer;

impl<A: Arrivals> Producer<LegItem<A::Fault>> for Leg<A> {
    ghost use Rattle.live_leg.specs.Stands.{GetsOn, LegGave};
    ghost use Rattle.live_leg.specs.States.{is_over};

    ghost stands = { LegGave A.Arrivals };

    ghost over = { λ leg. is_over leg.state };

    ghost nearer = { GetsOn };

    fn is_over(&self) -> bool {
        self.state.is_over()
    }

    /// It waits until the next turn at most, whoever steps it: who makes the turns does so when that moment has come.
    fn next<R: Wait>(&mut self, _rt: &R, item: &mut LegItem<A::Fault>) -> bool {
        let given = self.step(&mut item.chunk);
        item.kind = given.unwrap_or(ItemKind::Seen);
        item.at = self.at;
        given.is_some()
    }
}
