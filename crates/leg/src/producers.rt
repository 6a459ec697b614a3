//! A leg as what gives answers.
use crate::inlets::LegInlet;
use mix_loop::{Answer, ask};
use rtpdump_io::DumpFault;
use rtt_io::Source;
use std::sync::Wait;
use workers::Producer;

impl<S: Source> Producer<Answer<DumpFault>> for LegInlet<S> {
    ghost use Rattle.leg.specs.Gives.{is_over};
    ghost use Rattle.mix_loop.specs.Answers.{GaveAs};
    ghost use Rattle.leg.specs.Feds.{Fed, GetsOn};

    ghost stands = { GaveAs (λ first now gave. Fed S.tells S.left S.faults S.name first now gave) };

    ghost over = { λ i. is_over i.leg };

    ghost nearer = { GetsOn };

    fn is_over(&self) -> bool {
        self.leg.ended()
    }

    fn next<R: Wait>(&mut self, rt: &R, answer: &mut Answer<DumpFault>) -> bool {
        ask(self, rt, answer)
    }
}
