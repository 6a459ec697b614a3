//! A leg as where its texts come from.
ghost use Rattle.std.specs.Prelude.{◌≡◌};
ghost use Rattle.leg.specs.Gives.{source_of};
ghost use Rattle.leg.specs.Feds.{item_for};

use crate::{Leg, LegStep};
use mix_loop::{Inlet, Item};
use rtpdump_io::DumpFault;
use rtt_base::Chunk;
use rtt_io::Source;
use std::sync::Wait;

/// A leg that is read by who mixes.
#[derive(Drop)]
pub struct LegInlet<S> {
    pub leg: Leg<S>,
}

impl<S: Source> LegInlet<S> {
    /// The source, as far as it was read.
    pub fn into_source(self) -> S
        ensures { result ≡ source_of self.leg }
    {
        let LegInlet { leg } = self;
        leg.into_source()
    }
}

/// What an answer of a leg comes to.
fn item_of(step: Result<LegStep, DumpFault>) -> Item<DumpFault>
    ensures { result ≡ item_for step }
{
    match step {
        Ok(LegStep::Chunk) => Item::Chunk,
        Ok(LegStep::More) => Item::Later,
        Ok(LegStep::End) => Item::End,
        Err(fault) => Item::Fault(fault),
    }
}

impl<S: Source> Inlet for LegInlet<S> {
    ghost use Rattle.std.specs.Prelude.{◌≡◌, false};
    ghost use Rattle.leg.specs.Gives.{is_over};
    ghost use Rattle.leg.specs.Feds.{Fed, GetsOn};

    type Fault = DumpFault;

    ghost stands = { λ first now gave. Fed S.tells S.left S.faults S.name first now gave };

    ghost good = { λ i. is_over i.leg ≡ false };

    ghost nearer = { GetsOn };

    fn next<R: Wait>(&mut self, _rt: &R, chunk: &mut Chunk) -> Item<DumpFault> {
        let step = self.leg.step(chunk);
        item_of(step)
    }
}
