//! The law of what a leg gave.
ghost use Rattle.leg.specs.declared.legs.Leg.{Leg};
ghost use Rattle.stream_spec.specs.Fronts.{IsFront};
ghost use Rattle.leg.specs.Gives.{LegPast, Stands, chunks_of};

use rtt_io::Source;

/// What a leg gave so far is a front of the chunks of its recording.
pub fn given_is_front<S: Source>()
    ensures { (leg : Leg S) (past : LegPast) → Stands S.left leg past → IsFront past.gave (chunks_of past) }
{}
