//! The inputs of all legs.
ghost use Rattle.std.specs.Prelude.{◌≡◌, ◌≤◌, ◌<◌, length, IfOk, IfErr, OnOk, OnErr};
ghost use Rattle.rtt_io.specs.Names.{CountsNoOther, NoneFalls, Same};
ghost use Rattle.leg.specs.Answers.{source_in};
ghost use Rattle.rtt_mix.specs.Mixes.{IsFirstIn};
ghost use Rattle.rtt_mix.specs.Opened.{AreHeld, AreOpened, HandsBack, IsOpened, IsOver, Unopened, RefusedIn};
ghost use Rattle.rtt_base.specs.declared.limits.TheConstants.{LONGEST_WAIT};
ghost use Rattle.wire_spec.specs.declared.limits.TheConstants.{MOST_RECORDING_OCTETS};
ghost use Rattle.file_spec.specs.declared.limits.TheConstants.{MOST_LEGS};

use crate::{LegHearing, MixFault};
use file_spec::LegLine;
use leg::{Leg, LegInlet, LegLost};
use receiver::EarSettings;
use rtt_base::{Bytes, NoMemory};
use rtt_io::{Source, SteadySource, World};
use std::alloc::Global;

/// A leg over this source, which is handed back where memory runs out.
pub fn leg_over<S: Source>(
    alloc: Global,
    leg: &LegLine,
    hearing: LegHearing,
    limit: u32,
    source: S,
) -> Result<LegInlet<S>, LegLost<S>>
    requires wait { hearing.wait ≤ LONGEST_WAIT }
    requires limit { limit ≤ MOST_RECORDING_OCTETS }
    ensures over { IfOk result (IsOver S.tells S.left hearing limit leg.now (S.left source)) }
    ensures source { IfOk result (λ inlet. source_in inlet ≡ source) }
    ensures lost { IfErr result (λ lost. lost.source ≡ source) }
{
    let settings = EarSettings {
        ssrc: leg.ssrc,
        payload_types: leg.payload_types,
        wait: u64::from(hearing.wait),
        long: leg.long,
        cut: hearing.cut,
    };
    match Leg::with_limit(alloc, source, settings, limit) {
        Ok(leg) => Ok(LegInlet { leg }),
        Err(lost) => Err(lost),
    }
}

/// Opens the input of the leg with this number. Its source is handed back where memory runs out.
fn open_leg<W: World>(
    alloc: Global,
    leg: &LegLine,
    number: u8,
    hearing: LegHearing,
    limit: u32,
    world: &mut W,
) -> Result<LegInlet<W::Src>, MixFault>
    requires wait { hearing.wait ≤ LONGEST_WAIT }
    requires limit { limit ≤ MOST_RECORDING_OCTETS }
    ensures opened { IfOk result (IsOpened W.tells W.Src.left W.Src.faults W.Src.name
        (W.contents world.old) hearing limit leg.now) }
    ensures shown { W.tells → OnOk result W.Src.tells }
    ensures refused { IfErr result (RefusedIn W.own_faults world.old world.new number leg.now) }
    ensures no_other { W.tells → OnErr result (CountsNoOther W.contents W.own_faults leg.now.input world.old world.new) }
    ensures own_never_falls { NoneFalls W.own_faults world.old world.new }
    ensures calm { OnOk result (Same W.own_faults world.old world.new) }
    ensures same_objects { Same W.object_faults world.old world.new }
    ensures same_contents { W.tells → Same W.contents world.old world.new }
{
    let Ok(source) = world.open_source(leg.input.as_str()) else {
        return Err(MixFault::Open { leg: number });
    };
    match leg_over(alloc, leg, hearing, limit, source) {
        Ok(inlet) => Ok(inlet),
        Err(lost) => {
            world.done_src(lost.source);
            Err(MixFault::NoMemory)
        }
    }
}

/// Opens the inputs of all legs, in leg order, of which each may have at most `limit` octets. Where one can't be opened, or
/// memory runs out, the sources of those before it are handed back.
pub(crate) fn open_legs<W: World>(
    alloc: Global,
    legs: &[LegLine],
    hearing: LegHearing,
    limit: u32,
    world: &mut W,
) -> Result<Vec<LegInlet<W::Src>>, MixFault>
    requires few { length legs.now ≤ MOST_LEGS }
    requires wait { hearing.wait ≤ LONGEST_WAIT }
    requires limit { limit ≤ MOST_RECORDING_OCTETS }
    ensures legs { IfOk result (λ inlets. length inlets.items ≡ length legs.now) }
    ensures opened { IfOk result (AreOpened W.tells W.Src.left W.Src.faults W.Src.name
        (W.contents world.old) hearing limit legs.now) }
    ensures shown { W.tells → OnOk result (0 < length legs.now → W.Src.tells) }
    ensures refused { IfErr result (Unopened W.tells W.contents W.own_faults world.old world.new legs.now) }
    ensures first { IfErr result (IsFirstIn W.tells W.contents W.own_faults world.old world.new legs.now) }
    ensures own_never_falls { NoneFalls W.own_faults world.old world.new }
    ensures calm { OnOk result (Same W.own_faults world.old world.new) }
    ensures same_objects { Same W.object_faults world.old world.new }
    ensures same_contents { W.tells → Same W.contents world.old world.new }
{
    let Ok(mut inlets) = Vec::with_capacity(alloc, legs.len()) else {
        return Err(MixFault::NoMemory);
    };
    for index in 0..legs.len() {
        match open_leg(alloc, &legs[index], index as u8, hearing, limit, world) {
            Ok(inlet) => inlets.push_reserved(inlet),
            Err(fault) => {
                close_legs(inlets, world);
                return Err(fault);
            }
        }
    }
    Ok(inlets)
}

/// These legs, in leg order, over inputs of these octets, of which each may have at most `limit` octets.
pub(crate) fn held_legs(
    alloc: Global,
    legs: &[LegLine],
    hearing: LegHearing,
    limit: u32,
    inputs: Vec<Bytes>,
) -> Result<Vec<LegInlet<SteadySource>>, NoMemory>
    requires each { length inputs.items ≡ length legs.now }
    requires few { length legs.now ≤ MOST_LEGS }
    requires wait { hearing.wait ≤ LONGEST_WAIT }
    requires limit { limit ≤ MOST_RECORDING_OCTETS }
    ensures legs { IfOk result (λ inlets. length inlets.items ≡ length legs.now) }
    ensures over { IfOk result (AreHeld hearing limit legs.now inputs.items) }
{
    let mut inlets = Vec::with_capacity(alloc, legs.len())?;
    for octets in inputs {
        let number = inlets.len();
        let source = SteadySource::new(octets);
        match leg_over(alloc, &legs[number], hearing, limit, source) {
            Ok(inlet) => inlets.push_reserved(inlet),
            Err(_) => return Err(NoMemory),
        }
    }
    Ok(inlets)
}

/// Hands back the sources of all legs. Where the reading of one failed, the count of its name rises.
pub(crate) fn close_legs<W: World>(inlets: Vec<LegInlet<W::Src>>, world: &mut W)
    ensures same_own { Same W.own_faults world.old world.new }
    ensures objects_never_fall { NoneFalls W.object_faults world.old world.new }
    ensures counts { HandsBack W.tells W.Src.faults W.Src.name W.contents W.object_faults
        inlets.items world.old world.new }
    ensures same_contents { W.tells → Same W.contents world.old world.new }
{
    let mut inlets = inlets;
    while let Some(inlet) = inlets.pop() {
        world.done_src(inlet.into_source());
    }
    inlets.destroy_empty();
}
