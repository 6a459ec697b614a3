//! The legs of a conference, each over what its text lies in: the split of its SSRC, or its input.
ghost use Rattle.std.specs.Prelude.{◌≡◌, ◌≤◌, length, IfOk, IfErr, OnOk, OnErr};
ghost use Rattle.rtt_io.specs.Names.{CountsNoOther, NoneFalls, Same};
ghost use Rattle.file_spec.specs.Conferences.{meaning_of};
ghost use Rattle.cascade.specs.Splits.{recordings_of};
ghost use Rattle.cascade.specs.TrunkSources.{faults_in, left_in, name_in};
ghost use Rattle.rtt_mix.specs.Answered.{HasOutputs};
ghost use Rattle.rtt_mix.specs.Mixes.{IsFirstIn};
ghost use Rattle.cascade.specs.Feeding.{AreCalm, AreFed, CountsLeft, FaultsRose, HandsBack, IsFed, IsFedLeg, IsOwnFailed, IsOwnOpen, IsUnopened};
ghost use Rattle.cascade.specs.Mixes.{CountsKeptIn, IsCausedIn, MixesFed};
ghost use Rattle.rtt_base.specs.declared.limits.TheConstants.{LONGEST_WAIT};
ghost use Rattle.wire_spec.specs.declared.limits.TheConstants.{MOST_RECORDING_OCTETS};
ghost use Rattle.file_spec.specs.declared.limits.TheConstants.{MOST_LEGS};

use crate::trunks::is_on_trunk;
use crate::{SplitSource, Splits, TrunkSource};
use file_spec::{Conference, LegLine};
use leg::LegInlet;
use rtt_base::Failed;
use rtt_io::{Gate, World};
use rtt_mix::{
    InputReturn, LegHearing, MixFault, Mixed, Readers, input_limit, leg_over, mix_opened,
};
use std::alloc::Global;
use std::sync::Wait;
use std::thread::Threads;

/// What the text of a leg lies in: the split of its SSRC, which is this recording, or its input. The opening of a split never
/// fails.
fn open_text<'s, W: World>(
    leg: &LegLine,
    recording: &'s [u8],
    world: &mut W,
) -> Result<TrunkSource<'s, W::Src>, Failed>
    ensures fed { IfOk result (IsFed W.tells (left_in W.Src.left) (faults_in W.Src.faults) (name_in W.Src.name)
        (W.contents world.old) leg.now recording.now) }
    ensures failed { OnErr result (IsOwnFailed W.own_faults world.old world.new leg.now) }
    ensures no_other { W.tells → OnErr result (CountsNoOther W.contents W.own_faults leg.now.input world.old world.new) }
    ensures own_never_falls { NoneFalls W.own_faults world.old world.new }
    ensures calm { OnOk result (Same W.own_faults world.old world.new) }
    ensures same_objects { Same W.object_faults world.old world.new }
    ensures same_contents { W.tells → Same W.contents world.old world.new }
{
    if is_on_trunk(leg) {
        return Ok(TrunkSource::Split(SplitSource::new(recording)));
    }
    match world.open_source(leg.input.as_str()) {
        Ok(source) => Ok(TrunkSource::Below(source)),
        Err(failed) => Err(failed),
    }
}

/// Hands back a source, where it is one of the world.
fn hand_back<W: World>(source: TrunkSource<'_, W::Src>, world: &mut W)
    ensures same_own { Same W.own_faults world.old world.new }
    ensures objects_never_fall { NoneFalls W.object_faults world.old world.new }
    ensures counts { HandsBack W.tells W.contents W.object_faults
        (faults_in W.Src.faults source.entry) (name_in W.Src.name source.entry) world.old world.new }
    ensures same_contents { W.tells → Same W.contents world.old world.new }
{
    match source {
        TrunkSource::Split(_) => {}
        TrunkSource::Below(source) => world.done_src(source),
    }
}

/// The leg with this number over what its text lies in.
fn open_leg<'s, W: World>(
    alloc: Global,
    leg: &LegLine,
    number: u8,
    hearing: LegHearing,
    limit: u32,
    recording: &'s [u8],
    world: &mut W,
) -> Result<LegInlet<TrunkSource<'s, W::Src>>, MixFault>
    requires wait { hearing.wait ≤ LONGEST_WAIT }
    requires limit { limit ≤ MOST_RECORDING_OCTETS }
    ensures fed { IfOk result (IsFedLeg W.tells W.Src.tells (left_in W.Src.left) (faults_in W.Src.faults) (name_in W.Src.name)
        (W.contents world.old) hearing limit leg.now recording.now) }
    ensures refused { IfErr result (IsOwnOpen W.own_faults world.old world.new number leg.now) }
    ensures no_other { W.tells → OnErr result (CountsNoOther W.contents W.own_faults leg.now.input world.old world.new) }
    ensures own_never_falls { NoneFalls W.own_faults world.old world.new }
    ensures calm { OnOk result (Same W.own_faults world.old world.new) }
    ensures same_objects { Same W.object_faults world.old world.new }
    ensures same_contents { W.tells → Same W.contents world.old world.new }
{
    let Ok(source) = open_text(leg, recording, world) else {
        return Err(MixFault::Open { leg: number });
    };
    match leg_over(alloc, leg, hearing, limit, source) {
        Ok(inlet) => Ok(inlet),
        Err(lost) => {
            hand_back(lost.source, world);
            Err(MixFault::NoMemory)
        }
    }
}

/// Hands back the sources of all legs. Where the reading of one failed, the count of its name rises.
fn close_legs<W: World>(inlets: Vec<LegInlet<TrunkSource<'_, W::Src>>>, world: &mut W)
    ensures same_own { Same W.own_faults world.old world.new }
    ensures objects_never_fall { NoneFalls W.object_faults world.old world.new }
    ensures calm { AreCalm (faults_in W.Src.faults) inlets.entry.items → Same W.object_faults world.old world.new }
    ensures failed { FaultsRose (faults_in W.Src.faults) (name_in W.Src.name) W.object_faults
        inlets.entry.items world.old world.new }
    ensures left { W.tells → CountsLeft (faults_in W.Src.faults) (name_in W.Src.name) W.contents W.object_faults
        inlets.entry.items world.old world.new }
    ensures same_contents { W.tells → Same W.contents world.old world.new }
{
    let mut inlets = inlets;
    while let Some(inlet) = inlets.pop() {
        hand_back(inlet.into_source(), world);
    }
    inlets.destroy_empty();
}

/// All legs, in leg order, each over what its text lies in, of which it may have at most `limit` octets. Where one can't be
/// opened, or memory runs out, the sources of those before it are handed back.
fn open_legs<'s, W: World>(
    alloc: Global,
    legs: &[LegLine],
    hearing: LegHearing,
    limit: u32,
    splits: &'s Splits,
    world: &mut W,
) -> Result<Vec<LegInlet<TrunkSource<'s, W::Src>>>, MixFault>
    requires few { length legs.now ≤ MOST_LEGS }
    requires each { length (recordings_of splits.now) ≡ length legs.now }
    requires wait { hearing.wait ≤ LONGEST_WAIT }
    requires limit { limit ≤ MOST_RECORDING_OCTETS }
    ensures legs { IfOk result (λ inlets. length inlets.items ≡ length legs.now) }
    ensures fed { IfOk result (AreFed W.tells W.Src.tells (left_in W.Src.left) (faults_in W.Src.faults) (name_in W.Src.name)
        (W.contents world.old) hearing limit legs.now (recordings_of splits.now)) }
    ensures refused { IfErr result (IsUnopened W.tells W.contents W.own_faults world.old world.new legs.now) }
    ensures first { IfErr result (IsFirstIn W.tells W.contents W.own_faults world.old world.new legs.now) }
    ensures calm { OnOk result (Same W.own_faults world.old world.new) }
    ensures own_never_falls { NoneFalls W.own_faults world.old world.new }
    ensures same_objects { Same W.object_faults world.old world.new }
    ensures same_contents { W.tells → Same W.contents world.old world.new }
{
    let Ok(mut inlets) = Vec::with_capacity(alloc, legs.len()) else {
        return Err(MixFault::NoMemory);
    };
    for index in 0..legs.len() {
        let recording = splits.recording(index);
        match open_leg(
            alloc,
            &legs[index],
            index as u8,
            hearing,
            limit,
            recording,
            world,
        ) {
            Ok(inlet) => inlets.push_reserved(inlet),
            Err(fault) => {
                close_legs(inlets, world);
                return Err(fault);
            }
        }
    }
    Ok(inlets)
}

/// Mixes a conference, where for each leg there is the split of its SSRC. Each leg is read on a thread of its own, or by the
/// caller where a thread can't be started.
pub(crate) fn mix_fed<R: Threads + Wait + Sync, W: World, G: Gate + Sync>(
    rt: &R,
    alloc: Global,
    conference: &Conference,
    splits: &Splits,
    world: &mut W,
    gate: &G,
) -> Result<Mixed, MixFault>
    requires each { length (recordings_of splits.now) ≡ length conference.now.legs }
    ensures mixes { W.tells → W.Src.tells → MixesFed (W.contents world.old) (recordings_of splits.now) (meaning_of conference.now) result }
    ensures outs { IfOk result (HasOutputs (length conference.now.legs)) }
    ensures caused { IsCausedIn W.own_faults W.object_faults world.old world.new conference.now.legs result }
    ensures kept { CountsKeptIn W.tells W.object_faults world.old world.new conference.now.legs result }
    ensures first { IfErr result (IsFirstIn W.tells W.contents W.own_faults world.old world.new conference.now.legs) }
    ensures opened { OnOk result (Same W.own_faults world.old world.new) }
    ensures same_contents { W.tells → Same W.contents world.old world.new }
    ensures calls_never_fall { NoneFalls W.own_faults world.old world.new }
    ensures objects_never_fall { NoneFalls W.object_faults world.old world.new }
{
    let hearing = LegHearing::of(conference);
    let limit = input_limit(conference);
    let legs = match open_legs(
        alloc,
        conference.legs.as_slice(),
        hearing,
        limit,
        splits,
        world,
    ) {
        Ok(legs) => legs,
        Err(fault) => return Err(fault),
    };
    let InputReturn { mixed, legs } = mix_opened(
        rt,
        alloc,
        conference,
        legs,
        Readers::Threads,
        gate,
    );
    close_legs(legs, world);
    mixed
}
