//! A conference behind another mixer is mixed.
ghost use Rattle.std.specs.Prelude.{◌≡◌, ◌≤◌, ℕ, length, IfOk, IfErr, OnOk};
ghost use Rattle.rtt_io.specs.Names.{NoneFalls, Same};
ghost use Rattle.file_spec.specs.Conferences.{meaning_of};
ghost use Rattle.command_spec.specs.Cascading.{trunk_limit, trunk_of};
ghost use Rattle.cascade.specs.Splits.{recordings_of};
ghost use Rattle.cascade.specs.Splits as splitting;
ghost use Rattle.rtt_mix.specs.Answered.{HasOutputs};
ghost use Rattle.cascade.specs.Cascades.{AreSplits, IsFirstIn, IsMadeBehind, IsUnsplitIn, NoneFailedIn, OthersKeptIn, StopsIn, fault_of, trunk_fault};
ghost use Rattle.file_spec.specs.declared.limits.TheConstants.{MOST_LEGS};

use crate::feeds::mix_fed;
use crate::inputs::input_number;
use crate::{CascadeFault, DemuxSettings, Splits, split};
use command_spec::limits::{MOST_TRUNK_OCTETS, MOST_TRUNK_OF_MANY};
use file_spec::limits::{USUAL_RED, USUAL_T140};
use file_spec::{Conference, LegLine};
use mixer_posts::ssrcs_of;
use mixer_spec::limits::PLACES;
use rtpdump_io::RecordingFault;
use rtt_base::PayloadTypes;
use rtt_io::{Gate, World};
use rtt_mix::{MixFault, Mixed};
use std::alloc::Global;
use std::sync::Wait;
use std::thread::Threads;

/// The most octets that the recording may have.
fn trunk_limit(conference: &Conference) -> u32
    ensures { result ≡ trunk_limit (meaning_of conference.now) }
{
    if conference.legs.len() > PLACES {
        MOST_TRUNK_OF_MANY
    } else {
        MOST_TRUNK_OCTETS
    }
}

/// How the recording is read.
fn demux_settings(conference: &Conference) -> DemuxSettings
    ensures { (ssrc : ℕ) → splitting.trunk_of ssrc result ≡ trunk_of (meaning_of conference.now) ssrc }
{
    DemuxSettings {
        payload_types: PayloadTypes {
            t140: USUAL_T140,
            red: USUAL_RED,
        },
        wait: u64::from(conference.wait),
        limit: trunk_limit(conference),
    }
}

/// Why the recording is not split, where it has this fault.
fn trunk_fault(fault: RecordingFault) -> CascadeFault
    ensures { result ≡ trunk_fault fault }
{
    match fault {
        RecordingFault::Dump(fault) => CascadeFault::Dump { input: 1, fault },
        RecordingFault::NoMemory => CascadeFault::NoMemory,
    }
}

/// Splits the recording of what another mixer sent under this SSRC: for each leg of the conference there is the split of its SSRC,
/// whether it stands behind that mixer or not.
fn split_recording<W: World>(
    alloc: Global,
    file: &str,
    ssrc: u32,
    conference: &Conference,
    world: &mut W,
) -> Result<Splits, CascadeFault>
    ensures splits { W.tells → IfOk result (AreSplits (W.contents world.old) file.now ssrc (meaning_of conference.now)) }
    ensures each { IfOk result (λ splits. length (recordings_of splits) ≡ length conference.now.legs) }
    ensures told { W.tells → OnOk result W.Src.tells }
    ensures unsplit { IfErr result (IsUnsplitIn W.tells W.contents W.own_faults W.object_faults
        world.old world.new file.now (meaning_of conference.now)) }
    ensures kept { OthersKeptIn W.tells W.object_faults world.old world.new file.now result }
    ensures opened { OnOk result (Same W.own_faults world.old world.new) }
    ensures same_contents { W.tells → Same W.contents world.old world.new }
    ensures calls_never_fall { NoneFalls W.own_faults world.old world.new }
    ensures objects_never_fall { NoneFalls W.object_faults world.old world.new }
{
    let Ok(sources) = ssrcs_of(alloc, conference.legs.as_slice()) else {
        return Err(CascadeFault::NoMemory);
    };
    let Ok(source) = world.open_source(file) else {
        return Err(CascadeFault::Open { input: 1 });
    };
    let (source, splits) = split(
        alloc,
        source,
        ssrc,
        sources.as_slice(),
        demux_settings(conference),
    );
    world.done_src(source);
    match splits {
        Ok(splits) => Ok(splits),
        Err(fault) => Err(trunk_fault(fault)),
    }
}

/// The fault of a conference behind another mixer, where mixing its legs has this one.
fn fault_of(legs: &[LegLine], fault: MixFault) -> CascadeFault
    requires few { length legs.now ≤ MOST_LEGS }
    ensures { result ≡ fault_of legs.now fault }
{
    match fault {
        MixFault::Open { leg } => CascadeFault::Open {
            input: input_number(legs, usize::from(leg)),
        },
        MixFault::Dump { leg, fault } => CascadeFault::Dump {
            input: input_number(legs, usize::from(leg)),
            fault,
        },
        MixFault::TooLong => CascadeFault::TooLong,
        MixFault::NoMemory => CascadeFault::NoMemory,
    }
}

/// Mixes a conference of which some legs stand behind another mixer, which sent under this SSRC what is recorded in `file`: the
/// recording is read to its end and split, and a leg behind that mixer hears the split of its SSRC. Then the inputs of the other
/// legs are opened, in leg order, and read as `mix` reads them. Each source is handed back.
pub fn cascade<R: Threads + Wait + Sync, W: World, G: Gate + Sync>(
    rt: &R,
    alloc: Global,
    file: &str,
    ssrc: u32,
    conference: &Conference,
    world: &mut W,
    gate: &G,
) -> Result<Mixed, CascadeFault>
    ensures made { W.tells → IfOk result (IsMadeBehind (W.contents world.old) file.now ssrc
        (meaning_of conference.now)) }
    ensures outs { IfOk result (HasOutputs (length conference.now.legs)) }
    ensures stops { IfErr result (StopsIn W.tells W.contents W.own_faults W.object_faults
        world.old world.new file.now ssrc (meaning_of conference.now)) }
    ensures none_failed { NoneFailedIn W.tells W.contents W.object_faults
        world.old world.new file.now ssrc (meaning_of conference.now) result }
    ensures first { IfErr result (IsFirstIn W.tells W.contents W.own_faults
        world.old world.new file.now conference.now.legs) }
    ensures opened { OnOk result (Same W.own_faults world.old world.new) }
    ensures same_contents { W.tells → Same W.contents world.old world.new }
    ensures calls_never_fall { NoneFalls W.own_faults world.old world.new }
    ensures objects_never_fall { NoneFalls W.object_faults world.old world.new }
{
    let splits = match split_recording(alloc, file, ssrc, conference, world) {
        Ok(splits) => splits,
        Err(fault) => return Err(fault),
    };
    match mix_fed(rt, alloc, conference, &splits, world, gate) {
        Ok(mixed) => Ok(mixed),
        Err(fault) => Err(fault_of(conference.legs.as_slice(), fault)),
    }
}
