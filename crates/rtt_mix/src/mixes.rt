//! A conference is mixed.
ghost use Rattle.std.specs.Prelude.{◌≡◌, All, length, IfOk, IfErr, OnOk};
ghost use Rattle.std.specs.List.{concat};
ghost use Rattle.rtt_io.specs.Names.{NoneFalls, Same};
ghost use Rattle.mixer_spec.specs.Bridged.{input_limit};
ghost use Rattle.file_spec.specs.Conferences.{meaning_of};
ghost use Rattle.leg.specs.Answers.{AllNew};
ghost use Rattle.playback.specs.Written.{IsPlayable};
ghost use Rattle.rtt_mix.specs.Answered.{AreKept, HasOutputs, IsOfLegs, MixesAsked, MixesTo, NoReadFailed};
ghost use Rattle.sent_log.specs.Files.{recordings_of};
ghost use Rattle.sent_log.specs.States.{AreLawful};
ghost use Rattle.rtt_mix.specs.Mixes.{IsFirstIn, IsMade, NoneFailedIn, StopsIn, counted};
ghost use Rattle.rtt_mix.specs.Viewed.{AreSumsOf, AreViewsOf};

use crate::legs::{close_legs, held_legs, open_legs};
use crate::log_mixers::recording_mixer;
use crate::logs::Log;
use crate::parts::views_on_threads;
use crate::views::TerminalViews;
use crate::{LegHearing, LegReturn, MixFault, Mixed, Readers, mix_legs};
use file_spec::Conference;
use leg::LegInlet;
use mix_loop::MixEnd;
use mixer_spec::limits::MOST_INPUT_OF_MANY;
use rtt_base::Bytes;
use rtt_io::{Gate, Source, World};
use sent_log::SentFiles;
use std::alloc::Global;
use std::sync::Wait;
use std::thread::Threads;
use wire_spec::limits::MOST_RECORDING_OCTETS;

/// The most octets that an input may have.
pub fn input_limit(conference: &Conference) -> u32
    ensures { result ≡ input_limit (meaning_of conference.now) }
{
    if conference.legs.len() > 16 {
        MOST_INPUT_OF_MANY
    } else {
        MOST_RECORDING_OCTETS
    }
}

/// What a mixing makes whose log has what was sent.
fn made<R: Threads + Sync>(
    rt: &R,
    alloc: Global,
    conference: &Conference,
    log: Log,
) -> Result<Mixed, MixFault>
    requires legs { length log ≡ length conference.now.legs }
    requires sent { All IsPlayable log }
    ensures views { IfOk result (λ mixed. AreViewsOf (meaning_of conference.now) (recordings_of log) (concat mixed.views.items)) }
    ensures sums { IfOk result (λ mixed. AreSumsOf (meaning_of conference.now) (recordings_of log) (counted mixed)) }
    ensures outs { IfOk result (λ mixed. mixed.outs ≡ log) }
    ensures lawful { IfOk result (λ mixed. AreLawful mixed.outs) }
    ensures fault { IfErr result (λ fault. fault ≡ MixFault.NoMemory) }
{
    let Ok(outs) = SentFiles::new(alloc, log.into_sent()) else {
        return Err(MixFault::NoMemory);
    };
    let Ok(seen) = views_on_threads(rt, alloc, conference, outs.log()) else {
        return Err(MixFault::NoMemory);
    };
    let TerminalViews {
        views,
        packets,
        used,
        markers,
    } = seen;
    Ok(Mixed {
        views,
        outs,
        packets,
        used,
        markers,
    })
}

/// How a mixing of opened inputs ended, with their legs.
pub struct InputReturn<S> {
    pub mixed: Result<Mixed, MixFault>,
    pub legs: Vec<LegInlet<S>>,
}

/// Mixes a conference whose inputs are opened, and are read so. All legs come back.
pub fn mix_opened<S: Source + Send, R: Threads + Wait + Sync, G: Gate + Sync>(
    rt: &R,
    alloc: Global,
    conference: &Conference,
    legs: Vec<LegInlet<S>>,
    readers: Readers,
    gate: &G,
) -> InputReturn<S>
    requires legs { length legs.items ≡ length conference.now.legs }
    requires new { AllNew legs.items }
    ensures mixes { S.tells → MixesAsked S.left (meaning_of conference.now) legs.items result.mixed }
    ensures outs { IfOk result.mixed (HasOutputs (length conference.now.legs)) }
    ensures sources { AreKept S.faults S.name result.mixed legs.items result.legs.items }
    ensures leg { IsOfLegs (length conference.now.legs) result.mixed }
    ensures legs { length result.legs.items ≡ length legs.items }
{
    let Ok(mixer) = recording_mixer(alloc, conference) else {
        return InputReturn {
            mixed: Err(MixFault::NoMemory),
            legs,
        };
    };
    let lines = conference.legs.as_slice();
    let tick = u64::from(conference.tick);
    let turns = u64::from(conference.turns);
    let LegReturn {
        mixing,
        legs,
        mixer,
    } = mix_legs(rt, alloc, readers, gate, legs, lines, mixer, tick, turns);
    let log = mixer.into_outbound();
    match mixing {
        MixEnd::Over => InputReturn {
            mixed: made(rt, alloc, conference, log),
            legs,
        },
        MixEnd::TooLong => InputReturn {
            mixed: Err(MixFault::TooLong),
            legs,
        },
        MixEnd::Faulted { leg, fault } => InputReturn {
            mixed: Err(MixFault::Dump { leg, fault }),
            legs,
        },
        MixEnd::Stopped(_) => InputReturn {
            mixed: Err(MixFault::NoMemory),
            legs,
        },
    }
}

/// Mixes a conference whose inputs have these octets, one for each leg, in leg order. They are held in memory, no reading of
/// them fails, and the caller reads them all.
pub fn mix_held<R: Threads + Wait + Sync, G: Gate + Sync>(
    rt: &R,
    alloc: Global,
    conference: &Conference,
    inputs: Vec<Bytes>,
    gate: &G,
) -> Result<Mixed, MixFault>
    requires { length inputs.items ≡ length conference.now.legs }
    ensures mixes { MixesTo (meaning_of conference.now) inputs.items result }
    ensures read { NoReadFailed result }
    ensures outs { IfOk result (HasOutputs (length conference.now.legs)) }
{
    let hearing = LegHearing::of(conference);
    let limit = input_limit(conference);
    let Ok(legs) = held_legs(alloc, conference.legs.as_slice(), hearing, limit, inputs) else {
        return Err(MixFault::NoMemory);
    };
    let InputReturn { mixed, legs: _ } = mix_opened(
        rt,
        alloc,
        conference,
        legs,
        Readers::Caller,
        gate,
    );
    mixed
}

/// Mixes a conference over the recordings under the names of its inputs, each of which is read on a thread of its own, or by the
/// caller where a thread can't be started. They are opened in leg order, and each is handed back.
pub fn mix<R: Threads + Wait + Sync, W: World, G: Gate + Sync>(
    rt: &R,
    alloc: Global,
    conference: &Conference,
    world: &mut W,
    gate: &G,
) -> Result<Mixed, MixFault>
    ensures made { W.tells → IfOk result (IsMade (W.contents world.old) (meaning_of conference.now)) }
    ensures outs { IfOk result (HasOutputs (length conference.now.legs)) }
    ensures stops { IfErr result (StopsIn W.tells W.contents W.own_faults W.object_faults
        world.old world.new (meaning_of conference.now)) }
    ensures none_failed { NoneFailedIn W.tells W.object_faults
        world.old world.new (meaning_of conference.now) result }
    ensures first { IfErr result (IsFirstIn W.tells W.contents W.own_faults
        world.old world.new conference.now.legs) }
    ensures opened { OnOk result (Same W.own_faults world.old world.new) }
    ensures same_contents { W.tells → Same W.contents world.old world.new }
    ensures calls_never_fall { NoneFalls W.own_faults world.old world.new }
    ensures objects_never_fall { NoneFalls W.object_faults world.old world.new }
{
    let lines = conference.legs.as_slice();
    let hearing = LegHearing::of(conference);
    let limit = input_limit(conference);
    let legs = match open_legs(alloc, lines, hearing, limit, world) {
        Ok(legs) => legs,
        Err(fault) => return Err(fault),
    };
    let InputReturn { mixed, legs } = mix_opened(
        rt,
        alloc,
        conference,
        legs,
        Readers::Threads,
        gate,
    );
    close_legs(legs, world);
    mixed
}
