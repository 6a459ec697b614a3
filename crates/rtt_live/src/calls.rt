//! A live call of a conference whose links are opened.
ghost use Rattle.std.specs.Prelude.{◌≡◌, [], length, IfOk, IfErr};
ghost use Rattle.link_io.specs.Ports.{Same};
ghost use Rattle.file_spec.specs.Conferences.{meaning_of};
ghost use Rattle.mixer_spec.specs.Setups.{AllStay, setup};
ghost use Rattle.mixer.specs.States.{legs_of};
ghost use Rattle.mix_loop.specs.Clocks.{IsPaced};
ghost use Rattle.mix_loop.specs.Walks.{IsPaused};
ghost use Rattle.rtt_live.specs.Calls.{IsCalled, IsOfLinks};
ghost use Rattle.rtt_live.specs.Ends.{packets_in};
ghost use Rattle.rtt_live.specs.Mixers.{HasAll};
ghost use Rattle.rtt_live.specs.Spans.{span_of};
ghost use Rattle.rtt_live.specs.Opened.{AreUnused, OpenEnds, OpenLegs};

use crate::listeners::listeners_of;
use crate::mixer_taps::{TapReturn, TappedMixer};
use crate::open_links::OpenLinks;
use crate::outputs::outputs_of;
use crate::rooms::CallRoom;
use crate::threads::{CallJob, JobReturn, run_job};
use crate::{FarEnds, Listener, LiveFault, Tap, live_mixer};
use file_spec::Conference;
use link_io::{LinkOut, Links};
use live_leg::LinkLeg;
use mix_loop::LiveTurnsEnd;
use mixer_posts::SendingMixer;
use rtt_base::Packet;
use rtt_io::Gate;
use std::alloc::Global;
use std::sync::atomic::AtomicBool;
use std::sync::{Arc, Wait};
use std::thread::Threads;
use workers::LentGate;

/// A call behind its last turn: how its turns ended, both ends of its links, the terminals that heard what was given, and the tap
/// that was told of it.
pub(crate) struct CallReturn<I, O, T> {
    pub(crate) turned: LiveTurnsEnd<LiveFault>,
    pub(crate) legs: Vec<LinkLeg<I>>,
    pub(crate) ends: Vec<O>,
    pub(crate) listeners: Vec<Listener>,
    pub(crate) tap: T,
}

/// A call that did not begin, for want of memory.
fn not_begun<I, O, T>(
    alloc: Global,
    legs: Vec<LinkLeg<I>>,
    ends: Vec<O>,
    tap: T,
) -> CallReturn<I, O, T>
    ensures turned { result.turned ≡ LiveTurnsEnd.Stopped LiveFault.NoMemory }
    ensures legs { result.legs ≡ legs }
    ensures ends { result.ends ≡ ends }
{
    CallReturn {
        turned: LiveTurnsEnd::Stopped(LiveFault::NoMemory),
        legs,
        ends,
        listeners: Vec::new(alloc),
        tap,
    }
}

/// The mixer of this conference, whose posts go to these ends, and to the terminals that hear the packets. Where memory runs out
/// the ends come back.
fn mixer_over<O: LinkOut>(
    alloc: Global,
    conference: &Conference,
    ends: Vec<O>,
) -> Result<SendingMixer<FarEnds<O>>, Vec<O>>
    requires stay { AllStay (setup (meaning_of conference.now)) }
    requires each { length ends.items ≡ length conference.now.legs }
    requires unused { AreUnused O.given O.faults ends.items }
    ensures legs { IfOk result (λ sending. legs_of sending.mixer ≡ length conference.now.legs) }
    ensures turns { IfOk result (λ sending. sending.mixer.turns ≡ 0) }
    ensures stands { IfOk result (HasAll O.tells (packets_in O.given) O.faults (meaning_of conference.now)) }
    ensures links { IfOk result (λ sending. sending.outbound.links ≡ ends) }
    ensures back { IfErr result (λ back. back ≡ ends) }
{
    let Ok(listeners) = listeners_of(alloc, conference) else {
        return Err(ends);
    };
    let Ok(outputs) = outputs_of(alloc, conference) else {
        return Err(ends);
    };
    let far = FarEnds {
        links: ends,
        outputs,
        listeners,
        packet: Packet::new(),
    };
    match live_mixer(alloc, conference, far) {
        Ok(mixer) => Ok(mixer),
        Err(back) => {
            let FarEnds {
                links,
                outputs: _,
                listeners: _,
                packet: _,
            } = back;
            Err(links)
        }
    }
}

/// Makes the call, of which the tap is told, and gives the ends of its links and the tap back, whatever happens. Each leg's thread
/// has so many octets of stack.
pub(crate) fn call<W: Links, R: Threads + Wait + Sync, G: Gate + Sync, T: Tap>(
    rt: &R,
    alloc: Global,
    conference: &Conference,
    opened: OpenLinks<W::In, W::Out>,
    stop: Arc<AtomicBool, Global>,
    world: &mut W,
    gate: &G,
    stack: usize,
    tap: T,
) -> CallReturn<W::In, W::Out, T>
    requires links { IsOfLinks (meaning_of conference.now) }
    requires each_leg { length opened.legs.items ≡ length conference.now.legs }
    requires each_end { length opened.ends.items ≡ length conference.now.legs }
    requires legs { OpenLegs W.In.LinkIn W.tells (W.opened world.old) (meaning_of conference.now) opened.legs.items }
    requires ends { OpenEnds W.Out.LinkOut W.tells (meaning_of conference.now) opened.ends.items }
    requires told { T.stands tap [] }
    ensures called { IsCalled W.In.LinkIn W.Out.LinkOut (T.stands result.tap) W.tells (meaning_of conference.now) (span_of W.Links world.old world.new)
        (W.opened world.new) result }
    ensures paced { W.tells → result.turned ≡ LiveTurnsEnd.Done → IsPaced conference.now.turns conference.now.tick (W.moment world.old) (W.moment world.new) }
    ensures paused { result.turned ≡ LiveTurnsEnd.Done → IsPaused conference.now.turns (W.pauses world.old)
        (W.pauses world.new) }
    ensures same_own { Same W.own_faults world.old world.new }
    ensures same_objects { Same W.object_faults world.old world.new }
    ensures same_leads { W.tells → W.leads world.new ≡ W.leads world.old }
{
    let OpenLinks { legs, ends } = opened;
    let Ok(room) = CallRoom::new(alloc, legs.len()) else {
        return not_begun(alloc, legs, ends, tap);
    };
    let mixer = match mixer_over(alloc, conference, ends) {
        Ok(mixer) => mixer,
        Err(ends) => {
            room.discard();
            return not_begun(alloc, legs, ends, tap);
        }
    };
    let CallRoom {
        lanes,
        ports,
        joined,
    } = room;
    let tapped = TappedMixer::new(mixer, tap);
    let job = CallJob {
        legs,
        lanes,
        ports,
        joined,
        mixer: tapped,
        stop,
        clock: world,
        tick: u64::from(conference.tick),
        turns: u64::from(conference.turns),
    };
    let JobReturn {
        turned,
        legs,
        mixer,
        clock: _clock,
    } = run_job(rt, LentGate { gate }, stack, job);
    let TapReturn { turned, mixer, tap } = mixer.finish(turned);
    let FarEnds {
        links,
        outputs: _,
        listeners,
        packet: _,
    } = mixer.into_outbound();
    CallReturn {
        turned,
        legs,
        ends: links,
        listeners,
        tap,
    }
}
