//! The links of a live call are opened, and handed back.
ghost use Rattle.std.specs.Prelude.{◌≡◌, ◌<◌, ◌≤◌, ◌⊎◌, [], true, length, IfOk, IfErr, OnOk, OnErr};
ghost use Rattle.std.specs.Vec.{vec_capacity};
ghost use Rattle.link_io.specs.Ports.{NoneFalls, Same, StayOpened};
ghost use Rattle.file_spec.specs.Conferences.{meaning_of};
ghost use Rattle.receiver.specs.Cuts.{is_cut};
ghost use Rattle.rtt_live.specs.Opened.{AreCalm, AreEmptyAt, AreStored, FaultsRose, GivesNothing, HavePorts, IsNotOpened, IsRefusedAt, LeadsAll, LeadsOne, LeadsSome, OpenEnds, OpenLegs, OpensEnd, OpensLeg, leg_settings_at, link_in};

use crate::LiveFault;
use file_spec::{Conference, LegLine};
use link_io::{LinkIn, LinkOut, Links};
use live_leg::{Leg, LegSettings, LinkLeg, PacedLink};
use receiver::{EarSettings, TextCut};
use rtt_base::NoMemory;
use script_text::number_from;
use std::alloc::Global;
use std::sync::Arc;
use std::sync::atomic::AtomicBool;

/// The legs over the inbound ends of the links, and the outbound ends, in leg order.
pub(crate) struct OpenLinks<I, O> {
    pub(crate) legs: Vec<LinkLeg<I>>,
    pub(crate) ends: Vec<O>,
}

/// How a leg is heard.
fn leg_settings(conference: &Conference, leg: &LegLine) -> LegSettings
    ensures value { result ≡ leg_settings_at (meaning_of conference.now) leg.now }
    ensures cut { is_cut result.ear.cut ≡ true }
{
    LegSettings {
        ear: EarSettings {
            ssrc: leg.ssrc,
            payload_types: leg.payload_types,
            wait: u64::from(conference.wait),
            long: leg.long,
            cut: TextCut::within(conference.mtu),
        },
        follow: leg.follow,
    }
}

/// Hands back the inbound ends of these legs. Where one failed, the count of its port rises. What each has taken is stored.
pub(crate) fn close_legs<W: Links>(legs: Vec<LinkLeg<W::In>>, world: &mut W)
    ensures same_own { Same W.own_faults world.old world.new }
    ensures objects_never_fall { NoneFalls W.object_faults world.old world.new }
    ensures calm { AreCalm (λ leg. W.In.faults (link_in leg)) legs.items → Same W.object_faults world.old world.new }
    ensures failed { FaultsRose (λ leg. W.In.faults (link_in leg)) (λ leg. W.In.port (link_in leg))
        (W.object_faults world.old) (W.object_faults world.new) legs.items }
    ensures stored { W.tells → AreStored (λ leg. W.In.taken (link_in leg)) (λ leg. W.In.port (link_in leg))
        (W.opened world.old) (W.taken_at world.new) legs.items }
    ensures same_pauses { W.pauses world.new ≡ W.pauses world.old }
    ensures same_moment { W.moment world.new ≡ W.moment world.old }
    ensures same_given { W.tells → Same W.given_at world.old world.new }
    ensures same_opened { W.tells → Same W.opened world.old world.new }
    ensures same_leads { W.tells → W.leads world.new ≡ W.leads world.old }
{
    let mut legs = legs;
    while let Some(leg) = legs.pop() {
        world.done_in(leg.into_arrivals().into_link());
    }
    legs.destroy_empty();
}

/// Hands back these outbound ends. Where one failed, the count of its port rises. What each was given is stored.
pub(crate) fn close_ends<W: Links>(ends: Vec<W::Out>, world: &mut W)
    ensures same_own { Same W.own_faults world.old world.new }
    ensures objects_never_fall { NoneFalls W.object_faults world.old world.new }
    ensures calm { AreCalm W.Out.faults ends.items → Same W.object_faults world.old world.new }
    ensures failed { FaultsRose W.Out.faults W.Out.port (W.object_faults world.old) (W.object_faults world.new) ends.items }
    ensures stored { W.tells → AreStored W.Out.given W.Out.port (W.opened world.old) (W.given_at world.new) ends.items }
    ensures empty { W.tells → AreEmptyAt W.Out.given W.Out.port (W.opened world.old) ends.items
        → GivesNothing (W.given_at world.old) (W.given_at world.new) }
    ensures same_pauses { W.pauses world.new ≡ W.pauses world.old }
    ensures same_moment { W.moment world.new ≡ W.moment world.old }
    ensures same_taken { W.tells → Same W.taken_at world.old world.new }
    ensures same_opened { W.tells → Same W.opened world.old world.new }
    ensures same_leads { W.tells → W.leads world.new ≡ W.leads world.old }
{
    let mut ends = ends;
    while let Some(end) = ends.pop() {
        world.done_out(end);
    }
    ends.destroy_empty();
}

/// Opens the link of a leg. Where memory runs out its ends are handed back.
fn open_link<W: Links>(
    alloc: Global,
    conference: &Conference,
    own: u8,
    stop: &Arc<AtomicBool, Global>,
    world: &mut W,
) -> Result<(LinkLeg<W::In>, W::Out), LiveFault>
    requires own { own < length conference.now.legs }
    requires ports { HavePorts (meaning_of conference.now) }
    ensures leg { IfOk result (λ x. OpensLeg W.In.LinkIn W.tells (W.opened world.new) (meaning_of conference.now) own
        x.0) }
    ensures end { IfOk result (λ x. OpensEnd W.Out.LinkOut W.tells (meaning_of conference.now) own x.1) }
    ensures refused { IfErr result (IsRefusedAt (W.own_faults world.old) (W.own_faults world.new) (meaning_of conference.now) own) }
    ensures own_never_falls { NoneFalls W.own_faults world.old world.new }
    ensures calm { OnOk result (Same W.own_faults world.old world.new) }
    ensures same_objects { Same W.object_faults world.old world.new }
    ensures same_pauses { OnOk result (W.pauses world.new ≡ W.pauses world.old) }
    ensures same_moment { OnOk result (W.moment world.new ≡ W.moment world.old) }
    ensures stay_opened { W.tells → StayOpened W.opened world.old world.new }
    ensures leads_there { W.tells → OnOk result (LeadsOne (meaning_of conference.now) own (W.leads world.old) (W.leads world.new)) }
    ensures leads_nowhere_else { W.tells → OnErr result ((W.leads world.new ≡ W.leads world.old)
        ⊎ LeadsOne (meaning_of conference.now) own (W.leads world.old) (W.leads world.new)) }
    ensures same_given { W.tells → OnOk result (Same W.given_at world.old world.new) }
    ensures gives_nothing { W.tells → OnErr result (GivesNothing (W.given_at world.old) (W.given_at world.new)) }
{
    let leg = &conference.legs.as_slice()[own as usize];
    let Ok(stop) = Arc::try_clone(stop) else {
        return Err(LiveFault::NoMemory);
    };
    let Some(port) = number_from(leg.input.as_str(), 1, 65_535) else {
        unreachable!()
    };
    let Ok((inbound, outbound)) = world.link(port as u16, leg.output.as_str()) else {
        return Err(LiveFault::Link { leg: own });
    };
    let tick = u64::from(conference.tick);
    let arrivals = PacedLink::new(inbound, tick, stop);
    match Leg::new(alloc, arrivals, leg_settings(conference, leg)) {
        Ok(leg) => Ok((leg, outbound)),
        Err(arrivals) => {
            world.done_in(arrivals.into_link());
            world.done_out(outbound);
            Err(LiveFault::NoMemory)
        }
    }
}

impl<I, O> OpenLinks<I, O> {
    /// None, with room for so many.
    fn with_capacity(alloc: Global, count: usize) -> Result<OpenLinks<I, O>, NoMemory>
        ensures no_leg { IfOk result (λ opened. opened.legs.items ≡ []) }
        ensures no_end { IfOk result (λ opened. opened.ends.items ≡ []) }
        ensures legs { IfOk result (λ opened. count ≤ vec_capacity opened.legs) }
        ensures ends { IfOk result (λ opened. count ≤ vec_capacity opened.ends) }
    {
        let Ok(legs) = Vec::with_capacity(alloc, count) else {
            return Err(NoMemory);
        };
        let Ok(ends) = Vec::with_capacity(alloc, count) else {
            legs.destroy_empty();
            return Err(NoMemory);
        };
        Ok(OpenLinks { legs, ends })
    }
}

/// Opens the links of all legs, in leg order. Where one can't be opened, or memory runs out, those before it are handed back.
pub(crate) fn open_links<W: Links>(
    alloc: Global,
    conference: &Conference,
    stop: &Arc<AtomicBool, Global>,
    world: &mut W,
) -> Result<OpenLinks<W::In, W::Out>, LiveFault>
    requires ports { HavePorts (meaning_of conference.now) }
    ensures each_leg { IfOk result (λ opened. length opened.legs.items ≡ length conference.now.legs) }
    ensures each_end { IfOk result (λ opened. length opened.ends.items ≡ length conference.now.legs) }
    ensures legs { IfOk result (λ opened. OpenLegs W.In.LinkIn W.tells (W.opened world.new) (meaning_of conference.now) opened.legs.items) }
    ensures ends { IfOk result (λ opened. OpenEnds W.Out.LinkOut W.tells (meaning_of conference.now) opened.ends.items) }
    ensures refused { IfErr result (IsNotOpened W.tells (W.opened world.new)
        (W.own_faults world.old) (W.own_faults world.new) (meaning_of conference.now)) }
    ensures own_never_falls { NoneFalls W.own_faults world.old world.new }
    ensures calm { OnOk result (Same W.own_faults world.old world.new) }
    ensures same_objects { Same W.object_faults world.old world.new }
    ensures same_pauses { OnOk result (W.pauses world.new ≡ W.pauses world.old) }
    ensures same_moment { OnOk result (W.moment world.new ≡ W.moment world.old) }
    ensures leads_all { W.tells → OnOk result (LeadsAll (meaning_of conference.now) (W.leads world.old)
        (W.leads world.new)) }
    ensures leads_some { W.tells → OnErr result (LeadsSome (meaning_of conference.now) (W.leads world.old)
        (W.leads world.new)) }
    ensures gives_nothing { W.tells → OnErr result (GivesNothing (W.given_at world.old) (W.given_at world.new)) }
{
    let Ok(opened) = OpenLinks::with_capacity(alloc, conference.legs.len()) else {
        return Err(LiveFault::NoMemory);
    };
    let OpenLinks { mut legs, mut ends } = opened;
    for own in 0..conference.legs.len() {
        match open_link(alloc, conference, own as u8, stop, world) {
            Ok((leg, end)) => {
                legs.push_reserved(leg);
                ends.push_reserved(end);
            }
            Err(fault) => {
                close_legs(legs, world);
                close_ends(ends, world);
                return Err(fault);
            }
        }
    }
    Ok(OpenLinks { legs, ends })
}
