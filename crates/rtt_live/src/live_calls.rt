//! A live call is served.
ghost use Rattle.std.specs.Prelude.{◌≡◌, [], IfOk, IfErr, OnErr, OnOk};
ghost use Rattle.link_io.specs.Ports.{NoneFalls, Same};
ghost use Rattle.file_spec.specs.Conferences.{meaning_of};
ghost use Rattle.mix_loop.specs.Clocks.{IsPaced};
ghost use Rattle.mix_loop.specs.Walks.{IsPaused};
ghost use Rattle.rtt_live.specs.Calls.{BrokeOff, IsOfLinks, WasCounted, WasGivenUp, WasServed, WasTapped, answer_of};
ghost use Rattle.rtt_live.specs.Spans.{span_of};
ghost use Rattle.rtt_live.specs.Opened.{LeadsAll, LeadsSome};
ghost use Rattle.rtt_live.specs.Reports.{end_of};

use crate::calls::{CallReturn, call};
use crate::open_links::{close_ends, close_legs, open_links};
use crate::tallies::tallies_of;
use crate::{LiveEnd, LiveFault, LiveReport, NoTap, Tap, printed};
use file_spec::Conference;
use link_io::Links;
use mix_loop::LiveTurnsEnd;
use rtt_base::NoMemory;
use rtt_io::Gate;
use std::alloc::Global;
use std::sync::atomic::AtomicBool;
use std::sync::{Arc, Wait};
use std::thread::Threads;

/// How many octets of stack a leg's thread has.
const STACK: usize = 2_097_152;

/// What is answered where turns ended so.
fn answer_of(turned: LiveTurnsEnd<LiveFault>) -> Result<LiveEnd, LiveFault>
    ensures { result ≡ answer_of turned }
{
    match turned {
        LiveTurnsEnd::Done => Ok(LiveEnd::Done),
        LiveTurnsEnd::Closed => Ok(LiveEnd::Closed),
        LiveTurnsEnd::Faulted(leg) => Err(LiveFault::Link { leg }),
        LiveTurnsEnd::Stopped(fault) => Err(fault),
    }
}

/// Serves a live call of a conference of links: opens the links, hears each leg on a thread of its own, mixes what is heard turn by
/// turn, and gives it to the terminals' links, until all turns are made, or all links are closed and nothing is left. A leg whose
/// thread can't be started is heard by the caller. Each link is handed back, whatever is answered. The first link that fails ends
/// the call.
pub fn serve<R: Threads + Wait + Sync, W: Links, G: Gate + Sync>(
    rt: &R,
    alloc: Global,
    conference: &Conference,
    world: &mut W,
    gate: &G,
) -> Result<LiveReport, LiveFault>
    requires { IsOfLinks (meaning_of conference.now) }
    ensures served { IfOk result (λ report. WasServed W.tells (span_of W.Links world.old world.new)
        (W.taken_at world.new) (W.given_at world.new) (meaning_of conference.now) (end_of report.end) report.views) }
    ensures counted { IfOk result (λ report. WasCounted W.tells (span_of W.Links world.old world.new)
        (W.taken_at world.new) (W.given_at world.new) (meaning_of conference.now)
        (end_of report.end) report.views report.tallies.items) }
    ensures given_up { IfErr result (WasGivenUp (W.own_faults world.old) (W.own_faults world.new)
        (W.object_faults world.old) (W.object_faults world.new) (meaning_of conference.now)) }
    ensures broke_off { OnErr result (BrokeOff W.tells (span_of W.Links world.old world.new) (W.given_at world.old)
        (W.taken_at world.new) (W.given_at world.new) (meaning_of conference.now)) }
    ensures calm { IfOk result (λ report. report.end ≡ LiveEnd.Closed
        → Same W.object_faults world.old world.new) }
    ensures paced { W.tells → IfOk result (λ report. report.end ≡ LiveEnd.Done
        → IsPaced conference.now.turns conference.now.tick (W.moment world.old) (W.moment world.new)) }
    ensures paused { IfOk result (λ report. report.end ≡ LiveEnd.Done
        → IsPaused conference.now.turns (W.pauses world.old) (W.pauses world.new)) }
    ensures leads_all { W.tells → OnOk result (LeadsAll (meaning_of conference.now) (W.leads world.old)
        (W.leads world.new)) }
    ensures leads_some { W.tells → OnErr result (LeadsSome (meaning_of conference.now) (W.leads world.old)
        (W.leads world.new)) }
    ensures all_opened { OnOk result (Same W.own_faults world.old world.new) }
    ensures own_never_falls { NoneFalls W.own_faults world.old world.new }
    ensures objects_never_fall { NoneFalls W.object_faults world.old world.new }
{
    let (served, NoTap) = serve_tapped(rt, alloc, conference, world, gate, NoTap);
    served
}

/// The same, of which a tap is told: of each chunk that the mixer took, in order, of each turn, and once more at the end. The tap,
/// which was told nothing before, is handed back. Where it has no memory for a chunk, that ends the call.
pub fn serve_tapped<R: Threads + Wait + Sync, W: Links, G: Gate + Sync, T: Tap>(
    rt: &R,
    alloc: Global,
    conference: &Conference,
    world: &mut W,
    gate: &G,
    tap: T,
) -> (Result<LiveReport, LiveFault>, T)
    requires links { IsOfLinks (meaning_of conference.now) }
    requires told { T.stands tap [] }
    ensures tapped { IfOk result.0
        (λ report. WasTapped (T.stands result.1) W.tells (span_of W.Links world.old world.new)
        (W.taken_at world.new) (W.given_at world.new) (meaning_of conference.now) (end_of report.end) report.views) }
    ensures counted { IfOk result.0 (λ report. WasCounted W.tells (span_of W.Links world.old world.new)
        (W.taken_at world.new) (W.given_at world.new) (meaning_of conference.now)
        (end_of report.end) report.views report.tallies.items) }
    ensures given_up { IfErr result.0 (WasGivenUp (W.own_faults world.old) (W.own_faults world.new)
        (W.object_faults world.old) (W.object_faults world.new) (meaning_of conference.now)) }
    ensures broke_off { OnErr result.0 (BrokeOff W.tells (span_of W.Links world.old world.new) (W.given_at world.old)
        (W.taken_at world.new) (W.given_at world.new) (meaning_of conference.now)) }
    ensures calm { IfOk result.0 (λ report. report.end ≡ LiveEnd.Closed
        → Same W.object_faults world.old world.new) }
    ensures paced { W.tells → IfOk result.0 (λ report. report.end ≡ LiveEnd.Done
        → IsPaced conference.now.turns conference.now.tick (W.moment world.old) (W.moment world.new)) }
    ensures paused { IfOk result.0 (λ report. report.end ≡ LiveEnd.Done
        → IsPaused conference.now.turns (W.pauses world.old) (W.pauses world.new)) }
    ensures leads_all { W.tells → OnOk result.0 (LeadsAll (meaning_of conference.now) (W.leads world.old)
        (W.leads world.new)) }
    ensures leads_some { W.tells → OnErr result.0
        (LeadsSome (meaning_of conference.now) (W.leads world.old) (W.leads world.new)) }
    ensures all_opened { OnOk result.0 (Same W.own_faults world.old world.new) }
    ensures own_never_falls { NoneFalls W.own_faults world.old world.new }
    ensures objects_never_fall { NoneFalls W.object_faults world.old world.new }
{
    let Ok(stop) = Arc::new(alloc, AtomicBool::new(false)) else {
        return (Err(LiveFault::NoMemory), tap);
    };
    let opened = match open_links(alloc, conference, &stop, world) {
        Ok(opened) => opened,
        Err(fault) => return (Err(fault), tap),
    };
    let CallReturn {
        turned,
        legs,
        ends,
        listeners,
        tap,
    } = call(rt, alloc, conference, opened, stop, world, gate, STACK, tap);
    let tallies = tallies_of(legs.as_slice());
    close_legs(legs, world);
    close_ends(ends, world);
    let end = match answer_of(turned) {
        Ok(end) => end,
        Err(fault) => return (Err(fault), tap),
    };
    match printed(alloc, conference, listeners, tallies.as_slice(), end) {
        Ok(views) => (
            Ok(LiveReport {
                end,
                views,
                tallies,
            }),
            tap,
        ),
        Err(NoMemory) => (Err(LiveFault::NoMemory), tap),
    }
}
