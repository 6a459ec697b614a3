//! A live call with a board is served.
ghost use Rattle.std.specs.Prelude.{◌≡◌, false, [], IfOk, IfErr, OnErr, OnOk};
ghost use Rattle.link_io.specs.Ports.{NoneFalls, Same};
ghost use Rattle.file_spec.specs.Conferences.{meaning_of};
ghost use Rattle.mix_loop.specs.Clocks.{IsPaced};
ghost use Rattle.mix_loop.specs.Walks.{IsPaused};
ghost use Rattle.rtt_live.specs.Calls.{BrokeOff, IsOfLinks, WasGivenUp, WasTapped};
ghost use Rattle.rtt_live.specs.Opened.{LeadsAll, LeadsSome};
ghost use Rattle.rtt_live.specs.Reports.{end_of};
ghost use Rattle.rtt_live.specs.Spans.{span_of};
ghost use Rattle.rtt_live.specs.Watched.{IsWrittenFor, WasWatched};

use crate::board_taps::{BoardTap, OnBoard};
use crate::lines::add_lines;
use crate::watchers::Watcher;
use crate::{LiveEnd, LiveFault, LiveReport, serve_tapped};
use file_spec::Conference;
use link_io::Links;
use live_board::{Board, BoardWriter};
use rtt_base::NoMemory;
use rtt_io::Gate;
use std::alloc::Global;
use std::marker::{Brand, PhantomData};
use std::sync::atomic::AtomicBool;
use std::sync::{Arc, Wait};
use std::thread::Threads;
use std::time::Clock;

/// Serves a live call, to whose board this is the writer.
fn serve_on<B: OnBoard, R: Threads + Wait + Sync, W: Links, G: Gate + Sync>(
    rt: &R,
    alloc: Global,
    conference: &Conference,
    world: &mut W,
    gate: &G,
    writer: BoardWriter,
) -> (Result<LiveReport, LiveFault>, BoardWriter)
    requires links { IsOfLinks (meaning_of conference.now) }
    requires board { writer.board ≡ B.board }
    requires new { (writer.published ≡ []) × (writer.pending ≡ []) × (writer.ended ≡ false) }
    ensures open { result.1.ended ≡ false }
    ensures tapped { IfOk result.0 (λ report. WasTapped (IsWrittenFor B.board result.1) W.tells (span_of W.Links world.old world.new)
        (W.taken_at world.new) (W.given_at world.new) (meaning_of conference.now) (end_of report.end) report.views) }
    ensures given_up { IfErr result.0 (WasGivenUp (W.own_faults world.old) (W.own_faults world.new)
        (W.object_faults world.old) (W.object_faults world.new) (meaning_of conference.now)) }
    ensures broke_off { OnErr result.0 (BrokeOff W.tells (span_of W.Links world.old world.new) (W.given_at world.old)
        (W.taken_at world.new) (W.given_at world.new) (meaning_of conference.now)) }
    ensures calm { IfOk result.0 (λ report. report.end ≡ LiveEnd.Closed
        → Same W.object_faults world.old world.new) }
    ensures paced { W.tells → IfOk result.0 (λ report. report.end ≡ LiveEnd.Done
        → IsPaced conference.now.turns conference.now.tick (W.moment world.old) (W.moment world.new)) }
    ensures paused { IfOk result.0 (λ report. report.end ≡ LiveEnd.Done
        → IsPaused conference.now.turns (W.pauses world.old) (W.pauses world.new)) }
    ensures leads_all { W.tells → OnOk result.0 (LeadsAll (meaning_of conference.now) (W.leads world.old)
        (W.leads world.new)) }
    ensures leads_some { W.tells → OnErr result.0 (LeadsSome (meaning_of conference.now) (W.leads world.old) (W.leads world.new)) }
    ensures all_opened { OnOk result.0 (Same W.own_faults world.old world.new) }
    ensures own_never_falls { NoneFalls W.own_faults world.old world.new }
    ensures objects_never_fall { NoneFalls W.object_faults world.old world.new }
{
    let tap: BoardTap<B, &R> = BoardTap {
        writer,
        rt,
        of: PhantomData,
    };
    let (served, tap) = serve_tapped(rt, alloc, conference, world, gate, tap);
    let BoardTap {
        writer,
        rt: _,
        of: _,
    } = tap;
    (served, writer)
}

/// Serves a live call of a conference of links with a board, from which a thread reads while it runs. Behind what is printed of any
/// call stands how many octets of each leg's text are read there then: all that the mixer took. Where the thread cannot be started,
/// only this last is read. All else is as `crate::serve` has it.
#[tactic(auto, using(crate::proofs::Leading::some_none, crate::proofs::Leading::some_all, crate::proofs::Breaking::none_given))]
pub fn serve_watched<
    R: Threads + Wait + Clock + Copy + Send + Sync + 'static,
    W: Links,
    G: Gate + Sync,
>(
    rt: &R,
    alloc: Global,
    conference: &Conference,
    world: &mut W,
    gate: &G,
) -> Result<LiveReport, LiveFault>
    requires { IsOfLinks (meaning_of conference.now) }
    ensures watched { IfOk result (λ report. WasWatched W.tells (span_of W.Links world.old world.new)
        (W.taken_at world.new) (W.given_at world.new) (meaning_of conference.now) (end_of report.end) report.views) }
    ensures given_up { IfErr result (WasGivenUp (W.own_faults world.old) (W.own_faults world.new)
        (W.object_faults world.old) (W.object_faults world.new) (meaning_of conference.now)) }
    ensures broke_off { OnErr result (BrokeOff W.tells (span_of W.Links world.old world.new) (W.given_at world.old)
        (W.taken_at world.new) (W.given_at world.new) (meaning_of conference.now)) }
    ensures calm { IfOk result (λ report. report.end ≡ LiveEnd.Closed
        → Same W.object_faults world.old world.new) }
    ensures paced { W.tells → IfOk result (λ report. report.end ≡ LiveEnd.Done
        → IsPaced conference.now.turns conference.now.tick (W.moment world.old) (W.moment world.new)) }
    ensures paused { IfOk result (λ report. report.end ≡ LiveEnd.Done
        → IsPaused conference.now.turns (W.pauses world.old) (W.pauses world.new)) }
    ensures leads_all { W.tells → OnOk result (LeadsAll (meaning_of conference.now) (W.leads world.old)
        (W.leads world.new)) }
    ensures leads_some { W.tells → OnErr result (LeadsSome (meaning_of conference.now) (W.leads world.old)
        (W.leads world.new)) }
    ensures all_opened { OnOk result (Same W.own_faults world.old world.new) }
    ensures own_never_falls { NoneFalls W.own_faults world.old world.new }
    ensures objects_never_fall { NoneFalls W.object_faults world.old world.new }
{
    let legs = conference.legs.len();
    let Ok((writer, reader)) = Board::new(rt, alloc, legs) else {
        return Err(LiveFault::NoMemory);
    };
    let Ok(stop) = Arc::new(alloc, AtomicBool::new(false)) else {
        writer.close(rt);
        return Err(LiveFault::NoMemory);
    };
    let Ok(theirs) = Arc::try_clone(&stop) else {
        writer.close(rt);
        return Err(LiveFault::NoMemory);
    };
    let watcher = Watcher::start(rt, reader, legs, &stop, theirs);
    let (served, mut writer) = serve_on::<Brand, R, W, G>(
        rt, alloc, conference, world, gate, writer,
    );
    let mut reader = watcher.finish(rt, &stop);
    let noted = writer.last(rt);
    writer.close(rt);
    let mut report = match served {
        Ok(report) => report,
        Err(fault) => return Err(fault),
    };
    let Ok(note) = noted else {
        return Err(LiveFault::NoMemory);
    };
    reader.learn(note);
    match add_lines(alloc, conference, reader, &mut report.views) {
        Ok(()) => Ok(report),
        Err(NoMemory) => Err(LiveFault::NoMemory),
    }
}
