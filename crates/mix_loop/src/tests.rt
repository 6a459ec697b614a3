ghost use Rattle.std.specs.Prelude.{◌≡◌, ◌≤◌, ◌<◌, [], suc, length, vec_len, IfSome};
ghost use Rattle.std.specs.Vec.{vec_capacity};
ghost use Rattle.workers.specs.Lanes.{AreNew};
ghost use Rattle.live_leg.specs.LinkLegs.{LegGave, LegStands};
ghost use Rattle.mix_loop.specs.Walks.{AreAt};

use crate::{
    LivePort, LiveTurnsEnd, MixerCalls, drain_all, live_inlets_of, ports_over, take_turns,
};
use link_io::{Beat, Came, LinkIn, Links, MemIn, MemLinks, PlannedTake};
use live_leg::{Leg, LegSettings, LinkItem, LinkLeg, PacedLink};
use receiver::{EarSettings, TextCut};
use rtt_base::{Bytes, Chunk, Full, NoMemory, PayloadTypes};
use rtt_io::StillGate;
use std::alloc::Global;
use std::process::Abort;
use std::sync::atomic::{AtomicBool, Ordering};
use std::sync::{Arc, Wait};
use std::test::Fail;
use std::thread;
use std::thread::{Scope, Threads};
use workers::{Worker, WorkerRoom, WorkerSet, join_lanes, start_lanes};

// Takes each text, and counts them and the turns. It stands for no calls.
#[derive(Drop)]
struct CountMixer {
    legs: usize,
    taken: u64,
    turns: u64,
    // the moments of the first turns
    moments: [u64; 3],
    // how many texts were taken before the first turn
    first: u64,
}

impl MixerCalls for CountMixer {
    ghost use Rattle.std.specs.Prelude.{◌^◌, []};

    type Fault = NoMemory;

    type Clock = MemLinks;

    ghost stands = { λ m s payload_types calls. ⊥ };

    ghost halted = { λ m s payload_types calls now. Unit {0} };

    ghost legs = { λ m. m.legs };

    ghost turns = { λ m. m.turns };

    ghost addresses = { λ m. [] };

    ghost horizon = { 2 ^ 47 };

    ghost unsent = { λ m why. Unit {0} };

    fn admit(&mut self, _leg: usize, _listens: bool) -> bool {
        true
    }

    fn hush(&mut self, _leg: usize) {}

    fn leave(&mut self, _leg: usize) -> bool {
        false
    }

    fn offer(&mut self, _chunk: &Chunk) -> Result<(), Full> {
        self.taken = self.taken.wrapping_add(1);
        Ok(())
    }

    fn turn(&mut self, now: u64, _beat: &Beat<'_, MemLinks>) -> Result<(), NoMemory> {
        if self.turns < 3 {
            self.moments[self.turns as usize] = now;
        }
        if self.turns == 0 {
            self.first = self.taken;
        }
        self.turns += 1;
        Ok(())
    }

    fn idle(&self) -> bool {
        true
    }
}

// The packet in which A is typed with this number, of the leg with the SSRC 1001.
fn typed(number: u16) -> [u8; 13] {
    let [high, low] = number.to_be_bytes();
    [0x80, 98, high, low, 0, 0, 0, 0, 0, 0, 3, 0xE9, b'A']
}

// Plans so many packets, with a text each, at this moment.
fn plan_typed(alloc: Global, link: &mut MemIn, count: u16, at: u32) -> Result<(), NoMemory> {
    for number in 0..count {
        let mut octets = Bytes::new(alloc);
        octets.append(&typed(number))?;
        link.plan(PlannedTake {
            at,
            came: Came::Datagram,
            octets,
        })?;
    }
    Ok(())
}

// A link that gives so many texts and is closed, or is quiet behind them.
fn link(alloc: Global, count: u16, closes: bool) -> Result<MemIn, NoMemory> {
    let mut link = MemIn::new(alloc, 5001);
    plan_typed(alloc, &mut link, count, 100)?;
    if closes {
        link.plan(PlannedTake {
            at: 200,
            came: Came::Closed,
            octets: Bytes::new(alloc),
        })?;
    }
    Ok(link)
}

type AnnLane = Worker<LinkItem, LinkLeg<MemIn>, StillGate>;

type AnnPort = LivePort<AnnLane>;

// How the turns of a call ended, how many there were, and how many texts were taken.
#[derive(Clone, Copy, PartialEq)]
struct TurnCount {
    turned: LiveTurnsEnd<NoMemory>,
    turns: u64,
    taken: u64,
    moments: [u64; 3],
    first: u64,
}

// Makes five turns, one each 100 milliseconds, and lets go what comes behind them.
fn turn_and_drain<R: Wait>(
    rt: &R,
    ports: &mut [AnnPort],
    mixer: &mut CountMixer,
    world: &mut MemLinks,
    stop: &AtomicBool,
) -> LiveTurnsEnd<NoMemory>
    requires at { AreAt ports.old }
    requires legs { mixer.old.legs ≡ length ports.old }
    requires none { mixer.old.turns ≡ 0 }
    ensures { length ports.new ≡ length ports.old }
{
    let turned = take_turns(rt, ports, mixer, world, 100, 5);
    stop.store(true, Ordering::SeqCst);
    drain_all(rt, ports);
    turned
}

// A leg that is about to run, alone.
fn alone(alloc: Global, leg: LinkLeg<MemIn>) -> Option<Vec<LinkLeg<MemIn>>>
    requires { LegStands ⟦<MemIn as LinkIn>⟧ leg leg [] }
    ensures new { IfSome result (λ legs. AreNew (LegGave ⟦<MemIn as LinkIn>⟧) legs.items) }
    ensures one { IfSome result (λ legs. vec_len legs ≡ 1) }
{
    match Vec::from_array(alloc, [leg]) {
        Ok(legs) => Some(legs),
        Err(_) => None,
    }
}

const ANN: LegSettings = LegSettings {
    ear: EarSettings {
        ssrc: 1001,
        payload_types: PayloadTypes { t140: 98, red: 100 },
        wait: 1000,
        long: false,
        cut: TextCut::Long,
    },
    follow: false,
};

// A leg over this link, alone, which this word stops.
fn ann(alloc: Global, link: MemIn, stop: &Arc<AtomicBool, Global>) -> Option<Vec<LinkLeg<MemIn>>>
    ensures new { IfSome result (λ legs. AreNew (LegGave ⟦<MemIn as LinkIn>⟧) legs.items) }
    ensures one { IfSome result (λ legs. vec_len legs ≡ 1) }
{
    let Ok(theirs) = Arc::try_clone(stop) else {
        return None;
    };
    let Ok(leg) = Leg::new(alloc, PacedLink::new(link, 100, theirs), ANN) else {
        return None;
    };
    alone(alloc, leg)
}

// A mixer of so many legs.
fn new_mixer(legs: usize) -> CountMixer
    ensures legs { result.legs ≡ legs }
    ensures none { result.turns ≡ 0 }
{
    CountMixer {
        legs,
        taken: 0,
        turns: 0,
        moments: [0; 3],
        first: 0,
    }
}

// What this mixer counted of turns that ended so.
fn ran_of(turned: LiveTurnsEnd<NoMemory>, mixer: CountMixer) -> TurnCount {
    let moments = mixer.moments;
    TurnCount {
        turned,
        turns: mixer.turns,
        taken: mixer.taken,
        moments,
        first: mixer.first,
    }
}

// Enough octets of stack for a leg's thread, and more than a thread can have.
const STACK: usize = 2_097_152;

const REFUSED: usize = usize::MAX;

// Starts a leg that is alone, on a thread of so many octets of stack.
fn start_alone<'s, 'e, R: Abort + Wait + Sync>(
    scope: &'s Scope<'s, &'e ()>,
    rt: &'s R,
    alloc: Global,
    stack: usize,
    legs: Vec<LinkLeg<MemIn>>,
) -> Vec<AnnLane>
    requires new { AreNew (LegGave ⟦<MemIn as LinkIn>⟧) legs.items }
    requires one { vec_len legs ≡ 1 }
    ensures { vec_len result ≡ 1 }
{
    let room = WorkerRoom::new(alloc, 1).expect(rt, "room for a lane");
    let WorkerSet { lanes, back: _ } = start_lanes(scope, rt, StillGate, stack, legs, room);
    lanes
}

// Makes the turns of these lanes, which this word stops, from this moment on.
fn run_lanes<R: Abort + Threads + Wait>(
    rt: &R,
    alloc: Global,
    lanes: Vec<AnnLane>,
    stop: &AtomicBool,
    begin: u64,
) -> TurnCount
    requires { vec_len lanes ≤ 64 }
{
    let ports = Vec::with_capacity(alloc, lanes.len()).expect(rt, "room for ports");
    let inlets = Vec::with_capacity(alloc, lanes.len()).expect(rt, "room for inlets");
    let back = Vec::with_capacity(alloc, lanes.len()).expect(rt, "room for legs");
    let mut mixer = new_mixer(lanes.len());
    let mut world = MemLinks::new(alloc);
    world.pause_until(begin);
    let mut ports = ports_over(lanes, ports);
    let turned = turn_and_drain(rt, ports.as_mut_slice(), &mut mixer, &mut world, stop);
    let lanes = live_inlets_of(ports, inlets);
    let _legs = join_lanes(rt, lanes, back);
    ran_of(turned, mixer)
}

// A call of one leg without a thread, which begins at this moment.
fn run_in<'s, 'e, R: Abort + Threads + Wait + Sync>(
    scope: &'s Scope<'s, &'e ()>,
    rt: &'s R,
    alloc: Global,
    link: MemIn,
    begin: u64,
) -> TurnCount {
    let stop = Arc::new(alloc, AtomicBool::new(false)).expect(rt, "a stop word");
    let leg = ann(alloc, link, &stop).expect(rt, "a leg");
    let lanes = start_alone(scope, rt, alloc, REFUSED, leg);
    run_lanes(rt, alloc, lanes, &stop, begin)
}

fn run<R: Abort + Threads + Wait + Sync>(
    rt: &R,
    alloc: Global,
    link: MemIn,
    begin: u64,
) -> TurnCount {
    thread::scope(thread::scope_env(), rt, |scope| -> TurnCount {
        run_in(scope, rt, alloc, link, begin)
    })
}

// A call of one leg, whose link gives so many texts and is closed, or is quiet behind them.
fn call<R: Abort + Threads + Wait + Sync>(
    rt: &R,
    alloc: Global,
    count: u16,
    closes: bool,
) -> Result<TurnCount, NoMemory> {
    let link = link(alloc, count, closes)?;
    Ok(run(rt, alloc, link, 0))
}

#[test]
fn a_call_ends_where_its_links_are_closed(rt: HostRuntime) -> Result<(), Fail> {
    let ran = call(&rt, rt.alloc(), 1, true)?;
    assert!(rt; ran.turned == LiveTurnsEnd::Closed);
    assert!(rt; ran.taken == 1);
    Ok(())
}

#[test]
fn all_that_came_is_offered_before_the_first_turn(rt: HostRuntime) -> Result<(), Fail> {
    let ran = call(&rt, rt.alloc(), 20, true)?;
    assert!(rt; ran.turned == LiveTurnsEnd::Closed);
    assert!(rt; ran.turns == 0);
    assert!(rt; ran.taken == 20);
    Ok(())
}

#[test]
fn a_silent_leg_ends_with_the_turns(rt: HostRuntime) -> Result<(), Fail> {
    let ran = call(&rt, rt.alloc(), 1, false)?;
    assert!(rt; ran.turned == LiveTurnsEnd::Done);
    assert!(rt; ran.turns == 5);
    assert!(rt; ran.taken == 1);
    Ok(())
}

#[test]
fn a_flood_holds_no_turn_up(rt: HostRuntime) -> Result<(), Fail> {
    let ran = call(&rt, rt.alloc(), 1500, false)?;
    assert!(rt; ran.turned == LiveTurnsEnd::Done);
    assert!(rt; ran.turns == 5);
    assert!(rt; ran.taken == 1280);
    Ok(())
}

#[test]
fn turns_are_at_the_ticks_of_the_clock(rt: HostRuntime) -> Result<(), Fail> {
    let link = link(rt.alloc(), 1, false)?;
    let ran = run(&rt, rt.alloc(), link, 30);
    assert!(rt; ran.moments == [30, 200, 300]);
    Ok(())
}

// A link that has nothing at moment 0, and gives a text at moment 50.
fn link_behind_a_silence(alloc: Global) -> Result<MemIn, NoMemory> {
    let mut link = MemIn::new(alloc, 5001);
    link.plan(PlannedTake {
        at: 0,
        came: Came::Quiet,
        octets: Bytes::new(alloc),
    })?;
    plan_typed(alloc, &mut link, 1, 50)?;
    Ok(link)
}

#[test]
fn what_comes_behind_a_silence_is_offered_before_the_turn(rt: HostRuntime) -> Result<(), Fail> {
    let link = link_behind_a_silence(rt.alloc())?;
    let ran = run(&rt, rt.alloc(), link, 30);
    assert!(rt; ran.first == 1);
    Ok(())
}

// Puts the only one of a list behind these, where there is room for it.
fn put_behind<T>(only: Vec<T>, all: &mut Vec<T>)
    requires one { vec_len only ≡ 1 }
    requires room { vec_len all.old < vec_capacity all.old }
    ensures behind { vec_len all.new ≡ suc (vec_len all.old) }
    ensures room { vec_capacity all.new ≡ vec_capacity all.old }
{
    let mut only = only;
    let Some(one) = only.pop() else {
        unreachable!()
    };
    only.destroy_empty();
    all.push_reserved(one);
}

// A call of two legs, whose threads have so many octets of stack each.
fn run_two_in<'s, 'e, R: Abort + Threads + Wait + Sync>(
    scope: &'s Scope<'s, &'e ()>,
    rt: &'s R,
    alloc: Global,
    links: (MemIn, MemIn),
    stacks: (usize, usize),
) -> TurnCount {
    let stop = Arc::new(alloc, AtomicBool::new(false)).expect(rt, "a stop word");
    let first = ann(alloc, links.0, &stop).expect(rt, "the first leg");
    let second = ann(alloc, links.1, &stop).expect(rt, "the second leg");
    let mut lanes = Vec::with_capacity(alloc, 2).expect(rt, "room for lanes");
    let first = start_alone(scope, rt, alloc, stacks.0, first);
    let second = start_alone(scope, rt, alloc, stacks.1, second);
    put_behind(first, &mut lanes);
    put_behind(second, &mut lanes);
    run_lanes(rt, alloc, lanes, &stop, 30)
}

// The same, at whose first link 20 texts come before it is closed, and at the second a text behind a silence.
fn run_two<R: Abort + Threads + Wait + Sync>(
    rt: &R,
    alloc: Global,
    stacks: (usize, usize),
) -> Result<TurnCount, NoMemory> {
    let first = link(alloc, 20, true)?;
    let second = link_behind_a_silence(alloc)?;
    Ok(thread::scope(thread::scope_env(), rt, |scope| -> TurnCount {
        run_two_in(scope, rt, alloc, (first, second), stacks)
    }))
}

#[test]
fn a_call_is_the_same_whichever_leg_has_a_thread(rt: HostRuntime) -> Result<(), Fail> {
    let ran = run_two(&rt, rt.alloc(), (STACK, STACK))?;
    assert!(rt; ran.turned == LiveTurnsEnd::Done);
    assert!(rt; ran.first == 21);
    assert!(rt; run_two(&rt, rt.alloc(), (STACK, REFUSED))? == ran);
    assert!(rt; run_two(&rt, rt.alloc(), (REFUSED, STACK))? == ran);
    assert!(rt; run_two(&rt, rt.alloc(), (REFUSED, REFUSED))? == ran);
    Ok(())
}
