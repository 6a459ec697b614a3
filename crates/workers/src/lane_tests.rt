ghost use Rattle.std.specs.Prelude.{◌≡◌, length};

use crate::lanes::Runner;
use crate::{Producer, Reusable, Worker, WorkerRoom, WorkerSet, join_lanes, start_lanes};
use rtt_base::NoMemory;
use rtt_io::Gate;
use std::alloc::Global;
use std::sync::Wait;
use std::sync::atomic::{AtomicU64, Ordering};
use std::test::Fail;
use std::thread;
use std::thread::{Scope, Threads};

// A number that goes through a queue.
#[derive(Debug, Drop)]
pub(crate) struct Number {
    pub(crate) value: u64,
}

impl Reusable for Number {
    fn blank(_alloc: Global) -> Result<Number, NoMemory> {
        Ok(Number { value: 0 })
    }
}

// The last number that is given.
const LAST: u64 = 200;

// Gives the numbers from 1 to `last`, at every other step.
#[derive(Drop)]
pub(crate) struct CountProducer {
    given: u64,
    last: u64,
    rests: bool,
    over: bool,
}

impl CountProducer {
    // One that gave nothing yet.
    pub(crate) fn up_to(last: u64) -> CountProducer {
        CountProducer {
            given: 0,
            last,
            rests: false,
            over: false,
        }
    }
}

impl Producer<Number> for CountProducer {
    ghost stands = { λ first now items. Unit {0} };

    ghost over = { λ c. c.over };

    ghost nearer = { λ old new. Unit {0} };

    fn is_over(&self) -> bool {
        self.over
    }

    fn next<R: Wait>(&mut self, _rt: &R, item: &mut Number) -> bool {
        self.rests = !self.rests;
        if self.rests {
            return false;
        }
        self.given = self.given.wrapping_add(1);
        item.value = self.given;
        self.over = self.given == self.last;
        true
    }
}

// Counts what it is told.
#[derive(Clone, Copy)]
struct CountingGate<'c> {
    passed: &'c AtomicU64,
    popped: &'c AtomicU64,
}

impl<'c> Gate for CountingGate<'c> {
    fn pass(&self, _leg: u32) {
        self.passed.fetch_add(1, Ordering::SeqCst);
    }

    fn popped(&self, _leg: u32) {
        self.popped.fetch_add(1, Ordering::SeqCst);
    }
}

// Pops all of a lane. The answer is how many numbers came in order.
fn drain<R: Wait, G: Gate>(lane: &mut Worker<Number, CountProducer, G>, rt: &R) -> u64 {
    let mut count: u64 = 0;
    for _ in rt.forever() {
        match lane.pop(rt) {
            Some(item) => {
                let value = item.value;
                lane.give_back(rt, item);
                if value == count.wrapping_add(1) {
                    count = value;
                }
                if value >= LAST {
                    return count;
                }
            }
            None => lane.wait(rt),
        }
    }
    count
}

fn is_there<G: Gate>(lane: &Worker<Number, CountProducer, G>) -> bool {
    matches!(&lane.runner, Runner::There(_))
}

// How many lanes ran on threads, and how many numbers came in order.
#[derive(Drop)]
struct DrainCount {
    there: u64,
    count: u64,
}

// Pops all of each lane.
fn drain_all<R: Wait, G: Gate>(rt: &R, lanes: &mut [Worker<Number, CountProducer, G>]) -> DrainCount
    ensures { length lanes.new ≡ length lanes.old }
{
    let mut drained = DrainCount { there: 0, count: 0 };
    for place in 0..lanes.len() {
        if is_there(&lanes[place]) {
            drained.there = drained.there.wrapping_add(1);
        }
        drained.count = drained.count.wrapping_add(drain(&mut lanes[place], rt));
    }
    drained
}

// Starts all, pops all and joins all.
fn run_in<'s, 'e, R: Threads + Wait + Sync, G: Gate + Copy + Send + 's>(
    scope: &'s Scope<'s, &'e ()>,
    rt: &'s R,
    alloc: Global,
    gate: G,
    stack: usize,
    gives: Vec<CountProducer>,
) -> Option<DrainCount> {
    let Ok(room) = WorkerRoom::new(alloc, gives.len()) else {
        return None;
    };
    let WorkerSet { mut lanes, back } = start_lanes(scope, rt, gate, stack, gives, room);
    let drained = drain_all(rt, lanes.as_mut_slice());
    let _back = join_lanes(rt, lanes, back);
    Some(drained)
}

fn run<R: Threads + Wait + Sync, G: Gate + Copy + Send>(
    rt: &R,
    alloc: Global,
    gate: G,
    stack: usize,
    gives: Vec<CountProducer>,
) -> Option<DrainCount> {
    thread::scope(thread::scope_env(), rt, |scope| -> Option<DrainCount> {
        run_in(scope, rt, alloc, gate, stack, gives)
    })
}

// Runs three that count, on threads of so many octets of stack. The answer is how many ran on threads, how many numbers came in
// order, and how many times the gate was told of a push and of a pop.
fn count_thrice<R: Threads + Wait + Sync>(
    rt: &R,
    alloc: Global,
    stack: usize,
) -> Result<[u64; 4], NoMemory> {
    let three = [
        CountProducer::up_to(LAST),
        CountProducer::up_to(LAST),
        CountProducer::up_to(LAST),
    ];
    let Ok(gives) = Vec::from_array(alloc, three) else {
        return Err(NoMemory);
    };
    let passed = AtomicU64::new(0);
    let popped = AtomicU64::new(0);
    let gate = CountingGate {
        passed: &passed,
        popped: &popped,
    };
    let Some(drained) = run(rt, alloc, gate, stack, gives) else {
        return Err(NoMemory);
    };
    let passed = passed.load(Ordering::SeqCst);
    let popped = popped.load(Ordering::SeqCst);
    Ok([drained.there, drained.count, passed, popped])
}

#[test]
fn all_run_on_threads(rt: HostRuntime) -> Result<(), Fail> {
    let counts = count_thrice(&rt, rt.alloc(), 2_097_152)?;
    assert!(rt; counts == [3, 600, 600, 600]);
    Ok(())
}

#[test]
fn refused_starts_change_nothing(rt: HostRuntime) -> Result<(), Fail> {
    let counts = count_thrice(&rt, rt.alloc(), usize::MAX)?;
    assert!(rt; counts == [0, 600, 600, 600]);
    Ok(())
}
