ghost use Rattle.std.specs.Prelude.{◌≡◌};
ghost use Rattle.workers.specs.Passes.{IsPopOf, IsPushOf};

use crate::lane_tests::{CountProducer, Number};
use crate::{Feed, ItemQueue, PopPass, PushPass, run_feed};
use rtt_base::NoMemory;
use std::alloc::Global;
use std::sync::Wait;
use std::sync::atomic::AtomicBool;
use std::test::Fail;

// Whether a number is taken.
fn takes<R: Wait>(
    rt: &R,
    queue: &ItemQueue<Number>,
    pass: &mut PushPass<Number>,
    value: u64,
) -> bool
    requires { IsPushOf queue.now pass.old }
    ensures { IsPushOf queue.now pass.new }
{
    let mut item = queue.spare(rt);
    item.value = value;
    match queue.push(rt, pass, item) {
        Ok(()) => true,
        Err(back) => {
            queue.give_back(rt, back);
            false
        }
    }
}

// The next number, if one is there.
fn pops<R: Wait>(rt: &R, queue: &ItemQueue<Number>, pass: &mut PopPass<Number>) -> Option<u64>
    requires { IsPopOf queue.now pass.old }
    ensures { IsPopOf queue.now pass.new }
{
    match queue.pop(rt, pass) {
        Some(item) => {
            let value = item.value;
            queue.give_back(rt, item);
            Some(value)
        }
        None => None,
    }
}

// Pushes 0, 1 and so on, until one is not taken or so many were. The answer is how many were taken.
fn fill<R: Wait>(rt: &R, queue: &ItemQueue<Number>, pass: &mut PushPass<Number>, most: u64) -> u64
    requires { IsPushOf queue.now pass.old }
    ensures { IsPushOf queue.now pass.new }
{
    for value in 0..most {
        if !takes(rt, queue, pass, value) {
            return value;
        }
    }
    most
}

// Pops `first`, the number behind it and so on, until another one comes, or none, or so many were. The answer is how many there
// were.
fn empty<R: Wait>(
    rt: &R,
    queue: &ItemQueue<Number>,
    pass: &mut PopPass<Number>,
    first: u64,
    most: u64,
) -> u64
    requires { IsPopOf queue.now pass.old }
    ensures { IsPopOf queue.now pass.new }
{
    for count in 0..most {
        if pops(rt, queue, pass) != Some(first.saturating_add(count)) {
            return count;
        }
    }
    most
}

// How many go in until the queue is full, how many come out one by one, and how many go in and come out then.
fn fill_and_empty<R: Wait>(rt: &R, alloc: Global) -> Result<[u64; 5], NoMemory> {
    let (queue, mut push, mut pop) = ItemQueue::new(alloc)?;
    let filled = fill(rt, &queue, &mut push, 100);
    let first = empty(rt, &queue, &mut pop, 0, 1);
    let again = fill(rt, &queue, &mut push, 100);
    let rest = empty(rt, &queue, &mut pop, 1, 63);
    let last = empty(rt, &queue, &mut pop, 0, 100);
    Ok([filled, first, again, rest, last])
}

#[test]
fn a_full_queue_takes_no_more(rt: HostRuntime) -> Result<(), Fail> {
    let counts = fill_and_empty(&rt, rt.alloc())?;
    assert!(rt; counts == [64, 1, 1, 63, 1]);
    Ok(())
}

// Runs a feed of the numbers from 1 to 20, which its caller may want back at once. The answer is whether the last one was pushed,
// and how many were.
fn feed_twenty<R: Wait>(rt: &R, alloc: Global, alone: bool) -> Result<(bool, u64), NoMemory> {
    let (queue, push, mut pop) = ItemQueue::new(alloc)?;
    let feed = Feed::new(CountProducer::up_to(20), push);
    let alone = AtomicBool::new(alone);
    let feed = run_feed(rt, feed, &queue, &alone);
    let is_done = feed.is_done();
    let count = empty(rt, &queue, &mut pop, 1, 100);
    let _back = feed.close(&queue, pop);
    Ok((is_done, count))
}

#[test]
fn a_feed_pushes_all_that_is_given(rt: HostRuntime) -> Result<(), Fail> {
    let (is_done, count) = feed_twenty(&rt, rt.alloc(), false)?;
    assert!(rt; is_done);
    assert!(rt; count == 20);
    Ok(())
}

#[test]
fn a_feed_comes_back_where_its_caller_wants_it(rt: HostRuntime) -> Result<(), Fail> {
    let (is_done, count) = feed_twenty(&rt, rt.alloc(), true)?;
    assert!(rt; !is_done);
    assert!(rt; count == 0);
    Ok(())
}
