//! Items are popped of what runs.
ghost use Rattle.std.specs.Prelude.{◌≡◌, ◌++◌, option_to_list};
ghost use Rattle.workers.specs.Passes.{IsPushOf};
ghost use Rattle.workers.specs.Feeds.{Follows};
ghost use Rattle.workers.specs.Runners.{IsRunnerOf, RunnerFollows};
ghost use Rattle.workers.specs.Lanes.{LaneFollows, popped_of};

use crate::lanes::{Runner, Worker};
use crate::{Feed, ItemQueue, PopPass, Producer};
use rtt_io::Gate;
use std::sync::Wait;

/// Steps what is at who pops, unless its last item was pushed.
fn step_feed<Q: Drop, F: Producer<Q>, R: Wait>(feed: &mut Feed<Q, F>, rt: &R, queue: &ItemQueue<Q>)
    requires { IsPushOf queue.now feed.old.pass }
    ensures queue { IsPushOf queue.now feed.new.pass }
    ensures follows { Follows F.stands feed.old feed.new }
{
    if feed.is_done() {
        return;
    }
    feed.step(rt, queue);
}

/// Makes one step of what is at who pops; else waits for its thread.
fn step_runner<Q: Drop, F: Producer<Q>, R: Wait>(
    runner: &mut Runner<Q, F>,
    rt: &R,
    queue: &ItemQueue<Q>,
    pop: &PopPass<Q>,
)
    requires { IsRunnerOf queue.now runner.old }
    ensures of { IsRunnerOf queue.now runner.new }
    ensures stands { RunnerFollows F.stands runner.old runner.new }
{
    match runner {
        Runner::Here(feed) => step_feed(feed, rt, queue),
        Runner::There(_) => queue.wait_for_item(rt, pop),
    }
}

/// Tells a gate of what was popped, if it was something.
fn tell_popped<G: Gate>(gate: &G, number: u32, is_there: bool) {
    if is_there {
        gate.popped(number);
    }
}

impl<Q: Drop, F: Producer<Q>, G: Gate> Worker<Q, F, G> {
    /// Pops the next item, if it is there.
    pub fn pop<R: Wait>(&mut self, rt: &R) -> Option<Q>
        ensures popped { popped_of self.new ≡ popped_of self.old ++ option_to_list result }
        ensures runs { LaneFollows F.stands self.old self.new }
    {
        let item = self.shared.queue.pop(rt, &mut self.pop);
        tell_popped(&self.gate, self.number, item.is_some());
        item
    }

    /// Gives back an item that was read, to be used again.
    pub fn give_back<R: Wait>(&self, rt: &R, item: Q) {
        self.shared.queue.give_back(rt, item);
    }

    /// Where nothing is there: makes one step of what runs at who pops; else waits for its thread, and sleeps where nothing was
    /// found many times in a row. That what runs is stepped is tested.
    pub fn wait<R: Wait>(&mut self, rt: &R)
        ensures popped { popped_of self.new ≡ popped_of self.old }
        ensures runs { LaneFollows F.stands self.old self.new }
    {
        step_runner(&mut self.runner, rt, &self.shared.queue, &self.pop);
    }
}
