//! What gives items, at its queue.
ghost use Rattle.std.specs.Prelude.{◌≡◌, ◌++◌, Bool, true, false, List, [], option_to_list};
ghost use Rattle.workers.specs.Passes.{IsPushOf, IsPopOf, WasFull, popped, pushed};
ghost use Rattle.workers.specs.Feeds.{FeedStands, Follows, has_of, is_done, is_empty};

use crate::gives::Producer;
use crate::passes::{ItemQueue, PopPass, PushPass};
use std::sync::Wait;

/// What gives items, its end of a queue, and at most one item in hand.
#[derive(Drop)]
pub struct Feed<Q: Drop, F> {
    gives: F,
    pass: PushPass<Q>,
    hand: Option<Q>,
}

impl<Q: Drop, F: Producer<Q>> Feed<Q, F> {
    /// A feed of what gave nothing yet, at an end at which nothing was pushed.
    pub fn new(gives: F, pass: PushPass<Q>) -> Feed<Q, F>
        requires { pushed pass ≡ [] }
        ensures stands { (first : F) → F.stands first gives [] → FeedStands F.stands first result }
        ensures pass { result.pass ≡ pass }
    {
        Feed {
            gives,
            pass,
            hand: None,
        }
    }

    /// Whether the last item was pushed.
    pub fn is_done(&self) -> bool
        ensures { result ≡ is_done F.over self.now }
    {
        self.gives.is_over() && self.is_empty()
    }

    /// Whether nothing is in hand.
    pub(crate) fn is_empty(&self) -> bool
        ensures { result ≡ is_empty self.now }
    {
        self.hand.is_none()
    }

    fn into_parts(self) -> (F, PushPass<Q>)
        ensures gives { result.0 ≡ self.gives }
        ensures pass { result.1 ≡ self.pass }
    {
        let Feed {
            gives,
            pass,
            hand: _,
        } = self;
        (gives, pass)
    }

    /// Has what gives back. What was popped is the first of what it gave.
    pub fn close(self, queue: &ItemQueue<Q>, pop: PopPass<Q>) -> F
        requires push { IsPushOf queue.now self.pass }
        requires pop { IsPopOf queue.now pop }
        ensures is { result ≡ self.gives }
        ensures all { (left : List _) × (pushed self.pass ≡ popped pop ++ left) }
    {
        let (gives, push) = self.into_parts();
        queue.settle(push, pop);
        gives
    }

    // Where nothing is in hand, takes the next item into it, if one is there.
    fn fill<R: Wait>(&mut self, rt: &R, queue: &ItemQueue<Q>)
        requires { is_done F.over self.old ≡ false }
        ensures pass { self.new.pass ≡ self.old.pass }
        ensures follows { Follows F.stands self.old self.new }
        ensures nearer { is_empty self.old ≡ true → is_empty self.new ≡ true → F.nearer self.old.gives self.new.gives }
    {
        if self.is_empty() {
            self.take_in(rt, queue);
        }
    }

    fn take_in<R: Wait>(&mut self, rt: &R, queue: &ItemQueue<Q>)
        requires open { F.over self.old.gives ≡ false }
        requires empty { is_empty self.old ≡ true }
        ensures pass { self.new.pass ≡ self.old.pass }
        ensures follows { Follows F.stands self.old self.new }
        ensures nearer { is_empty self.new ≡ true → F.nearer self.old.gives self.new.gives }
    {
        let mut item = queue.spare(rt);
        if self.gives.next(rt, &mut item) {
            self.hand = Some(item);
        } else {
            queue.give_back(rt, item);
        }
    }

    // Pushes what is in hand, or keeps it where the queue is full.
    fn hand_over<R: Wait>(&mut self, rt: &R, queue: &ItemQueue<Q>)
        requires pass { IsPushOf queue.now self.old.pass }
        ensures queue { IsPushOf queue.now self.new.pass }
        ensures gives { self.new.gives ≡ self.old.gives }
        ensures items { has_of self.new ≡ has_of self.old }
        ensures kept { is_empty self.new ≡ false → WasFull (pushed self.new.pass) }
    {
        if let Some(item) = self.hand.take() {
            if let Err(back) = queue.push(rt, &mut self.pass, item) {
                self.hand = Some(back);
            }
        }
    }

    /// Where nothing is in hand, takes the next item into it, if one is there; where none is, what gives got on. Then pushes what
    /// is in hand, or keeps it where the queue is full, which is only where at least 64 items were pushed. The answer is whether
    /// the last item was pushed.
    pub fn step<R: Wait>(&mut self, rt: &R, queue: &ItemQueue<Q>) -> bool
        requires pass { IsPushOf queue.now self.old.pass }
        requires going { is_done F.over self.old ≡ false }
        ensures queue { IsPushOf queue.now self.new.pass }
        ensures follows { Follows F.stands self.old self.new }
        ensures nearer { is_empty self.old ≡ true → has_of self.new ≡ has_of self.old
            → F.nearer self.old.gives self.new.gives }
        ensures kept { is_empty self.new ≡ false → WasFull (pushed self.new.pass) }
        ensures done { result ≡ is_done F.over self.new }
    {
        self.fill(rt, queue);
        self.hand_over(rt, queue);
        self.is_done()
    }
}
