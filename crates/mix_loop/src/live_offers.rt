//! What a leg of a live call offers.
ghost use Rattle.std.specs.Prelude.{◌≡◌, ◌<◌, true, false, not};
ghost use Rattle.stream_spec.specs.Ready.{chunk_of};
ghost use Rattle.mix_loop.specs.Mixers.{Keeps, Offers};
ghost use Rattle.mix_loop.specs.LivePorts.{Advances, Gathered, Grew, IsBegun, OnlyHand, Pulls, Retries, after_offer};

use crate::MixerCalls;
use crate::live_ports::LivePort;
use crate::pops::Consumer;
use live_leg::{ItemKind, LinkStop};
use rtt_base::Chunk;
use std::sync::Wait;

/// How often a link is asked at most before a turn. A socket's buffer holds hardly more packets.
const MOST_TAKES: u64 = 256;

/// What was popped of a leg.
#[derive(Clone, Copy, Debug, PartialEq, Eq)]
pub(crate) enum PopAnswer {
    /// A text, which is in hand.
    Text,
    /// All was given.
    Seen,
    /// All was given, and the link has nothing.
    Silent,
    /// The end.
    End,
    /// A fault.
    Fault,
    /// What says nothing.
    Quit,
    /// Nothing is there.
    Nothing,
}

/// What became of it.
#[derive(Clone, Copy, Debug, PartialEq, Eq)]
pub(crate) enum StepAnswer {
    /// More may be popped.
    Going,
    /// The leg has said that all was given.
    Seen,
    /// The same, and its link has nothing.
    Silent,
    /// Nothing was there.
    Nothing,
    /// A text was not taken.
    Blocked,
}

/// What becomes of a text that was offered.
fn after_offer(taken: bool) -> StepAnswer
    ensures { result ≡ after_offer taken }
{
    if taken {
        StepAnswer::Going
    } else {
        StepAnswer::Blocked
    }
}

impl<I> LivePort<I> {
    /// A port at which nothing was popped, of the leg with this number.
    pub fn new(inlet: I, leg: u8) -> LivePort<I>
        ensures { IsBegun inlet leg result }
    {
        LivePort {
            inlet,
            leg,
            hand: Chunk::default(),
            at: 0,
            full: false,
            ended: false,
            failed: false,
        }
    }

    /// Offers the text in hand, and lets it go where it is taken, as is answered.
    fn offer<M: MixerCalls>(&mut self, mixer: &mut M) -> bool
        requires full { self.old.full ≡ true }
        requires source { self.old.leg < M.legs mixer.old }
        ensures only { OnlyHand self.old self.new }
        ensures full { self.new.full ≡ not result }
        ensures keeps { Keeps M.legs M.turns M.addresses mixer.old mixer.new }
        ensures offered { Offers M.stands mixer.old mixer.new (chunk_of self.old.hand) result }
    {
        let taken = mixer.offer(&self.hand).is_ok();
        self.full = !taken;
        taken
    }
}

impl<I: Consumer> LivePort<I> {
    /// Pops the next item. A text comes into the empty hand. Where nothing is there, waits for an item, or has the leg step.
    pub(crate) fn pull<R: Wait>(&mut self, rt: &R) -> PopAnswer
        requires { self.old.full ≡ false }
        ensures pulls { Pulls I.popped self.old self.new result }
        ensures leg { self.new.leg ≡ self.old.leg }
        ensures grew { Grew I.popped I.began self.old self.new }
    {
        match self.inlet.pop(rt, &mut self.hand, &mut self.at) {
            None => {
                self.inlet.wait(rt);
                PopAnswer::Nothing
            }
            Some(ItemKind::Text) => {
                self.hand.source = self.leg;
                self.full = true;
                PopAnswer::Text
            }
            Some(ItemKind::Seen) => PopAnswer::Seen,
            Some(ItemKind::Silent) => PopAnswer::Silent,
            Some(ItemKind::End) => {
                self.ended = true;
                PopAnswer::End
            }
            Some(ItemKind::Fault(LinkStop::Told)) => PopAnswer::Quit,
            Some(ItemKind::Fault(LinkStop::Failed)) => {
                self.failed = true;
                PopAnswer::Fault
            }
        }
    }

    /// Offers what is in hand, if a text is, and answers whether the hand is empty then.
    fn retry<M: MixerCalls>(&mut self, mixer: &mut M) -> bool
        requires leg { self.old.leg < M.legs mixer.old }
        ensures keeps { Keeps M.legs M.turns M.addresses mixer.old mixer.new }
        ensures leg { self.new.leg ≡ self.old.leg }
        ensures grew { Grew I.popped I.began self.old self.new }
        ensures retries { Retries I.popped M.stands self.old self.new mixer.old mixer.new result }
    {
        if self.full {
            return self.offer(mixer);
        }
        true
    }

    /// Pops the next item, and offers it where it is a text.
    fn advance<R: Wait, M: MixerCalls>(&mut self, rt: &R, mixer: &mut M) -> StepAnswer
        requires empty { self.old.full ≡ false }
        requires leg { self.old.leg < M.legs mixer.old }
        ensures keeps { Keeps M.legs M.turns M.addresses mixer.old mixer.new }
        ensures leg { self.new.leg ≡ self.old.leg }
        ensures grew { Grew I.popped I.began self.old self.new }
        ensures advances { Advances I.popped M.stands self.old self.new mixer.old mixer.new result }
    {
        match self.pull(rt) {
            PopAnswer::Text => {
                let taken = self.offer(mixer);
                after_offer(taken)
            }
            PopAnswer::Seen => StepAnswer::Seen,
            PopAnswer::Silent => StepAnswer::Silent,
            PopAnswer::Nothing => StepAnswer::Nothing,
            PopAnswer::End => StepAnswer::Going,
            PopAnswer::Fault => StepAnswer::Going,
            PopAnswer::Quit => StepAnswer::Going,
        }
    }

    /// Offers what is in hand and what is popped, until a text is not taken; or the end or a fault is popped; or the link has
    /// nothing, at the moment of the turn or later; or it was asked so often. So all that came is offered, however much came at once
    /// and however late the turn is, and a link that never falls silent holds no turn up.
    pub fn gather<R: Wait, M: MixerCalls>(&mut self, rt: &R, mixer: &mut M, turn: u64)
        requires leg { self.old.leg < M.legs mixer.old }
        ensures keeps { Keeps M.legs M.turns M.addresses mixer.old mixer.new }
        ensures leg { self.new.leg ≡ self.old.leg }
        ensures grew { Grew I.popped I.began self.old self.new }
        ensures gathered { Gathered I.popped M.stands self.old self.new mixer.old mixer.new }
    {
        if !self.retry(mixer) {
            return;
        }
        let mut takes = 0u64;
        for _ in rt.forever() {
            if self.ended {
                return;
            }
            if self.failed {
                return;
            }
            if takes >= MOST_TAKES {
                return;
            }
            match self.advance(rt, mixer) {
                StepAnswer::Going => {}
                StepAnswer::Seen => takes += 1,
                StepAnswer::Nothing => {}
                StepAnswer::Silent => {
                    if self.at >= turn {
                        return;
                    }
                    takes += 1;
                }
                StepAnswer::Blocked => return,
            }
        }
        unreachable!()
    }
}
