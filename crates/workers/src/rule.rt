//! The rule of a queue: what was pushed is what was popped, and then what the queue holds.
ghost use Rattle.std.specs.Prelude.{◌≡◌, ◌≤◌, true, false, List, [], ◌∷◌, ◌++◌, length};
ghost use Rattle.workers.specs.declared.limits.TheConstants.{MOST_QUEUED};
ghost use Rattle.workers.specs.Rule.{known, Relayed};

use crossbeam_queue::RuledArrayQueue;
use crossbeam_queue::protocol::{Join, Lesson, Outcome, Protocol, Split};
use std::collections::LinkedList;

// What a pass may do, and the items that it has pushed and popped. No value of it is made.
pub struct PassHistory<Q> {
    pub pushes: bool,
    pub pops: bool,
    pub pushed: LinkedList<Q>,
    pub popped: LinkedList<Q>,
}

pub struct InOrder;

impl<Q> Protocol<Q, PassHistory<Q>> for InOrder {
    ghost use Rattle.std.specs.Prelude.{true, []};
    ghost use Rattle.workers.specs.Rule.{known, Relayed};

    ghost holds = { Relayed };

    ghost first = { known true true [] [] };
}

// A pass for both ends becomes one for each, and back.
pub struct BothEnds;

impl<Q> Split<PassHistory<Q>> for BothEnds {
    ghost use Rattle.std.specs.Prelude.{true, false, []};
    ghost use Rattle.workers.specs.Rule.{known};

    ghost left = { λ v. known true false v.pushed [] };

    ghost right = { λ v. known false true [] v.popped };
}

impl<Q> Join<PassHistory<Q>> for BothEnds {
    ghost use Rattle.std.specs.Prelude.{true, false, []};
    ghost use Rattle.workers.specs.Rule.{known};

    ghost both = { λ v w. known true true v.pushed w.popped };

    ghost spent = { known false false [] [] };
}

// A push adds to what was pushed.
pub struct PushRule;

impl<Q> Outcome<Q, PassHistory<Q>> for PushRule {
    ghost then = { λ v x w. w ≡ known v.pushes v.pops (v.pushed ++ x ∷ []) v.popped };
}

impl<Q> Lesson<Q, PassHistory<Q>> for PushRule {
    ghost fact = { λ v items. (before : List _) × (v.pushed ≡ before ++ items) };
}

// A pop adds to what was popped.
pub struct PopRule;

impl<Q> Outcome<Q, PassHistory<Q>> for PopRule {
    ghost then = { λ v x w. w ≡ known v.pushes v.pops v.pushed (v.popped ++ x ∷ []) };
}

impl<Q> Lesson<Q, PassHistory<Q>> for PopRule {
    ghost fact = { λ v items. (all : List _) × (all ≡ v.popped ++ items) };
}

// Both ends together know what is left.
pub struct RestRule;

impl<Q> Lesson<Q, PassHistory<Q>> for RestRule {
    ghost fact = { λ v items. (v.pushed ≡ v.popped ++ items) × (length items ≤ MOST_QUEUED) };
}

pub type RuledQueue<Q> = RuledArrayQueue<Q, PassHistory<Q>, InOrder>;
