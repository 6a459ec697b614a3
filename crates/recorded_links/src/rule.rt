//! The rule of a shelf: what was noted is what was taken away, then what lies there, and then what is in hand.
ghost use Rattle.std.specs.Prelude.{◌≡◌, true, false, List, [], ◌++◌};
ghost use Rattle.recorded_links.specs.Rule.{ShelfHolds, all_entries, entries_of, known, laid};

use crate::batches::Batch;
use crossbeam_queue::RuledArrayQueue;
use crossbeam_queue::protocol::{Join, Lesson, Outcome, Protocol, Split};
use std::collections::LinkedList;

// An entry. No value of it is made.
pub(crate) struct NotedEntry {
    pub(crate) at: u64,
    pub(crate) octets: LinkedList<u8>,
}

// What a pass may do, and what it has noted, has in hand and has taken away. No value of it is made.
pub(crate) struct ShelfHistory {
    pub(crate) notes: bool,
    pub(crate) takes: bool,
    pub(crate) noted: LinkedList<NotedEntry>,
    pub(crate) hand: LinkedList<NotedEntry>,
    pub(crate) taken: LinkedList<NotedEntry>,
}

pub(crate) struct InTurn;

impl Protocol<Batch, ShelfHistory> for InTurn {
    ghost use Rattle.std.specs.Prelude.{true, []};
    ghost use Rattle.recorded_links.specs.Rule.{ShelfHolds, known};

    ghost holds = { ShelfHolds };

    ghost first = { known true true [] [] [] };
}

// A pass for both ends becomes one for each, and back.
pub(crate) struct BothEnds;

impl Split<ShelfHistory> for BothEnds {
    ghost use Rattle.std.specs.Prelude.{true, false, []};
    ghost use Rattle.recorded_links.specs.Rule.{known};

    ghost left = { λ v. known true false v.noted v.hand [] };

    ghost right = { λ v. known false true [] [] v.taken };
}

impl Join<ShelfHistory> for BothEnds {
    ghost use Rattle.std.specs.Prelude.{true, false, []};
    ghost use Rattle.recorded_links.specs.Rule.{known};

    ghost both = { λ v w. known true true v.noted v.hand w.taken };

    ghost spent = { known false false [] [] [] };
}

// What is laid there is what was in hand, and what is noted behind it.
pub(crate) struct LayRule;

impl Outcome<Batch, ShelfHistory> for LayRule {
    ghost then = { λ v b w. w ≡ laid v b };
}

impl Lesson<Batch, ShelfHistory> for LayRule {
    ghost fact = { λ v items. (taken : List _) × (v.noted ≡ taken ++ (all_entries items ++ v.hand)) };
}

// What is lifted is in hand.
pub(crate) struct LiftRule;

impl Outcome<Batch, ShelfHistory> for LiftRule {
    ghost then = { λ v b w. w ≡ known v.notes v.takes v.noted (entries_of b ++ v.hand) v.taken };
}

impl Lesson<Batch, ShelfHistory> for LiftRule {
    ghost fact = { λ v items. (taken : List _) × (v.noted ≡ taken ++ (all_entries items ++ v.hand)) };
}

// What is taken away comes behind what was taken before.
pub(crate) struct TakeRule;

impl Outcome<Batch, ShelfHistory> for TakeRule {
    ghost then = { λ v b w. w ≡ known v.notes v.takes v.noted v.hand (v.taken ++ entries_of b) };
}

impl Lesson<Batch, ShelfHistory> for TakeRule {
    ghost fact = { λ v items. (noted : List _) × (hand : List _) × (noted ≡ v.taken ++ (all_entries items ++ hand)) };
}

// Who has both ends takes away all that is not in hand.
pub(crate) struct LastRule;

impl Outcome<Batch, ShelfHistory> for LastRule {
    ghost then = { λ v b w. (w ≡ known v.notes v.takes v.noted v.hand (v.taken ++ entries_of b)) × (v.noted ≡ (v.taken ++ entries_of b) ++ v.hand) };
}

impl Lesson<Batch, ShelfHistory> for LastRule {
    ghost fact = { λ v items. v.noted ≡ v.taken ++ (all_entries items ++ v.hand) };
}

pub(crate) type RuledShelf = RuledArrayQueue<Batch, ShelfHistory, InTurn>;
