//! The queue and its two ends.
ghost use Rattle.std.specs.Prelude.{◌≡◌, true, false, []};
ghost use Rattle.crossbeam_queue.specs.Passes.{view, ruled_capacity};
ghost use Rattle.workers.specs.declared.limits.TheConstants.{MOST_QUEUED};
ghost use Rattle.workers.specs.Rule.{known};

use crate::rule::{PassHistory, RuledQueue};
use crate::sleepers::Sleepers;
use crossbeam_queue::{ArrayQueue, Pass};

/// A queue from one thread to another, with room for 64 items.
#[derive(Drop)]
pub struct ItemQueue<Q: Drop> {
    pub(crate) line: RuledQueue<Q>,
    /// Items that are to be used again.
    pub(crate) spare: ArrayQueue<Q>,
    pub(crate) sleepers: Sleepers,
    ghost places: { ruled_capacity line ≡ MOST_QUEUED },
}

/// The end at which items are pushed.
#[derive(Drop)]
pub struct PushPass<Q> {
    pub(crate) pass: Pass<Q, PassHistory<Q>>,
    ghost end: { view pass ≡ known true false (view pass).pushed [] },
}

/// The end at which items are popped.
#[derive(Drop)]
pub struct PopPass<Q> {
    pub(crate) pass: Pass<Q, PassHistory<Q>>,
    /// How often an item was asked for, modulo 256.
    pub(crate) asked: u8,
    /// How many times in a row nothing was there, at most 255.
    pub(crate) misses: u8,
    ghost end: { view pass ≡ known false true [] (view pass).popped },
}
