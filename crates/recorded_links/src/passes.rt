//! A shelf and its two ends.
ghost use Rattle.std.specs.Prelude.{◌≡◌, true, false, []};
ghost use Rattle.crossbeam_queue.specs.Passes.{view, ruled_capacity};
ghost use Rattle.recorded_links.specs.Rule.{known};

use crate::batches::{Batch, SpareBatch};
use crate::rule::{RuledShelf, ShelfHistory};
use crossbeam_queue::{ArrayQueue, Pass};

/// Where what was noted of one recording waits: one batch at most.
#[derive(Drop)]
pub(crate) struct Shelf {
    pub(crate) line: RuledShelf,
    /// A batch that was written, to be used again.
    pub(crate) spare: ArrayQueue<SpareBatch>,
    ghost places: { ruled_capacity line ≡ 1 },
}

/// The end at which entries are noted.
#[derive(Drop)]
pub(crate) struct NotePass {
    pub(crate) pass: Pass<Batch, ShelfHistory>,
    ghost end: { view pass ≡ known true false (view pass).noted (view pass).hand [] },
}

/// The end at which entries are taken away.
#[derive(Drop)]
pub(crate) struct TakePass {
    pub(crate) pass: Pass<Batch, ShelfHistory>,
    ghost end: { view pass ≡ known false true [] [] (view pass).taken },
}
