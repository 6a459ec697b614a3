//! Which recordings a call has.
ghost use Rattle.std.specs.Prelude.{ℕ, List, []};
ghost use Rattle.recorded_links.specs.declared.calls.CallTrack.{CallTrack};

use crate::Way;
use crate::passes::Shelf;
use std::collections::LinkedList;
use std::marker::Brand;

/// A recording of a call: of what a link gave, or of what it was given. No value of it is made.
pub struct CallTrack {
    /// The port at which the link is opened.
    pub port: u16,
    pub way: Way,
    /// What the names of its files begin with.
    pub stem: LinkedList<u8>,
    /// The wall clock at moment 0, in milliseconds since 1970.
    pub start: u64,
    /// Where what was noted waits to be written.
    pub(crate) shelf: Shelf,
}

/// Which recordings a call has: those of all links of a kind.
pub trait Call {
    /// In leg order, in before out.
    ghost recordings: { List CallTrack };

    /// How many links had been opened before it began.
    ghost before: { ℕ };
}

impl Call for Brand {
    ghost recordings = { [] };

    ghost before = { 0 };
}
