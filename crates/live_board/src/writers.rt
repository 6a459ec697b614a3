//! The end of a board at which it is written.
ghost use Rattle.std.specs.Prelude.{◌≡◌, ◌≤◌, ◌^◌, true, false, Err, [], ◌∷◌, ◌++◌, length, drop, IfOk, OnOk, OnErr};
ghost use Rattle.left_right.specs.Sides.{view};
ghost use Rattle.live_board.specs.Ends.{IsWriting, CanShow, HasShown};
ghost use Rattle.live_board.specs.Histories.{octets_of};
ghost use Rattle.live_board.specs.Rule.{view_of};
ghost use Rattle.live_board.specs.Views.{writing_of};

use crate::histories::{Fresh, Head};
use crate::notes::Note;
use crate::pages::{Page, Publish};
use crate::rule::{Looks, Outer};
use core::mem::{replace, replace_with};
use rtt_base::{Chunk, NoMemory, Text};
use std::alloc::Global;
use std::marker::Model;
use std::sync::Wait;
use thiserror::Error;

/// Why a change was not added.
#[derive(Clone, Copy, Debug, Drop, Error, PartialEq, Eq)]
pub enum AddFault {
    /// There was no memory for it.
    #[error("out of memory")]
    NoMemory,
    /// The octets of all legs would be 2^64 or more.
    #[error("the octets of a board can't be counted")]
    Uncountable,
}

/// Where changes are added and published. It isn't `Drop`: end it by `close`.
pub struct BoardWriter {
    alloc: Global,
    outer: Outer,
    head: Head,
    pending: Vec<Chunk>,
    /// Of all changes, those that are pending too.
    octets: u64,
}

impl Model for BoardWriter {
    ghost use Rattle.std.specs.Prelude.{drop};
    ghost use Rattle.live_board.specs.Values.{Writing};
    ghost use Rattle.live_board.specs.Views.{writing_of};
    ghost use Rattle.live_board.specs.Ends.{IsWriting};

    ghost Value = { Writing };

    ghost view = { λ w. writing_of w.outer.desk.shown.value w.pending.items };

    ghost invariant = { λ w. IsWriting w.outer.desk.shown.value (drop w.outer.behind w.outer.log.items) w.head w.pending.items w.octets };
}

// Another one of the same.
fn copy_of(c: &Chunk) -> Chunk
    ensures { result ≡ c.now }
{
    let mut text = Text::new();
    let _room = text.append(c.text.as_slice());
    Chunk {
        source: c.source,
        ready: c.ready,
        text,
    }
}

// Has this be published next.
fn queue<R: Wait>(rt: &R, outer: &mut Outer, publish: Publish)
    requires { drop outer.old.behind outer.old.log.items ≡ [] }
    ensures desk { outer.new.desk ≡ outer.old.desk }
    ensures one { drop outer.new.behind outer.new.log.items ≡ publish ∷ [] }
{
    let mut next = publish;
    for _ in rt.forever() {
        match outer.append(next) {
            Ok(()) => return,
            Err(back) => next = back,
        }
    }
    unreachable!()
}

/// Publishes what waits: from then on the writer knows its board.
pub fn show<R: Wait>(outer: Outer, rt: &R) -> Outer
    requires { CanShow outer.desk.shown.value (drop outer.behind outer.log.items) }
    ensures shown { HasShown outer.desk.shown.value
        (drop outer.behind outer.log.items) result.desk.shown.value (drop result.behind result.log.items) }
    ensures view { view result.desk.place ≡ view_of result.desk.shown.value }
{
    let (outer, _done) = outer.publish_as::<Looks, R>(rt);
    outer
}

impl BoardWriter {
    pub(crate) fn new(alloc: Global, outer: Outer, head: Head) -> BoardWriter
        requires { IsWriting outer.desk.shown.value (drop outer.behind outer.log.items) head [] 0 }
        ensures { result ≡ writing_of outer.desk.shown.value [] }
    {
        BoardWriter {
            alloc,
            outer,
            head,
            pending: Vec::new(alloc),
            octets: 0,
        }
    }

    /// Adds a change to those that are pending. A chunk whose source is no leg of the board counts for no leg. It is refused
    /// only for want of memory, or where the octets of all legs would be 2^64 or more, and then all is as before.
    pub fn add(&mut self, c: &Chunk) -> Result<(), AddFault>
        ensures ok { OnOk result (self.new ≡ record self.old { pending = self.old.pending ++ c.now ∷ [] }) }
        ensures unchanged { OnErr result (self.new ≡ self.old) }
        ensures cause { result ≡ Err AddFault.Uncountable
            → 2 ^ 64 ≤ octets_of ((self.old.published ++ self.old.pending) ++ c.now ∷ []) }
    {
        let Some(octets) = self.octets.checked_add(c.text.len() as u64) else {
            return Err(AddFault::Uncountable);
        };
        if self.pending.push(copy_of(c)).is_err() {
            return Err(AddFault::NoMemory);
        }
        self.octets = octets;
        Ok(())
    }

    // Publishes all pending changes, with the end behind them where there is one.
    fn share<R: Wait>(&mut self, rt: &R, ends: bool)
        requires { self.old.ended ≡ false }
        ensures { self.new ≡ record self.old { published = self.old.published ++ self.old.pending; pending = []; ended = ends } }
    {
        let fresh = Fresh {
            chunks: replace(&mut self.pending, Vec::new(self.alloc)),
            ends,
        };
        let page = self.outer.published();
        let publish = page.next(rt, &self.head, fresh, self.octets);
        queue(rt, &mut self.outer, publish);
        replace_with(
            &mut self.outer,
            rt,
            |outer: Outer, rt: &R| -> (Outer, ())
                requires { CanShow outer.desk.shown.value (drop outer.behind outer.log.items) }
                ensures { HasShown outer.desk.shown.value (drop outer.behind outer.log.items) result.0.desk.shown.value (drop result.0.behind result.0.log.items) }
            { (show(outer, rt), ()) },
        );
    }

    /// Publishes all pending changes at once. It may wait for the reader to leave.
    pub fn publish<R: Wait>(&mut self, rt: &R)
        requires { self.old.ended ≡ false }
        ensures { self.new ≡ record self.old { published = self.old.published ++ self.old.pending; pending = [] } }
    {
        if !self.pending.is_empty() {
            self.share(rt, false);
        }
    }

    /// Says what is published.
    pub fn tell(&self) -> Result<Note, NoMemory>
        ensures { IfOk result (λ n. n ≡
            record { board = self.now.board; changes = self.now.published; ended = self.now.ended }) }
    {
        let page = self.outer.published().another(self.alloc)?;
        Ok(Note { page })
    }

    /// Publishes all pending changes and the end behind them, and says what is then published. Nothing can be published after it.
    /// It may wait for the reader to leave. Where there is no memory for the note all is as before.
    pub fn last<R: Wait>(&mut self, rt: &R) -> Result<Note, NoMemory>
        requires { self.old.ended ≡ false }
        ensures ended { OnOk result (self.new
            ≡ record self.old { published = self.old.published ++ self.old.pending; pending = []; ended = true }) }
        ensures told { IfOk result (λ n. n
            ≡ record { board = self.old.board; changes = self.old.published ++ self.old.pending; ended = true }) }
        ensures unchanged { OnErr result (self.new ≡ self.old) }
    {
        let mut page = self.room()?;
        self.share(rt, true);
        page.copy_from(self.outer.published());
        Ok(Note { page })
    }

    // A page to write over.
    fn room(&self) -> Result<Page, NoMemory>
        ensures { IfOk result (λ x. length x.sheet ≡ self.now.legs) }
    {
        let page = self.outer.published();
        Page::blank(self.alloc, page.sheet.legs(), &page.seen)
    }

    /// Ends it. It may wait for the reader to leave.
    pub fn close<R: Wait>(self, rt: &R) {
        let BoardWriter {
            alloc: _,
            outer,
            head: _head,
            pending: _pending,
            octets: _,
        } = self;
        drop(outer.take(rt));
    }
}
