//! The end of a board at which it is read.
ghost use Rattle.std.specs.Prelude.{◌≡◌, ◌<◌, true};
ghost use Rattle.stream_spec.specs.Fronts.{IsFront};
ghost use Rattle.live_board.specs.Folds.{fold_of};
ghost use Rattle.left_right.specs.Sides.{view};
ghost use Rattle.live_board.specs.Tails.{shown_in};
ghost use Rattle.live_board.specs.Ends.{IsReading};
ghost use Rattle.live_board.specs.Pages.{IsFurther};
ghost use Rattle.live_board.specs.Views.{reading_of};

use crate::notes::Note;
use crate::page_copies::{PageCopy, look, take_in};
use crate::tails::Tail;
use core::mem::replace_with;
use std::marker::Model;

/// Where what was published is read. A read waits for nobody and takes no memory.
#[derive(Drop)]
pub struct BoardReader {
    held: PageCopy,
}

impl Model for BoardReader {
    ghost use Rattle.live_board.specs.Values.{Reading};
    ghost use Rattle.live_board.specs.Views.{reading_of};
    ghost use Rattle.live_board.specs.Ends.{IsReading};

    ghost Value = { Reading };

    ghost view = { λ r. reading_of r.held.page };

    ghost invariant = { λ r. IsReading r.held.reader.place.me.0.client r.held.page };
}

impl BoardReader {
    pub(crate) fn new(held: PageCopy) -> BoardReader
        requires { IsReading (view held.reader.place) held.page }
        ensures { result ≡ reading_of held.page }
    {
        BoardReader { held }
    }

    // Takes what was published last.
    fn look(&mut self)
        ensures board { (self.new.board ≡ self.old.board) × (self.new.legs ≡ self.old.legs) }
        ensures seen { IsFront self.old.seen self.new.seen }
        ensures over { self.old.ended ≡ true → self.new ≡ self.old }
    {
        replace_with(
            &mut self.held,
            (),
            |held: PageCopy, _nothing: ()| -> (PageCopy, ())
                requires { IsReading (view held.reader.place) held.page }
                ensures reading { IsReading (view result.0.reader.place) result.0.page }
                ensures further { IsFurther held.page result.0.page }
            { (look(held), ()) },
        );
    }

    /// The number of legs of its board.
    pub fn legs(&self) -> usize
        ensures { result ≡ self.now.legs }
    {
        self.held.page.sheet.legs()
    }

    /// Takes in what the board's writer told: from now on all of that is seen, and nothing else where it was all. While the writer is
    /// there the look has it; behind that the note's own copy serves.
    pub fn learn(&mut self, note: Note)
        requires { note.board ≡ self.old.board }
        ensures board { (self.new.board ≡ self.old.board) × (self.new.legs ≡ self.old.legs) }
        ensures seen { IsFront self.old.seen self.new.seen }
        ensures over { self.old.ended ≡ true → self.new ≡ self.old }
        ensures told { IsFront note.changes self.new.seen }
        ensures all { note.ended ≡ true → (self.new.seen ≡ note.changes) × (self.new.ended ≡ true) }
    {
        self.look();
        take_in(&mut self.held, &note.page);
    }

    /// Writes what is shown of a leg in place of what was in `out`: of all changes that are then seen.
    pub fn read(&mut self, leg: usize, out: &mut Tail)
        requires { leg < self.old.legs }
        ensures board { (self.new.board ≡ self.old.board) × (self.new.legs ≡ self.old.legs) }
        ensures seen { IsFront self.old.seen self.new.seen }
        ensures over { self.old.ended ≡ true → self.new ≡ self.old }
        ensures shows { shown_in out.new ≡ fold_of leg self.new.seen }
    {
        self.look();
        self.held.page.sheet.show(leg, out);
    }
}
