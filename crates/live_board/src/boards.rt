//! A new board.
ghost use Rattle.std.specs.Prelude.{◌≡◌, ◌≤◌, ◌<◌, ◌^◌, false, [], IfOk, length, drop, replicate};
ghost use Rattle.file_spec.specs.declared.limits.TheConstants.{FEWEST_LEGS, MOST_LINKS};
ghost use Rattle.left_right.specs.Sides.{view};
ghost use Rattle.live_board.specs.Ends.{IsLaid};
ghost use Rattle.live_board.specs.Histories.{head_of};
ghost use Rattle.live_board.specs.Pages.{IsGood};
ghost use Rattle.live_board.specs.Rule.{view_of};
ghost use Rattle.live_board.specs.Views.{reading_of};

use crate::histories::{Fresh, Head, open};
use crate::page_copies::PageCopy;
use crate::pages::Page;
use crate::readers::BoardReader;
use crate::rule::{Inner, Outer, Tells};
use crate::writers::{BoardWriter, show};
use file_spec::limits::{FEWEST_LEGS, MOST_LINKS};
use rtt_base::NoMemory;
use std::alloc::{AllocError, Global};
use std::sync::Wait;

/// A board for the text of some legs: what is published at the one end is read at the other.
pub struct Board;

// Publishes nothing, once: from then on the writer knows its board, and the log of what is published has all memory that it ever
// needs, since it keeps at most two publishings. Where there is none the writer comes back.
fn introduce<R: Wait>(rt: &R, alloc: Global, mut outer: Outer, head: &Head) -> Result<Outer, Outer>
    requires good { IsGood outer.desk.shown.value }
    requires new { outer.desk.shown.value.seen.log ≡ [] }
    requires head { head.now ≡ head_of outer.desk.shown.value.seen.book }
    requires none { drop outer.behind outer.log.items ≡ [] }
    ensures laid { IfOk result (λ o. IsLaid o.desk.shown.value (drop o.behind o.log.items) (view o.desk.place) head.now) }
    ensures wide { IfOk result (λ o. length o.desk.shown.value.sheet ≡ length outer.desk.shown.value.sheet) }
{
    let nothing = Fresh {
        chunks: Vec::new(alloc),
        ends: false,
    };
    let page = outer.published();
    let publish = page.next(rt, head, nothing, 0);
    match outer.append(publish) {
        Ok(()) => Ok(show(outer, rt)),
        Err(_refused) => Err(outer),
    }
}

// A board in which nothing was published, with places for so many readers.
fn lay<R: Wait>(
    rt: &R,
    alloc: Global,
    legs: usize,
    places: usize,
) -> Result<(Outer, Head), NoMemory>
    requires places { (0 < places) × (places < 2 ^ 32) }
    ensures laid { IfOk result (λ b. IsLaid b.0.desk.shown.value (drop b.0.behind b.0.log.items) (view b.0.desk.place) b.1) }
    ensures wide { IfOk result (λ b. length b.0.desk.shown.value.sheet ≡ legs) }
{
    let (head, seen) = open();
    let first = Page::blank(alloc, legs, &seen)?;
    let second = first.another(alloc)?;
    let Ok(outer) = Outer::new(alloc, first, second, places) else {
        return Err(NoMemory);
    };
    match introduce(rt, alloc, outer, &head) {
        Ok(outer) => Ok((outer, head)),
        Err(outer) => {
            drop(outer.take(rt));
            Err(NoMemory)
        }
    }
}

// A reader that knows what the writer knows.
fn introduced(outer: &mut Outer) -> Result<Inner, AllocError>
    ensures shown { outer.new.desk.shown ≡ outer.old.desk.shown }
    ensures waits { drop outer.new.behind outer.new.log.items ≡ drop outer.old.behind outer.old.log.items }
    ensures kept { view outer.new.desk.place ≡ view outer.old.desk.place }
    ensures view { IfOk result (λ r. view r.place ≡ view outer.old.desk.place) }
{
    let mut reader = outer.factory().reader()?;
    reader.learn::<Tells>(outer.tell::<Tells>());
    Ok(reader)
}

// One reader more, which saw what is shown.
fn one_more(alloc: Global, outer: &mut Outer) -> Result<BoardReader, NoMemory>
    requires good { IsGood outer.old.desk.shown.value }
    requires known { view outer.old.desk.place ≡ view_of outer.old.desk.shown.value }
    ensures shown { outer.new.desk.shown ≡ outer.old.desk.shown }
    ensures waits { drop outer.new.behind outer.new.log.items ≡ drop outer.old.behind outer.old.log.items }
    ensures kept { view outer.new.desk.place ≡ view outer.old.desk.place }
    ensures reads { IfOk result (λ r. r ≡ reading_of outer.old.desk.shown.value) }
{
    let page = outer.published().another(alloc)?;
    let Ok(reader) = introduced(outer) else {
        return Err(NoMemory);
    };
    Ok(BoardReader::new(PageCopy { reader, page }))
}

// So many readers, each of which saw what is shown.
fn so_many(alloc: Global, outer: &mut Outer, count: usize) -> Result<Vec<BoardReader>, NoMemory>
    requires good { IsGood outer.old.desk.shown.value }
    requires known { view outer.old.desk.place ≡ view_of outer.old.desk.shown.value }
    ensures shown { outer.new.desk.shown ≡ outer.old.desk.shown }
    ensures waits { drop outer.new.behind outer.new.log.items ≡ drop outer.old.behind outer.old.log.items }
    ensures each { IfOk result (λ rs. rs.items ≡ replicate count (reading_of outer.old.desk.shown.value)) }
{
    let mut readers = Vec::new(alloc);
    for _ in 0..count {
        let reader = one_more(alloc, outer)?;
        readers.push(reader)?;
    }
    Ok(readers)
}

impl Board {
    /// The two ends of a board of so many legs, of which nothing came.
    pub fn new<R: Wait>(
        rt: &R,
        alloc: Global,
        legs: usize,
    ) -> Result<(BoardWriter, BoardReader), NoMemory>
        requires { (FEWEST_LEGS ≤ legs) × (legs ≤ MOST_LINKS) }
        ensures board { IfOk result (λ b. b.1.board ≡ b.0.board) }
        ensures writer { IfOk result (λ b. b.0
            ≡ record { board = b.0.board; legs = legs; published = []; pending = []; ended = false }) }
        ensures reader { IfOk result (λ b. b.1 ≡ record { board = b.1.board; legs = legs; seen = []; ended = false }) }
    {
        let (mut outer, head) = lay(rt, alloc, legs, 1)?;
        let Ok(reader) = one_more(alloc, &mut outer) else {
            drop(outer.take(rt));
            return Err(NoMemory);
        };
        Ok((BoardWriter::new(alloc, outer, head), reader))
    }

    /// A board of so many legs, of which nothing came, and so many readers of it, which may read at the same time. It takes the
    /// memory of a page for each of them and two more.
    pub fn with_readers<R: Wait>(
        rt: &R,
        alloc: Global,
        legs: usize,
        readers: usize,
    ) -> Result<(BoardWriter, Vec<BoardReader>), NoMemory>
        requires legs { (FEWEST_LEGS ≤ legs) × (legs ≤ MOST_LINKS) }
        requires readers { (0 < readers) × (readers < 2 ^ 32) }
        ensures writer { IfOk result (λ b. b.0
            ≡ record { board = b.0.board; legs = legs; published = []; pending = []; ended = false }) }
        ensures readers { IfOk result (λ b. b.1.items
            ≡ replicate readers (record { board = b.0.board; legs = legs; seen = []; ended = false })) }
    {
        let (mut outer, head) = lay(rt, alloc, legs, readers)?;
        let Ok(all) = so_many(alloc, &mut outer, readers) else {
            drop(outer.take(rt));
            return Err(NoMemory);
        };
        Ok((BoardWriter::new(alloc, outer, head), all))
    }
}
