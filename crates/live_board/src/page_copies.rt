//! A reader with the page that it saw last.
ghost use Rattle.std.specs.Prelude.{◌≡◌, length};
ghost use Rattle.left_right.specs.Sides.{view};
ghost use Rattle.live_board.specs.Ends.{IsReading};
ghost use Rattle.live_board.specs.Pages.{IsFurther, IsGood};

use crate::pages::Page;
use crate::rule::{Inner, Looks};

/// A reader, and a copy of the page that it saw last.
#[derive(Drop)]
pub struct PageCopy {
    pub reader: Inner,
    pub page: Page,
}

// Becomes another page of the same board, where that is further.
fn go_to(page: &mut Page, found: &Page)
    requires book { found.now.seen.book ≡ page.old.seen.book }
    requires wide { length page.old.sheet ≡ length found.now.sheet }
    requires good { IsGood page.old × IsGood found.now }
    ensures good { IsGood page.new }
    ensures further { IsFurther page.old page.new }
    ensures told { IsFurther found.now page.new }
{
    let mut both = page.seen.again();
    both.learn(&found.seen);
    if found.count > page.count {
        page.copy_from(found);
    }
}

/// Takes what was published last, where there is more. Where the writer is gone nothing is taken.
pub fn look(held: PageCopy) -> PageCopy
    requires { IsReading (view held.reader.place) held.page }
    ensures reading { IsReading (view result.reader.place) result.page }
    ensures further { IsFurther held.page result.page }
{
    let PageCopy { reader, mut page } = held;
    match reader.enter_as::<Looks>() {
        Ok(reading) => {
            go_to(&mut page, reading.get());
            PageCopy {
                reader: reading.leave(),
                page,
            }
        }
        Err(reader) => PageCopy { reader, page },
    }
}

/// Takes in a page of the same board, where that is further.
pub fn take_in(held: &mut PageCopy, found: &Page)
    requires reading { IsReading (view held.old.reader.place) held.old.page }
    requires book { found.now.seen.book ≡ held.old.page.seen.book }
    requires wide { length held.old.page.sheet ≡ length found.now.sheet }
    requires good { IsGood found.now }
    ensures reading { IsReading (view held.new.reader.place) held.new.page }
    ensures further { IsFurther held.old.page held.new.page }
    ensures told { IsFurther found.now held.new.page }
{
    go_to(&mut held.page, found);
}
