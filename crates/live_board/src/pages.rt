//! What readers take: what is shown of all legs, and what of the history that is.
ghost use Rattle.std.specs.Prelude.{◌≡◌, ◌++◌, [], false, length, IfOk};
ghost use Rattle.live_board.specs.Histories.{changes_of, ended_in, head_of, octets_of};
ghost use Rattle.live_board.specs.Pages.{IsGood, IsNext};
ghost use Rattle.live_board.specs.Sheets.{IsSheetOf};

use crate::histories::{Fresh, Head, ReachedHistory, enter};
use crate::sheets::Sheet;
use left_right::Absorb;
use rtt_base::NoMemory;
use std::alloc::{AllocError, Global};
use std::sync::Wait;

/// What is shown of all legs, how many calls published that, whether the end was published, and the history so far.
#[derive(Drop)]
pub struct Page {
    pub sheet: Sheet,
    pub count: u64,
    pub ended: bool,
    pub seen: ReachedHistory,
}

/// What a call publishes, with the history that ends in it.
#[derive(Drop)]
pub struct Publish {
    pub fresh: Fresh,
    pub count: u64,
    pub ended: bool,
    pub seen: ReachedHistory,
}

impl Absorb<Publish> for Page {
    ghost use Rattle.live_board.specs.Pages.{published};

    type State = Page;

    ghost state = { λ x. x };

    ghost applied = { published };

    ghost never_fails = { Unit {0} };

    fn absorb_first(&mut self, operation: &Publish, _other: &Page) -> Result<(), AllocError> {
        self.sheet.add_all(operation.fresh.chunks.as_slice());
        self.count = operation.count;
        self.ended = operation.ended;
        self.seen = operation.seen.again();
        Ok(())
    }
}

impl Page {
    /// A page of so many legs, of a history of which nothing was published. It takes all memory that it ever needs.
    pub fn blank(alloc: Global, legs: usize, seen: &ReachedHistory) -> Result<Page, NoMemory>
        ensures blank { IfOk result (λ x. (x.count ≡ 0) × (x.ended ≡ false)) }
        ensures shows { IfOk result (λ x. IsSheetOf legs [] x.sheet) }
        ensures seen { IfOk result (λ x. x.seen ≡ seen.now) }
    {
        Ok(Page {
            sheet: Sheet::new(alloc, legs)?,
            count: 0,
            ended: false,
            seen: seen.again(),
        })
    }

    /// Another page that is the same.
    pub fn another(&self, alloc: Global) -> Result<Page, NoMemory>
        ensures { IfOk result (λ x. x ≡ self.now) }
    {
        let mut page = Page::blank(alloc, self.sheet.legs(), &self.seen)?;
        page.copy_from(self);
        Ok(page)
    }

    /// What is published next, which is entered into the history. The octets are those of all changes, these too.
    pub fn next<R: Wait>(&self, rt: &R, head: &Head, fresh: Fresh, octets: u64) -> Publish
        requires good { IsGood self.now }
        requires going { ended_in self.now.seen.log ≡ false }
        requires head { head.now ≡ head_of self.now.seen.book }
        requires counted { octets ≡ octets_of (changes_of self.now.seen.log ++ fresh.chunks.items) }
        ensures next { IsNext self.now result }
        ensures fresh { result.fresh ≡ fresh }
    {
        let seen = enter(rt, head, &self.seen, self.count, &fresh);
        Publish {
            count: self.count + 1,
            ended: fresh.ends,
            fresh,
            seen,
        }
    }

    /// Becomes what another one of as many legs is.
    pub fn copy_from(&mut self, other: &Page)
        requires { length self.old.sheet ≡ length other.now.sheet }
        ensures { self.new ≡ other.now }
    {
        self.sheet.copy_from(&other.sheet);
        self.count = other.count;
        self.ended = other.ended;
        self.seen = other.seen.again();
    }
}
