//! Lists whose room is reserved when they are made.
ghost use Rattle.std.specs.Prelude.{◌≡◌, ◌<◌, ◌≤◌, ◌==◌, [], ◌∷◌, ◌++◌, length, insert, IfOk};

use rtt_base::NoMemory;
use std::alloc::Global;
use std::marker::Model;

/// A list with room for 65 items. What it does takes no memory.
#[derive(Debug, Drop)]
pub struct BoundedList<T> {
    items: Vec<T>,
}

impl<T> Model for BoundedList<T> {
    ghost use Rattle.std.specs.Prelude.{List, ◌≤◌, vec_capacity};

    ghost Value = { List T };

    ghost view = { λ line. line.items.items };

    ghost invariant = { λ line. 65 ≤ vec_capacity line.items };
}

impl<T: Drop> BoundedList<T> {
    /// No items, and room for 65.
    pub fn new(alloc: Global) -> Result<BoundedList<T>, NoMemory>
        ensures { IfOk result (λ line. line ≡ []) }
    {
        Ok(BoundedList {
            items: Vec::with_capacity(alloc, 65)?,
        })
    }

    /// Drops all items. The room stays.
    pub fn clear(&mut self)
        ensures { self.new ≡ [] }
    {
        self.items.clear();
    }

    pub fn is_empty(&self) -> bool
        ensures { result ≡ (length self.now == 0) }
    {
        self.items.is_empty()
    }

    pub fn as_slice(&self) -> &[T]
        ensures { result.now ≡ self.now }
    {
        self.items.as_slice()
    }

    /// Appends an item.
    pub fn push(&mut self, item: T)
        requires { length self.old < 65 }
        ensures { self.new ≡ self.old ++ item ∷ [] }
    {
        self.items.push_reserved(item);
    }

    /// Puts an item at a place, before those that stand from there on. At the end nothing is moved.
    pub fn insert(&mut self, place: usize, item: T)
        requires within { place ≤ length self.old }
        requires room { length self.old < 65 }
        ensures { self.new ≡ insert self.old place item }
    {
        if place == self.items.len() {
            self.items.push_reserved(item);
        } else if self.items.insert(place, item).is_err() {
            unreachable!();
        }
    }

    /// Takes the first item. Where it is the only one, nothing is moved.
    #[inline(always)]
    pub fn take_first(&mut self) -> T
        requires { 0 < length self.old }
        ensures { self.old ≡ result ∷ self.new }
    {
        if self.items.len() == 1 {
            return self.take_last();
        }
        self.items.remove(0)
    }

    /// Takes the last item.
    pub fn take_last(&mut self) -> T
        requires { 0 < length self.old }
        ensures { self.old ≡ self.new ++ result ∷ [] }
    {
        match self.items.pop() {
            Some(item) => item,
            None => unreachable!(),
        }
    }
}
