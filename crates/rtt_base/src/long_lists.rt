//! Lists whose length has no bound of its own.
ghost use Rattle.std.specs.Prelude.{◌≡◌, ◌<◌, ◌==◌, [], ◌∷◌, ◌++◌, length, take, OnOk, OnErr, slice_index_or};
ghost use Rattle.std.specs.Borrow.{sem};

use crate::NoMemory;
use std::alloc::Global;
use std::marker::Model;

/// A growing list. It keeps the allocator that it was made with.
#[derive(Debug, Drop)]
pub struct GrowingList<T> {
    items: Vec<T>,
}

/// Growing octets.
pub type Bytes = GrowingList<u8>;

impl<T> Model for GrowingList<T> {
    ghost use Rattle.std.specs.Prelude.{List};

    ghost Value = { List T };

    ghost view = { λ g. g.items.items };
}

impl<T> GrowingList<T> {
    ghost use Rattle.rtt_base.specs.Lends.{LendsItem};

    /// The empty list, which takes no memory.
    pub fn new(alloc: Global) -> GrowingList<T>
        ensures { result ≡ [] }
    {
        GrowingList {
            items: Vec::new(alloc),
        }
    }

    /// The number of items.
    pub fn len(&self) -> usize
        ensures { result ≡ length self.now }
    {
        self.items.len()
    }

    pub fn is_empty(&self) -> bool
        ensures { result ≡ (length self.now == 0) }
    {
        self.items.is_empty()
    }

    pub fn as_slice(&self) -> &[T]
        ensures { result.now ≡ self.now }
    {
        self.items.as_slice()
    }

    /// The item at an index, for writing.
    pub fn item_mut(&mut self, index: usize) -> &mut T
        requires { index < length self.old }
        ensures* writes_back { sem 𝓛 (LendsItem T.row self.entry index result) }
        ensures value { result.now ≡ slice_index_or self.old index result.now }
    {
        &mut self.items[index]
    }
}

impl<T: Drop> GrowingList<T> {
    /// Appends an item. After `NoMemory` the list is as before.
    pub fn push(&mut self, item: T) -> Result<(), NoMemory>
        ensures ok { OnOk result (self.new ≡ self.old ++ item ∷ []) }
        ensures err { OnErr result (self.new ≡ self.old) }
    {
        match self.items.push(item) {
            Ok(()) => Ok(()),
            Err(_) => Err(NoMemory),
        }
    }

    /// Keeps the first `len` items, or all where they are not more.
    pub fn truncate(&mut self, len: usize)
        ensures { self.new ≡ take len self.old }
    {
        self.items.truncate(len);
    }

    pub fn clear(&mut self)
        ensures { self.new ≡ [] }
    {
        self.items.clear();
    }
}

impl GrowingList<u8> {
    /// Appends octets. After `NoMemory` the list is as before.
    #[inline(always)]
    pub fn append(&mut self, octets: &[u8]) -> Result<(), NoMemory>
        ensures ok { OnOk result (self.new ≡ self.old ++ octets.now) }
        ensures err { OnErr result (self.new ≡ self.old) }
    {
        match self.items.extend_from_slice(octets) {
            Ok(()) => Ok(()),
            Err(_) => Err(NoMemory),
        }
    }
}
