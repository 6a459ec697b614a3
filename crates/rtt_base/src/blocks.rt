//! The blocks of a packet.
ghost use Rattle.std.specs.Prelude.{◌≡◌, ◌≤◌, ◌<◌, ◌==◌, [], ◌∷◌, ◌++◌, length};

use crate::Text;
use arrayvec::ArrayVec;
use std::marker::Model;

/// A block of text, and how far its timestamp lies before the packet's, in ticks of 1 ms (RFC 2198, section 3).
#[derive(Debug, Default, Drop)]
pub struct TextBlock {
    pub offset: u16,
    pub text: Text,
}

impl TextBlock {
    /// Puts this offset and a copy of this text, of at most 1023 octets, in place of what was there.
    pub fn set(&mut self, offset: u16, text: &[u8])
        requires { length text.now < 1024 }
        ensures { self.new ≡ record { offset = offset; text = text.now } }
    {
        self.offset = offset;
        self.text.clear();
        let _ = self.text.append(text);
    }
}

/// The blocks of one packet: at most eight redundant ones, oldest first, and then the primary one, whose offset is 0.
#[derive(Debug, Drop)]
pub struct Blocks {
    /// The blocks, and behind them those that were cleared and are written over when their place is needed again.
    places: ArrayVec<TextBlock, 9>,
    len: usize,
}

impl Model for Blocks {
    ghost use Rattle.std.specs.Prelude.{List, ◌≤◌, length, take};
    ghost use Rattle.rtt_base.specs.declared.blocks.TextBlock.{TextBlock};

    ghost Value = { List TextBlock };

    ghost view = { λ b. take b.len b.places.items };

    ghost invariant = { λ b. (b.len ≤ 9) × (b.len ≤ length b.places.items) };
}

impl Default for Blocks {
    ghost is_default = { λ b. b ≡ [] };

    fn default() -> Blocks {
        Blocks::new()
    }
}

/// Adds a place. Few packets need a new one, so this stands out of the way of the others.
#[inline(never)]
fn add_place(places: &mut ArrayVec<TextBlock, 9>)
    requires { length places.old.items < 9 }
    ensures { places.new.items ≡ places.old.items ++ record { offset = 0; text = [] } ∷ [] }
{
    places.push(TextBlock::default());
}

impl Blocks {
    /// How many blocks fit.
    pub const CAPACITY: usize = 9;

    /// No blocks.
    pub fn new() -> Blocks
        ensures { result ≡ [] }
    {
        Blocks {
            places: ArrayVec::new(),
            len: 0,
        }
    }

    /// The number of blocks.
    pub fn len(&self) -> usize
        ensures value { result ≡ length self.now }
        ensures fits { result ≤ 9 }
    {
        self.len
    }

    pub fn is_empty(&self) -> bool
        ensures { result ≡ (length self.now == 0) }
    {
        self.len == 0
    }

    pub fn as_slice(&self) -> &[TextBlock]
        ensures value { result.now ≡ self.now }
        ensures fits { length result.now ≤ 9 }
    {
        &self.places.as_slice()[..self.len]
    }

    /// Appends a block, for which there must be room.
    pub fn push(&mut self, block: TextBlock)
        requires { length self.old < 9 }
        ensures { self.new ≡ self.old ++ block ∷ [] }
    {
        if self.len == self.places.len() {
            self.places.push(block);
        } else {
            self.places.as_mut_slice()[self.len] = block;
        }
        self.len += 1;
    }

    /// Appends a block with a copy of this text, for which there must be room.
    #[inline(always)]
    pub fn push_copy(&mut self, offset: u16, text: &[u8])
        requires room { length self.old < 9 }
        requires fits { length text.now < 1024 }
        ensures { self.new ≡ self.old ++ record { offset = offset; text = text.now } ∷ [] }
    {
        if self.len == self.places.len() {
            add_place(&mut self.places);
        }
        self.places.as_mut_slice()[self.len].set(offset, text);
        self.len += 1;
    }

    pub fn clear(&mut self)
        ensures { self.new ≡ [] }
    {
        self.len = 0;
    }
}
