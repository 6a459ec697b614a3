//! The frames of one piece.
ghost use Rattle.std.specs.Prelude.{◌≡◌, ◌≤◌, ◌<◌, [], ◌∷◌, ◌++◌, length};

use arrayvec::ArrayVec;
use file_spec::Frame;
use rtt_base::Text;
use std::marker::Model;

/// How many frames one piece gives at most.
pub const MOST_BATCH_FRAMES: usize = 64;

/// The frames of one piece, at most 64, oldest first.
#[derive(Debug, Drop)]
pub struct FrameBatch {
    /// The frames, and behind them those that were cleared and are written over when their place is needed again.
    places: ArrayVec<Frame, MOST_BATCH_FRAMES>,
    len: usize,
}

impl Model for FrameBatch {
    ghost use Rattle.std.specs.Prelude.{List, ◌≤◌, length, take};
    ghost use Rattle.file_spec.specs.declared.frames.Frame.{Frame};

    ghost Value = { List Frame };

    ghost view = { λ b. take b.len b.places.items };

    ghost invariant = { λ b. (b.len ≤ 64) × (b.len ≤ length b.places.items) };
}

/// Adds a place. Few frames need a new one, so this stands out of the way of the others.
#[inline(never)]
fn add_place(places: &mut ArrayVec<Frame, MOST_BATCH_FRAMES>)
    requires { length places.old.items < 64 }
    ensures { places.new.items ≡ places.old.items ++ record { at = 0; text = [] } ∷ [] }
{
    places.push(Frame {
        at: 0,
        text: Text::new(),
    });
}

/// Puts this moment and a copy of this text, of at most 1023 octets, in place of what was there.
fn write_over(frame: &mut Frame, at: u32, text: &[u8])
    requires { length text.now < 1024 }
    ensures { frame.new ≡ record { at = at; text = text.now } }
{
    frame.at = at;
    frame.text.clear();
    let _ = frame.text.append(text);
}

impl FrameBatch {
    /// No frames.
    pub fn new() -> FrameBatch
        ensures { result ≡ [] }
    {
        FrameBatch {
            places: ArrayVec::new(),
            len: 0,
        }
    }

    /// The number of frames.
    pub fn len(&self) -> usize
        ensures value { result ≡ length self.now }
        ensures fits { result ≤ 64 }
    {
        self.len
    }

    pub fn as_slice(&self) -> &[Frame]
        ensures value { result.now ≡ self.now }
        ensures fits { length result.now ≤ 64 }
    {
        &self.places.as_slice()[..self.len]
    }

    /// Appends a frame with a copy of this text, for which there must be room.
    pub fn push_copy(&mut self, at: u32, text: &[u8])
        requires room { length self.old < 64 }
        requires fits { length text.now < 1024 }
        ensures { self.new ≡ self.old ++ record { at = at; text = text.now } ∷ [] }
    {
        if self.len == self.places.len() {
            add_place(&mut self.places);
        }
        write_over(&mut self.places.as_mut_slice()[self.len], at, text);
        self.len += 1;
    }

    pub fn clear(&mut self)
        ensures { self.new ≡ [] }
    {
        self.len = 0;
    }
}
