//! Texts, one behind the other.
ghost use Rattle.std.specs.Prelude.{◌≡◌, ◌+◌, ◌≤◌, [], true, length, IfOk};
ghost use Rattle.sent_log.specs.Lists.{Agrees, Grows, StandsAt, octets_at};

use rtt_base::{Bytes, NoMemory};
use std::alloc::Global;
use std::marker::Model;

/// The octets of texts, which overlap: what more than one terminal is sent of a source is kept once, however it is cut.
#[derive(Drop)]
pub struct TextList {
    octets: Bytes,
    /// Where the text begins of which octets were appended last.
    last: usize,
}

impl Model for TextList {
    ghost use Rattle.std.specs.Prelude.{ℕ, List};

    ghost Value = { List ℕ };

    ghost view = { λ l. l.octets };
}

impl TextList {
    /// The empty list, which takes no memory.
    pub fn new(alloc: Global) -> TextList
        ensures { result ≡ [] }
    {
        TextList {
            octets: Bytes::new(alloc),
            last: 0,
        }
    }

    /// So many octets from a place on.
    pub fn text(&self, place: usize, len: usize) -> &[u8]
        requires { place + len ≤ length self.now }
        ensures { result.now ≡ octets_at self.now place len }
    {
        &self.octets.as_slice()[place..place + len]
    }

    /// Finds the text, at best at the place where it is expected, or appends what of it is not there; answers its place.
    /// After `NoMemory` the list is as before.
    pub fn keep(&mut self, expected: usize, text: &[u8]) -> Result<usize, NoMemory>
        ensures grows { Grows self.old self.new }
        ensures stands { IfOk result (λ place. StandsAt self.new place text.now) }
    {
        let place = self.place_for(expected, text);
        let there = self.octets.len() - place;
        if there < text.len() {
            self.octets.append(&text[there..])?;
            self.last = place;
        }
        Ok(place)
    }

    /// Where the text is to stand: where it is expected, else where the last one begins, else at the end.
    fn place_for(&self, expected: usize, text: &[u8]) -> usize
        ensures { Agrees self.now result text.now }
    {
        if self.agrees(expected, text) {
            return expected;
        }
        if self.agrees(self.last, text) {
            return self.last;
        }
        self.octets.len()
    }

    /// Whether the text and what stands from this place on are the same, as far as both go.
    fn agrees(&self, place: usize, text: &[u8]) -> bool
        ensures { result ≡ true → Agrees self.now place text.now }
    {
        if place > self.octets.len() {
            return false;
        }
        let there = &self.octets.as_slice()[place..];
        there.starts_with(text) || text.starts_with(there)
    }
}
