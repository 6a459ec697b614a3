//! The text that waits to be sent.
ghost use Rattle.std.specs.Prelude.{◌≡◌, ◌+◌, ◌≤◌, ◌<◌, ◌++◌, ◌↔◌, ◌==◌, [], length, min, take, drop, IfOk, IsOk, OnOk, OnErr};
ghost use Rattle.stream_spec.specs.Typed.{is_end, last_end, whole_front};

use circular_buffer::HeapCircularBuffer;
use rtt_base::limits::MOST_TEXT_OCTETS;
use rtt_base::{Full, NoMemory, Text};
use std::alloc::Global;
use std::marker::Model;
use stream_spec::limits::MOST_WAITING_OCTETS;

/// A ring of octets that wait.
#[derive(Drop)]
pub struct WaitingText {
    ring: HeapCircularBuffer<u8>,
}

impl Model for WaitingText {
    ghost use Rattle.std.specs.Prelude.{ℕ, List, ◌≡◌};
    ghost use Rattle.stream_spec.specs.declared.limits.TheConstants.{MOST_WAITING_OCTETS};

    ghost Value = { List ℕ };

    ghost view = { λ w. w.ring.items };

    ghost invariant = { λ w. w.ring.capacity ≡ MOST_WAITING_OCTETS };
}

/// Appends octets for which there is room. Mostly there are none, and then nothing is called.
#[inline(always)]
fn append_rest(text: &mut Text, octets: &[u8])
    requires { length text.old + length octets.now ≤ MOST_TEXT_OCTETS }
    ensures { text.new ≡ text.old ++ octets.now }
{
    if !octets.is_empty() {
        let appended = text.append(octets);
        prove!(appended.is_ok());
    }
}

impl WaitingText {
    pub fn new(alloc: Global) -> Result<WaitingText, NoMemory>
        ensures { IfOk result (λ w. w ≡ []) }
    {
        let ring = HeapCircularBuffer::with_capacity(alloc, MOST_WAITING_OCTETS)?;
        Ok(WaitingText { ring })
    }

    pub fn is_empty(&self) -> bool
        ensures { result ≡ (length self.now == 0) }
    {
        self.ring.is_empty()
    }

    /// Appends a text, or nothing where it passes the room left.
    pub fn append(&mut self, text: &[u8]) -> Result<(), Full>
        ensures room { IsOk result ↔ (length self.old + length text.now ≤ MOST_WAITING_OCTETS) }
        ensures ok { OnOk result (self.new ≡ self.old ++ text.now) }
        ensures err { OnErr result (self.new ≡ self.old) }
    {
        if MOST_WAITING_OCTETS - self.ring.len() < text.len() {
            return Err(Full);
        }
        self.ring.fill_from_slice(text);
        Ok(())
    }

    /// Whether a character ends before this place: the octet there does not continue one.
    fn ends_at(&self, place: usize) -> bool
        ensures { result ≡ is_end self.now place }
    {
        match self.ring.get(place) {
            None => true,
            Some(&octet) => octet < 128 || octet >= 192,
        }
    }

    /// The length of the longest front of whole characters that fits in a block.
    fn front_len(&self) -> usize
        ensures value { result ≡ last_end self.now (min MOST_TEXT_OCTETS (length self.now)) }
        ensures fits { (result ≤ MOST_TEXT_OCTETS) × (result ≤ length self.now) }
    {
        let mut len = self.ring.len().min(MOST_TEXT_OCTETS);
        while len > 0 && !self.ends_at(len) {
            len -= 1;
        }
        len
    }

    /// Puts the first octets, so many, in place of what was in `text`.
    #[inline(never)]
    fn copy_front(&self, len: usize, text: &mut Text)
        requires few { len ≤ MOST_TEXT_OCTETS }
        requires there { len ≤ length self.now }
        ensures { text.new ≡ take len self.now }
    {
        let (first, second) = self.ring.as_slices();
        let from_first = first.len().min(len);
        text.clear();
        let _ = text.append(&first[..from_first]);
        append_rest(text, &second[..len - from_first]);
    }

    /// The longest front of whole characters that fits in a block: where it lies, or a copy in `text`, if it lies in two pieces.
    #[inline(always)]
    pub fn front<'a>(&'a self, text: &'a mut Text) -> &'a [u8]
        ensures value { result.now ≡ whole_front MOST_TEXT_OCTETS self.now }
        ensures fits { length result.now ≤ MOST_TEXT_OCTETS }
    {
        let len = self.front_len();
        let (first, _) = self.ring.as_slices();
        if len <= first.len() {
            return &first[..len];
        }
        self.copy_front(len, text);
        text.as_slice()
    }

    /// Passes over so many octets.
    pub fn pass(&mut self, len: usize)
        requires { len ≤ length self.old }
        ensures { self.new ≡ drop len self.old }
    {
        self.ring.truncate_front(self.ring.len() - len);
    }
}
