//! The chunks of one source that may still wait: their octets in one ring, and their lengths in another.
ghost use Rattle.std.specs.Prelude.{◌≡◌, ◌+◌, ◌-◌, ◌<◌, ◌≤◌, ◌∷◌, ◌++◌, [], length, take, drop, sum, slice_index, IfOk, nat_le, nat_lt, ◌&&◌};
ghost use Rattle.rtt_base.specs.declared.limits.TheConstants.{MOST_TEXT_OCTETS};

use circular_buffer::HeapCircularBuffer;
use mixer_spec::limits::{MOST_SPAN_CHUNKS, MOST_SPAN_OCTETS};
use rtt_base::{NoMemory, Text};
use std::alloc::Global;
use std::marker::Model;

/// A place between two chunks of a ring: how many chunks and how many octets stand before it.
#[derive(Clone, Copy, Debug)]
pub struct RingPosition {
    pub chunks: usize,
    pub octets: usize,
}

impl RingPosition {
    ghost use Rattle.mixer_places.specs.Lanes.{place_after};

    /// The place before all chunks.
    pub const START: RingPosition = RingPosition {
        chunks: 0,
        octets: 0,
    };

    /// The place counted from another one, or from the start where it stands before that.
    pub fn after(self, front: RingPosition) -> RingPosition
        ensures { result ≡ place_after front self }
    {
        RingPosition {
            chunks: self.chunks.saturating_sub(front.chunks),
            octets: self.octets.saturating_sub(front.octets),
        }
    }
}

/// Chunks of one source, oldest first. It never takes memory but when it is made.
#[derive(Drop)]
pub struct Ring {
    octets: HeapCircularBuffer<u8>,
    lengths: HeapCircularBuffer<u16>,
}

impl Model for Ring {
    ghost use Rattle.mixer_places.specs.Rings.{Chunks};

    ghost Value = { Chunks };

    ghost view = { λ r. record { octets = r.octets.items; lengths = r.lengths.items } };

    ghost use Rattle.mixer_places.specs.RingInsides.{IsRing};

    ghost invariant = { IsRing };
}

impl Ring {
    ghost use Rattle.mixer_places.specs.Rings.{Chunks, IsPlace, end_of, count_fitting, chunks_between, no_chunks, pushed, given_up};

    pub fn new(alloc: Global) -> Result<Ring, NoMemory>
        ensures { IfOk result (λ r. r ≡ no_chunks) }
    {
        Ok(Ring {
            octets: HeapCircularBuffer::with_capacity(alloc, MOST_SPAN_OCTETS)?,
            lengths: HeapCircularBuffer::with_capacity(alloc, MOST_SPAN_CHUNKS)?,
        })
    }

    /// The place behind the last chunk.
    pub fn end(&self) -> RingPosition
        ensures place { result ≡ end_of self.now }
        ensures within { (result.chunks ≤ MOST_SPAN_CHUNKS) × (result.octets ≤ MOST_SPAN_OCTETS) }
    {
        RingPosition {
            chunks: self.lengths.len(),
            octets: self.octets.len(),
        }
    }

    /// Whether there is room for one more chunk of so many octets, were the chunks before `front` given up.
    pub fn has_room(&self, front: RingPosition, octets: usize) -> bool
        requires { octets ≤ MOST_TEXT_OCTETS }
        ensures { result ≡ (nat_le (length self.now.octets - front.octets + octets) MOST_SPAN_OCTETS
            && nat_lt (length self.now.lengths - front.chunks) MOST_SPAN_CHUNKS) }
    {
        self.octets.len().saturating_sub(front.octets) + octets <= MOST_SPAN_OCTETS
            && self.lengths.len().saturating_sub(front.chunks) < MOST_SPAN_CHUNKS
    }

    /// Appends a chunk, for which there is room.
    pub fn push(&mut self, text: &[u8])
        requires octets { length self.old.octets + length text.now ≤ MOST_SPAN_OCTETS }
        requires chunks { length self.old.lengths < MOST_SPAN_CHUNKS }
        requires short { length text.now ≤ MOST_TEXT_OCTETS }
        ensures { self.new ≡ pushed text.now self.old }
    {
        self.octets.fill_from_slice(text);
        self.lengths.push_back(text.len() as u16);
    }

    /// Gives up the chunks before the place.
    pub fn give_up(&mut self, front: RingPosition)
        requires { IsPlace self.old front }
        ensures { self.new ≡ given_up front self.old }
    {
        self.octets.truncate_front(self.octets.len() - front.octets);
        self.lengths
            .truncate_front(self.lengths.len() - front.chunks);
    }

    /// The length of the chunk with this index.
    fn length_at(&self, index: usize) -> usize
        ensures value { result ≡ slice_index self.now.lengths index }
        ensures short { result < 65536 }
    {
        match self.lengths.get(index) {
            Some(&length) => length as usize,
            None => 0,
        }
    }

    /// The place behind the longest list of whole chunks from `from` on that has at most `room` octets and goes no further
    /// than the chunk with the index `end`.
    pub fn place_behind(&self, from: RingPosition, end: usize, room: usize) -> RingPosition
        requires from { from.octets + room < 65536 }
        requires end { end ≤ length self.now.lengths }
        ensures chunks { result.chunks ≡ from.chunks + count_fitting room (chunks_between self.now from.chunks end) }
        ensures octets { result.octets ≡ from.octets + sum (chunks_between self.now from.chunks result.chunks) }
        ensures fits { result.octets ≤ from.octets + room }
    {
        let mut place = from;
        let mut left = room;
        for index in from.chunks..end {
            let length = self.length_at(index);
            if length > left {
                return place;
            }
            left -= length;
            place.chunks = index + 1;
            place.octets += length;
        }
        place
    }

    /// Appends the octets between two places.
    pub fn append_to(&self, from: usize, end: usize, text: &mut Text)
        requires order { from ≤ end }
        requires within { end ≤ length self.now.octets }
        requires fits { length text.old + (end - from) ≤ MOST_TEXT_OCTETS }
        ensures { text.new ≡ text.old ++ take (end - from) (drop from self.now.octets) }
    {
        let (first, second) = self.octets.as_slices();
        let split = first.len();
        if end <= split {
            let _ = text.append(&first[from..end]);
            return;
        }
        let from_first = from.min(split);
        let end_first = end.min(split);
        let _ = text.append(&first[from_first..end_first]);
        let _ = text.append(&second[from - from_first..end - end_first]);
    }
}
