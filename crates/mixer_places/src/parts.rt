//! What part of a source's chunks waits for one terminal.
ghost use Rattle.std.specs.Prelude.{◌≡◌, ℕ, length, map, slice_get, Some, IfOk};
ghost use Rattle.mixer_places.specs.Lanes.{IsOldest, first_part, part_after};

use crate::rings::RingPosition;
use rtt_base::NoMemory;
use std::alloc::Global;

/// The chunks from `from` on: up to `to`, or all that come while the terminal listens.
#[derive(Clone, Copy, Debug)]
pub struct Part {
    pub from: RingPosition,
    pub to: Option<RingPosition>,
}

impl Part {
    ghost use Rattle.mixer_places.specs.Lanes.{part_end, part_heard, part_after};

    /// Where it ends, where `end` is the end of all chunks.
    pub fn end(self, end: RingPosition) -> RingPosition
        ensures { result ≡ part_end end self }
    {
        match self.to {
            Some(to) => to,
            None => end,
        }
    }

    /// The part of a terminal that listens from now on, or no more, where `end` is the end of all chunks.
    pub fn heard(self, on: bool, end: RingPosition) -> Part
        ensures { result ≡ part_heard on end self }
    {
        if on {
            Part {
                from: end,
                to: None,
            }
        } else {
            Part {
                from: self.from,
                to: Some(self.end(end)),
            }
        }
    }

    /// The part counted from a place, before which nothing is kept any more.
    pub fn after(self, front: RingPosition) -> Part
        ensures { result ≡ part_after front self }
    {
        Part {
            from: self.from.after(front),
            to: match self.to {
                Some(to) => Some(to.after(front)),
                None => None,
            },
        }
    }
}

/// The parts of so many terminals that listen, but for the one whose source it is.
pub fn first_parts(alloc: Global, terminals: usize, own: usize) -> Result<Vec<Part>, NoMemory>
    ensures length { IfOk result (λ v. length v.items ≡ terminals) }
    ensures parts { IfOk result (λ v. (k : ℕ) (p : Part) → slice_get v.items k ≡ Some p → p ≡ first_part own k) }
{
    let mut parts = Vec::with_capacity(alloc, terminals)?;
    for terminal in 0..terminals {
        let to = if terminal == own {
            Some(RingPosition::START)
        } else {
            None
        };
        let part = Part {
            from: RingPosition::START,
            to,
        };
        parts.push(part)?;
    }
    Ok(parts)
}

/// The place before the oldest chunk that waits in one of the parts, or the end of all chunks.
pub fn oldest(parts: &[Part], end: RingPosition) -> RingPosition
    ensures { IsOldest end parts.now result }
{
    let mut oldest = end;
    for part in parts {
        let to = part.end(end);
        if part.from.chunks < to.chunks && part.from.chunks < oldest.chunks {
            oldest = part.from;
        }
    }
    oldest
}

/// Counts each part from the place.
pub fn count_from(parts: &mut [Part], front: RingPosition)
    ensures { parts.new ≡ map (part_after front) parts.old }
{
    for part in parts.iter_mut() {
        *part = part.after(front);
    }
}
