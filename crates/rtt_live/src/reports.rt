//! How a live call ended, and what is printed then.
ghost use Rattle.std.specs.Prelude.{◌≡◌, ◌<◌, ◌≤◌, [], ◌++◌, length, OnOk};
ghost use Rattle.std.specs.List.{concat};

use arrayvec::ArrayVec;
use file_spec::limits::MOST_LINKS;
use live_leg::LegTally;
use rtt_base::{Bytes, NoMemory};
use std::alloc::Global;
use std::marker::Model;

/// How a live call ended.
#[derive(Clone, Copy, Debug, PartialEq, Eq)]
pub enum LiveEnd {
    /// All turns were made.
    Done,
    /// All links are closed, all that was heard was mixed, and the mixer is idle.
    Closed,
}

/// How many octets a part has at most: so few that parts find room where what terminals heard was let go.
const MOST_PART_OCTETS: usize = 16_384;

/// A growing text in parts, one behind the other: what was appended stays where it is.
#[derive(Debug, Drop)]
pub struct ViewParts {
    parts: Vec<Bytes>,
}

impl Model for ViewParts {
    ghost use Rattle.std.specs.Prelude.{List, ℕ};
    ghost use Rattle.std.specs.List.{concat};

    ghost Value = { List ℕ };

    ghost view = { λ v. concat v.parts.items };
}

/// How many of these octets stand in the next part.
fn part_len(octets: &[u8]) -> usize
    ensures within { result ≤ length octets.now }
    ensures some { 0 < length octets.now → 0 < result }
{
    octets.len().min(MOST_PART_OCTETS)
}

impl ViewParts {
    /// No text.
    pub fn new(alloc: Global) -> ViewParts
        ensures { result ≡ [] }
    {
        ViewParts {
            parts: Vec::new(alloc),
        }
    }

    /// Puts a part behind the others.
    fn push(&mut self, part: Bytes) -> Result<(), NoMemory>
        ensures { OnOk result (self.new ≡ self.old ++ part) }
    {
        self.parts.push(part)?;
        Ok(())
    }

    /// Appends octets. After `NoMemory` some of them may stand behind the others.
    pub fn append(&mut self, alloc: Global, octets: &[u8]) -> Result<(), NoMemory>
        ensures { OnOk result (self.new ≡ self.old ++ octets.now) }
    {
        let mut rest = octets;
        while !rest.is_empty() {
            let (front, behind) = rest.split_at(part_len(rest));
            let mut part = Bytes::new(alloc);
            part.append(front)?;
            self.push(part)?;
            rest = behind;
        }
        Ok(())
    }

    /// Its parts, in order.
    pub fn parts(&self) -> &[Bytes]
        ensures { concat result.now ≡ self.now }
    {
        self.parts.as_slice()
    }
}

/// How a live call ended, what is printed then (what each terminal shows, how it ended, and what was counted, where that is asked
/// for), and what each leg counted, in leg order.
#[derive(Debug, Drop)]
pub struct LiveReport {
    pub end: LiveEnd,
    pub views: ViewParts,
    pub tallies: ArrayVec<LegTally, MOST_LINKS>,
}
