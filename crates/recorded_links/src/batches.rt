//! What goes from who takes and gives to who writes.
ghost use Rattle.std.specs.Prelude.{◌≡◌, ◌≤◌, ◌<◌, ◌^◌, ◌++◌, [], ◌∷◌, length, OnOk, OnErr};
ghost use Rattle.rtt_base.specs.declared.limits.TheConstants.{MOST_PACKET_OCTETS};
ghost use Rattle.recorded_links.specs.Places.{entry};
ghost use Rattle.recorded_links.specs.Notes.{entries_in, octets_of};

use crate::notes::Note;
use rtt_base::{Bytes, NoMemory};
use std::alloc::Global;

/// The most octets that a batch has, where each entry counts for some more than its own.
const MOST_BATCH_OCTETS: u64 = 1_048_576;

/// For how many octets more than its own an entry counts.
const ENTRY_OCTETS: u64 = 64;

/// Of a batch that counts for more octets no memory is kept.
const MOST_KEPT_OCTETS: u64 = 8192;

/// What was noted, oldest first.
#[derive(Debug, Drop)]
pub(crate) struct Batch {
    notes: Vec<Note>,
    /// Those of all notes.
    octets: Bytes,
    /// For how many octets it counts.
    size: u64,
    ghost whole: { octets_of notes.items ≡ length octets },
}

/// A batch in which nothing was noted, with the memory of one that was.
#[derive(Drop)]
pub(crate) struct SpareBatch {
    pub(crate) batch: Batch,
    ghost empty: { entries_in batch.notes.items batch.octets ≡ [] },
}

/// For how many octets an entry of these counts.
pub(crate) fn entry_size(octets: &[u8]) -> u64 {
    (octets.len() as u64).saturating_add(ENTRY_OCTETS)
}

impl Batch {
    /// Nothing was noted. It takes no memory.
    pub(crate) fn empty(alloc: Global) -> Batch
        ensures { entries_in result.notes.items result.octets ≡ [] }
    {
        Batch {
            notes: Vec::new(alloc),
            octets: Bytes::new(alloc),
            size: 0,
        }
    }

    pub(crate) fn notes(&self) -> &[Note]
        ensures { result.now ≡ self.now.notes.items }
    {
        self.notes.as_slice()
    }

    /// Those of all notes, one behind the other.
    pub(crate) fn octets(&self) -> &[u8]
        ensures { result.now ≡ self.now.octets }
    {
        self.octets.as_slice()
    }

    /// For how many octets it counts.
    pub(crate) fn size(&self) -> u64 {
        self.size
    }

    /// Forgets all that was noted, and keeps the memory for what is noted next, unless that is much.
    pub(crate) fn into_spare(self) -> Option<SpareBatch> {
        let Batch {
            mut notes,
            mut octets,
            size,
        } = self;
        if size > MOST_KEPT_OCTETS {
            return None;
        }
        notes.clear();
        octets.clear();
        Some(SpareBatch {
            batch: Batch {
                notes,
                octets,
                size: 0,
            },
        })
    }

    /// Notes octets at a moment, where there is room. After `NoMemory`, which also says that there is none, it is as before.
    #[tactic(auto, using(crate::proofs::Adding::octets_more, crate::proofs::Adding::entries_more))]
    pub(crate) fn add(&mut self, at: u64, octets: &[u8]) -> Result<(), NoMemory>
        requires few { length octets.now ≤ MOST_PACKET_OCTETS }
        requires early { at < 2 ^ 63 }
        ensures ok { OnOk result (entries_in self.new.notes.items self.new.octets ≡ entries_in self.old.notes.items self.old.octets ++ entry at octets.now ∷ []) }
        ensures err { OnErr result (entries_in self.new.notes.items self.new.octets ≡ entries_in self.old.notes.items self.old.octets) }
    {
        let size = self.size.saturating_add(entry_size(octets));
        if size > MOST_BATCH_OCTETS {
            return Err(NoMemory);
        }
        self.notes.reserve(1)?;
        self.octets.append(octets)?;
        let len = octets.len();
        self.notes.push_reserved(Note { at, len });
        self.size = size;
        Ok(())
    }
}
