//! What waits to be written in a call.

use std::sync::atomic::{AtomicU64, Ordering};

/// Where what waits to be written in a call counts for more octets, nothing more is noted.
const MOST_WAITING_OCTETS: u64 = 16_777_216;

/// Recordings: a bit for each. Those whose numbers are 64 apart share one.
#[derive(Clone, Copy, Debug, PartialEq, Eq)]
pub(crate) struct DueRecordings(u64);

impl DueRecordings {
    /// The one of this number.
    fn of(number: usize) -> DueRecordings {
        DueRecordings(1 << (number % 64))
    }

    /// Whether the one of this number is among them.
    pub(crate) fn has(self, number: usize) -> bool {
        self.0 & DueRecordings::of(number).0 != 0
    }
}

/// What waits in all recordings of a call.
#[derive(Drop)]
pub(crate) struct WaitingRecords {
    /// For how many octets it counts.
    octets: AtomicU64,
    /// The recordings of which something is to be written soon.
    due: AtomicU64,
}

impl WaitingRecords {
    pub(crate) fn new() -> WaitingRecords {
        WaitingRecords {
            octets: AtomicU64::new(0),
            due: AtomicU64::new(0),
        }
    }

    /// Counts octets in, unless more wait than may. The answer is whether it did.
    pub(crate) fn count(&self, octets: u64) -> bool {
        let has_room = self.octets.fetch_add(octets, Ordering::SeqCst) <= MOST_WAITING_OCTETS;
        if !has_room {
            self.uncount(octets);
        }
        has_room
    }

    /// Counts octets out, which were counted in before.
    pub(crate) fn uncount(&self, octets: u64) {
        self.octets.fetch_sub(octets, Ordering::SeqCst);
    }

    /// Tells that the recording of this number is to be written soon.
    pub(crate) fn tell(&self, number: usize) {
        let told = DueRecordings::of(number);
        self.due.fetch_or(told.0, Ordering::SeqCst);
    }

    /// The recordings of which that was told since they were asked for last.
    pub(crate) fn due(&self) -> DueRecordings {
        DueRecordings(self.due.swap(0, Ordering::SeqCst))
    }
}
