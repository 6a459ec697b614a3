//! Who writes the recordings of a call.
use crate::tracks::{Round, Tracks};
use crate::{Call, Journals};
use std::alloc::Global;
use std::sync::atomic::{AtomicBool, Ordering};
use std::sync::{Arc, Wait};
use std::thread;
use std::thread::{JoinHandle, Parker, Threads};
use std::time::Duration;

/// The longest rest between two rounds (milliseconds).
const LONGEST_REST: u32 = 100;

/// For how long rests together have no full round among them (milliseconds).
const FULL_REST: u32 = 5000;

/// Tells who writes to end.
#[derive(Drop)]
pub(crate) struct Bell {
    ended: AtomicBool,
    parker: Parker,
}

impl Bell {
    fn new() -> Bell {
        Bell {
            ended: AtomicBool::new(false),
            parker: Parker::new(),
        }
    }

    fn ring(&self) {
        self.ended.store(true, Ordering::SeqCst);
        self.parker.unpark();
    }
}

/// Who writes the recordings of a call: a thread, or nobody, where nothing is recorded.
#[derive(Drop)]
pub(crate) enum Writer<J: Journals, C: Call> {
    There(JoinHandle<Tracks<J, C>>, Arc<Bell, Global>),
    Nobody(Tracks<J, C>),
}

/// Why who writes could not be started.
#[derive(Clone, Copy, Debug, PartialEq, Eq)]
pub(crate) enum StartFault {
    /// The system starts no thread.
    NoThread,
    NoMemory,
}

/// The round behind a rest, where so many milliseconds of rests went by since the last full one.
fn round_after(rested: u32) -> Round {
    if rested < FULL_REST {
        Round::Short
    } else {
        Round::Full
    }
}

/// Writes what waits, again and again with a rest, until it is told to end.
fn write_on<J: Journals + Drop, R: Wait + Drop, C: Call>(
    rt: R,
    mut tracks: Tracks<J, C>,
    rest: u32,
    bell: &Bell,
) -> Tracks<J, C> {
    let mut rested: u32 = 0;
    for _ in rt.forever() {
        let round = round_after(rested);
        tracks.write(&rt, round);
        if round == Round::Full {
            rested = 0;
        }
        if bell.ended.load(Ordering::SeqCst) {
            break;
        }
        bell.parker
            .park_timeout(&rt, Duration::from_millis(u64::from(rest)));
        rested = rested.saturating_add(rest);
    }
    tracks
}

impl<J: Journals + Drop + Send + 'static, C: Call + Send + 'static> Writer<J, C>
where
    J::File: 'static,
{
    /// Has recordings written by a thread, once in so many milliseconds, at most 100.
    pub(crate) fn start<R: Threads + Wait + Copy + Drop + Send + 'static>(
        rt: R,
        alloc: Global,
        tracks: Tracks<J, C>,
        rest: u32,
    ) -> Result<Writer<J, C>, StartFault> {
        let Ok(bell) = Arc::new(alloc, Bell::new()) else {
            return Err(StartFault::NoMemory);
        };
        let Ok(theirs) = Arc::try_clone(&bell) else {
            return Err(StartFault::NoMemory);
        };
        let rest = rest.min(LONGEST_REST);
        match thread::spawn(&rt, move || write_on(rt, tracks, rest, &theirs)) {
            Ok(handle) => Ok(Writer::There(handle, bell)),
            Err(_) => Err(StartFault::NoThread),
        }
    }

    /// Tells it to end, and has the recordings. What waits is written.
    pub(crate) fn finish<R: Threads + Wait>(self, rt: &R) -> Tracks<J, C> {
        let mut tracks = match self {
            Writer::There(handle, bell) => {
                bell.ring();
                handle.join(rt)
            }
            Writer::Nobody(tracks) => tracks,
        };
        tracks.write(rt, Round::Full);
        tracks
    }
}
