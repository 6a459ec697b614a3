//! The thread that reads a board while a call runs.
ghost use Rattle.std.specs.Prelude.{◌≡◌};
ghost use Rattle.rtt_live.specs.Readers.{IsBackFrom, IsWatcherOf, ReadsSame};

use live_board::{BoardReader, Tail};
use std::alloc::Global;
use std::snapshot::Snapshot;
use std::sync::Arc;
use std::sync::atomic::{AtomicBool, Ordering};
use std::thread;
use std::thread::{Promise, PromisedHandle, Threads};
use std::time::{Clock, Duration};

/// How long a watcher rests between two rounds, in milliseconds.
const REST: u64 = 20;

/// What a thread promises of the reader that it gives back: it reads the board that it `was` given for.
#[derive(Drop)]
pub(crate) struct KeepsBoard {
    pub(crate) was: Snapshot<BoardReader>,
}

impl Promise<BoardReader> for KeepsBoard {
    ghost use Rattle.rtt_live.specs.Readers.{ReadsSame};

    ghost kept_by = { λ p r. ReadsSame p.was.value r };
}

/// A reader: on a thread, or here, where none could be started.
pub(crate) enum Watcher {
    There(PromisedHandle<BoardReader, KeepsBoard>),
    Here(BoardReader),
}

/// Reads so many legs, again and again with a rest, until it is told to stop.
fn read_on<C: Clock + Copy>(
    clock: C,
    mut reader: BoardReader,
    legs: usize,
    stop: &AtomicBool,
) -> BoardReader
    requires { legs ≡ reader.legs }
    ensures { ReadsSame reader result }
{
    let mut tail = Tail::new();
    for _ in 0..u64::MAX {
        if stop.load(Ordering::SeqCst) {
            return reader;
        }
        for leg in 0..legs {
            reader.read(leg, &mut tail);
        }
        thread::sleep(&clock, Duration::from_millis(REST));
    }
    reader
}

impl Watcher {
    /// Has a board of so many legs read by a thread. Where none can be started the stop word is set, and the reader is kept.
    pub(crate) fn start<R: Threads + Clock + Copy + Send + 'static>(
        rt: &R,
        reader: BoardReader,
        legs: usize,
        stop: &AtomicBool,
        theirs: Arc<AtomicBool, Global>,
    ) -> Watcher
        requires { legs ≡ reader.legs }
        ensures { IsWatcherOf reader result }
    {
        let promise = KeepsBoard {
            was: Snapshot::of(&reader),
        };
        let clock = *rt;
        match thread::spawn_with(
            rt,
            promise,
            move || -> BoardReader
                requires { legs ≡ reader.legs }
                ensures { ReadsSame reader result }
            { read_on(clock, reader, legs, &theirs) },
        ) {
            Ok(handle) => Watcher::There(handle),
            Err(refused) => {
                stop.store(true, Ordering::SeqCst);
                Watcher::Here((refused.value)())
            }
        }
    }

    /// Tells it to stop, and has its reader.
    pub(crate) fn finish<R: Threads>(self, rt: &R, stop: &AtomicBool) -> BoardReader
        ensures { IsBackFrom self result }
    {
        stop.store(true, Ordering::SeqCst);
        match self {
            Watcher::There(handle) => handle.join(rt),
            Watcher::Here(reader) => reader,
        }
    }
}
