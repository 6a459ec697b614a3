//! Sleeping at a queue.
use std::sync::Wait;
use std::sync::atomic::{AtomicBool, Ordering};
use std::thread::Parker;
use std::time::Duration;

/// The longest sleep, in milliseconds. Who is waited for ends it before.
const LONGEST_SLEEP: u64 = 100;

/// Who may sleep at a queue: who pushes while it is full, who pops while it is empty. What is pushed and popped does not rest
/// on it.
#[derive(Drop)]
pub(crate) struct Sleepers {
    pusher: Parker,
    popper: Parker,
    /// Whether who pops is about to sleep, or sleeps.
    popper_waits: AtomicBool,
}

impl Sleepers {
    /// Nobody sleeps.
    pub(crate) fn new() -> Sleepers {
        Sleepers {
            pusher: Parker::new(),
            popper: Parker::new(),
            popper_waits: AtomicBool::new(false),
        }
    }

    /// Lets who pushes sleep until there is room.
    pub(crate) fn pusher_sleeps<R: Wait>(&self, rt: &R) {
        self.pusher
            .park_timeout(rt, Duration::from_millis(LONGEST_SLEEP));
    }

    /// Wakes who pushes: there is room.
    pub(crate) fn wake_pusher(&self) {
        self.pusher.unpark();
    }

    /// Says that who pops is about to sleep. It has to look at the queue once more before it does: what was pushed before is
    /// there then, and what is pushed later wakes it.
    pub(crate) fn popper_will_sleep(&self) {
        self.popper_waits.store(true, Ordering::SeqCst);
    }

    /// Lets who pops sleep until something was pushed.
    pub(crate) fn popper_sleeps<R: Wait>(&self, rt: &R) {
        self.popper
            .park_timeout(rt, Duration::from_millis(LONGEST_SLEEP));
    }

    /// Wakes who pops, where it waits: something was pushed.
    pub(crate) fn wake_popper(&self) {
        if self.popper_waits.load(Ordering::SeqCst) {
            self.popper_waits.store(false, Ordering::SeqCst);
            self.popper.unpark();
        }
    }
}
