//! Moments of a clock, in milliseconds.
ghost use Rattle.std.specs.Prelude.{◌≡◌, ◌<◌, ◌≤◌, ◌^◌};

use std::time::{Clock, Duration};

/// The last moment that is told.
pub(crate) const LAST_MOMENT: u64 = (1 << 47) - 1;

/// A clock that stands still until it is put on.
#[derive(Debug, Drop)]
pub(crate) struct StillClock {
    moment: u64,
    ghost early: { moment < 2 ^ 47 },
}

impl StillClock {
    /// The clock at moment 0.
    pub(crate) fn new() -> StillClock
        ensures { result.moment ≡ 0 }
    {
        StillClock { moment: 0 }
    }

    pub(crate) fn moment(&self) -> u64
        ensures is { result ≡ self.now.moment }
        ensures early { result < 2 ^ 47 }
    {
        self.moment
    }

    /// Puts it on to this moment, or to the last one, where that is still to come.
    pub(crate) fn put_on(&mut self, until: u64)
        ensures rises { self.old.moment ≤ self.new.moment }
        ensures reached { until < 2 ^ 47 → until ≤ self.new.moment }
    {
        self.moment = self.moment.max(until.min(LAST_MOMENT));
    }
}

/// How many milliseconds a clock stands behind this moment of it. One that can't be read stands there.
pub(crate) fn millis_since<C: Clock>(clock: &C, start: u64) -> u64
    ensures { result < 2 ^ 47 }
{
    match clock.monotonic() {
        Ok(time) => millis_behind(start, time),
        Err(_) => 0,
    }
}

fn millis_behind(start: u64, time: Duration) -> u64
    ensures { result < 2 ^ 47 }
{
    let millis = time.as_millis().min(u128::from(u64::MAX)) as u64;
    millis.saturating_sub(start).min(LAST_MOMENT)
}
