//! Until when a link may wait for a datagram.
ghost use Rattle.std.specs.Prelude.{◌≡◌, ◌<◌};

use link_io::{Came, LinkTake};

/// Until which moment of its clock a link may wait: turns are at the multiples of `tick`. Both are in milliseconds.
#[derive(Clone, Copy, Debug)]
pub(crate) struct Pace {
    until: u64,
    tick: u64,
    ghost some: { 0 < tick },
}

impl Pace {
    /// That of a link that was not asked yet: it answers at once.
    pub(crate) fn new(tick: u64) -> Pace
        requires { 0 < tick }
    {
        Pace { until: 0, tick }
    }

    /// The moment until which the next take may wait.
    pub(crate) fn until(&self) -> u64 {
        self.until
    }

    /// The same behind a take that gave this. Where the link had nothing, the next one may wait until the turn behind it.
    pub(crate) fn after(self, taken: LinkTake) -> Pace {
        let until = match taken.came {
            Came::Quiet => taken.at.saturating_add(self.tick - taken.at % self.tick),
            _ => self.until,
        };
        Pace {
            until,
            tick: self.tick,
        }
    }
}
