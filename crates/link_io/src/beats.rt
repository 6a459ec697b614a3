//! How often a clock has paused.
ghost use Rattle.std.specs.Prelude.{◌≡◌};
ghost use Rattle.rtt_io.specs.Counts.{last_count};

use std::marker::PhantomData;

/// How often a clock of this kind has paused. Only links make one, of their own clock, which can't pause while there is one.
#[derive(Drop)]
pub struct Beat<'c, C> {
    pub(crate) pauses: u64,
    clock: PhantomData<&'c C>,
}

impl<'c, C> Beat<'c, C> {
    /// The beat of a clock that has paused so often, for as long as this count of it is lent.
    pub(crate) fn of(pauses: &'c u64) -> Beat<'c, C>
        ensures { result.pauses ≡ pauses.now }
    {
        Beat {
            pauses: *pauses,
            clock: PhantomData,
        }
    }

    /// A beat of no clock, behind all pauses that can be counted.
    pub fn last() -> Beat<'c, C>
        ensures { result.pauses ≡ last_count }
    {
        Beat {
            pauses: u64::MAX,
            clock: PhantomData,
        }
    }
}
