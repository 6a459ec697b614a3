//! How many legs stay at one moment.
ghost use Rattle.std.specs.Prelude.{◌≡◌};
ghost use Rattle.file_spec.specs.Stays.{is_crowd, staying};

use file_spec::LegLine;
use file_spec::limits::MOST_STAYING;

fn count_at(legs: &[LegLine], at: u32) -> usize
    ensures { result ≡ staying at legs.now }
{
    legs.iter()
        .filter(|leg| leg.stay.contains(u64::from(at)))
        .count()
}

/// Whether at some moment more legs stay than the mixer has places. It looks at the legs once for each, at the moment at
/// which it comes.
pub(crate) fn has_crowd(legs: &[LegLine]) -> bool
    ensures { result ≡ is_crowd legs.now }
{
    legs.iter()
        .any(|leg| count_at(legs, leg.stay.from) > MOST_STAYING)
}
