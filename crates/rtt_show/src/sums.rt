//! Counts.
ghost use Rattle.std.specs.Prelude.{◌≡◌, ◌≤◌};
ghost use Rattle.rtt_show.specs.Finds.{one_if as ones};

/// 1 where it is so, and else 0.
pub(crate) fn one_if(flag: bool) -> u64
    ensures value { result ≡ ones flag }
    ensures small { result ≤ 1 }
{
    if flag {
        return 1;
    }
    0
}
