//! When a turn is made.
ghost use Rattle.std.specs.Prelude.{◌≡◌, ◌≤◌, ◌<◌, ◌+◌, ◌-◌, ◌%◌, ◌^◌, min};

/// The last moment that a clock tells.
const LAST_MOMENT: u64 = (1 << 47) - 1;

/// The first multiple of `tick` from `began` on, or the last moment. All are in milliseconds.
pub(crate) fn first_tick(began: u64, tick: u64) -> u64
    requires began { began < 2 ^ 47 }
    requires tick { 0 < tick }
    requires short { tick ≤ 400 }
    ensures { result ≡ min (began + (tick - began % tick) % tick) (2 ^ 47 - 1) }
{
    (began + (tick - began % tick) % tick).min(LAST_MOMENT)
}

/// When the turn is due behind the one that was due at `due`: some ticks later, and behind `now`; or at the last moment. All are in
/// milliseconds.
pub(crate) fn next_tick(due: u64, now: u64, tick: u64) -> u64
    requires due { due < 2 ^ 47 }
    requires now { now < 2 ^ 47 }
    requires tick { 0 < tick }
    requires short { tick ≤ 400 }
    ensures { result ≡ min (due + ((now - due) + (tick - (now - due) % tick))) (2 ^ 47 - 1) }
{
    let late = now.saturating_sub(due);
    (due + (late + (tick - late % tick))).min(LAST_MOMENT)
}
