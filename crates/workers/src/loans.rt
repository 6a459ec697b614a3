//! Lending what may not be let go to a closure.
ghost use Rattle.std.specs.Prelude.{◌≡◌};
ghost use Rattle.std.specs.Mem.{manually_drop_value};

use std::mem::ManuallyDrop;

/// Lends a value to a closure that gives it back, or to who joins a thread. What a closure holds and what a thread answers are
/// values that may be let go, and what gives items may not be. No memory is at stake: a value that nobody takes back is lost, with
/// what it was to hand back. Each clause here says that what was lent is there again.
///
/// # Safety
///
/// Who lends a value sees to it that it is taken back by `into_inner`, once and in every case.
pub unsafe fn lend<T>(value: T) -> ManuallyDrop<T>
    ensures { manually_drop_value result ≡ value }
{
    unsafe { ManuallyDrop::new_unchecked(value) }
}
