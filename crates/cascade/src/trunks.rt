//! The legs that stand behind another mixer.
ghost use Rattle.std.specs.Prelude.{◌≡◌};
ghost use Rattle.command_spec.specs.Cascading.{has_other_types, is_on_trunk, odd_line};

use file_spec::LegLine;
use file_spec::limits::{USUAL_RED, USUAL_T140};

/// Whether a leg stands behind the other mixer.
pub(crate) fn is_on_trunk(leg: &LegLine) -> bool
    ensures { result ≡ is_on_trunk leg.now }
{
    leg.input.as_str() == "trunk"
}

/// Whether it does, and has other payload types than the recording.
fn has_other_types(leg: &LegLine) -> bool
    ensures { result ≡ has_other_types leg.now }
{
    is_on_trunk(leg)
        && !(leg.payload_types.t140 == USUAL_T140 && leg.payload_types.red == USUAL_RED)
}

/// The line of the first leg behind the other mixer that has other payload types than the recording.
pub fn odd_line(legs: &[LegLine]) -> Option<u32>
    ensures { result ≡ odd_line legs.now }
{
    match legs {
        [leg, more @ ..] => {
            if has_other_types(leg) {
                return Some(leg.line);
            }
            odd_line(more)
        }
        [] => None,
    }
}
