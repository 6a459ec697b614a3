//! The inputs of a conference behind another mixer, by their numbers: 1 is the recording, and then come those of the legs that
//! don't stand behind that mixer, in leg order.
ghost use Rattle.std.specs.Prelude.{◌≡◌, ◌+◌, ◌<◌, ◌≤◌, ◌^◌, length};
ghost use Rattle.cascade.specs.Inputs.{input_name, input_number, number_from, own_name};
ghost use Rattle.file_spec.specs.declared.limits.TheConstants.{MOST_LEGS};

use crate::trunks::is_on_trunk;
use file_spec::LegLine;

/// The number of the input of the leg at this place, where those of the legs that don't stand behind the other mixer have the
/// numbers from `first` on.
fn number_from(first: u32, legs: &[LegLine], leg: usize) -> u32
    requires few { first + length legs.now < 2 ^ 32 }
    ensures { result ≡ number_from first legs.now leg }
{
    match legs {
        [head, more @ ..] => {
            let behind = is_on_trunk(head);
            if leg == 0 {
                return if behind { 1 } else { first };
            }
            if behind {
                return number_from(first, more, leg - 1);
            }
            number_from(first + 1, more, leg - 1)
        }
        [] => first,
    }
}

/// The number of the input of this leg.
pub(crate) fn input_number(legs: &[LegLine], leg: usize) -> u32
    requires few { length legs.now ≤ MOST_LEGS }
    ensures { result ≡ input_number legs.now leg }
{
    number_from(2, legs, leg)
}

/// The name of the input at this place among those of the legs that don't stand behind the other mixer, or else this name.
fn own_name<'a>(other: &'a str, legs: &'a [LegLine], place: u32) -> &'a str
    ensures { result.now ≡ own_name other.now legs.now place }
{
    match legs {
        [leg, more @ ..] => {
            if is_on_trunk(leg) {
                return own_name(other, more, place);
            }
            if place == 0 {
                return leg.input.as_str();
            }
            own_name(other, more, place - 1)
        }
        [] => other,
    }
}

/// The name of the input of this number, where `file` has the recording. It is `file` for each number that is none.
pub fn input_name<'a>(file: &'a str, legs: &'a [LegLine], input: u32) -> &'a str
    ensures { result.now ≡ input_name file.now legs.now input }
{
    if input < 2 {
        return file;
    }
    own_name(file, legs, input - 2)
}
