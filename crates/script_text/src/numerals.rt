//! Numbers as they are written in command words and files.

ghost use Rattle.std.specs.Prelude.{◌≡◌, ◌≤◌, true, IfSome};
ghost use Rattle.std.specs.Char.{is_ascii_digit, digit_value};
ghost use Rattle.file_spec.specs.Numbers.{number, number_between, payload_types};
ghost use Rattle.file_spec.specs.Sound.{IsBetween};
ghost use Rattle.script_text.specs.Fronts.{AreInFront, number_and_rest, number_and_octets};

use file_spec::limits::{FIRST_TYPE, LAST_TYPE};
use rtt_base::PayloadTypes;

/// The digits at the front of a text, at most ten of them.
#[derive(Clone, Copy)]
struct Front {
    /// The number that they write.
    value: u64,
    /// How many they are.
    len: usize,
}

/// The value of a digit.
fn value_of_digit(digit: u8) -> u64
    requires { is_ascii_digit digit ≡ true }
    ensures value { result ≡ digit_value digit }
    ensures small { result ≤ 9 }
{
    u64::from(digit - b'0')
}

fn digits_in_front(text: &[u8]) -> Front
    ensures { AreInFront text.now result }
{
    let most = text.len().min(10);
    let mut value = 0;
    for len in 0..most {
        let digit = text[len];
        if !digit.is_ascii_digit() {
            return Front { value, len };
        }
        value = 10 * value + value_of_digit(digit);
    }
    Front { value, len: most }
}

/// A number of one to ten decimal digits that is at most `most`.
pub fn number_of(text: &str, most: u32) -> Option<u32>
    ensures exact { result ≡ number most text.now }
    ensures fits { IfSome result (λ n. n ≤ most) }
{
    let digits = digits_in_front(text.as_bytes());
    if text.is_empty() || digits.len < text.len() {
        return None;
    }
    let value = digits.value;
    if value > u64::from(most) {
        return None;
    }
    Some(value as u32)
}

/// A number of one to ten decimal digits before the first space that is at most `most`, and what stands after that
/// space.
pub fn number_before_space(text: &[u8], most: u32) -> Option<(u32, &[u8])>
    ensures exact { number_and_octets result ≡ number_and_rest most text.now }
    ensures fits { IfSome result (λ x. x.0 ≤ most) }
{
    let digits = digits_in_front(text);
    if digits.len == text.len() {
        return None;
    }
    if text[digits.len] != b' ' {
        return None;
    }
    if digits.len == 0 {
        return None;
    }
    if digits.value > u64::from(most) {
        return None;
    }
    Some((digits.value as u32, &text[digits.len + 1..]))
}

/// The same of a number that is at least `least`.
pub fn number_from(text: &str, least: u32, most: u32) -> Option<u32>
    ensures exact { result ≡ number_between least most text.now }
    ensures fits { IfSome result (λ n. IsBetween least most n) }
{
    let value = number_of(text, most)?;
    if value < least {
        return None;
    }
    Some(value)
}

/// The two payload types, if both are of the dynamic ones (RFC 3551, section 3).
pub fn payload_types_of(t140: &str, red: &str) -> Option<PayloadTypes>
    ensures { result ≡ payload_types t140.now red.now }
{
    let t140 = number_from(t140, FIRST_TYPE, LAST_TYPE)?;
    let red = number_from(red, FIRST_TYPE, LAST_TYPE)?;
    Some(PayloadTypes {
        t140: t140 as u8,
        red: red as u8,
    })
}
