//! Days and times of day.
ghost use Rattle.std.specs.Prelude.{◌≡◌, ◌+◌, ◌%◌, ◌<◌, ◌^◌, ◌++◌, ◌∷◌, [], OnOk};
ghost use Rattle.report_spec.specs.Times.{day_of, day_text, day_line, time_text, two_digits, began_line};

use itoa::Buffer;
use rtt_base::{Bytes, NoMemory, date_of};

/// The day of a moment, both counted from the begin of 1970, the moment in milliseconds.
pub fn day_of(moment: u64) -> u64
    ensures { result ≡ day_of moment }
{
    moment / 86_400_000
}

/// The last digit of a number.
#[inline(always)]
fn digit(number: u32) -> u8
    ensures { result ≡ 48 + number % 10 }
{
    b'0' + (number % 10) as u8
}

/// Appends a number of two digits.
fn append_two(number: u32, out: &mut Bytes) -> Result<(), NoMemory>
    ensures { OnOk result (out.new ≡ out.old ++ two_digits number) }
{
    out.append(&[digit(number / 10), digit(number)])
}

/// Appends the time of day of a moment, and this octet.
#[tactic(auto, unfolding(report_spec::specs::Times::time_text))]
pub fn append_time(moment: u64, end: u8, out: &mut Bytes) -> Result<(), NoMemory>
    ensures { OnOk result (out.new ≡ out.old ++ (time_text moment ++ end ∷ [])) }
{
    let hours = (moment / 3_600_000 % 24) as u32;
    let minutes = (moment / 60_000 % 60) as u32;
    let seconds = (moment / 1000 % 60) as u32;
    let rest = (moment % 1000) as u32;
    out.append(&[
        digit(hours / 10),
        digit(hours),
        b':',
        digit(minutes / 10),
        digit(minutes),
        b':',
        digit(seconds / 10),
        digit(seconds),
        b'.',
        digit(rest / 100),
        digit(rest / 10),
        digit(rest),
        end,
    ])
}

/// Appends the date of a day.
#[tactic(auto, unfolding(report_spec::specs::Times::day_text))]
fn append_day(day: u64, out: &mut Bytes) -> Result<(), NoMemory>
    requires { day < 2 ^ 24 }
    ensures { OnOk result (out.new ≡ out.old ++ day_text day) }
{
    let mut digits = Buffer::new();
    let date = date_of(day as u32);
    out.append(digits.format(date.year).as_bytes())?;
    out.append(b"-")?;
    append_two(date.month, out)?;
    out.append(b"-")?;
    append_two(date.day, out)
}

/// Appends a line of the day, where it is another than before: both are counted from the begin of 1970.
pub fn append_day_line(before: u64, day: u64, out: &mut Bytes) -> Result<(), NoMemory>
    requires { day < 2 ^ 24 }
    ensures { OnOk result (out.new ≡ out.old ++ day_line before day) }
{
    if day == before {
        return Ok(());
    }
    out.append(b"-- ")?;
    append_day(day, out)?;
    out.push(b'\n')
}

/// Appends a line that says when a recording began, in milliseconds since 1970.
#[tactic(auto, unfolding(report_spec::specs::Times::began_line))]
pub fn append_began(start: u64, out: &mut Bytes) -> Result<(), NoMemory>
    requires { start < 2 ^ 48 }
    ensures { OnOk result (out.new ≡ out.old ++ began_line start) }
{
    out.append(b"-- began ")?;
    append_day(day_of(start), out)?;
    out.append(b" ")?;
    append_time(start, b'\n', out)
}
