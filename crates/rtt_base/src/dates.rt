//! The date of a day.
ghost use Rattle.std.specs.Prelude.{◌≡◌, ◌+◌, ◌<◌, ◌≤◌, ◌^◌, ◌%◌, ◌==◌};
ghost use Rattle.rtt_base.specs.Dates.{is_leap, month_length, date_of};

/// A date: the year, the month from 1, and the day of the month from 1.
#[derive(Clone, Copy, Debug, PartialEq, Eq)]
pub struct Date {
    pub year: u32,
    pub month: u32,
    pub day: u32,
}

fn is_leap(year: u32) -> bool
    ensures { result ≡ is_leap year }
{
    if year % 100 == 0 {
        year % 400 == 0
    } else {
        year % 4 == 0
    }
}

/// How many days this month of the year has.
fn month_length(year: u32, month: u32) -> u32
    ensures length { result ≡ month_length year month }
    ensures some { 28 ≤ result }
    ensures few { result ≤ 31 }
{
    if month == 2 {
        return if is_leap(year) { 29 } else { 28 };
    }
    if month == 4 || month == 6 || month == 9 || month == 11 {
        30
    } else {
        31
    }
}

/// The date so many days after 1970-01-01, below 2^24 days.
pub fn date_of(days: u32) -> Date
    requires { days < 2 ^ 24 }
    ensures { result ≡ date_of days }
{
    let mut year = 1970;
    let mut month = 1;
    let mut rest = days;
    while rest >= month_length(year, month) {
        rest -= month_length(year, month);
        if month == 12 {
            year += 1;
            month = 1;
        } else {
            month += 1;
        }
    }
    Date {
        year,
        month,
        day: rest + 1,
    }
}
