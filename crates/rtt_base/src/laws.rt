//! The law of dates.
ghost use Rattle.std.specs.Prelude.{◌≡◌, ℕ};
ghost use Rattle.rtt_base.specs.Dates.{IsDate, date_of};

/// Each number of days from 1970-01-01 has a date that there is, and no two have the same one.
pub fn each_day_has_one_date()
    ensures is_date { (n : ℕ) → IsDate (date_of n) }
    ensures one { (m n : ℕ) → date_of m ≡ date_of n → m ≡ n }
{}
