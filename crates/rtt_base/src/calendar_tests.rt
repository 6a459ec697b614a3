use crate::{Date, date_of};
use std::process::Abort;

#[test]
fn days_have_their_dates(rt: HostRuntime) {
    let days: [(u32, (u32, u32, u32)); 9] = [
        (0, (1970, 1, 1)),
        (58, (1970, 2, 28)),
        (59, (1970, 3, 1)),
        (364, (1970, 12, 31)),
        (365, (1971, 1, 1)),
        (789, (1972, 2, 29)),
        (11016, (2000, 2, 29)),
        (20785, (2026, 11, 28)),
        (49710, (2106, 2, 7)),
    ];
    for (number, (year, month, day)) in days {
        let date = date_of(number);
        assert!(rt; date.year == year && date.month == month && date.day == day);
    }
}
