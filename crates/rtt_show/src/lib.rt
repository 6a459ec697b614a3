//! All that a recording has: when it began, what was typed in each stream of text, and what else is there.
#![tactic(auto)]

mod clock;
mod findings;
mod first_sources;
mod groups;
mod heads;
mod hearing_passes;
mod likes;
mod losses;
mod origins;
mod pairs;
mod print_lines;
mod record_kinds;
mod rows;
mod shows;
mod signs;
mod spreads;
mod strays;
mod streams;
mod sums;
mod surveys;
mod views;

pub use clock::{append_began, append_day_line, append_time, day_of};
pub use findings::Findings;
pub use first_sources::FirstSources;
pub use groups::{Group, Groups};
pub use heads::HeadReader;
pub use rows::{Row, row_of};
pub use shows::{gather, show_recording};
pub use views::append_end;
