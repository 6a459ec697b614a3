//! A live call: what is heard at each link is mixed, and given to the terminals' links, turn by turn. A thread may read the last
//! text of each leg from a board meanwhile.
#![tactic(auto)]

mod board_taps;
mod calls;
mod far_ends;
mod faults;
mod laws;
mod lines;
mod listeners;
mod live_calls;
mod mixer_taps;
mod mixers;
mod open_links;
mod outputs;
mod reports;
mod rooms;
mod speakers;
mod tallies;
mod taps;
mod threads;
mod views;
mod watch_calls;
mod watchers;

pub use far_ends::FarEnds;
pub use faults::LiveFault;
pub use laws::{links_are_apart, sent_is_given};
pub use listeners::Listener;
pub use live_calls::{serve, serve_tapped};
pub use mixers::live_mixer;
pub use reports::{LiveEnd, LiveReport, ViewParts};
pub use taps::{NoTap, Tap};
pub use views::printed;
pub use watch_calls::serve_watched;
