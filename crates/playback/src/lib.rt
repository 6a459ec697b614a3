//! Playback of what was sent to a terminal: what comes to it by the plan of a conference, and what is heard and counted there.
#![tactic(auto)]

mod copies;
mod fates;
mod heard_texts;
mod indexes;
pub mod plan_laws;
pub mod played_laws;
mod sent_texts;

pub use copies::{Arrival, arrivals};
pub use heard_texts::{hears_as_sent, played};

#[cfg(test)]
mod tests;
