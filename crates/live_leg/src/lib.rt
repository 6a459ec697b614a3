//! A leg: what is heard of the datagrams that come, item by item.
#![tactic(auto)]

mod arrivals;
mod encounters;
mod gives;
mod items;
mod kinds;
mod legs;
mod paced_links;
mod paces;
mod senders;
mod settings;
mod states;
mod steps;
mod takes;
mod tallies;

pub use arrivals::Arrivals;
pub use items::LegItem;
pub use kinds::ItemKind;
pub use legs::Leg;
pub use paced_links::{LinkItem, LinkLeg, LinkStop, PacedLink};
pub use settings::LegSettings;
pub use tallies::LegTally;

#[cfg(test)]
mod tests;
