//! What a live call comes to by what its links gave, what it prints and promises, and what it writes down of its links:
//! definitions, and laws.
#![tactic(auto)]

mod laws;
pub mod record_laws;
mod serve_laws;

pub use laws::{live_is_heard, parts_are_kept, senders_take_over, tallies_add_up};
pub use serve_laws::{
    calls_tell_in_turn, links_are_apart, links_stay, live_calls_keep, one_sender_is_heard,
};
