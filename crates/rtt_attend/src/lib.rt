//! What a conference's inputs tell: the names of those who speak, and when they left, by RTCP; and how much came.
#![tactic(auto)]

mod input_notes;
mod inputs;
mod leg_changes;
mod open_inputs;
mod source_notes;
mod sums;

pub use input_notes::{count_inputs, hear_names};
