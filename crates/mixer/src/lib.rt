//! The mixer of a conference (profile): calls that bring legs in and offer texts, and a turn that says what is sent to whom.
#![tactic(auto)]

mod batches;
mod builders;
mod calm;
mod laws;
mod looks;
mod mixers;
mod turns;
mod wakes;

pub use batches::{Batch, Post};
pub use laws::{
    allowed_are_events, asks_come_before, batches_are_sent, chunks_go_once, due_legs_are_served,
    one_text_is_composed, packets_come_near, sent_is_lawful, texts_wait, turns_send_next,
};
pub use mixers::Mixer;

#[cfg(test)]
mod tests;
