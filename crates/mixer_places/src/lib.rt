//! Places of a mixer: who holds which, who came, and who listens (profile); and the text that waits there: each chunk of a source
//! is kept once, and each terminal has its place in the source's text.
#![tactic(auto)]

mod lanes;
mod parts;
mod rings;
mod seats;
mod slots;

pub use seats::SeatingPlan;
pub use slots::Slots;

#[cfg(test)]
mod seat_tests;
#[cfg(test)]
mod slot_tests;
