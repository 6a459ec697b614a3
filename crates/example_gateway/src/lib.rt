//! A gateway in small, to be copied by who builds on the mixer: it hears legs, mixes their text, and writes what each terminal is sent.
#![tactic(auto)]

mod gateways;
mod legs;

pub use gateways::{Gateway, Terminals};

#[cfg(test)]
mod tests;
