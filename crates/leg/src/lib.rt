//! A leg of a conference: what is heard of its source in its recording, step by step, and what plain mixing of such legs comes
//! to.
#![tactic(auto)]

mod core_laws;
mod inlets;
mod item_laws;
mod legs;
mod producers;
mod records;
mod steps;

pub use core_laws::given_is_front;
pub use inlets::LegInlet;
pub use item_laws::{conference_is_asked, done_is_all};
pub use legs::{Leg, LegLost};
pub use steps::LegStep;

#[cfg(test)]
mod core_tests;
#[cfg(test)]
mod item_tests;
