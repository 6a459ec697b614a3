//! Links of a call that a BYE over RTCP, or a silence that lasts too long, closes, and of which an operator asks how the call
//! stands, and stops it.
#![tactic(auto)]

mod courses;
mod datagrams;
mod desks;
mod leaving_ends;
mod leaving_links;
mod lines;
mod operated_ends;
mod operated_links;
mod operators;
mod peers;
mod real_ports;
mod requests;
mod seats;
mod silence;

pub use desks::Desk;
pub use leaving_ends::LeavingIn;
pub use leaving_links::LeavingLinks;
pub use operated_ends::OperatedIn;
pub use operated_links::OperatedLinks;
pub use operators::{Operator, OperatorPort};
pub use real_ports::RealPort;
pub use silence::Silence;

#[cfg(test)]
mod leaving_tests;
#[cfg(test)]
mod operated_tests;
