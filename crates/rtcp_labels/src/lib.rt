//! RTCP packets that tell names and leavings (RFC 3550, section 6): read and written.
#![tactic(auto)]

mod bodies;
mod chunks;
mod notes;
mod readers;
mod writers;

pub use readers::read_rtcp;
pub use wire_spec::{Event, Events, RtcpRefusal, SdesName};
pub use writers::{write_bye, write_sdes};

#[cfg(test)]
mod tests;
