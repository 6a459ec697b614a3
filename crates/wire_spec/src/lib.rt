//! The meaning of packets, blocks and recordings, and of what RTCP tells: definitions and their laws, and hardly any code.
#![tactic(auto)]

mod events;
mod faults;
mod headers;
pub mod laws;
pub mod limits;
mod rtcp_faults;
pub mod rtcp_laws;

pub use events::{Event, Events, SdesName};
pub use faults::{DumpKind, RedFault, RtpFault, TextFault};
pub use headers::RedHeader;
pub use rtcp_faults::RtcpRefusal;

/// How many events one datagram may tell.
pub const MOST_EVENTS: usize = 64;
