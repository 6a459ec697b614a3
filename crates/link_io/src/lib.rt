//! Links to the terminals of a live call: what comes from them and what goes to them, in memory and over UDP.
#![tactic(auto)]

mod beats;
mod bells;
mod clocks;
mod ends;
mod links;
mod mem_ins;
mod mem_links;
mod mem_outs;
mod mem_ports;
mod peers;
mod real_ends;
mod real_links;

pub use beats::Beat;
pub use ends::{Came, LinkIn, LinkOut, LinkTake};
pub use links::Links;
pub use mem_ins::{MemIn, PlannedTake, TakeLog};
pub use mem_links::{FailingLink, MemLinks};
pub use mem_outs::{GivenPacket, MemOut};
pub use peers::{Peer, peer_of};
pub use real_ends::{RealIn, RealOut, UdpClock};
pub use real_links::RealLinks;

#[cfg(test)]
mod tests;
