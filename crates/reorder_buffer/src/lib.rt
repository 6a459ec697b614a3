//! The order of one stream's packets: a tracker numbers what comes, holds what came too early, and gives the packets
//! out in order, each at the moment at which nothing before it is waited for any longer.
#![tactic(auto)]

mod answers;
mod buffers;
mod holds;
mod lines;
mod numbers;
mod pool;

pub use answers::{Due, Taken};
pub use buffers::ReorderBuffer;
