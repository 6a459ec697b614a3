//! Workers: a bounded queue from one thread to another, whose two ends know what went through it, and what gives items at it, on
//! a thread of its own or step by step at who pops them.
#![tactic(auto)]

mod ends;
mod feeds;
mod gates;
mod gives;
mod lanes;
mod limits;
mod lists;
mod loans;
mod passes;
mod pops;
mod producers;
mod queues;
mod reuse;
mod rooms;
mod rule;
mod sleepers;
mod starts;
mod threads;

pub use feeds::Feed;
pub use gates::LentGate;
pub use gives::Producer;
pub use lanes::Worker;
pub use limits::MOST_QUEUED;
pub use lists::{join_lanes, start_lanes};
pub use loans::lend;
pub use passes::{ItemQueue, PopPass, PushPass};
pub use reuse::Reusable;
pub use rooms::{WorkerRoom, WorkerSet};
pub use threads::run_feed;

#[cfg(test)]
mod lane_tests;
#[cfg(test)]
mod queue_tests;
