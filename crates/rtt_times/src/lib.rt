//! What came in a recording, by the clock: each text, and which numbers were lost or late.
#![tactic(auto)]

mod lines;
mod numbers;
mod rows;
mod stream_packets;
mod texts;
mod times;

pub use times::times_recording;
