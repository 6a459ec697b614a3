//! The mixer, as the loop of mixing calls it: what a turn sends is given to an outbound, post by post. The stream to each
//! terminal, and its sources.
#![tactic(auto)]

mod laws;
mod mixers;
mod outbounds;
mod posts;
mod streams;

pub use laws::posts_are_entered;
pub use mixers::SendingMixer;
pub use outbounds::PostSink;
pub use streams::{sources_to, ssrcs_of, stream_to};
