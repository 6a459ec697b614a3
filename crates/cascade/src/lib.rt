//! A cascade of two mixers: a recording of what the one sent is split into the texts of its sources, and mixed with the other
//! legs of a conference.
#![tactic(auto)]

mod cascades;
mod dividers;
mod faults;
mod feeds;
mod inputs;
mod laws;
mod routes;
mod splits;
mod splitters;
mod trunk_sources;
mod trunks;

pub use cascades::cascade;
pub use faults::CascadeFault;
pub use inputs::input_name;
pub use laws::all_splits_are_whole;
pub use splits::{DemuxSettings, Splits, split};
pub use trunk_sources::{SplitSource, TrunkSource};
pub use trunks::odd_line;
