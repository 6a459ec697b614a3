//! What a terminal is given that shows one text of many speakers: runs of whole chunks, each behind its speaker's label.
#![tactic(auto)]

mod choices;
mod composers;
mod labels;
mod runs;

pub use composers::Composer;

#[cfg(test)]
mod tests;
