//! One command of the program: words in, a status out.
#![tactic(auto)]

mod channel;
mod check;
mod commands;
mod conferences;
mod conversions;
mod files;
mod help;
pub mod laws;
mod make;
mod messages;
mod mix;
mod mix_modes;
mod name_texts;
mod names;
mod recordings;
mod relay;
mod runs;
mod send;
mod serve_modes;
mod trunk;
mod version;
mod views;

pub use messages::finish_with;
pub use runs::{run, run_plain};
