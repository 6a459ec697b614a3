//! Reads conferences.
#![tactic(auto)]

mod conference_reader;
mod crowds;
mod drafts;
mod entries;
mod follow_lines;
mod leg_lines;
mod long_lines;
mod names;
mod plan_lines;
mod service_lines;
mod stay_lines;

pub use conference_reader::read_conf;
pub use file_spec::{ConfKind, Form};
pub use script_text::ConfFault;
