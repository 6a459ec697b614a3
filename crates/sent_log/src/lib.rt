//! A log of what was sent to the terminals of a conference: of each packet a few octets, out of which its octets are made again,
//! and the recordings that are written of it.
#![tactic(auto)]

mod files;
mod logs;
mod memory;
mod pages;
mod pens;
mod records;
mod repeats;
mod runs;
mod terminals;
mod text_lists;
mod turns;
mod writers;

pub use files::{SentFiles, write_alone};
pub use logs::SentLog;
pub use memory::in_memory;
pub use pages::Page;
pub use pens::Pen;

#[cfg(test)]
mod file_tests;
#[cfg(test)]
mod tests;
