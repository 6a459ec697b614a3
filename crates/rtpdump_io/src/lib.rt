//! Recordings of packets, in the file form of rtpdump.
#![tactic(auto)]

mod in_memory;
mod inputs;
mod items;
mod openings;
mod readers;
mod record_heads;
mod writers;

pub use in_memory::{next_record, records_of};
pub use items::{DumpFault, DumpItem, RecordingFault};
pub use readers::DumpReader;
pub use writers::{write_dump, write_opening, write_record};
