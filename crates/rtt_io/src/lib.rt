//! The outside: what the program reads from and writes to, in memory and for real.
#![tactic(auto)]

mod failing_calls;
mod faults;
mod gates;
mod mem_files;
mod mem_sinks;
mod mem_sources;
mod mem_worlds;
mod new_files;
mod reads;
mod real;
mod sinks;
mod sources;
mod streams;
mod whole;
mod worlds;

pub use failing_calls::FailingCalls;
pub use faults::Faults;
pub use gates::{Gate, StillGate};
pub use mem_sinks::{FailingWrite, MemSink};
pub use mem_sources::{MemSource, SteadySource};
pub use mem_worlds::{FailingCall, MemWorld};
pub use new_files::{NewFile, PartFile};
pub use real::{FileSink, FileSource, RealWorld, StandardError, StandardOutput, StreamSink};
pub use sinks::Sink;
pub use sources::Source;
pub use streams::StoredWriter;
pub use whole::{ReadFault, read_whole};
pub use worlds::World;

#[cfg(test)]
mod tests;
