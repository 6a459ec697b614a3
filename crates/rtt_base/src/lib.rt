//! What every crate of the bridge speaks of: texts, packets, blocks, the order of timestamps, and dates.
#![tactic(auto)]

mod blocks;
mod buffers;
mod dates;
mod errors;
pub mod laws;
pub mod limits;
mod long_lists;
mod names;
mod octets;
mod paths;
mod records;
mod text_packets;
mod timestamps;

pub use blocks::{Blocks, TextBlock};
pub use buffers::OctetBuffer;
pub use dates::{Date, date_of};
pub use errors::{Failed, Full, NoMemory};
pub use long_lists::{Bytes, GrowingList};
pub use names::Name;
pub use octets::{Octets, Packet, PrimaryText, Text};
pub use paths::Path;
pub use records::{Chunk, Record};
pub use text_packets::{PayloadTypes, TextPacket};
pub use timestamps::after;

#[cfg(test)]
mod calendar_tests;
#[cfg(test)]
mod tests;
