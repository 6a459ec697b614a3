//! What is handed from one part of the bridge to the next.
use crate::{Bytes, Text};

/// A heard text: its source's place among the legs, the moment in milliseconds from which it may be mixed, and
/// the text, which is not empty and is UTF-8.
#[derive(Debug, Default, Drop)]
pub struct Chunk {
    pub source: u8,
    pub ready: u64,
    pub text: Text,
}

/// A packet of a recording: the moment in milliseconds at which it was sent, and its octets.
#[derive(Debug, Drop)]
pub struct Record {
    pub at: u32,
    pub bytes: Bytes,
}
