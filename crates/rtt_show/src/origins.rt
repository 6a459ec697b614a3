//! Where a packet of text comes from.

/// Whose text a packet has, and its sequence number.
#[derive(Clone, Copy)]
pub(crate) struct Origin {
    pub source: u32,
    pub seq: u16,
}
