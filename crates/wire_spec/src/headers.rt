//! The header of a redundant block.

/// What the header of a redundant block says (RFC 2198, section 3): how far its timestamp lies before the packet's,
/// below 2^14, and how many octets its text has, below 2^10.
#[derive(Clone, Copy, Debug, Default)]
pub struct RedHeader {
    pub offset: u16,
    pub size: u16,
}
