//! Why a live call ended before its end.

/// Why a live call was given up.
#[derive(Clone, Copy, Debug, PartialEq, Eq)]
pub enum LiveFault {
    /// The link of this leg failed.
    Link { leg: u8 },
    NoMemory,
}
