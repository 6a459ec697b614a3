//! The numbers of a leg.

/// What is counted of what came of a leg.
#[derive(Clone, Copy, Debug, Default, PartialEq, Eq)]
pub struct Tally {
    /// The packets, or datagrams, that came.
    pub came: u64,
    /// How many of them were packets of text of one who is heard.
    pub text: u64,
    /// How many were no packet of text with the payload types of the leg, or too large.
    pub refused: u64,
    /// How many were packets of text of one who is not heard: they are passed over.
    pub foreign: u64,
    /// How many senders were heard.
    pub senders: u64,
}
