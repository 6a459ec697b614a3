//! What a mixing makes, and why it may make nothing.
use crate::pieces::Piece;
use rtpdump_io::DumpFault;
use sent_log::SentFiles;

/// What a mixing makes. The numbers are sums over all terminals.
#[derive(Drop)]
pub struct Mixed {
    /// What is seen at the terminals, in leg order, one view behind the other, each in one piece or more.
    pub views: Vec<Piece>,
    /// What was sent to each terminal, in leg order, ready to be written.
    pub outs: SentFiles,
    /// How many packets came.
    pub packets: u64,
    /// How many of them were used.
    pub used: u64,
    /// How many markers were added.
    pub markers: u64,
}

/// Why a conference can't be mixed. Legs are counted from 0.
#[derive(Clone, Copy, Debug, PartialEq, Eq)]
pub enum MixFault {
    /// The input of this leg can't be opened.
    Open { leg: u8 },
    /// The input of this leg, the lowest of those that have a fault, can't be read to its end.
    Dump { leg: u8, fault: DumpFault },
    /// Something is left after the last turn.
    TooLong,
    /// Memory ran out.
    NoMemory,
}
