//! The numbers at the end of a view.

/// How many packets came to a terminal, and what became of them.
#[derive(Clone, Copy, Debug, Default, PartialEq, Eq)]
pub struct Counts {
    /// All packets that came.
    pub packets: u64,
    /// Those whose text was used.
    pub used: u64,
    /// Those that are no packets of text.
    pub refused: u64,
    /// Those of another sender.
    pub foreign: u64,
}
