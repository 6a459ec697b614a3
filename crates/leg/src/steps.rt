//! What a leg answers.

/// One step of a leg.
#[derive(Clone, Copy, Debug, PartialEq, Eq)]
pub enum LegStep {
    /// The next text that was heard, which is handed out beside it.
    Chunk,
    /// A record was read, and no heard text is left.
    More,
    /// The recording was read to its end, and no heard text is left.
    End,
}
