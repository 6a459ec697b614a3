//! What an ear answers.

/// What became of a packet that was to be heard where it lies.
#[derive(Clone, Copy, Debug, PartialEq, Eq)]
pub enum PlainAnswer {
    /// It is to be heard in the other way. Nothing is changed.
    NotPlain,
    /// It was heard, and no text is heard of it.
    Nothing,
    /// It was heard, and its text is handed out beside this answer.
    Chunk,
}
