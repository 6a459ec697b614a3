//! Why frames are refused.
use thiserror::Error;

/// Why frames are refused: five kinds that reading tells, one of sending and one of writing.
#[derive(Clone, Copy, Debug, PartialEq, Eq, Error)]
pub enum FrameKind {
    /// The frame's time is before that of the frame in front of it, or is not below 2^24.
    #[error("Time")]
    Time,
    /// The length of the frame's text is not one of 1 to 1023.
    #[error("Length")]
    Length,
    /// The frame ends past the greatest length of all frames.
    #[error("TooLarge")]
    TooLarge,
    /// The frame's text is not UTF-8.
    #[error("NotText")]
    NotText,
    /// The octets end inside the frame.
    #[error("EndsInside")]
    EndsInside,
    /// More text waits with the frame's than a sender holds.
    #[error("Full")]
    Full,
    /// The frames of a recording have more octets than frames may have.
    #[error("ManyFrames")]
    ManyFrames,
}
