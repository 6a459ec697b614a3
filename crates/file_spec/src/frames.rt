//! Frames of typed text.
use crate::FrameKind;
use rtt_base::Text;
use thiserror::Error;

/// A text of a reliable channel, and the moment in milliseconds at which it was typed.
#[derive(Debug, Default, Drop)]
pub struct Frame {
    pub at: u32,
    pub text: Text,
}

/// Why octets are read no further as frames, or why the frames of a file are not sent or not written.
#[derive(Clone, Copy, Debug, PartialEq, Eq, Error)]
#[error("byte {offset}: {kind}")]
pub struct FrameRefusal {
    /// The first octet of the frame, counted from 0; the number of octets of all frames for `ManyFrames`.
    pub offset: u64,
    pub kind: FrameKind,
}
