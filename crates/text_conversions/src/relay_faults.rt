//! Why frames are not sent, and why a recording is not written as frames.
use file_spec::FrameRefusal;
use rtpdump_io::DumpFault;
use thiserror::Error;

/// Why frames are not sent.
#[derive(Clone, Copy, Debug, PartialEq, Eq, Error)]
pub enum RelayFault {
    /// The octets are no frames, or the sender does not take a frame since too much waits: kind `Full`.
    #[error("{0}")]
    Refused(FrameRefusal),
    /// Memory ran out.
    #[error("out of memory")]
    NoMemory,
}

/// Why a recording is not written as frames.
#[derive(Clone, Copy, Debug, PartialEq, Eq, Error)]
pub enum ChannelFault {
    /// The recording can't be read to its end.
    #[error("{0}")]
    Dump(DumpFault),
    /// The frames have more than 1048576 octets: kind `ManyFrames`.
    #[error("{0}")]
    Refused(FrameRefusal),
    /// Memory ran out.
    #[error("out of memory")]
    NoMemory,
}
