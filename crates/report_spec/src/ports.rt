//! Why a port can't be had.

/// Why a port of this machine can't be had for a link to a peer.
#[derive(Clone, Copy, Debug, PartialEq, Eq)]
pub enum PortFault {
    /// Somebody has it.
    Taken,
    /// Whoever runs the program may not have it.
    NoRight,
    /// The peer has no address of this machine.
    NoAddress,
    /// As many files are open as may be.
    ManyFiles,
    /// Another cause.
    Other,
}
