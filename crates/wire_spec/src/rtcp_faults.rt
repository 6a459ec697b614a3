//! Why RTCP packets are refused.
use thiserror::Error;

/// Why octets are no RTCP packets (RFC 3550, section 6).
#[derive(Clone, Copy, Debug, PartialEq, Eq, Error)]
pub enum RtcpRefusal {
    /// A packet's head or length passes the end.
    #[error("Short")]
    Short,
    /// The version is not 2.
    #[error("Version")]
    Version,
    /// The count of padding octets is 0 or passes the octets that are there.
    #[error("Padding")]
    Padding,
    /// A chunk of a source description passes the end of its packet.
    #[error("Items")]
    Items,
    /// The sources that leave pass the end of their packet.
    #[error("Bye")]
    Bye,
    /// There are more than 64 events.
    #[error("Many")]
    Many,
}
