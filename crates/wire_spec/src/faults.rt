//! Why a packet, its blocks or a recording is refused.
ghost use Rattle.std.specs.Prelude.{◌≡◌};

use thiserror::Error;

/// Why octets are no RTP packet (RFC 3550, section 5.1).
#[derive(Clone, Copy, Debug, PartialEq, Eq, Error)]
pub enum RtpFault {
    /// The header, a CSRC word or the extension passes the end.
    #[error("Short")]
    Short,
    /// The version is not 2.
    #[error("Version")]
    Version,
    /// The count of padding octets is 0 or passes the octets that are there.
    #[error("Padding")]
    Padding,
}

/// Why a payload is no list of text blocks (RFC 2198, section 3).
#[derive(Clone, Copy, Debug, PartialEq, Eq, Error)]
pub enum RedFault {
    /// A payload type is not that of text.
    #[error("WrongType")]
    WrongType,
    /// A header or a text passes the end.
    #[error("Cut")]
    Cut,
    /// There are more than eight redundant blocks.
    #[error("Many")]
    Many,
    /// The primary text has more than 1023 octets.
    #[error("Long")]
    Long,
    /// A text is not UTF-8.
    #[error("NotText")]
    NotText,
}

/// Why octets are no packet of text: the refusals of the header and of the blocks, and three of its own.
#[derive(Clone, Copy, Debug, PartialEq, Eq, Error)]
pub enum TextFault {
    /// The header, a CSRC word or the extension passes the end.
    #[error("Short")]
    Short,
    /// The version is not 2.
    #[error("Version")]
    Version,
    /// The count of padding octets is 0 or passes the octets that are there.
    #[error("Padding")]
    Padding,
    /// There is more than one CSRC (RFC 9071, section 3.5).
    #[error("Sources")]
    Sources,
    /// A payload type is not that of text.
    #[error("WrongType")]
    WrongType,
    /// A header or a text passes the end.
    #[error("Cut")]
    Cut,
    /// There are more than eight redundant blocks.
    #[error("Many")]
    Many,
    /// The primary text has more than 1023 octets, or the packet more than 4224.
    #[error("Long")]
    Long,
    /// A text is not UTF-8.
    #[error("NotText")]
    NotText,
    /// The SSRC is not the one that was asked for.
    #[error("Foreign")]
    Foreign,
}

impl From<RtpFault> for TextFault {
    ghost use Rattle.wire_spec.specs.Faults.{header_fault};

    ghost from_gives = { λ fault result. result ≡ header_fault fault };

    fn from(fault: RtpFault) -> TextFault {
        match fault {
            RtpFault::Short => TextFault::Short,
            RtpFault::Version => TextFault::Version,
            RtpFault::Padding => TextFault::Padding,
        }
    }
}

impl From<RedFault> for TextFault {
    ghost use Rattle.wire_spec.specs.Faults.{blocks_fault};

    ghost from_gives = { λ fault result. result ≡ blocks_fault fault };

    fn from(fault: RedFault) -> TextFault {
        match fault {
            RedFault::WrongType => TextFault::WrongType,
            RedFault::Cut => TextFault::Cut,
            RedFault::Many => TextFault::Many,
            RedFault::Long => TextFault::Long,
            RedFault::NotText => TextFault::NotText,
        }
    }
}

/// Why a recording can't be read further.
#[derive(Clone, Copy, Debug, PartialEq, Eq, Error)]
pub enum DumpKind {
    /// It does not begin with the line of a recording.
    #[error("NotDump")]
    NotDump,
    /// A record's length is below that of its own head.
    #[error("BadLength")]
    BadLength,
    /// It ends inside its head or a record.
    #[error("EndsInside")]
    EndsInside,
    /// A record's time is past four hours.
    #[error("TooLong")]
    TooLong,
    /// A record ends past the greatest length of a recording.
    #[error("TooLarge")]
    TooLarge,
    /// Reading failed.
    #[error("Read")]
    Read,
}
