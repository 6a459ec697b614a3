//! What a file is, and what a line of a conference tells.

/// What a file is, by its first octets or its first line.
#[derive(Clone, Copy, Debug, PartialEq, Eq)]
pub enum FileForm {
    /// Octets that gzip wrote.
    Gzip,
    /// A capture of tcpdump.
    Pcap,
    /// A capture of Wireshark.
    PcapNg,
    /// More octets than any file has that the program takes.
    TooLarge,
    /// No octets.
    Empty,
    /// Text in two octets a character.
    Utf16,
    /// None of the others.
    Nothing,
    /// A recording, in the form of rtpdump.
    Recording,
    /// Frames of text.
    Frames,
    /// A script.
    Script,
    /// A conference of recordings.
    Recordings,
    /// A conference of links.
    Links,
}

/// What a line of a conference tells, by its first word.
#[derive(Clone, Copy, Debug, PartialEq, Eq)]
pub enum LineWord {
    Leg,
    Mixer,
    Generations,
    Stay,
    Tick,
    Spacing,
    Wait,
    Turns,
    Relabel,
    Mtu,
    Gone,
    Operator,
    Record,
    Follow,
    Counts,
    Long,
    Lose,
    Delay,
    Twice,
    /// None of the others.
    Other,
}
