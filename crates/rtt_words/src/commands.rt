//! What the program is asked for.
use crate::Topic;
use rtt_base::PayloadTypes;

/// What `read` and `script` are asked for.
#[derive(Clone, Copy, Debug, PartialEq, Eq)]
pub struct ReadWords<'a> {
    /// The name of the recording.
    pub file: &'a str,
    /// Whose packets.
    pub ssrc: u32,
    /// Whose text in them.
    pub source: u32,
    pub payload_types: PayloadTypes,
}

/// What `list`, `show` and `times` are asked for.
#[derive(Clone, Copy, Debug, PartialEq, Eq)]
pub struct ListWords<'a> {
    /// The name of the recording.
    pub file: &'a str,
    pub payload_types: PayloadTypes,
}

/// What `send` and `relay` are asked for.
#[derive(Clone, Copy, Debug, PartialEq, Eq)]
pub struct SendWords<'a> {
    /// The name of the file with the text, a script or frames.
    pub file: &'a str,
    /// The name of the recording that is made.
    pub out: &'a str,
    pub ssrc: u32,
    /// The first sequence number.
    pub seq: u16,
    /// The timestamp at the time 0.
    pub timestamp: u32,
}

/// What `mix`, `attend`, `live` and `watch` are asked for.
#[derive(Clone, Copy, Debug, PartialEq, Eq)]
pub struct MixWords<'a> {
    /// The name of the conference's file.
    pub conference: &'a str,
}

/// What `make` is asked for.
#[derive(Clone, Copy, Debug, PartialEq, Eq)]
pub struct MakeWords {
    /// The number that the conference is made from, 1 to 1000.
    pub number: u32,
}

/// What `channel` is asked for.
#[derive(Clone, Copy, Debug, PartialEq, Eq)]
pub struct ChannelWords<'a> {
    /// The name of the recording.
    pub file: &'a str,
    /// Whose packets, and whose text in them.
    pub ssrc: u32,
    /// The name of the file of frames that is made.
    pub out: &'a str,
}

/// What `check` is asked for.
#[derive(Clone, Copy, Debug, PartialEq, Eq)]
pub struct CheckWords<'a> {
    /// The name of the file.
    pub file: &'a str,
}

/// What `cascade` is asked for.
#[derive(Clone, Copy, Debug, PartialEq, Eq)]
pub struct CascadeWords<'a> {
    /// The name of the recording of what the other mixer sent.
    pub file: &'a str,
    /// The SSRC under which that sent it.
    pub ssrc: u32,
    /// The name of the conference's file.
    pub conference: &'a str,
}

/// A command, with the words after its name.
#[derive(Clone, Copy, Debug, PartialEq, Eq)]
pub enum Command<'a> {
    /// Shows the text of a source of a recording.
    Read(ReadWords<'a>),
    /// Prints a line for each record of a recording.
    ListRecords(ListWords<'a>),
    /// Sends a typed script into a recording.
    Send(SendWords<'a>),
    /// Mixes a conference over recordings.
    Mix(MixWords<'a>),
    /// Mixes a conference over recordings, with the names and the leavings that their RTCP records tell.
    Attend(MixWords<'a>),
    /// Mixes a conference behind another mixer, with the texts of its legs there.
    Cascade(CascadeWords<'a>),
    /// Mixes a conference that is made from a number.
    Make(MakeWords),
    /// Mixes a conference over UDP links.
    Live(MixWords<'a>),
    /// Mixes a conference over UDP links, while a reader follows its text, and shows how much of each leg's was taken.
    Watch(MixWords<'a>),
    /// Sends frames of text into a recording.
    Relay(SendWords<'a>),
    /// Writes the text of a recording as frames.
    Channel(ChannelWords<'a>),
    /// Prints what was typed in each stream of a recording, and what else is there.
    Show(ListWords<'a>),
    /// Prints what came in a recording, by the clock.
    Times(ListWords<'a>),
    /// Prints the text of a source of a recording as a script.
    Script(ReadWords<'a>),
    /// Prints what a file is, and what is wrong with it.
    Check(CheckWords<'a>),
    /// Prints the words of all commands, or of one its words, what it does and its statuses.
    Help(Topic),
    /// Prints the version of the program.
    Version,
}
