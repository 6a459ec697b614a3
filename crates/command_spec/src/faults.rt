//! Why a command does not do its work.
use file_spec::{ConfKind, FrameKind};
use wire_spec::DumpKind;

/// Why what lies in a file is refused.
#[derive(Clone, Copy, Debug, PartialEq, Eq)]
pub enum Refusal {
    /// A recording has no reading: at this byte, for this reason.
    AtByte { byte: u64, kind: DumpKind },
    /// A file of lines is refused: at this line, for this reason.
    AtLine { line: u32, kind: ConfKind },
    /// Frames are refused: at the one that begins at this byte, for this reason. For `ManyFrames` it is the number of octets
    /// that they would have.
    AtFrame { byte: u64, kind: FrameKind },
    /// A leg behind another mixer has other payload types than the recording of what that sent: at this line of the conference.
    AtTrunk { line: u32 },
    /// Mixing a conference is not over after so many turns, which are all that it may have.
    AfterTurns { turns: u32 },
}

/// Why a command did not do its work. A file is named by its role and its number: the files that a command reads are
/// its inputs, those that it writes its outputs, each counted from 0 in the order in which they are first used.
#[derive(Clone, Copy, Debug, PartialEq, Eq)]
pub enum Fault {
    /// The words are outside the word table.
    WrongWords,
    /// An input could not be opened.
    CannotOpen { input: u32 },
    /// An input could not be read to its end.
    CannotRead { input: u32 },
    /// What lies in an input is refused.
    Refused { input: u32, refusal: Refusal },
    /// What is printed could not be written.
    CannotPrint,
    /// An output could not be created or written.
    CannotWrite { output: u32 },
    /// The link of this leg could not be opened, or failed. Legs are counted from 0.
    LinkFailed { leg: u32 },
    /// Memory ran out.
    NoMemory,
}
