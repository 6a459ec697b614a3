//! What a reader of a recording answers.
ghost use Rattle.std.specs.Prelude.{◌≡◌};
ghost use Rattle.rtpdump_io.specs.Calls.{unless_end};
ghost use Rattle.rtpdump_io.specs.declared.items.RecordingFault.TheVariants.{NoMemory};

use rtt_base::NoMemory as OutOfMemory;
use thiserror::Error;
use wire_spec::DumpKind;

/// What stands next in a recording. `at` is the record's time, in milliseconds.
#[derive(Clone, Copy, Debug, PartialEq, Eq)]
pub enum DumpItem {
    /// A packet, whose octets are handed out beside it.
    Packet { at: u32 },
    /// A record of RTCP.
    Rtcp { at: u32 },
    /// A packet of which not all octets were recorded.
    Cut { at: u32 },
    /// A packet of more than 4224 octets.
    Large { at: u32 },
    /// The end of the recording.
    End,
}

impl DumpItem {
    /// What it is, unless it is the end.
    #[inline(always)]
    pub(crate) fn unless_end(self) -> Option<DumpItem>
        ensures { result ≡ unless_end self }
    {
        match self {
            DumpItem::End => None,
            item => Some(item),
        }
    }
}

/// Why a recording can't be read further.
#[derive(Clone, Copy, Debug, PartialEq, Eq, Error)]
#[error("byte {offset}: {kind}")]
pub struct DumpFault {
    /// The first octet of the line, the head or the record that was being read, counted from 0.
    pub offset: u64,
    pub kind: DumpKind,
}

/// Why a recording was not read to its end.
#[derive(Clone, Copy, Debug, PartialEq, Eq)]
pub enum RecordingFault {
    /// It can't be read further.
    Dump(DumpFault),
    NoMemory,
}

impl From<OutOfMemory> for RecordingFault {
    ghost from_gives = { λ _ fault. fault ≡ NoMemory };

    fn from(_error: OutOfMemory) -> RecordingFault {
        RecordingFault::NoMemory
    }
}
