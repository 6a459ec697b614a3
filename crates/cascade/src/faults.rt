//! Why a conference behind another mixer can't be mixed.
use rtpdump_io::DumpFault;

/// Why it can't. Inputs are counted as for a command, where 0 is the conference: 1 is the recording of what the other mixer sent,
/// and then come those of the legs that don't stand behind it, in leg order.
#[derive(Clone, Copy, Debug, PartialEq, Eq)]
pub enum CascadeFault {
    /// This input can't be opened.
    Open { input: u32 },
    /// This input can't be read to its end.
    Dump { input: u32, fault: DumpFault },
    /// Something is left after the last turn.
    TooLong,
    /// Memory ran out.
    NoMemory,
}
