//! Why a file is not read.
use file_spec::ConfKind;
use rtt_base::NoMemory;
use thiserror::Error;

/// Why a file is not read.
#[derive(Clone, Copy, Debug, PartialEq, Eq, Error)]
pub enum ConfFault {
    /// The first bad line, by its number from 1, and why it is refused; line 0 is the file as a whole.
    #[error("line {line}: {kind}")]
    Refused { line: u32, kind: ConfKind },
    /// Memory ran out.
    #[error("out of memory")]
    NoMemory,
}

impl From<NoMemory> for ConfFault {
    ghost use Rattle.std.specs.Prelude.{◌≡◌};
    ghost use Rattle.script_text.specs.declared.faults.ConfFault.TheVariants.{NoMemory};

    ghost from_gives = { λ _ fault. fault ≡ NoMemory };

    fn from(_error: NoMemory) -> ConfFault {
        ConfFault::NoMemory
    }
}
