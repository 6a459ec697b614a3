//! Why a script is not sent.
use rtt_base::NoMemory;
use thiserror::Error;

/// Why a script is not sent.
#[derive(Clone, Copy, Debug, PartialEq, Eq, Error)]
pub enum SendFault {
    /// The first line whose text the sender does not take, since too much waits, by its number in the file.
    #[error("line {line}: Full")]
    Full { line: u32 },
    /// Memory ran out.
    #[error("out of memory")]
    NoMemory,
}

impl From<NoMemory> for SendFault {
    ghost use Rattle.std.specs.Prelude.{◌≡◌};
    ghost use Rattle.text_conversions.specs.declared.send_faults.SendFault.TheVariants.{NoMemory};

    ghost from_gives = { λ _ fault. fault ≡ NoMemory };

    fn from(_error: NoMemory) -> SendFault {
        SendFault::NoMemory
    }
}
