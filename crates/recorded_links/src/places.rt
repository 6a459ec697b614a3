//! How far the last file of a recording is.
ghost use Rattle.std.specs.Prelude.{◌≤◌};
ghost use Rattle.wire_spec.specs.declared.limits.TheConstants.{MOST_RECORDING_OCTETS};

/// How far the last file of a recording is: the moment at which it begins (milliseconds), and how many octets it has.
#[derive(Clone, Copy, Debug)]
pub(crate) struct FilePosition {
    pub(crate) begins: u64,
    pub(crate) size: u32,
    ghost small: { size ≤ MOST_RECORDING_OCTETS },
}

/// What is pending has at most so many octets.
pub(crate) const MOST_PENDING_OCTETS: usize = 8192;
