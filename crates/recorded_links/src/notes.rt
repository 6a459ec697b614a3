//! What stands in a batch of one entry.
ghost use Rattle.std.specs.Prelude.{◌≤◌, ◌<◌, ◌^◌};
ghost use Rattle.rtt_base.specs.declared.limits.TheConstants.{MOST_PACKET_OCTETS};

/// How many octets came, or were given, and the moment (milliseconds).
#[derive(Clone, Copy, Debug)]
pub(crate) struct Note {
    pub(crate) at: u64,
    pub(crate) len: usize,
    ghost few: { len ≤ MOST_PACKET_OCTETS },
    ghost early: { at < 2 ^ 63 },
}
