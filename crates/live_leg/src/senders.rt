//! Who is heard of a leg, and who was before.
ghost use Rattle.std.specs.Prelude.{◌<◌};
ghost use Rattle.rtt_base.specs.declared.limits.TheConstants.{END_OF_MOMENTS};

use arrayvec::ArrayVec;
use rtt_base::{PayloadTypes, TextPacket};

/// How many of the senders before are known.
pub(crate) const MOST_KNOWN: usize = 64;

/// Who sent a datagram.
#[derive(Clone, Copy, Debug, PartialEq, Eq)]
pub(crate) enum DatagramSender {
    /// Nobody: it is no packet of text with the payload types of the leg.
    Refused,
    /// One who is not heard: it is passed over.
    Foreign,
    /// The sender.
    Sender,
    /// The first sender of the leg.
    First,
    /// One who takes over from the sender.
    Other,
}

/// Who is heard of a leg, and who was before. Moments are in milliseconds.
#[derive(Drop)]
pub(crate) struct Senders {
    pub(crate) payload_types: PayloadTypes,
    /// Whether a primary text may have more than 1023 octets.
    pub(crate) long: bool,
    pub(crate) follow: bool,
    /// The SSRC of the sender.
    pub(crate) sender: Option<u32>,
    /// Those of the senders before, newest first: the last 64.
    pub(crate) known: ArrayVec<u32, MOST_KNOWN>,
    /// The greatest moment so far.
    pub(crate) moment: u64,
    /// When the last packet of the sender came.
    pub(crate) last: u64,
    /// The datagram that is read, to see who sent it.
    pub(crate) packet: Box<TextPacket>,
    ghost early: { moment < END_OF_MOMENTS },
    ghost before: { last < END_OF_MOMENTS },
}
