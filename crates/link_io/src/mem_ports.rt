//! The ports of links in memory.
ghost use Rattle.std.specs.Prelude.{◌≡◌, position};
ghost use Rattle.link_io.specs.MemPorts.{is_of};

use crate::{GivenPacket, TakeLog};
use rtt_base::Path;
use rtt_io::Faults;

/// A port at which a link was opened: what is stored under it, with the faults of that port.
#[derive(Debug, Drop)]
pub struct MemPort {
    pub number: u16,
    /// What the takes gave, oldest first.
    pub taken: Vec<TakeLog>,
    /// What it was given, oldest first.
    pub given: Vec<GivenPacket>,
    pub faults: Faults,
}

/// A link that was opened at a port, to a peer.
#[derive(Debug, Drop)]
pub struct MemLead {
    pub port: u16,
    pub to: Path,
}

/// The place of the first entry of this port.
pub fn place(entries: &[MemPort], port: u16) -> Option<usize>
    ensures { result ≡ position (is_of port) entries.now }
{
    entries.iter().position(|entry| entry.number == port)
}
