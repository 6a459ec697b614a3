//! What is known of a peer by what came of it.
ghost use Rattle.std.specs.Prelude.{◌≡◌, ℕ, List};
ghost use Rattle.link_io.specs.Taking.{came_of, taken_of};
ghost use Rattle.call_links.specs.Leaving as leaving;

use crate::datagrams::{says_bye, ssrc_after};
use link_io::{Came, LinkTake};

/// What is known of a peer: the SSRC of its last RTP packet, where one came; since when it is silent (milliseconds), where the link
/// was asked; and whether it has left.
#[derive(Clone, Copy, Debug, PartialEq, Eq)]
pub struct Peer {
    pub(crate) last: Option<u32>,
    pub(crate) since: Option<u64>,
    pub(crate) left: bool,
}

/// Whether a datagram came.
fn has_datagram(came: Came) -> bool
    ensures { (octets : List ℕ) → result ≡ leaving.has_datagram (came_of came octets) }
{
    match came {
        Came::Datagram | Came::Large => true,
        Came::Quiet | Came::Closed => false,
    }
}

/// Whether who was silent so long has gone, where a peer may be silent for `longest` (milliseconds).
fn has_gone(longest: Option<u32>, silence: u64) -> bool
    ensures { result ≡ leaving.has_gone longest silence }
{
    match longest {
        Some(longest) => u64::from(longest) <= silence,
        None => false,
    }
}

impl Peer {
    /// A peer of which nothing came.
    pub(crate) fn new() -> Peer
        ensures { result ≡ leaving.silent }
    {
        Peer {
            last: None,
            since: None,
            left: false,
        }
    }

    // The SSRC of its last RTP packet once this came.
    fn last_after(self, came: Came, octets: &[u8]) -> Option<u32>
        ensures { result ≡ leaving.last_after self.last (came_of came octets.now) }
    {
        match came {
            Came::Datagram => ssrc_after(self.last, octets),
            Came::Large | Came::Quiet | Came::Closed => self.last,
        }
    }

    // Whether what came says that it leaves.
    fn is_farewell(self, came: Came, octets: &[u8]) -> bool
        ensures { result ≡ leaving.is_farewell self.last (came_of came octets.now) }
    {
        match came {
            Came::Datagram => says_bye(self.last, octets),
            Came::Large | Came::Quiet | Came::Closed => false,
        }
    }

    // Since when it is silent once this was taken.
    fn silent_since(self, taken: LinkTake) -> u64
        ensures { (octets : List ℕ) → result ≡ leaving.silent_since self.since (taken_of taken octets) }
    {
        match self.since {
            Some(moment) if !has_datagram(taken.came) => moment,
            _ => taken.at,
        }
    }

    /// What is known of it once this was taken, where it may be silent for `longest` (milliseconds); these are the octets of a
    /// datagram.
    pub(crate) fn after(self, longest: Option<u32>, taken: LinkTake, octets: &[u8]) -> Peer
        ensures { result ≡ leaving.after_taken longest self (taken_of taken octets.now) }
    {
        let since = self.silent_since(taken);
        let gone = has_gone(longest, taken.at.saturating_sub(since));
        Peer {
            last: self.last_after(taken.came, octets),
            since: Some(since),
            left: self.left || self.is_farewell(taken.came, octets) || gone,
        }
    }

    /// What is told where this came.
    pub(crate) fn told(self, came: Came) -> Came
        ensures { (octets : List ℕ) → came_of result octets ≡ leaving.came_told self (came_of came octets) }
    {
        if self.left { Came::Closed } else { came }
    }
}
