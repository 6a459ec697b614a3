//! The inbound end of a link, as where packets come from.
ghost use Rattle.std.specs.Prelude.{◌≡◌, ◌<◌, []};
ghost use Rattle.live_leg.specs.Linking.{LinkCame};

use crate::arrivals::Arrivals;
use crate::items::LegItem;
use crate::legs::Leg;
use crate::paces::Pace;
use link_io::{LinkIn, LinkTake};
use rtt_base::Packet;
use std::alloc::Global;
use std::sync::Arc;
use std::sync::atomic::{AtomicBool, Ordering};

/// Why nothing more comes of a link that is not closed.
#[derive(Clone, Copy, Debug, PartialEq, Eq)]
pub enum LinkStop {
    /// The link failed.
    Failed,
    /// A word told to stop.
    Told,
}

/// The inbound end of a link, which is asked at a pace, until a word says that it stops.
#[derive(Drop)]
pub struct PacedLink<L> {
    link: L,
    pace: Pace,
    /// Says that it is to stop.
    stop: Arc<AtomicBool, Global>,
}

/// A leg over a link.
pub type LinkLeg<L> = Leg<PacedLink<L>>;

/// What a leg over a link gives.
pub type LinkItem = LegItem<LinkStop>;

impl<L: LinkIn> PacedLink<L> {
    /// A link that was not asked yet. Where it has nothing it waits for a turn; they are at the multiples of `tick` (milliseconds)
    /// of its clock. It stops where the word is set.
    pub fn new(link: L, tick: u64, stop: Arc<AtomicBool, Global>) -> PacedLink<L>
        requires { 0 < tick }
        ensures link { result.link ≡ link }
        ensures begins { LinkCame L.LinkIn result result [] }
    {
        PacedLink {
            link,
            pace: Pace::new(tick),
            stop,
        }
    }

    /// The link, as far as it was taken from.
    pub fn into_link(self) -> L
        ensures { result ≡ self.link }
    {
        let PacedLink {
            link,
            pace: _,
            stop: _,
        } = self;
        link
    }
}

impl<L: LinkIn> Arrivals for PacedLink<L> {
    ghost use Rattle.live_leg.specs.Linking.{LinkCame, LinkFailed};

    type Fault = LinkStop;

    ghost came = { LinkCame L.LinkIn };

    ghost failed = { LinkFailed L.LinkIn };

    fn take(&mut self, out: &mut Packet) -> Result<LinkTake, LinkStop> {
        if self.stop.load(Ordering::SeqCst) {
            return Err(LinkStop::Told);
        }
        match self.link.take(out, self.pace.until()) {
            Ok(taken) => {
                self.pace = self.pace.after(taken);
                Ok(taken)
            }
            Err(_) => Err(LinkStop::Failed),
        }
    }
}
