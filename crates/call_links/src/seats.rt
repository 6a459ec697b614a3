//! What is told of a leg while its call runs.
use link_io::{Came, LinkTake};
use rtp_text::read_rtp;
use rtt_base::PayloadTypes;
use std::alloc::Global;
use std::sync::Arc;
use std::sync::atomic::{AtomicBool, AtomicU64, Ordering};

/// What is told of a leg. Its thread counts, and the one that answers reads.
#[derive(Drop)]
pub(crate) struct Counts {
    /// How many datagrams came.
    pub(crate) datagrams: AtomicU64,
    /// How many of them are packets of the leg's text.
    pub(crate) texts: AtomicU64,
    /// The moment of the last one (milliseconds).
    pub(crate) heard: AtomicU64,
    /// Its link is closed.
    pub(crate) left: AtomicBool,
}

impl Counts {
    /// Nothing came.
    pub(crate) fn new() -> Counts {
        Counts {
            datagrams: AtomicU64::new(0),
            texts: AtomicU64::new(0),
            heard: AtomicU64::new(0),
            left: AtomicBool::new(false),
        }
    }
}

/// Where the inbound end of a leg is told to stop, and tells what came.
#[derive(Drop)]
pub(crate) struct LegSwitch {
    pub(crate) counts: Arc<Counts, Global>,
    pub(crate) stop: Arc<AtomicBool, Global>,
    pub(crate) ssrc: u32,
    /// Whether the leg is heard whatever SSRC its terminal sends with.
    pub(crate) follow: bool,
    pub(crate) payload_types: PayloadTypes,
}

impl LegSwitch {
    /// Whether the call is to end.
    pub(crate) fn is_stopping(&self) -> bool {
        self.stop.load(Ordering::SeqCst)
    }

    /// Counts what was told; these are the octets of a datagram.
    pub(crate) fn count(&self, told: LinkTake, octets: &[u8]) {
        match told.came {
            Came::Datagram => self.count_datagram(told.at, self.is_text(octets)),
            Came::Large => self.count_datagram(told.at, false),
            Came::Closed => self.counts.left.store(true, Ordering::SeqCst),
            Came::Quiet => {}
        }
    }

    fn count_datagram(&self, at: u64, is_text: bool) {
        self.counts.datagrams.fetch_add(1, Ordering::SeqCst);
        self.counts.heard.store(at, Ordering::SeqCst);
        if is_text {
            self.counts.texts.fetch_add(1, Ordering::SeqCst);
        }
    }

    // Whether a datagram is RTP of the leg's SSRC, or of any where the leg is followed, and of one of its payload types.
    fn is_text(&self, octets: &[u8]) -> bool {
        match read_rtp(octets) {
            Ok(packet) => {
                (self.follow || packet.ssrc == self.ssrc)
                    && (packet.pt == self.payload_types.t140 || packet.pt == self.payload_types.red)
            }
            Err(_) => false,
        }
    }
}
