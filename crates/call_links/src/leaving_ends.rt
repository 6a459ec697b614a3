//! The inbound end of a link whose peer may leave.
ghost use Rattle.std.specs.Prelude.{◌≡◌, []};
ghost use Rattle.call_links.specs.Leaving.{peer_by, silent};

use crate::Silence;
use crate::peers::Peer;
use link_io::{LinkIn, LinkTake};
use rtt_base::{Failed, Packet};
use std::marker::PhantomData;

/// The inbound end of a link that is closed for good once its peer has left: at a datagram that is RTCP and has a BYE of the SSRC of the
/// peer's last RTP packet, or of any SSRC where none came; or at a take by which the peer is silent as long as it may be, counted from the
/// last take that gave a datagram, or from the first. What else comes is told as the end below tells it. Its faults and its moments are
/// those of the end below.
#[derive(Drop)]
pub struct LeavingIn<I: LinkIn, S: Silence> {
    pub(crate) link: I,
    /// How long the peer may be silent.
    longest: Option<u32>,
    pub(crate) peer: Peer,
    of: PhantomData<S>,
    ghost agreed: { longest ≡ S.longest },
    ghost known: { I.tells → peer ≡ peer_by S.longest (I.taken link) },
}

impl<I: LinkIn, S: Silence> LeavingIn<I, S> {
    /// The end over this one, of which nothing came, where its peer may be silent so long.
    pub(crate) fn new(link: I, longest: Option<u32>) -> LeavingIn<I, S>
        requires none { I.taken link ≡ [] }
        requires agreed { longest ≡ S.longest }
        ensures over { result.link ≡ link }
        ensures silent { result.peer ≡ silent }
    {
        LeavingIn {
            link,
            longest,
            peer: Peer::new(),
            of: PhantomData,
        }
    }

    /// The end below.
    pub(crate) fn into_link(self) -> I
        ensures { result ≡ self.link }
    {
        let LeavingIn {
            link,
            longest: _,
            peer: _,
            of: _,
        } = self;
        link
    }
}

impl<I: LinkIn, S: Silence> LinkIn for LeavingIn<I, S> {
    ghost use Rattle.std.specs.Prelude.{◌||◌};
    ghost use Rattle.call_links.specs.Leaving.{takes_told};

    ghost tells = { I.tells };

    ghost taken = { λ end. takes_told S.longest (I.taken end.link) };

    ghost closed = { λ end. end.peer.left || I.closed end.link };

    ghost moment = { λ end. I.moment end.link };

    ghost faults = { λ end. I.faults end.link };

    ghost port = { λ end. I.port end.link };

    fn take(&mut self, out: &mut Packet, until: u64) -> Result<LinkTake, Failed> {
        let Ok(taken) = self.link.take(out, until) else {
            return Err(Failed);
        };
        self.peer = self.peer.after(self.longest, taken, out.as_slice());
        Ok(LinkTake {
            at: taken.at,
            came: self.peer.told(taken.came),
        })
    }
}
