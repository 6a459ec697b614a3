//! Links over UDP.
ghost use Rattle.std.specs.Prelude.{◌≡◌, ◌<◌, ◌≤◌, ◌^◌, ℕ, false, IfSome};
ghost use Rattle.link_io.specs.Peers.{IsLocal};

use crate::bells::Bell;
use crate::clocks::millis_since;
use crate::peers::{Peer, own_address, peer_of};
use crate::real_ends::{RealIn, RealOut, UdpClock};
use crate::{Beat, Links};
use rtt_base::Failed;
use std::alloc::Global;
use std::net::{Net, SocketAddr, UdpSocket};
use std::thread;
use std::time::{Clock, Duration};

/// Links over UDP, from ports of this machine's own addresses to peers on it, and its clock. There is no encryption, so no
/// peer elsewhere is taken. One number counts the links that could not be opened, of all ports; what is open never fails.
#[derive(Drop)]
pub struct RealLinks<R> {
    rt: R,
    alloc: Global,
    start: u64,
    moment: u64,
    pauses: u64,
    own_faults: u64,
    ghost early: { moment < 2 ^ 47 },
}

impl<R: Net + Clock + Copy + Send> RealLinks<R> {
    /// The network of this runtime. Moments are counted from now on.
    pub fn new(rt: R, alloc: Global) -> RealLinks<R>
        ensures fresh { (p : ℕ) → ⟦<RealLinks<R> as Links>⟧.own_faults result p ≡ 0 }
        ensures fresh_objects { (p : ℕ) → ⟦<RealLinks<R> as Links>⟧.object_faults result p ≡ 0 }
        ensures at_first { ⟦<RealLinks<R> as Links>⟧.moment result ≡ 0 }
        ensures no_pause { ⟦<RealLinks<R> as Links>⟧.pauses result ≡ 0 }
    {
        let start = millis_since(&rt, 0);
        RealLinks {
            rt,
            alloc,
            start,
            moment: 0,
            pauses: 0,
            own_faults: 0,
        }
    }
}

/// A socket at an address of this machine. It leads nowhere yet, and whoever sends to it is heard.
pub(crate) fn socket_at<R: Net>(rt: &R, here: SocketAddr) -> Option<UdpSocket>
    requires { IsLocal here }
{
    UdpSocket::bind(rt, here).ok()
}

/// From here on the socket leads to this address, and the system keeps from it what others send.
pub(crate) fn lead_to(socket: &UdpSocket, to: SocketAddr) -> Option<()>
    requires { IsLocal to }
{
    socket.connect(to).ok()
}

impl<R: Net + Clock + Copy> RealLinks<R> {
    // The two ends of a link from this port to an address, where it is a peer's and the system opens them.
    fn open(&self, port: u16, to: &str) -> Option<(RealIn<R>, RealOut)>
        ensures ports { IfSome result (λ ends. (ends.0.port ≡ port) × (ends.1.port ≡ port)) }
        ensures open { IfSome result (λ ends. ends.0.closed ≡ false) }
    {
        let peer = peer_of(to)?;
        let here = SocketAddr::new(own_address(peer), port);
        let socket = socket_at(&self.rt, here)?;
        lead_to(&socket, peer.address())?;
        self.ends_over(socket, peer, port)
    }

    /// The two ends of a link by the socket at this port, which leads to this peer.
    pub(crate) fn ends_over(
        &self,
        socket: UdpSocket,
        peer: Peer,
        port: u16,
    ) -> Option<(RealIn<R>, RealOut)>
        ensures ports { IfSome result (λ ends. (ends.0.port ≡ port) × (ends.1.port ≡ port)) }
        ensures open { IfSome result (λ ends. ends.0.closed ≡ false) }
    {
        socket.set_nonblocking(true).ok()?;
        let other = socket.try_clone().ok()?;
        let bell = Bell::new(&self.rt, self.alloc, &socket)?;
        let inbound = RealIn::new(self.rt, self.start, socket, bell, peer, port);
        Some((inbound, RealOut::new(other, port)))
    }

    // What the clock says, and no earlier moment than before.
    fn look(&mut self) -> u64
        ensures is { result ≡ self.new.moment }
        ensures rises { self.old.moment ≤ self.new.moment }
        ensures early { result < 2 ^ 47 }
        ensures same_pauses { self.new.pauses ≡ self.old.pauses }
        ensures same_own { self.new.own_faults ≡ self.old.own_faults }
    {
        self.moment = self.moment.max(millis_since(&self.rt, self.start));
        self.moment
    }
}

impl<R: Net + Clock + Copy + Send> Links for RealLinks<R> {
    type In = RealIn<R>;

    type Out = RealOut;

    type Clock = UdpClock;

    ghost use Rattle.std.specs.Prelude.{false, []};

    ghost tells = { ⊥ };

    ghost opened = { λ _ _. false };

    ghost leads = { λ _. [] };

    ghost taken_at = { λ _ _. [] };

    ghost given_at = { λ _ _. [] };

    ghost own_faults = { λ links _. links.own_faults };

    ghost object_faults = { λ _ _. 0 };

    ghost moment = { λ links. links.moment };

    ghost pauses = { λ links. links.pauses };

    fn link(&mut self, port: u16, to: &str) -> Result<(RealIn<R>, RealOut), Failed> {
        match self.open(port, to) {
            Some(ends) => Ok(ends),
            None => {
                self.own_faults = self.own_faults.saturating_add(1);
                Err(Failed)
            }
        }
    }

    fn done_in(&mut self, _link: RealIn<R>) {}

    fn done_out(&mut self, _link: RealOut) {}

    fn now(&mut self) -> u64 {
        self.look()
    }

    fn beat(&self) -> Beat<'_, UdpClock> {
        Beat::of(&self.pauses)
    }

    fn pause_until(&mut self, until: u64) {
        let left = until.saturating_sub(self.look());
        if left > 0 {
            thread::sleep(&self.rt, Duration::from_millis(left));
        }
        self.pauses = self.pauses.saturating_add(1);
    }
}
