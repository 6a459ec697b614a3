//! The two ends of a link over UDP.
ghost use Rattle.std.specs.Prelude.{◌≡◌, ◌<◌, ◌≤◌, ◌^◌, true, false};

use crate::bells::Bell;
use crate::clocks::millis_since;
use crate::peers::{Peer, is_from};
use crate::{Beat, Came, LinkIn, LinkOut, LinkTake};
use rtt_base::{Failed, Packet};
use std::io;
use std::io::ErrorKind;
use std::net::UdpSocket;
use std::time::Clock;

/// How long one call waits at most, in milliseconds.
const LONGEST: u64 = 1000;

/// How often one `take` passes over what is nothing of the peer.
const MOST_PASSED_OVER: u32 = 64;

/// One octet more than a packet may have, so that a longer datagram is told from one that fits.
const ROOM: usize = 4225;

/// Whether a socket that says this says it of each call from now on: it is none, or no longer open.
fn is_for_good(error: &io::Error) -> bool {
    matches!(error.raw_os_error(), Some(libc::EBADF | libc::ENOTSOCK))
}

/// What a call of a socket that does not wait says where nothing is there.
fn is_nothing(kind: ErrorKind) -> bool {
    matches!(kind, ErrorKind::WouldBlock | ErrorKind::TimedOut)
}

/// What the next call of a socket says where nobody was at the peer's port for an earlier datagram. It is said in place of what was
/// asked, and once.
fn is_refusal(kind: ErrorKind) -> bool {
    matches!(
        kind,
        ErrorKind::ConnectionRefused | ErrorKind::ConnectionReset
    )
}

/// What one call of a socket received.
enum SocketAnswer {
    /// This of the peer.
    OfPeer(Came),
    /// Nothing of the peer, but more may be there: a datagram of somebody else, or that the peer was away.
    PassedOver,
    /// Nothing, by now.
    Nothing,
    /// Nothing, since the system had some trouble that may pass.
    Troubled,
    /// The socket fails for good.
    Broken,
}

/// The inbound end of a link over UDP. It hears the peer alone, whose address and port its outbound end sends to; what others
/// send is passed over as if it had not come, most of it by the system, which knows the peer. Where the system has trouble with it,
/// nothing came, and it is asked again; it is closed where its socket fails for good, and never fails itself.
#[derive(Drop)]
pub struct RealIn<C> {
    clock: C,
    start: u64,
    socket: UdpSocket,
    bell: Bell,
    peer: Peer,
    pub(crate) port: u16,
    moment: u64,
    closed: bool,
    ghost early: { moment < 2 ^ 47 },
}

impl<C: Clock> LinkIn for RealIn<C> {
    ghost use Rattle.std.specs.Prelude.{[]};

    ghost tells = { ⊥ };

    ghost taken = { λ _. [] };

    ghost closed = { λ link. link.closed };

    ghost moment = { λ link. link.moment };

    ghost faults = { λ _. 0 };

    ghost port = { λ link. link.port };

    fn take(&mut self, out: &mut Packet, until: u64) -> Result<LinkTake, Failed> {
        let came = self.receive(out, until);
        self.closed = self.closed || came == Came::Closed;
        self.moment = self.moment.max(millis_since(&self.clock, self.start));
        Ok(LinkTake {
            at: self.moment,
            came,
        })
    }
}

impl<C: Clock> RealIn<C> {
    /// The inbound end of a socket that does not wait, with what rings where something came there. Moments are counted from this
    /// one of the clock.
    pub(crate) fn new(
        clock: C,
        start: u64,
        socket: UdpSocket,
        bell: Bell,
        peer: Peer,
        port: u16,
    ) -> RealIn<C>
        ensures at { result.port ≡ port }
        ensures open { result.closed ≡ false }
    {
        RealIn {
            clock,
            start,
            socket,
            bell,
            peer,
            port,
            moment: 0,
            closed: false,
        }
    }

    // What comes of the peer, and its octets; `Quiet` where it sent nothing by now, too much came of others, or the system had
    // trouble. Once it is closed it is asked no more.
    fn receive(&mut self, out: &mut Packet, until: u64) -> Came
        ensures for_good { self.old.closed ≡ true → result ≡ Came.Closed }
        ensures same_closed { self.new.closed ≡ self.old.closed }
        ensures same_moment { self.new.moment ≡ self.old.moment }
        ensures same_port { self.new.port ≡ self.old.port }
    {
        if self.closed {
            return Came::Closed;
        }
        for _ in 0..MOST_PASSED_OVER {
            match self.receive_one(out) {
                SocketAnswer::OfPeer(came) => return came,
                SocketAnswer::PassedOver => {}
                SocketAnswer::Nothing => {
                    let left = self.left_until(until);
                    if left == 0 {
                        return Came::Quiet;
                    }
                    if self.bell.wait(left).is_err() {
                        return Came::Closed;
                    }
                }
                SocketAnswer::Troubled => return self.sit_out(until),
                SocketAnswer::Broken => return Came::Closed,
            }
        }
        Came::Quiet
    }

    // Behind trouble of the system: nothing comes until this moment of the clock, so that it is asked again at the next turn.
    fn sit_out(&mut self, until: u64) -> Came
        ensures same_closed { self.new.closed ≡ self.old.closed }
        ensures same_moment { self.new.moment ≡ self.old.moment }
        ensures same_port { self.new.port ≡ self.old.port }
    {
        let left = self.left_until(until);
        match self.bell.wait(left) {
            Ok(()) => Came::Quiet,
            Err(_) => Came::Closed,
        }
    }

    // How many milliseconds are left until this moment of the clock.
    fn left_until(&self, until: u64) -> u64 {
        until
            .saturating_sub(millis_since(&self.clock, self.start))
            .min(LONGEST)
    }

    // What one call of the socket receives, and its octets, where it is the peer's.
    fn receive_one(&self, out: &mut Packet) -> SocketAnswer {
        let mut room = [0u8; ROOM];
        match self.socket.recv_from(&mut room) {
            Ok((count, from)) if is_from(self.peer, from) => {
                SocketAnswer::OfPeer(hand_out(&room[..count], out))
            }
            Ok(_) => SocketAnswer::PassedOver,
            Err(error) if is_nothing(error.kind()) => SocketAnswer::Nothing,
            Err(error) if is_refusal(error.kind()) => SocketAnswer::PassedOver,
            Err(error) if is_for_good(&error) => SocketAnswer::Broken,
            Err(_) => SocketAnswer::Troubled,
        }
    }
}

/// Puts the octets of a datagram in place of what is in a packet. One that does not fit is a large one.
fn hand_out(octets: &[u8], out: &mut Packet) -> Came {
    out.clear();
    match out.append(octets) {
        Ok(()) => Came::Datagram,
        Err(_) => Came::Large,
    }
}

/// The kind of clock of links over UDP.
#[derive(Debug, Drop)]
pub struct UdpClock;

/// The outbound end of a link over UDP, whose packets come from the port of the inbound one. A datagram that the system can't send,
/// for whatever reason, is lost, and no fault.
#[derive(Drop)]
pub struct RealOut {
    socket: UdpSocket,
    pub(crate) port: u16,
}

impl LinkOut for RealOut {
    type Clock = UdpClock;

    ghost use Rattle.std.specs.Prelude.{[]};

    ghost tells = { ⊥ };

    ghost given = { λ _. [] };

    ghost faults = { λ _. 0 };

    ghost port = { λ link. link.port };

    fn give(&mut self, _beat: &Beat<'_, Self::Clock>, packet: &[u8]) -> Result<(), Failed> {
        let _ = self.send(packet);
        Ok(())
    }
}

impl RealOut {
    /// The outbound end of a socket that knows its peer and does not wait.
    pub(crate) fn new(socket: UdpSocket, port: u16) -> RealOut
        ensures at { result.port ≡ port }
    {
        RealOut { socket, port }
    }

    // Sends a packet. Where the system says in place of it that an earlier one found nobody, it is sent once more.
    fn send(&self, packet: &[u8]) -> io::Result<usize> {
        match self.socket.send(packet) {
            Err(error) if is_refusal(error.kind()) => self.socket.send(packet),
            sent => sent,
        }
    }
}
