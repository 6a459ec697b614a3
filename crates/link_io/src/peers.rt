//! Which peers a link over UDP may have, and who is heard on it.
ghost use Rattle.std.specs.Prelude.{◌≡◌, ◌≢◌, ◌↔◌, IsTrue, IfSome, IfNone};
ghost use Rattle.std.proofs.Props.{props};
ghost use Rattle.std.specs.Net.Addr.{is_ipv4};
ghost use Rattle.std.specs.Net.Socket.{socket_ip, socket_port};
ghost use Rattle.link_io.specs.Peers.{IsLocal, IsLocal-prop, IsLocalIp, IsOfPeer, IsPlain, IsSamePeer, NamesPeer};

use std::net::{IpAddr, Ipv4Addr, Ipv6Addr, SocketAddr};

/// An address of this machine's own and a port, to which a link over UDP may lead. `peer_of` alone makes one.
#[derive(Clone, Copy)]
pub struct Peer {
    address: SocketAddr,
    ghost local: { IsLocal address } by { IsLocal-prop address (λ xs ys. Prim.hlevel props) },
    ghost port: { socket_port address ≢ 0 },
}

impl Peer {
    /// Its address and port.
    pub(crate) fn address(&self) -> SocketAddr
        ensures is { result ≡ self.now.address }
        ensures local { IsLocal result }
    {
        self.address
    }
}

/// Whether an address has no flow information and no scope.
fn is_plain(address: SocketAddr) -> bool
    ensures { IsTrue result ↔ IsPlain address }
{
    SocketAddr::new(address.ip(), address.port()) == address
}

/// Whether a peer may be there: at a plain address of this machine's own, which is 127.0.0.0/8 or ::1, and a port that is not 0.
fn is_of_peer(address: SocketAddr) -> bool
    ensures { IsTrue result ↔ IsOfPeer address }
{
    is_plain(address) && address.ip().is_loopback() && address.port() != 0
}

/// The peer that an OUT names: an IP address of this machine's own, which is 127.0.0.0/8 or ::1, a colon and a port, with
/// the brackets of an IPv6 address. None where it is anything else: a name, an address of another machine, one with a
/// scope, port 0.
pub fn peer_of(to: &str) -> Option<Peer>
    ensures named { IfSome result (λ peer. NamesPeer to.now peer.address) }
    ensures none { IfNone result ((address : SocketAddr) → ¬ (NamesPeer to.now address)) }
{
    let Ok(address) = to.parse::<SocketAddr>() else {
        return None;
    };
    if !is_of_peer(address) {
        return None;
    }
    Some(Peer { address })
}

/// This machine's own address, of the kind of a peer's.
pub(crate) fn own_address(peer: Peer) -> IpAddr
    ensures local { IsLocalIp result }
    ensures alike { is_ipv4 result ≡ is_ipv4 (socket_ip peer.address) }
{
    match peer.address {
        SocketAddr::V4(_) => IpAddr::V4(Ipv4Addr::LOCALHOST),
        SocketAddr::V6(_) => IpAddr::V6(Ipv6Addr::LOCALHOST),
    }
}

/// A datagram from here is the peer's.
pub(crate) fn is_from(peer: Peer, from: SocketAddr) -> bool
    ensures { IsTrue result ↔ IsSamePeer from peer.address }
{
    from.ip() == peer.address.ip() && from.port() == peer.address.port()
}
