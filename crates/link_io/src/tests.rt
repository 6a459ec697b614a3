use crate::peers::own_address;
use crate::real_links::{lead_to, socket_at};
use crate::{
    Beat, Came, LinkIn, LinkOut, LinkTake, Links, MemIn, RealIn, RealLinks, RealOut, peer_of,
};
use rtt_base::Packet;
use std::alloc::Global;
use std::net::{Net, SocketAddr, UdpSocket};
use std::test::Fail;
use std::time::{Clock, Duration};

// By this moment of a link's clock what was sent has come.
const SOON: u64 = 5000;

// The next take gives this, whenever it is.
fn comes<L: LinkIn>(link: &mut L, until: u64, came: Came) -> bool {
    let mut out = Packet::new();
    match link.take(&mut out, until) {
        Ok(taken) => taken.came == came,
        Err(_) => false,
    }
}

// Nothing more comes, at once or by moment 20.
fn is_quiet<L: LinkIn>(link: &mut L) -> bool {
    comes(link, 0, Came::Quiet) && comes(link, 20, Came::Quiet)
}

// The next take gives these octets.
fn hears<L: LinkIn>(link: &mut L, octets: &[u8]) -> bool {
    let mut out = Packet::new();
    match link.take(&mut out, SOON) {
        Ok(taken) => taken.came == Came::Datagram && out.as_slice() == octets,
        Err(_) => false,
    }
}

const PEERS: [&str; 3] = ["127.0.0.1:5004", "127.255.0.9:65535", "[::1]:5004"];

const NO_PEERS: [&str; 9] = [
    "[::1%1]:5004",
    "[::ffff:127.0.0.1]:5004",
    "[::2]:5004",
    "192.0.2.1:5004",
    "0.0.0.0:5004",
    "127.0.0.1:0",
    "127.0.0.1",
    "localhost:5004",
    "",
];

// Whether each of these texts is the address of a peer, or none is.
fn all_are(peers: bool, texts: &[&str]) -> bool {
    for text in texts {
        if peer_of(text).is_some() != peers {
            return false;
        }
    }
    true
}

#[test]
fn only_an_address_of_this_machine_is_a_peer(rt: HostRuntime) -> Result<(), Fail> {
    assert!(rt; all_are(true, &PEERS));
    assert!(rt; all_are(false, &NO_PEERS));
    Ok(())
}

// A socket at a port that the system picks, whose calls end.
fn socket<R: Net>(rt: &R) -> std::io::Result<UdpSocket> {
    let socket = UdpSocket::bind(rt, "127.0.0.1:0")?;
    socket.set_read_timeout(Some(Duration::from_secs(5)))?;
    Ok(socket)
}

// A port that nobody has.
fn free_port<R: Net>(rt: &R) -> std::io::Result<u16> {
    Ok(socket(rt)?.local_addr()?.port())
}

// A link over UDP from a port that nobody has to a peer at this address, and that port.
fn link_to<R: Net + Clock + Copy + Send>(
    rt: R,
    alloc: Global,
    peer: SocketAddr,
) -> Result<(u16, RealIn<R>, RealOut), Fail> {
    let port = free_port(&rt)?;
    let to = format!(in alloc; "{peer}")?;
    let (inbound, outbound) = RealLinks::new(rt, alloc).link(port, to.as_str())?;
    Ok((port, inbound, outbound))
}

// A link over UDP whose peer has gone: the peer's address, the link's port and its ends.
fn link_to_nobody<R: Net + Clock + Copy + Send>(
    rt: R,
    alloc: Global,
) -> Result<(SocketAddr, u16, RealIn<R>, RealOut), Fail> {
    let peer = socket(&rt)?;
    let address = peer.local_addr()?;
    let (port, inbound, outbound) = link_to(rt, alloc, address)?;
    drop(peer);
    Ok((address, port, inbound, outbound))
}

#[test]
fn a_peer_is_heard_whatever_the_length(rt: HostRuntime) -> Result<(), Fail> {
    let peer = socket(&rt)?;
    let (port, mut inbound, _outbound) = link_to(&rt, rt.alloc(), peer.local_addr()?)?;
    assert_eq!(rt; peer.send_to(b"one", ("127.0.0.1", port))?, 3);
    assert!(rt; hears(&mut inbound, b"one"));
    assert_eq!(rt; peer.send_to(b"", ("127.0.0.1", port))?, 0);
    assert!(rt; hears(&mut inbound, b""));
    assert_eq!(rt; peer.send_to(&[7; 4224], ("127.0.0.1", port))?, 4224);
    assert!(rt; hears(&mut inbound, &[7; 4224]));
    assert_eq!(rt; peer.send_to(&[7; 4225], ("127.0.0.1", port))?, 4225);
    assert!(rt; comes(&mut inbound, 0, Came::Large));
    assert_eq!(rt; peer.send_to(&[7; 9000], ("127.0.0.1", port))?, 9000);
    assert!(rt; comes(&mut inbound, 0, Came::Large));
    assert!(rt; is_quiet(&mut inbound));
    Ok(())
}

#[test]
fn a_peer_is_sent_to_from_the_port_that_it_sends_to(rt: HostRuntime) -> Result<(), Fail> {
    let peer = socket(&rt)?;
    let (port, _inbound, mut outbound) = link_to(&rt, rt.alloc(), peer.local_addr()?)?;
    assert!(rt; outbound.give(&Beat::last(), b"two").is_ok());
    let mut buf = [0; 8];
    let (count, from) = peer.recv_from(&mut buf)?;
    assert_eq!(rt; count, 3);
    assert_eq!(rt; buf[..3], b"two"[..]);
    assert_eq!(rt; from.port(), port);
    Ok(())
}

#[test]
fn a_take_waits_until_its_moment(rt: HostRuntime) -> Result<(), Fail> {
    let peer = socket(&rt)?;
    let (_port, mut inbound, _outbound) = link_to(&rt, rt.alloc(), peer.local_addr()?)?;
    let mut out = Packet::new();
    let taken = inbound.take(&mut out, 30)?;
    assert!(rt; taken.came == Came::Quiet && taken.at >= 30);
    let mut still = MemIn::new(rt.alloc(), 5001);
    assert!(rt;
        still.take(&mut out, 30)?
            == LinkTake {
                at: 30,
                came: Came::Quiet
            }
    );
    assert!(rt;
        still.take(&mut out, 0)?
            == LinkTake {
                at: 30,
                came: Came::Quiet
            }
    );
    Ok(())
}

// Sends so many datagrams to a port.
fn send_many(socket: &UdpSocket, port: u16, count: u32) -> std::io::Result<()> {
    for _ in 0..count {
        socket.send_to(b"strange", ("127.0.0.1", port))?;
    }
    Ok(())
}

#[test]
fn a_stranger_is_not_heard_and_holds_nobody_up(rt: HostRuntime) -> Result<(), Fail> {
    let peer = socket(&rt)?;
    let stranger = socket(&rt)?;
    let (port, mut inbound, _outbound) = link_to(&rt, rt.alloc(), peer.local_addr()?)?;
    send_many(&stranger, port, 1000)?;
    assert_eq!(rt; peer.send_to(b"one", ("127.0.0.1", port))?, 3);
    send_many(&stranger, port, 1)?;
    assert!(rt; hears(&mut inbound, b"one"));
    assert!(rt; is_quiet(&mut inbound));
    Ok(())
}

// A datagram is sent from a stranger to a link's port before the socket there leads to its peer, and one of the peer behind it.
// The link hears the peer's alone.
fn hears_the_peer_alone<R: Net + Clock + Copy + Send>(rt: R, alloc: Global) -> Result<bool, Fail> {
    let peer = socket(&rt)?;
    let stranger = socket(&rt)?;
    let to = format!(in alloc; "{}", peer.local_addr()?)?;
    let Some(known) = peer_of(to.as_str()) else {
        return Ok(false);
    };
    let port = free_port(&rt)?;
    let here = SocketAddr::new(own_address(known), port);
    let Some(bound) = socket_at(&rt, here) else {
        return Ok(false);
    };
    stranger.send_to(b"strange", ("127.0.0.1", port))?;
    peer.send_to(b"one", ("127.0.0.1", port))?;
    let Some(()) = lead_to(&bound, known.address()) else {
        return Ok(false);
    };
    let Some((mut inbound, _outbound)) = RealLinks::new(rt, alloc).ends_over(bound, known, port)
    else {
        return Ok(false);
    };
    Ok(hears(&mut inbound, b"one") && is_quiet(&mut inbound))
}

#[test]
fn what_a_stranger_sent_before_the_link_led_to_its_peer_is_not_heard(
    rt: HostRuntime,
) -> Result<(), Fail> {
    assert!(rt; hears_the_peer_alone(&rt, rt.alloc())?);
    Ok(())
}

#[test]
fn a_peer_that_goes_and_comes_back_is_heard_again(rt: HostRuntime) -> Result<(), Fail> {
    let (address, port, mut inbound, mut outbound) = link_to_nobody(&rt, rt.alloc())?;
    assert!(rt; outbound.give(&Beat::last(), b"one").is_ok());
    assert!(rt; comes(&mut inbound, 0, Came::Quiet));
    assert!(rt; outbound.give(&Beat::last(), b"two").is_ok());
    let again = UdpSocket::bind(&rt, address)?;
    assert_eq!(rt; again.send_to(b"three", ("127.0.0.1", port))?, 5);
    assert!(rt; hears(&mut inbound, b"three"));
    Ok(())
}

#[test]
fn the_first_packet_to_a_peer_that_comes_back_is_sent(rt: HostRuntime) -> Result<(), Fail> {
    let (address, _port, _inbound, mut outbound) = link_to_nobody(&rt, rt.alloc())?;
    assert!(rt; outbound.give(&Beat::last(), b"one").is_ok());
    let again = UdpSocket::bind(&rt, address)?;
    again.set_read_timeout(Some(Duration::from_secs(5)))?;
    assert!(rt; outbound.give(&Beat::last(), b"two").is_ok());
    let mut buf = [0; 8];
    let (count, _) = again.recv_from(&mut buf)?;
    assert_eq!(rt; buf[..count], b"two"[..]);
    Ok(())
}

#[test]
fn a_port_that_is_taken_is_refused(rt: HostRuntime) -> Result<(), Fail> {
    let port = free_port(&rt)?;
    let mut links = RealLinks::new(&rt, rt.alloc());
    let (inbound, outbound) = links.link(port, "127.0.0.1:5004")?;
    assert!(rt; links.link(port, "127.0.0.1:5004").is_err());
    links.done_in(inbound);
    assert!(rt; links.link(port, "127.0.0.1:5004").is_err());
    links.done_out(outbound);
    assert!(rt; links.link(port, "127.0.0.1:5004").is_ok());
    assert!(rt; links.link(port, "192.0.2.1:5004").is_err());
    Ok(())
}

#[test]
fn a_packet_that_no_datagram_carries_is_lost(rt: HostRuntime) -> Result<(), Fail> {
    let port = free_port(&rt)?;
    let (_inbound, mut outbound) = RealLinks::new(&rt, rt.alloc()).link(port, "127.0.0.1:5004")?;
    let large = vec![in rt.alloc(); 0u8; 70_000]?;
    assert!(rt; outbound.give(&Beat::last(), large.as_slice()).is_ok());
    assert!(rt; outbound.give(&Beat::last(), b"one").is_ok());
    Ok(())
}

#[test]
fn a_pause_ends_where_the_clock_is_there(rt: HostRuntime) -> Result<(), Fail> {
    let mut links = RealLinks::new(&rt, rt.alloc());
    let begin = links.now();
    links.pause_until(begin.saturating_add(20));
    let end = links.now();
    assert!(rt; end >= begin.saturating_add(20));
    links.pause_until(begin);
    assert!(rt; links.now() >= end);
    Ok(())
}
