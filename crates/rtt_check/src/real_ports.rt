//! Ports of this machine.
ghost use Rattle.std.specs.Prelude.{◌≡◌, length};

use crate::Ports;
use crate::causes::cause_of;
use link_io::{Links, RealIn, RealLinks, RealOut, peer_of};
use report_spec::PortFault;
use rtt_base::NoMemory;
use std::alloc::Global;
use std::io;
use std::net::{IpAddr, Ipv4Addr, Ipv6Addr, Net, SocketAddr, UdpSocket};
use std::time::Clock;

/// Ports of this machine: a port can be had where a link of a live call can be opened there, to a peer. Such a link is opened, as the
/// call would, and closed where it is let go; nobody sends or hears over it.
#[derive(Drop)]
pub struct RealPorts<R> {
    rt: R,
    alloc: Global,
    links: RealLinks<R>,
    held: Vec<(RealIn<R>, RealOut)>,
}

impl<R: Net + Clock + Copy + Send> RealPorts<R> {
    /// The ports of this runtime's network.
    pub fn new(rt: R, alloc: Global) -> RealPorts<R> {
        RealPorts {
            rt,
            alloc,
            links: RealLinks::new(rt, alloc),
            held: Vec::new(alloc),
        }
    }
}

/// Where a link to this address is opened: at this machine's own, of the same kind.
fn own_address(there: SocketAddr) -> IpAddr {
    match there {
        SocketAddr::V4(_) => IpAddr::V4(Ipv4Addr::LOCALHOST),
        SocketAddr::V6(_) => IpAddr::V6(Ipv6Addr::LOCALHOST),
    }
}

/// Opens as many files as a link does, the socket as a link has it, and closes them.
fn open_anew<R: Net>(rt: &R, port: u16, there: SocketAddr) -> io::Result<()> {
    let socket = UdpSocket::bind(rt, SocketAddr::new(own_address(there), port))?;
    socket.connect(there)?;
    let _second = socket.try_clone()?;
    let _third = socket.try_clone()?;
    Ok(())
}

/// Why a link could not be opened.
fn why_not<R: Net>(rt: &R, port: u16, to: &str) -> PortFault {
    if peer_of(to).is_none() {
        return PortFault::NoAddress;
    }
    let Ok(there) = to.parse::<SocketAddr>() else {
        return PortFault::NoAddress;
    };
    match open_anew(rt, port, there) {
        Ok(()) => PortFault::Other,
        Err(error) => cause_of(&error),
    }
}

impl<R: Net + Clock + Copy + Send> Ports for RealPorts<R> {
    ghost use Rattle.std.specs.Prelude.{None, length};

    ghost tells = { ⊥ };

    ghost answers = { λ _ _ _. None };

    ghost kept = { λ ports. length ports.held.items };

    fn try_port(&mut self, port: u16, to: &str) -> Result<Option<PortFault>, NoMemory> {
        let Ok(ends) = self.links.link(port, to) else {
            return Ok(Some(why_not(&self.rt, port, to)));
        };
        match self.held.push(ends) {
            Ok(()) => Ok(None),
            Err(_) => Err(NoMemory),
        }
    }

    fn let_go(&mut self) {
        self.held = Vec::new(self.alloc);
    }
}
