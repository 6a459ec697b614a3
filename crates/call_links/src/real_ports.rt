//! The port of an operator over UDP.
use crate::OperatorPort;
use std::net::{Ipv4Addr, Net, SocketAddr, UdpSocket};

/// A port of 127.0.0.1 at which an operator is heard.
#[derive(Drop)]
pub struct RealPort {
    socket: UdpSocket,
    /// Whom the last datagram came from.
    from: Option<SocketAddr>,
}

impl RealPort {
    /// The port of this number, where the system gives it.
    pub fn new<R: Net>(rt: &R, port: u16) -> Option<RealPort> {
        let socket = UdpSocket::bind(rt, (Ipv4Addr::LOCALHOST, port)).ok()?;
        socket.set_nonblocking(true).ok()?;
        Some(RealPort { socket, from: None })
    }
}

impl OperatorPort for RealPort {
    fn receive(&mut self, room: &mut [u8]) -> Option<usize> {
        let (count, from) = self.socket.recv_from(room).ok()?;
        self.from = Some(from);
        Some(count)
    }

    fn answer(&mut self, octets: &[u8]) {
        if let Some(from) = self.from {
            let _lost = self.socket.send_to(octets, from);
        }
    }
}
