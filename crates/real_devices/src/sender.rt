// Datagrams by UDP.
use board_core::{Address, Octets};
use std::io;
use std::net::{IpAddr, Ipv4Addr, Net, SocketAddrV4, UdpSocket};

/// What sends datagrams, from a socket that it is given, or each from the one address of this system that leads to its receiver, at a port that the system
/// chooses. The socket is kept for the next datagram that goes out from the same address.
#[derive(Drop)]
pub struct Sender {
    given: Option<UdpSocket>,
    bound: Option<Bound>,
}

#[derive(Drop)]
struct Bound {
    source: IpAddr,
    socket: UdpSocket,
}

impl Sender {
    /// A sender that has sent nothing, and has no socket.
    pub fn new() -> Sender {
        Sender {
            given: None,
            bound: None,
        }
    }

    /// A sender that sends each datagram from this socket, which isn't connected.
    pub fn over(socket: UdpSocket) -> Sender {
        Sender {
            given: Some(socket),
            bound: None,
        }
    }

    /// Sends the octets as one datagram.
    pub fn send<R: Net>(&mut self, rt: &R, to: &Address, octets: &Octets) -> io::Result<()> {
        let [a, b, c, d] = to.ip;
        let to = SocketAddrV4::new(Ipv4Addr::new(a, b, c, d), to.port);
        if let Some(socket) = &self.given {
            socket.send_to(octets.as_slice(), to)?;
            return Ok(());
        }
        let source = source_of(rt, to)?;
        let is_bound = self
            .bound
            .as_ref()
            .is_some_and(|bound| bound.source == source);
        if !is_bound {
            let socket = UdpSocket::bind(rt, (source, 0))?;
            self.bound = Some(Bound { source, socket });
        }
        // The socket stays unconnected: where a datagram finds nobody, a connected one would refuse the next.
        if let Some(bound) = &self.bound {
            bound.socket.send_to(octets.as_slice(), to)?;
        }
        Ok(())
    }
}

// The address of this system from which datagrams to this one go out.
fn source_of<R: Net>(rt: &R, to: SocketAddrV4) -> io::Result<IpAddr> {
    if to.ip().is_loopback() {
        return Ok(IpAddr::V4(Ipv4Addr::LOCALHOST));
    }
    // To connect a UDP socket sends nothing. It asks the system for the route, and is then bound to the address at its start.
    let probe = UdpSocket::bind(rt, (Ipv4Addr::UNSPECIFIED, 0))?;
    probe.connect(to)?;
    Ok(probe.local_addr()?.ip())
}

#[cfg(test)]
mod tests;
