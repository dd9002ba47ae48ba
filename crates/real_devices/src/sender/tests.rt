use super::*;
use std::net::SocketAddr;
use std::test::Fail;

// A socket of the test at 127.0.0.1, and its port.
fn receiver_at(rt: &HostRuntime) -> io::Result<(UdpSocket, u16)> {
    let receiver = UdpSocket::bind(rt, SocketAddrV4::new(Ipv4Addr::LOCALHOST, 0))?;
    let port = receiver.local_addr()?.port();
    Ok((receiver, port))
}

// The address that the sender's socket is bound to.
fn bound_at(sender: &Sender) -> Option<SocketAddr> {
    sender.bound.as_ref()?.socket.local_addr().ok()
}

// Sends four octets, and answers those that came in, and from where.
fn send_on(
    rt: &HostRuntime,
    sender: &mut Sender,
    receiver: &UdpSocket,
    to: &Address,
) -> io::Result<([u8; 4], SocketAddr)> {
    let mut octets = Octets::new();
    let _ = octets.extend(b"trap");
    sender.send(rt, to, &octets)?;
    let mut got = [0u8; 4];
    let (_, from) = receiver.recv_from(&mut got)?;
    Ok((got, from))
}

#[test]
fn a_socket_is_bound_to_the_address_that_leads_there(rt: HostRuntime) -> Result<(), Fail> {
    let (receiver, port) = receiver_at(&rt)?;
    // The system takes 0.0.0.0 for itself, which it finds out by the route.
    for ip in [[127, 0, 0, 1], [0, 0, 0, 0]] {
        let mut sender = Sender::new();
        let to = Address { ip, port };
        let first = send_on(&rt, &mut sender, &receiver, &to)?;
        let (got, from) = first;
        assert_eq!(rt; &got, b"trap");
        assert_eq!(rt; from.ip(), IpAddr::V4(Ipv4Addr::LOCALHOST));
        assert_eq!(rt; bound_at(&sender), Some(from));
        // The socket is kept.
        assert_eq!(rt; send_on(&rt, &mut sender, &receiver, &to)?, first);
        assert_eq!(rt; bound_at(&sender), Some(from));
    }
    Ok(())
}

#[test]
fn datagrams_to_nobody_are_sent(rt: HostRuntime) -> Result<(), Fail> {
    let (receiver, port) = receiver_at(&rt)?;
    drop(receiver);
    let mut sender = Sender::new();
    let to = Address {
        ip: [127, 0, 0, 1],
        port,
    };
    for _ in 0..3 {
        sender.send(&rt, &to, &Octets::new())?;
    }
    Ok(())
}
