use super::*;
use std::test::Fail;
use std::time::{Duration, Instant};

// This port of 127.0.0.1.
fn local(port: u16) -> Address {
    Address {
        ip: [127, 0, 0, 1],
        port,
    }
}

#[test]
fn a_feed_gives_datagrams_and_seconds(rt: HostRuntime) -> Result<(), Fail> {
    let mut feed = UdpFeed::bind(&rt, &local(0))?;
    let from = local(send_all(&rt, feed.socket()?.local_addr()?.port())?);
    // What is there already comes first, and of 513 octets the first 512.
    let start = Instant::now(&rt)?;
    for count in [2, 512, 512] {
        assert_eq!(rt; next_of(&mut feed), Some((from, count)));
    }
    assert!(rt; matches!(feed.next(), Arrival::Tick));
    assert!(rt; start.elapsed(&rt)?.as_millis() >= 990);
    assert!(rt; feed.failure().is_none());
    Ok(())
}

#[test]
fn the_shortest_wait_ends(rt: HostRuntime) -> Result<(), Fail> {
    let socket = UdpSocket::bind(&rt, SocketAddrV4::new(Ipv4Addr::LOCALHOST, 0))?;
    socket.set_read_timeout(Some(Duration::from_nanos(1)))?;
    assert!(rt; received(&socket)?.is_none());
    Ok(())
}

// Sends datagrams of 2, 512 and 513 octets to this port of 127.0.0.1, and answers the port that they come from.
fn send_all(rt: &HostRuntime, port: u16) -> io::Result<u16> {
    let sender = UdpSocket::bind(rt, SocketAddrV4::new(Ipv4Addr::LOCALHOST, 0))?;
    let octets = [7u8; 513];
    for count in [2, 512, 513] {
        sender.send_to(
            &octets[..count],
            SocketAddrV4::new(Ipv4Addr::LOCALHOST, port),
        )?;
    }
    Ok(sender.local_addr()?.port())
}

// Where the next datagram comes from, and how many octets it has.
fn next_of(feed: &mut UdpFeed<'_, HostRuntime>) -> Option<(Address, usize)> {
    match feed.next() {
        Arrival::Datagram { from, octets } => Some((from, octets.as_slice().len())),
        _ => None,
    }
}
