// Datagrams that arrive, and seconds, as a feed.
ghost use Rattle.std.specs.Prelude.{◌≡◌, ◌⊎◌, ◌↔◌, None, IsTrue};
ghost use Rattle.real_devices.specs.Arriving.{arrival_of};

use crate::failure::{Call, Failure};
use crate::faults::{Faults, counted};
use crate::seconds::Seconds;
use board_core::{Address, Arrival, Feed, Octets};
use std::io;
use std::io::ErrorKind;
use std::net::{Ipv4Addr, Net, SocketAddr, SocketAddrV4, UdpSocket};
use std::time::Clock;

/// What arrives by UDP at one address of this system, and a tick for each second since the first call. It tells nothing of what
/// arrives, and gives no end.
#[derive(Drop)]
pub struct UdpFeed<'a, R> {
    rt: &'a R,
    socket: UdpSocket,
    seconds: Seconds,
    faults: Faults,
}

impl<'a, R: Net + Clock> UdpFeed<'a, R> {
    ghost use Rattle.std.specs.Prelude.{◌≡◌, IfOk};
    ghost use Rattle.real_devices.specs.Devices.{feed_faults};

    /// Takes this address, and no other. Its faults count from 0.
    pub fn bind(rt: &'a R, at: &Address) -> io::Result<UdpFeed<'a, R>>
        ensures { IfOk result (λ feed. feed_faults feed ≡ 0) }
    {
        let [a, b, c, d] = at.ip;
        let at = SocketAddrV4::new(Ipv4Addr::new(a, b, c, d), at.port);
        Ok(UdpFeed {
            rt,
            socket: UdpSocket::bind(rt, at)?,
            seconds: Seconds::new(),
            faults: Faults::new(),
        })
    }

    /// The same socket, to send from its address.
    pub fn socket(&self) -> io::Result<UdpSocket> {
        self.socket.try_clone()
    }

    /// The first call that failed.
    pub fn failure(&self) -> Option<Failure>
        ensures { result ≡ self.now.faults.first }
    {
        self.faults.first
    }
}

impl<'a, R: Net + Clock> Feed for UdpFeed<'a, R> {
    ghost use Rattle.real_devices.specs.Devices.{feed_faults};

    ghost arrivals = { λ feed. None };

    ghost faults = { feed_faults };

    ghost counted = { λ feed. feed.faults.counted };

    fn next(&mut self) -> Arrival {
        let waited = wait(self.rt, &self.socket, &mut self.seconds);
        match counted(waited, Call::Receive, &mut self.faults, ()) {
            Ok(datagram) => arrival_of(datagram),
            Err(()) => Arrival::Failed,
        }
    }
}

// The datagram that arrived, or a second that passed without one.
fn arrival_of(datagram: Option<(Address, Octets)>) -> Arrival
    ensures { result ≡ arrival_of datagram }
{
    match datagram {
        Some((from, octets)) => Arrival::Datagram { from, octets },
        None => Arrival::Tick,
    }
}

// Waits for a datagram until the next second ends. None where that came first.
fn wait<C: Clock>(
    clock: &C,
    socket: &UdpSocket,
    seconds: &mut Seconds,
) -> io::Result<Option<(Address, Octets)>> {
    for _ in 0..u64::MAX {
        let Some(left) = seconds.until_next(clock)? else {
            return Ok(None);
        };
        // The system would take a time of 0 for no limit. One below a microsecond is rounded up, and 0 is never left.
        socket.set_read_timeout(Some(left))?;
        let datagram = received(socket)?;
        if datagram.is_some() {
            return Ok(datagram);
        }
    }
    Err(io::Error::from(ErrorKind::TimedOut))
}

// The next datagram, of more than 512 octets the first 512. None where none came in time, or there is nothing to read yet.
fn received(socket: &UdpSocket) -> io::Result<Option<(Address, Octets)>> {
    let mut room = [0u8; 512];
    match socket.recv_from(&mut room) {
        Ok((count, SocketAddr::V4(from))) => {
            let mut octets = Octets::new();
            let _ = octets.extend(&room[..count]);
            let from = Address {
                ip: from.ip().octets(),
                port: from.port(),
            };
            Ok(Some((from, octets)))
        }
        Ok((_, SocketAddr::V6(_))) => Ok(None),
        Err(error) if is_passing(error.kind()) => Ok(None),
        Err(error) => Err(error),
    }
}

// A time that ran out, a call that a signal interrupted, and a datagram sent earlier that found nobody are no failures of a receive.
fn is_passing(kind: ErrorKind) -> bool
    ensures { IsTrue result ↔ ((kind ≡ ErrorKind.WouldBlock) ⊎ ((kind ≡ ErrorKind.TimedOut)
        ⊎ ((kind ≡ ErrorKind.Interrupted) ⊎ (kind ≡ ErrorKind.ConnectionRefused)))) }
{
    matches!(
        kind,
        ErrorKind::WouldBlock
            | ErrorKind::TimedOut
            | ErrorKind::Interrupted
            | ErrorKind::ConnectionRefused
    )
}

#[cfg(test)]
mod tests;
