//! Destinations that alerts can be sent to.
ghost use Rattle.std.specs.Prelude.{◌≡◌, ◌==◌, ◌≤◌, length, if◌then◌else◌};
ghost use Rattle.std.specs.List.{position_or_len, list_all};
ghost use Rattle.std.specs.Option.{ForSome};
ghost use Rattle.lan_dest.specs.Kept.{kept};
ghost use Rattle.lan_dest.specs.Usable.{text_of, is_kind, port_for, destination_from, if_usable, destination_at, CanBeTried};

use crate::destination::{Destination, Ports};
use crate::lan::{DESTINATIONS, Lan, is_channel};
use board_core::{Address, Community};

impl Lan {
    /// The destination of this number on this channel, where an alert can be sent to it: channel 1 or 2, number 0 to 4,
    /// type 0, 6 or 7, and another address than 0.0.0.0.
    pub fn destination(&self, ports: &Ports, channel: u8, number: u8) -> Option<Destination>
        ensures found { result ≡ destination_at ports.now (kept self.now) channel number }
        ensures ranges { ForSome result CanBeTried }
    {
        if !is_channel(channel) || number >= DESTINATIONS {
            return None;
        }
        let kind = self.kind(channel, number);
        let address = self.address(channel, number);
        destination_from(ports, kind, address, &self.community(channel))
    }
}

/// The destination with this type, address and community, where an alert can be sent to it.
fn destination_from(
    ports: &Ports,
    kind: [u8; 3],
    address: [u8; 12],
    community: &[u8; 18],
) -> Option<Destination>
    ensures found { result ≡ if_usable (destination_from ports.now kind address community.now) }
    ensures ranges { ForSome result CanBeTried }
{
    let [flags, timeout, retries] = kind;
    let mut ip = [0; 4];
    ip.copy_from_slice(&address[2..6]);
    let kind = flags % 8;
    let port = port_for(ports, kind)?;
    if is_zero(&ip) {
        return None;
    }
    Some(Destination {
        to: Address { ip, port },
        acknowledged: flags / 128 % 2 == 1,
        kind,
        wait: u16::from(timeout) + 1,
        retries: retries % 8,
        community: text_of(community),
    })
}

/// The port of a destination type that alerts can be sent to.
fn port_for(ports: &Ports, kind: u8) -> Option<u16>
    ensures { result ≡ (if is_kind kind then Some (port_for ports.now kind) else None) }
{
    match kind {
        0 => Some(ports.pet),
        6 => Some(ports.oem1),
        7 => Some(ports.oem2),
        _ => None,
    }
}

fn is_zero(octets: &[u8; 4]) -> bool
    ensures { result ≡ list_all (λ octet. octet == 0) octets.now }
{
    octets.iter().all(|octet| *octet == 0)
}

/// The octets before the first 00h.
fn text_of(octets: &[u8; 18]) -> Community
    ensures { result ≡ text_of octets.now }
{
    let end = text_end(octets);
    let mut text = Community::new();
    text.extend(&octets[..end]);
    text
}

/// How many octets stand before the first 00h.
fn text_end(octets: &[u8; 18]) -> usize
    ensures end { result ≡ position_or_len (λ octet. octet == 0) octets.now }
    ensures within { result ≤ length octets.now }
{
    octets.iter().take_while(|octet| **octet != 0).count()
}
