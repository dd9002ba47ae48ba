// IPv4 addresses, alone and with a port.
ghost use Rattle.std.specs.Prelude.{◌≡◌};
ghost use Rattle.script_text.specs.Forms.{ip_number, ip_of, address_of};

use crate::numbers::decimal;
use crate::words::first_part;
use board_core::Address;

/// An IPv4 address, a colon and a port of 0 to 65,535, of 1 to 5 digits, which may begin with zeros.
pub fn address(word: &[u8]) -> Option<Address>
    ensures { result ≡ address_of word.now }
{
    let (ip, port) = first_part(word, b':');
    let (port, more) = first_part(port?, b':');
    if more.is_some() {
        return None;
    }
    let ip = ipv4(ip)?;
    let port = decimal(port, 5, 65_535)? as u16;
    Some(Address { ip, port })
}

/// An IPv4 address: four decimal numbers of 0 to 255 with points, of 1 to 3 digits each, which may begin with zeros.
pub fn ipv4(word: &[u8]) -> Option<[u8; 4]>
    ensures { result ≡ ip_of word.now }
{
    let (a, rest) = first_part(word, b'.');
    let (b, rest) = first_part(rest?, b'.');
    let (c, rest) = first_part(rest?, b'.');
    let (d, more) = first_part(rest?, b'.');
    if more.is_some() {
        return None;
    }
    Some([ip_number(a)?, ip_number(b)?, ip_number(c)?, ip_number(d)?])
}

// One number of an IPv4 address.
fn ip_number(digits: &[u8]) -> Option<u8>
    ensures { result ≡ ip_number digits.now }
{
    Some(decimal(digits, 3, 255)? as u8)
}
