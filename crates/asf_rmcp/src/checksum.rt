//! The checksums of a LAN message.
ghost use Rattle.std.specs.Prelude.{◌≡◌};
ghost use Rattle.asf_rmcp.specs.Refusals.{checksum_of};

/// The octet that makes the sum 0 modulo 256.
pub fn checksum(octets: &[u8]) -> u8
    ensures { result ≡ checksum_of octets.now }
{
    let mut sum: u8 = 0;
    for octet in octets {
        sum = sum.wrapping_add(*octet);
    }
    sum.wrapping_neg()
}
