//! Numbers in octets, the most significant first.
ghost use Rattle.std.specs.Prelude.{◌≡◌, ◌<◌, ◌≤◌, ◌^◌, length};
ghost use Rattle.snmp_trap.specs.Grammar.{number_of};

/// The number of at most 5 octets.
pub fn number_of(octets: &[u8]) -> u64
    requires { length octets.now ≤ 5 }
    ensures value { result ≡ number_of octets.now }
    ensures fits { result < 256 ^ length octets.now }
{
    let mut number = 0;
    for octet in octets {
        number = number * 256 + u64::from(*octet);
    }
    number
}
