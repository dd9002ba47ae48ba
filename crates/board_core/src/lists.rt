// The octet lists of fixed room that the program passes on, and how much each of them holds.
ghost use Rattle.std.specs.Prelude.{◌≡◌, ◌≤◌, ◌↔◌, length, IsSome, IfSome};

use crate::bytes::Bytes;

/// A datagram's octets.
pub type Octets = Bytes<512>;
/// A journal entry's octets.
pub type Payload = Bytes<520>;
/// The text of an alert string, without the 00h that ends it.
pub type Text = Bytes<61>;
/// An SNMP community string.
pub type Community = Bytes<18>;

/// A datagram of these octets, and None where they are more than 512.
pub fn octets_of(from: &[u8]) -> Option<Octets>
    ensures room { IsSome result ↔ (length from.now ≤ 512) }
    ensures held { IfSome result (λ octets. octets ≡ from.now) }
{
    Bytes::from_slice(from)
}

/// A journal entry of these octets, and None where they are more than 520.
pub fn payload_of(from: &[u8]) -> Option<Payload>
    ensures room { IsSome result ↔ (length from.now ≤ 520) }
    ensures held { IfSome result (λ payload. payload ≡ from.now) }
{
    Bytes::from_slice(from)
}

/// An alert string of these octets, and None where they are more than 61.
pub fn text_of(from: &[u8]) -> Option<Text>
    ensures room { IsSome result ↔ (length from.now ≤ 61) }
    ensures held { IfSome result (λ text. text ≡ from.now) }
{
    Bytes::from_slice(from)
}

/// A community string of these octets, and None where they are more than 18.
pub fn community_of(from: &[u8]) -> Option<Community>
    ensures room { IsSome result ↔ (length from.now ≤ 18) }
    ensures held { IfSome result (λ community. community ≡ from.now) }
{
    Bytes::from_slice(from)
}
