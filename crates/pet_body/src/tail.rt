//! The text in the tail of a body, in a form that is this project's.

ghost use Rattle.std.specs.Prelude.{◌≡◌};
ghost use Rattle.pet_body.specs.Tail.{tail_for, text_in};

use board_core::{Bytes, Text};

/// The octet that ends a tail. A text of n octets has this octet plus n before it.
const END: u8 = 0xC1;

/// The tail with this text: C1h plus its length, the text, 00h and C1h, and C1h alone where the
/// text is empty.
pub fn tail_of(text: &Text) -> Bytes<64>
    ensures tail { result ≡ tail_for text.now }
    ensures reads_back { text_in result ≡ text.now }
{
    text.fits();
    let octets = text.as_slice();
    let mut tail = Bytes::new();
    if !octets.is_empty() {
        tail.push(END + octets.len() as u8);
        tail.extend(octets);
        tail.push(0x00);
    }
    tail.push(END);
    tail
}

/// The text of a tail, which is empty where the tail doesn't begin with a text of 1 to 61 octets
/// and 00h.
pub fn tail_text(tail: &[u8]) -> Text
    ensures { result ≡ text_in tail.now }
{
    let mut text = Text::new();
    if let [first @ 0xC2..=0xFE, others @ ..] = tail {
        let length = (*first - END) as usize;
        if others.get(length) == Some(&0x00) {
            text.extend(&others[..length]);
        }
    }
    text
}
