// A script's first line.
ghost use Rattle.std.specs.Prelude.{◌≡◌, ◌≤◌, Option, IfSome};
ghost use Rattle.script_text.specs.Script.{head_of};
ghost use Rattle.script_text.specs.Forms.{number_of};

use crate::numbers::count;
use crate::octets::octets_exactly;
use crate::words::first_word;

/// The longest line in octets, without its end.
pub(crate) const LINE_LIMIT: usize = 1200;

/// What a script's first line says.
#[derive(Clone, Copy, Debug, PartialEq, Eq)]
pub struct Head {
    /// The script's ID.
    pub id: u32,
    /// How many items follow, 0 to 1,000,000.
    pub count: u32,
}

/// The head that a line is: the word, the script's ID in 8 hexadecimal digits and how many items follow. None where it is no
/// head with this word, or longer than 1,200 octets.
pub fn read_head(word: &[u8], line: &[u8]) -> Option<Head>
    ensures head { result ≡ head_of word.now line.now }
    ensures count { IfSome result (λ head. head.count ≤ 1000000) }
{
    if line.len() > LINE_LIMIT {
        return None;
    }
    let (first, rest) = first_word(line);
    let (id, rest) = first_word(rest?);
    let (digits, rest) = first_word(rest?);
    if rest.is_some() {
        return None;
    }
    if first != word {
        return None;
    }
    let octets = octets_exactly::<4>(id)?;
    Some(Head {
        id: number(octets),
        count: count(digits)?,
    })
}

// The first octet counts most.
fn number(octets: [u8; 4]) -> u32
    ensures { result ≡ number_of octets }
{
    u32::from_be_bytes(octets)
}
