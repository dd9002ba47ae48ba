// The words of a line.
ghost use Rattle.std.specs.Prelude.{◌≡◌, ◌≤◌, ◌<◌, ◌+◌, ℕ, List, [], ◌∷◌, ◌++◌, Option, MatchOption, length, drop, nat_eq, position};
ghost use Rattle.script_text.specs.Forms.{parts_of, words_of, is_end};

/// The first word of a line, and what comes behind the space after it: None where there is no space.
pub fn first_word(text: &[u8]) -> (&[u8], Option<&[u8]>)
    ensures { MatchOption result.1 (words_of text.now ≡ result.0.now ∷ []) (λ rest. words_of text.now ≡ result.0.now ∷ words_of rest.now) }
{
    first_part(text, b' ')
}

// The octets before the first separator, and those behind it: None where there is none.
pub(crate) fn first_part(text: &[u8], separator: u8) -> (&[u8], Option<&[u8]>)
    ensures { MatchOption result.1 (parts_of separator text.now ≡ result.0.now ∷ [])
        (λ rest. parts_of separator text.now ≡ result.0.now ∷ parts_of separator rest.now) }
{
    match find(text, separator) {
        Some(at) => (&text[..at], Some(behind(text, at))),
        None => (text, None),
    }
}

// Where such an octet stands first.
fn find(text: &[u8], octet: u8) -> Option<usize>
    ensures { result ≡ position (λ b. nat_eq b octet) text.now }
{
    text.iter().position(|b| *b == octet)
}

// What comes behind this octet.
fn behind(text: &[u8], at: usize) -> &[u8]
    requires { at < length text.now }
    ensures { result.now ≡ drop (at + 1) text.now }
{
    &text[at + 1..]
}

/// Whether the line is the word `end`.
pub fn is_end(line: &[u8]) -> bool
    ensures { result ≡ is_end line.now }
{
    line == b"end".as_slice()
}
