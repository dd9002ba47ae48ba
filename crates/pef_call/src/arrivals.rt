//! The number of arrivals that a word says.
ghost use Rattle.std.specs.Prelude.{◌≡◌, ◌≤◌, IfSome};
ghost use Rattle.script_text.specs.Forms.{decimal_of};
ghost use Rattle.pef_call.specs.Words.{arrivals_of};

// The greatest number, and the digits that it has.
const GREATEST: u64 = 1_000_000_000;

const DIGITS: usize = 10;

/// A number of 1 to 1,000,000,000, in 1 to 10 decimal digits. It may begin with zeros.
pub fn arrivals_in(word: &str) -> Option<u64>
    ensures value { result ≡ arrivals_of word.now }
    ensures limit { IfSome result (λ number. number ≤ 1000000000) }
{
    let number = decimal(word.as_bytes())?;
    if number == 0 {
        return None;
    }
    Some(number)
}

// A number in 1 to 10 decimal digits, not above the greatest.
fn decimal(digits: &[u8]) -> Option<u64>
    ensures value { result ≡ decimal_of 10 1000000000 digits.now }
    ensures limit { IfSome result (λ value. value ≤ 1000000000) }
{
    if digits.len() == 0 || digits.len() > DIGITS {
        return None;
    }
    let mut value = 0u64;
    for digit in digits {
        if *digit < b'0' || *digit > b'9' {
            return None;
        }
        value = value * 10 + (*digit - b'0') as u64;
        if value > GREATEST {
            return None;
        }
    }
    Some(value)
}
