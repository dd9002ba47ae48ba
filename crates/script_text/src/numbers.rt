// Decimal numbers.
ghost use Rattle.std.specs.Prelude.{◌≡◌, ◌≤◌, Option, IfSome};
ghost use Rattle.script_text.specs.Forms.{decimal_of, count_of};

/// A count: 1 to 7 decimal digits, at most 1,000,000.
pub fn count(digits: &[u8]) -> Option<u32>
    ensures count { result ≡ count_of digits.now }
    ensures most { IfSome result (λ count. count ≤ 1000000) }
{
    decimal(digits, 7, 1_000_000)
}

// A number of 1 to `most` decimal digits, not above the greatest.
pub(crate) fn decimal(digits: &[u8], most: usize, greatest: u32) -> Option<u32>
    requires { greatest ≤ 1000000 }
    ensures value { result ≡ decimal_of most greatest digits.now }
    ensures limit { IfSome result (λ value. value ≤ greatest) }
{
    if digits.len() == 0 || digits.len() > most {
        return None;
    }
    let mut value = 0u32;
    for digit in digits {
        if *digit < b'0' || *digit > b'9' {
            return None;
        }
        value = value * 10 + (*digit - b'0') as u32;
        if value > greatest {
            return None;
        }
    }
    Some(value)
}
