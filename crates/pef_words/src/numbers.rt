//! Decimal numbers of four octets.
ghost use Rattle.std.specs.Prelude.{◌≡◌};
ghost use Rattle.script_text.specs.Forms.{decimal_of};

/// A number of 1 to `most` decimal digits, not above the greatest.
pub fn decimal(digits: &[u8], most: usize, greatest: u32) -> Option<u32>
    ensures { result ≡ decimal_of most greatest digits.now }
{
    if digits.len() == 0 || digits.len() > most {
        return None;
    }
    let mut value = 0u64;
    for digit in digits {
        if *digit < b'0' || *digit > b'9' {
            return None;
        }
        value = value * 10 + (*digit - b'0') as u64;
        if value > greatest as u64 {
            return None;
        }
    }
    Some(value as u32)
}
