//! Which numbers strings and blocks have.
ghost use Rattle.std.specs.Prelude.{◌≡◌, ◌+◌, ◌<◌, ◌≤◌, ◌&&◌, nat_le, if◌then◌else◌, IfOk};
ghost use Rattle.std.specs.Result.{result_err};
ghost use Rattle.alert_strings.specs.Table.{number_fault, block_fault};

use crate::fault::StringFault;

/// The place of the string of this number, counted from 0.
pub(crate) fn place_of(number: u8) -> Result<usize, StringFault>
    ensures refused { result_err result ≡ number_fault 8 number }
    ensures place { IfOk result (λ place. (place ≡ number) × (place ≤ 8)) }
{
    if number > 8 {
        return Err(StringFault::NoSuch(number));
    }
    Ok(usize::from(number))
}

/// The places of the string and of its block, counted from 0.
pub(crate) fn places_of(number: u8, block: u8) -> Result<(usize, usize), StringFault>
    ensures refused { result_err result ≡ block_fault 8 4 number block }
    ensures place { IfOk result (λ places. (places.0 ≡ number) × (places.0 ≤ 8) × (places.1 + 1 ≡ block) × (places.1 < 4)) }
{
    if number > 8 {
        return Err(StringFault::NoSuch(number));
    }
    if block == 0 || block > 4 {
        return Err(StringFault::NoBlock(block));
    }
    Ok((usize::from(number), usize::from(block) - 1))
}

/// Whether a string key of a policy entry asks for a string of a string set: bit 7.
pub(crate) fn asks_for_set(key: u8) -> bool
    ensures { result ≡ nat_le 128 key }
{
    key >= 128
}

/// The string of this number, where a policy entry can name it: 1 to 8.
pub(crate) fn string_numbered(number: u8) -> Option<u8>
    ensures { result ≡ (if nat_le 1 number && nat_le number 8 then Some number else None) }
{
    if number == 0 || number > 8 {
        return None;
    }
    Some(number)
}
