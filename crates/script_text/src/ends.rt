//! The end of a line or of a text.
ghost use Rattle.std.specs.Prelude.{◌≡◌, length, take};
ghost use Rattle.script_text.specs.Lines.{without_last};

/// The octets without one such octet at their end.
pub fn without_last(octets: &[u8], end: u8) -> &[u8]
    ensures rest { result.now ≡ without_last end octets.now }
    ensures front { take (length result.now) octets.now ≡ result.now }
{
    match octets.strip_suffix([end].as_slice()) {
        Some(front) => front,
        None => octets,
    }
}
