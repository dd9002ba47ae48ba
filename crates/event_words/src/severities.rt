//! The words of severities (IPMI 2.0, section 17.7; PET 1.0 has the same codes).
ghost use Rattle.std.specs.Prelude.{◌≡◌, ◌≤◌, length, option_copied, IfSome};
ghost use Rattle.event_words.specs.Severities.{severity_words};

/// The words of a severity, as a filter gives it and a trap carries it: None for other codes.
#[tactic(auto, unfolding(crate::specs::Severities::severity_words))]
pub(crate) fn severity_name(code: u8) -> Option<&'static str>
    ensures words { option_copied result ≡ severity_words code }
    ensures short { IfSome result (λ words. length words.now ≤ 80) }
{
    match code {
        0x00 => Some("severity unspecified"),
        0x01 => Some("monitor"),
        0x02 => Some("information"),
        0x04 => Some("OK"),
        0x08 => Some("non-critical"),
        0x10 => Some("critical"),
        0x20 => Some("non-recoverable"),
        _ => None,
    }
}
