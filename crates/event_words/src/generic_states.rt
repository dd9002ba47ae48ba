//! The states of generic event types (IPMI 2.0, table 42-2).
ghost use Rattle.std.specs.Prelude.{◌≡◌, ◌≤◌, length, option_copied, IfSome};
ghost use Rattle.event_words.specs.Rows.{row_at};
ghost use Rattle.event_words.specs.GenericStates.{generic_words, threshold_rows, usage_rows, digital_state_rows, predictive_failure_rows, limit_rows, performance_rows, severity_state_rows, presence_rows, enabling_rows, availability_rows, redundancy_rows, device_power_rows};

/// The words of an offset of event types 01h to 0Ch: None where the table has no such row.
#[tactic(auto, unfolding(crate::specs::GenericStates::generic_words))]
pub(crate) fn generic_state(code: u8, offset: u8) -> Option<&'static str>
    ensures words { option_copied result ≡ generic_words code offset }
    ensures short { IfSome result (λ words. length words.now ≤ 80) }
{
    match code {
        0x01 => threshold(offset),
        0x02 => usage(offset),
        0x03 => digital_state(offset),
        0x04 => predictive_failure(offset),
        0x05 => limit(offset),
        0x06 => performance(offset),
        0x07 => severity_state(offset),
        0x08 => presence(offset),
        0x09 => enabling(offset),
        0x0A => availability(offset),
        0x0B => redundancy(offset),
        0x0C => device_power(offset),
        _ => None,
    }
}

// Event type 01h.
fn threshold(offset: u8) -> Option<&'static str>
    ensures words { option_copied result ≡ row_at threshold_rows offset }
    ensures short { IfSome result (λ words. length words.now ≤ 80) }
{
    match offset {
        0x00 => Some("lower non-critical, going low"),
        0x01 => Some("lower non-critical, going high"),
        0x02 => Some("lower critical, going low"),
        0x03 => Some("lower critical, going high"),
        0x04 => Some("lower non-recoverable, going low"),
        0x05 => Some("lower non-recoverable, going high"),
        0x06 => Some("upper non-critical, going low"),
        0x07 => Some("upper non-critical, going high"),
        0x08 => Some("upper critical, going low"),
        0x09 => Some("upper critical, going high"),
        0x0A => Some("upper non-recoverable, going low"),
        0x0B => Some("upper non-recoverable, going high"),
        _ => None,
    }
}

// Event type 02h.
fn usage(offset: u8) -> Option<&'static str>
    ensures words { option_copied result ≡ row_at usage_rows offset }
    ensures short { IfSome result (λ words. length words.now ≤ 80) }
{
    match offset {
        0x00 => Some("transition to idle"),
        0x01 => Some("transition to active"),
        0x02 => Some("transition to busy"),
        _ => None,
    }
}

// Event type 03h.
fn digital_state(offset: u8) -> Option<&'static str>
    ensures words { option_copied result ≡ row_at digital_state_rows offset }
    ensures short { IfSome result (λ words. length words.now ≤ 80) }
{
    match offset {
        0x00 => Some("state deasserted"),
        0x01 => Some("state asserted"),
        _ => None,
    }
}

// Event type 04h.
fn predictive_failure(offset: u8) -> Option<&'static str>
    ensures words { option_copied result ≡ row_at predictive_failure_rows offset }
    ensures short { IfSome result (λ words. length words.now ≤ 80) }
{
    match offset {
        0x00 => Some("predictive failure deasserted"),
        0x01 => Some("predictive failure asserted"),
        _ => None,
    }
}

// Event type 05h.
fn limit(offset: u8) -> Option<&'static str>
    ensures words { option_copied result ≡ row_at limit_rows offset }
    ensures short { IfSome result (λ words. length words.now ≤ 80) }
{
    match offset {
        0x00 => Some("limit not exceeded"),
        0x01 => Some("limit exceeded"),
        _ => None,
    }
}

// Event type 06h.
fn performance(offset: u8) -> Option<&'static str>
    ensures words { option_copied result ≡ row_at performance_rows offset }
    ensures short { IfSome result (λ words. length words.now ≤ 80) }
{
    match offset {
        0x00 => Some("performance met"),
        0x01 => Some("performance lags"),
        _ => None,
    }
}

// Event type 07h.
fn severity_state(offset: u8) -> Option<&'static str>
    ensures words { option_copied result ≡ row_at severity_state_rows offset }
    ensures short { IfSome result (λ words. length words.now ≤ 80) }
{
    match offset {
        0x00 => Some("transition to OK"),
        0x01 => Some("transition to non-critical from OK"),
        0x02 => Some("transition to critical from less severe"),
        0x03 => Some("transition to non-recoverable from less severe"),
        0x04 => Some("transition to non-critical from more severe"),
        0x05 => Some("transition to critical from non-recoverable"),
        0x06 => Some("transition to non-recoverable"),
        0x07 => Some("monitor"),
        0x08 => Some("informational"),
        _ => None,
    }
}

// Event type 08h.
fn presence(offset: u8) -> Option<&'static str>
    ensures words { option_copied result ≡ row_at presence_rows offset }
    ensures short { IfSome result (λ words. length words.now ≤ 80) }
{
    match offset {
        0x00 => Some("device removed / device absent"),
        0x01 => Some("device inserted / device present"),
        _ => None,
    }
}

// Event type 09h.
fn enabling(offset: u8) -> Option<&'static str>
    ensures words { option_copied result ≡ row_at enabling_rows offset }
    ensures short { IfSome result (λ words. length words.now ≤ 80) }
{
    match offset {
        0x00 => Some("device disabled"),
        0x01 => Some("device enabled"),
        _ => None,
    }
}

// Event type 0Ah.
fn availability(offset: u8) -> Option<&'static str>
    ensures words { option_copied result ≡ row_at availability_rows offset }
    ensures short { IfSome result (λ words. length words.now ≤ 80) }
{
    match offset {
        0x00 => Some("transition to running"),
        0x01 => Some("transition to in test"),
        0x02 => Some("transition to power off"),
        0x03 => Some("transition to on line"),
        0x04 => Some("transition to off line"),
        0x05 => Some("transition to off duty"),
        0x06 => Some("transition to degraded"),
        0x07 => Some("transition to power save"),
        0x08 => Some("install error"),
        _ => None,
    }
}

// Event type 0Bh.
fn redundancy(offset: u8) -> Option<&'static str>
    ensures words { option_copied result ≡ row_at redundancy_rows offset }
    ensures short { IfSome result (λ words. length words.now ≤ 80) }
{
    match offset {
        0x00 => Some("fully redundant"),
        0x01 => Some("redundancy lost"),
        0x02 => Some("redundancy degraded"),
        0x03 => Some("non-redundant: sufficient resources from redundant"),
        0x04 => Some("non-redundant: sufficient resources from insufficient resources"),
        0x05 => Some("non-redundant: insufficient resources"),
        0x06 => Some("redundancy degraded from fully redundant"),
        0x07 => Some("redundancy degraded from non-redundant"),
        _ => None,
    }
}

// Event type 0Ch.
fn device_power(offset: u8) -> Option<&'static str>
    ensures words { option_copied result ≡ row_at device_power_rows offset }
    ensures short { IfSome result (λ words. length words.now ≤ 80) }
{
    match offset {
        0x00 => Some("D0 power state"),
        0x01 => Some("D1 power state"),
        0x02 => Some("D2 power state"),
        0x03 => Some("D3 power state"),
        _ => None,
    }
}
