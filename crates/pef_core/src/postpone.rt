//! The postpone timer.

/// Whether and how long PEF is held by the postpone timer (IPMI 2.0, section 30.2).
#[derive(Clone, Copy, Debug, PartialEq, Eq)]
pub enum Postpone {
    /// PEF is disabled for the time being, until the timer is armed or the power is cycled.
    Disabled,
    /// The seconds left, 0 to 253. At 0 nothing is held.
    Seconds(u8),
}
