//! What the parameters hold at first.

/// The initial values that aren't zero: parameters 1 to 3, and filter 1.
#[derive(Clone, Copy, Debug, PartialEq, Eq)]
pub struct Initial {
    /// Parameter 1, the control octet.
    pub control: u8,
    /// Parameter 2, the actions that may be done.
    pub actions: u8,
    /// Parameter 3, the startup delay in seconds.
    pub delay: u8,
    /// Filter 1.
    pub filter: [u8; 20],
}
