//! What a datagram was to a console.

use snmp_trap::Refusal;

/// What the last item was. Rows are counted from 1.
#[derive(Clone, Copy, Debug, PartialEq, Eq)]
pub enum Heard {
    /// A trap with a new key, which is this row from now on.
    New(u32),
    /// A trap with the key of this row.
    Again(u32),
    /// A datagram that is no trap.
    Refused(Refusal),
    /// No datagram, or none was taken yet.
    Nothing,
}
