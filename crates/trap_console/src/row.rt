//! A row of the ledger.

use board_core::Address;
use pet_body::Body;

/// A trap as it first arrived.
#[derive(Drop)]
pub struct Row {
    /// Who sent it, as the datagram says.
    pub from: Address,
    /// The specific number: sensor type, event type and offset (PET 1.0).
    pub specific: u32,
    /// The body (PET 1.0).
    pub body: Body,
}
