//! What a controller's settings say of it.

use alert_trap::Origin;
use lan_dest::Ports;

/// What a controller's traps tell of it, and where they go.
#[derive(Clone, Copy, Debug, PartialEq, Eq)]
pub struct Own {
    /// The system GUID, octets in their order, where parameter 10 gives no other.
    pub guid: [u8; 16],
    pub origin: Origin,
    pub ports: Ports,
}
