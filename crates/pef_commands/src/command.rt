//! The commands.

use board_core::Bytes;
use pet_body::PetAck;

/// What a request asks for, with its numbers already cut to the bits that count.
#[derive(Drop)]
pub enum Command {
    /// Get PEF Capabilities (IPMI 2.0, section 30.1).
    Capabilities,
    /// Arm PEF Postpone Timer: 00h to FDh are seconds, FEh disables PEF for the time being, FFh reads alone (IPMI 2.0, section 30.2).
    Postpone(u8),
    /// Set PEF Configuration Parameters: the parameter, 0 to 127, and the octets to be written (IPMI 2.0, section 30.3).
    SetPef {
        parameter: u8,
        payload: Bytes<64>,
    },
    /// Get PEF Configuration Parameters: the value, or the revision alone; parameter and set 0 to 127 (IPMI 2.0, section 30.4).
    GetPef {
        parameter: u8,
        revision_only: bool,
        set: u8,
        block: u8,
    },
    /// Set Last Processed Event ID: the BMC's mark, or else software's, and the ID of a record (IPMI 2.0, section 30.5).
    SetLast {
        bmc: bool,
        id: u16,
    },
    /// Get Last Processed Event ID (IPMI 2.0, section 30.6).
    GetLast,
    /// Alert Immediate, which sends an alert to a destination: channel and destination 0 to 15, and
    /// the number of the string that it carries, 0 to 127, if any (IPMI 2.0, section 30.7).
    Send {
        channel: u8,
        destination: u8,
        string: Option<u8>,
    },
    /// Alert Immediate, which reads how the last one went (IPMI 2.0, section 30.7).
    SendStatus,
    /// Alert Immediate, which clears that status (IPMI 2.0, section 30.7).
    SendClear,
    /// Set LAN Configuration Parameters: channel 0 to 15, parameter 0 to 255, and the octets to be written (IPMI 2.0, section 23.1).
    SetLan {
        channel: u8,
        parameter: u8,
        payload: Bytes<64>,
    },
    /// Get LAN Configuration Parameters: the value, or the revision alone; channel and set 0 to 15, parameter 0 to 255; the block has no
    /// effect (IPMI 2.0, section 23.2).
    GetLan {
        channel: u8,
        parameter: u8,
        revision_only: bool,
        set: u8,
    },
    /// PET Acknowledge: the fields of the trap that is acknowledged (IPMI 2.0, section 30.8).
    Acknowledge(PetAck),
    /// Clear SEL: the erasure is to begin (IPMI 2.0, section 31.9).
    ClearSel,
    /// Clear SEL, which reads how the erasure goes (IPMI 2.0, section 31.9).
    ClearStatus,
}
