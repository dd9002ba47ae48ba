//! What holds of all octets, whoever sent them.
ghost use Rattle.std.specs.Prelude.{ℕ, List};
ghost use Rattle.asf_rmcp.specs.Layout.{IsPacket, IsLan};
ghost use Rattle.asf_rmcp.specs.Refusals.{RefusedPacket, RefusedLan};
ghost use Rattle.asf_rmcp.specs.Laws.{IsOneAnswer};

/// Any octets are a frame that says one thing, or are refused for one reason at one place, and never both.
pub fn one_packet()
    ensures { (octets : List ℕ) → IsOneAnswer (IsPacket octets) (RefusedPacket octets) }
{}

/// Any octets carry one LAN message, or are refused for one reason at one place, and never both.
pub fn one_message()
    ensures { (octets : List ℕ) → IsOneAnswer (IsLan octets) (RefusedLan octets) }
{}
