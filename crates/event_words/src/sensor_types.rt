//! The names of sensor types (IPMI 2.0, table 42-3, first columns).
ghost use Rattle.std.specs.Prelude.{◌≡◌, ◌≤◌, length, option_copied, IfSome};
ghost use Rattle.event_words.specs.SensorTypes.{sensor_type_words};

/// The name of a sensor type: None where the table has none, as for reserved and OEM types.
#[tactic(auto, unfolding(crate::specs::SensorTypes::sensor_type_words))]
pub(crate) fn sensor_type_name(code: u8) -> Option<&'static str>
    ensures words { option_copied result ≡ sensor_type_words code }
    ensures short { IfSome result (λ words. length words.now ≤ 80) }
{
    match code {
        0x01 => Some("temperature"),
        0x02 => Some("voltage"),
        0x03 => Some("current"),
        0x04 => Some("fan"),
        0x05 => Some("physical security (chassis intrusion)"),
        0x06 => Some("platform security violation attempt"),
        0x07 => Some("processor"),
        0x08 => Some("power supply"),
        0x09 => Some("power unit"),
        0x0A => Some("cooling device"),
        0x0B => Some("other units-based sensor"),
        0x0C => Some("memory"),
        0x0D => Some("drive slot (bay)"),
        0x0E => Some("POST memory resize"),
        0x0F => Some("system firmware progress"),
        0x10 => Some("event logging disabled"),
        0x11 => Some("watchdog 1"),
        0x12 => Some("system event"),
        0x13 => Some("critical interrupt"),
        0x14 => Some("button / switch"),
        0x15 => Some("module / board"),
        0x16 => Some("microcontroller / coprocessor"),
        0x17 => Some("add-in card"),
        0x18 => Some("chassis"),
        0x19 => Some("chip set"),
        0x1A => Some("other FRU"),
        0x1B => Some("cable / interconnect"),
        0x1C => Some("terminator"),
        0x1D => Some("system boot / restart initiated"),
        0x1E => Some("boot error"),
        0x1F => Some("base OS boot / installation status"),
        0x20 => Some("OS stop / shutdown"),
        0x21 => Some("slot / connector"),
        0x22 => Some("system ACPI power state"),
        0x23 => Some("watchdog 2"),
        0x24 => Some("platform alert"),
        0x25 => Some("entity presence"),
        0x26 => Some("monitor ASIC / IC"),
        0x27 => Some("LAN"),
        0x28 => Some("management subsystem health"),
        0x29 => Some("battery"),
        0x2A => Some("session audit"),
        0x2B => Some("version change"),
        0x2C => Some("FRU state"),
        _ => None,
    }
}
