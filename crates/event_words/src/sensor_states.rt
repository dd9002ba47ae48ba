//! The states of sensor types with offsets of their own (IPMI 2.0, table 42-3, last columns).
ghost use Rattle.std.specs.Prelude.{◌≡◌, ◌≤◌, length, option_copied, IfSome};
ghost use Rattle.event_words.specs.Rows.{row_at};
ghost use Rattle.event_words.specs.SensorStates.{sensor_words, physical_security_rows, security_violation_rows, processor_rows, power_supply_rows, power_unit_rows, memory_rows, drive_slot_rows, firmware_progress_rows, logging_disabled_rows, watchdog_1_rows, system_event_rows, critical_interrupt_rows, button_rows, chip_set_rows, cable_rows, restart_rows, boot_error_rows, boot_status_rows, os_stop_rows, slot_rows, system_power_rows, watchdog_2_rows, platform_alert_rows, entity_presence_rows, lan_rows, subsystem_health_rows, battery_rows, session_audit_rows, version_change_rows, fru_state_rows};

/// The words of a sensor-specific offset: None where the table has no such row.
#[tactic(auto, unfolding(crate::specs::SensorStates::sensor_words))]
pub(crate) fn sensor_state(sensor_type: u8, offset: u8) -> Option<&'static str>
    ensures words { option_copied result ≡ sensor_words sensor_type offset }
    ensures short { IfSome result (λ words. length words.now ≤ 80) }
{
    match sensor_type {
        0x05 => physical_security(offset),
        0x06 => security_violation(offset),
        0x07 => processor(offset),
        0x08 => power_supply(offset),
        0x09 => power_unit(offset),
        0x0C => memory(offset),
        0x0D => drive_slot(offset),
        0x0F => firmware_progress(offset),
        0x10 => logging_disabled(offset),
        0x11 => watchdog_1(offset),
        0x12 => system_event(offset),
        0x13 => critical_interrupt(offset),
        0x14 => button(offset),
        0x19 => chip_set(offset),
        0x1B => cable(offset),
        0x1D => restart(offset),
        0x1E => boot_error(offset),
        0x1F => boot_status(offset),
        0x20 => os_stop(offset),
        0x21 => slot(offset),
        0x22 => system_power(offset),
        0x23 => watchdog_2(offset),
        0x24 => platform_alert(offset),
        0x25 => entity_presence(offset),
        0x27 => lan(offset),
        0x28 => subsystem_health(offset),
        0x29 => battery(offset),
        0x2A => session_audit(offset),
        0x2B => version_change(offset),
        0x2C => fru_state(offset),
        _ => None,
    }
}

// Sensor type 05h.
fn physical_security(offset: u8) -> Option<&'static str>
    ensures words { option_copied result ≡ row_at physical_security_rows offset }
    ensures short { IfSome result (λ words. length words.now ≤ 80) }
{
    match offset {
        0x00 => Some("general chassis intrusion"),
        0x01 => Some("drive bay intrusion"),
        0x02 => Some("I/O card area intrusion"),
        0x03 => Some("processor area intrusion"),
        0x04 => Some("LAN leash lost"),
        0x05 => Some("unauthorized dock"),
        0x06 => Some("fan area intrusion"),
        _ => None,
    }
}

// Sensor type 06h.
fn security_violation(offset: u8) -> Option<&'static str>
    ensures words { option_copied result ≡ row_at security_violation_rows offset }
    ensures short { IfSome result (λ words. length words.now ≤ 80) }
{
    match offset {
        0x00 => Some("secure mode (front panel lockout) violation attempt"),
        0x01 => Some("pre-boot password violation, user password"),
        0x02 => Some("pre-boot password violation attempt, setup password"),
        0x03 => Some("pre-boot password violation, network boot password"),
        0x04 => Some("other pre-boot password violation"),
        0x05 => Some("out-of-band access password violation"),
        _ => None,
    }
}

// Sensor type 07h.
fn processor(offset: u8) -> Option<&'static str>
    ensures words { option_copied result ≡ row_at processor_rows offset }
    ensures short { IfSome result (λ words. length words.now ≤ 80) }
{
    match offset {
        0x00 => Some("IERR"),
        0x01 => Some("thermal trip"),
        0x02 => Some("FRB1/BIST failure"),
        0x03 => Some("FRB2/hang in POST failure"),
        0x04 => Some("FRB3/processor startup/initialization failure"),
        0x05 => Some("configuration error"),
        0x06 => Some("SM BIOS 'uncorrectable CPU-complex error'"),
        0x07 => Some("processor presence detected"),
        0x08 => Some("processor disabled"),
        0x09 => Some("terminator presence detected"),
        0x0A => Some("processor automatically throttled"),
        0x0B => Some("machine check exception (uncorrectable)"),
        0x0C => Some("correctable machine check error"),
        _ => None,
    }
}

// Sensor type 08h.
fn power_supply(offset: u8) -> Option<&'static str>
    ensures words { option_copied result ≡ row_at power_supply_rows offset }
    ensures short { IfSome result (λ words. length words.now ≤ 80) }
{
    match offset {
        0x00 => Some("presence detected"),
        0x01 => Some("power supply failure detected"),
        0x02 => Some("predictive failure"),
        0x03 => Some("power supply input lost (AC/DC)"),
        0x04 => Some("power supply input lost or out-of-range"),
        0x05 => Some("power supply input out-of-range, but present"),
        0x06 => Some("configuration error"),
        0x07 => Some("power supply inactive (in standby state)"),
        _ => None,
    }
}

// Sensor type 09h.
fn power_unit(offset: u8) -> Option<&'static str>
    ensures words { option_copied result ≡ row_at power_unit_rows offset }
    ensures short { IfSome result (λ words. length words.now ≤ 80) }
{
    match offset {
        0x00 => Some("power off / power down"),
        0x01 => Some("power cycle"),
        0x02 => Some("240VA power down"),
        0x03 => Some("interlock power down"),
        0x04 => Some("AC lost / power input lost"),
        0x05 => Some("soft power control failure"),
        0x06 => Some("power unit failure detected"),
        0x07 => Some("predictive failure"),
        _ => None,
    }
}

// Sensor type 0Ch.
fn memory(offset: u8) -> Option<&'static str>
    ensures words { option_copied result ≡ row_at memory_rows offset }
    ensures short { IfSome result (λ words. length words.now ≤ 80) }
{
    match offset {
        0x00 => Some("correctable ECC / other correctable memory error"),
        0x01 => Some("uncorrectable ECC / other uncorrectable memory error"),
        0x02 => Some("parity"),
        0x03 => Some("memory scrub failed (stuck bit)"),
        0x04 => Some("memory device disabled"),
        0x05 => Some("correctable ECC / other correctable memory error logging limit reached"),
        0x06 => Some("presence detected"),
        0x07 => Some("configuration error"),
        0x08 => Some("spare"),
        0x09 => Some("memory automatically throttled"),
        0x0A => Some("critical overtemperature"),
        _ => None,
    }
}

// Sensor type 0Dh.
fn drive_slot(offset: u8) -> Option<&'static str>
    ensures words { option_copied result ≡ row_at drive_slot_rows offset }
    ensures short { IfSome result (λ words. length words.now ≤ 80) }
{
    match offset {
        0x00 => Some("drive presence"),
        0x01 => Some("drive fault"),
        0x02 => Some("predictive failure"),
        0x03 => Some("hot spare"),
        0x04 => Some("consistency check / parity check in progress"),
        0x05 => Some("in critical array"),
        0x06 => Some("in failed array"),
        0x07 => Some("rebuild/remap in progress"),
        0x08 => Some("rebuild/remap aborted"),
        _ => None,
    }
}

// Sensor type 0Fh.
fn firmware_progress(offset: u8) -> Option<&'static str>
    ensures words { option_copied result ≡ row_at firmware_progress_rows offset }
    ensures short { IfSome result (λ words. length words.now ≤ 80) }
{
    match offset {
        0x00 => Some("system firmware error (POST error)"),
        0x01 => Some("system firmware hang"),
        0x02 => Some("system firmware progress"),
        _ => None,
    }
}

// Sensor type 10h.
fn logging_disabled(offset: u8) -> Option<&'static str>
    ensures words { option_copied result ≡ row_at logging_disabled_rows offset }
    ensures short { IfSome result (λ words. length words.now ≤ 80) }
{
    match offset {
        0x00 => Some("correctable memory error logging disabled"),
        0x01 => Some("event 'type' logging disabled"),
        0x02 => Some("log area reset/cleared"),
        0x03 => Some("all event logging disabled"),
        0x04 => Some("SEL full"),
        0x05 => Some("SEL almost full"),
        0x06 => Some("correctable machine check error logging disabled"),
        _ => None,
    }
}

// Sensor type 11h.
fn watchdog_1(offset: u8) -> Option<&'static str>
    ensures words { option_copied result ≡ row_at watchdog_1_rows offset }
    ensures short { IfSome result (λ words. length words.now ≤ 80) }
{
    match offset {
        0x00 => Some("BIOS watchdog reset"),
        0x01 => Some("OS watchdog reset"),
        0x02 => Some("OS watchdog shut down"),
        0x03 => Some("OS watchdog power down"),
        0x04 => Some("OS watchdog power cycle"),
        0x05 => Some("OS watchdog NMI / diagnostic interrupt"),
        0x06 => Some("OS watchdog expired, status only"),
        0x07 => Some("OS watchdog pre-timeout interrupt, non-NMI"),
        _ => None,
    }
}

// Sensor type 12h.
fn system_event(offset: u8) -> Option<&'static str>
    ensures words { option_copied result ≡ row_at system_event_rows offset }
    ensures short { IfSome result (λ words. length words.now ≤ 80) }
{
    match offset {
        0x00 => Some("system reconfigured"),
        0x01 => Some("OEM system boot event"),
        0x02 => Some("undetermined system hardware failure"),
        0x03 => Some("entry added to auxiliary log"),
        0x04 => Some("PEF action"),
        0x05 => Some("timestamp clock synch"),
        _ => None,
    }
}

// Sensor type 13h.
fn critical_interrupt(offset: u8) -> Option<&'static str>
    ensures words { option_copied result ≡ row_at critical_interrupt_rows offset }
    ensures short { IfSome result (λ words. length words.now ≤ 80) }
{
    match offset {
        0x00 => Some("front panel NMI / diagnostic interrupt"),
        0x01 => Some("bus timeout"),
        0x02 => Some("I/O channel check NMI"),
        0x03 => Some("software NMI"),
        0x04 => Some("PCI PERR"),
        0x05 => Some("PCI SERR"),
        0x06 => Some("EISA fail safe timeout"),
        0x07 => Some("bus correctable error"),
        0x08 => Some("bus uncorrectable error"),
        0x09 => Some("fatal NMI"),
        0x0A => Some("bus fatal error"),
        0x0B => Some("bus degraded"),
        _ => None,
    }
}

// Sensor type 14h.
fn button(offset: u8) -> Option<&'static str>
    ensures words { option_copied result ≡ row_at button_rows offset }
    ensures short { IfSome result (λ words. length words.now ≤ 80) }
{
    match offset {
        0x00 => Some("power button pressed"),
        0x01 => Some("sleep button pressed"),
        0x02 => Some("reset button pressed"),
        0x03 => Some("FRU latch open"),
        0x04 => Some("FRU service request button"),
        _ => None,
    }
}

// Sensor type 19h.
fn chip_set(offset: u8) -> Option<&'static str>
    ensures words { option_copied result ≡ row_at chip_set_rows offset }
    ensures short { IfSome result (λ words. length words.now ≤ 80) }
{
    match offset {
        0x00 => Some("soft power control failure"),
        0x01 => Some("thermal trip"),
        _ => None,
    }
}

// Sensor type 1Bh.
fn cable(offset: u8) -> Option<&'static str>
    ensures words { option_copied result ≡ row_at cable_rows offset }
    ensures short { IfSome result (λ words. length words.now ≤ 80) }
{
    match offset {
        0x00 => Some("cable/interconnect is connected"),
        0x01 => Some("configuration error, incorrect cable connected / incorrect interconnection"),
        _ => None,
    }
}

// Sensor type 1Dh.
fn restart(offset: u8) -> Option<&'static str>
    ensures words { option_copied result ≡ row_at restart_rows offset }
    ensures short { IfSome result (λ words. length words.now ≤ 80) }
{
    match offset {
        0x00 => Some("initiated by power up"),
        0x01 => Some("initiated by hard reset"),
        0x02 => Some("initiated by warm reset"),
        0x03 => Some("user requested PXE boot"),
        0x04 => Some("automatic boot to diagnostic"),
        0x05 => Some("OS / run-time software initiated hard reset"),
        0x06 => Some("OS / run-time software initiated warm reset"),
        0x07 => Some("system restart"),
        _ => None,
    }
}

// Sensor type 1Eh.
fn boot_error(offset: u8) -> Option<&'static str>
    ensures words { option_copied result ≡ row_at boot_error_rows offset }
    ensures short { IfSome result (λ words. length words.now ≤ 80) }
{
    match offset {
        0x00 => Some("no bootable media"),
        0x01 => Some("non-bootable diskette left in drive"),
        0x02 => Some("PXE server not found"),
        0x03 => Some("invalid boot sector"),
        0x04 => Some("timeout waiting for user selection of boot source"),
        _ => None,
    }
}

// Sensor type 1Fh.
fn boot_status(offset: u8) -> Option<&'static str>
    ensures words { option_copied result ≡ row_at boot_status_rows offset }
    ensures short { IfSome result (λ words. length words.now ≤ 80) }
{
    match offset {
        0x00 => Some("A: boot completed"),
        0x01 => Some("C: boot completed"),
        0x02 => Some("PXE boot completed"),
        0x03 => Some("diagnostic boot completed"),
        0x04 => Some("CD-ROM boot completed"),
        0x05 => Some("ROM boot completed"),
        0x06 => Some("boot completed, boot device not specified"),
        0x07 => Some("base OS/hypervisor installation started"),
        0x08 => Some("base OS/hypervisor installation completed"),
        0x09 => Some("base OS/hypervisor installation aborted"),
        0x0A => Some("base OS/hypervisor installation failed"),
        _ => None,
    }
}

// Sensor type 20h.
fn os_stop(offset: u8) -> Option<&'static str>
    ensures words { option_copied result ≡ row_at os_stop_rows offset }
    ensures short { IfSome result (λ words. length words.now ≤ 80) }
{
    match offset {
        0x00 => Some("critical stop during OS load / initialization"),
        0x01 => Some("run-time critical stop"),
        0x02 => Some("OS graceful stop"),
        0x03 => Some("OS graceful shutdown"),
        0x04 => Some("soft shutdown initiated by PEF"),
        0x05 => Some("agent not responding"),
        _ => None,
    }
}

// Sensor type 21h.
fn slot(offset: u8) -> Option<&'static str>
    ensures words { option_copied result ≡ row_at slot_rows offset }
    ensures short { IfSome result (λ words. length words.now ≤ 80) }
{
    match offset {
        0x00 => Some("fault status asserted"),
        0x01 => Some("identify status asserted"),
        0x02 => Some("slot / connector device installed/attached"),
        0x03 => Some("slot / connector ready for device installation"),
        0x04 => Some("slot / connector ready for device removal"),
        0x05 => Some("slot power is off"),
        0x06 => Some("slot / connector device removal request"),
        0x07 => Some("interlock asserted"),
        0x08 => Some("slot is disabled"),
        0x09 => Some("slot holds spare device"),
        _ => None,
    }
}

// Sensor type 22h.
fn system_power(offset: u8) -> Option<&'static str>
    ensures words { option_copied result ≡ row_at system_power_rows offset }
    ensures short { IfSome result (λ words. length words.now ≤ 80) }
{
    match offset {
        0x00 => Some("S0 / G0 'working'"),
        0x01 => Some("S1 'sleeping with system h/w & processor context maintained'"),
        0x02 => Some("S2 'sleeping, processor context lost'"),
        0x03 => Some("S3 'sleeping, processor & h/w context lost, memory retained'"),
        0x04 => Some("S4 'non-volatile sleep / suspend-to disk'"),
        0x05 => Some("S5 / G2 'soft-off'"),
        0x06 => Some("S4 / S5 soft-off, particular S4 / S5 state cannot be determined"),
        0x07 => Some("G3 / mechanical off"),
        0x08 => Some("sleeping in an S1, S2, or S3 states"),
        0x09 => Some("G1 sleeping"),
        0x0A => Some("S5 entered by override"),
        0x0B => Some("legacy ON state"),
        0x0C => Some("legacy OFF state"),
        0x0E => Some("unknown"),
        _ => None,
    }
}

// Sensor type 23h.
fn watchdog_2(offset: u8) -> Option<&'static str>
    ensures words { option_copied result ≡ row_at watchdog_2_rows offset }
    ensures short { IfSome result (λ words. length words.now ≤ 80) }
{
    match offset {
        0x00 => Some("timer expired, status only (no action, no interrupt)"),
        0x01 => Some("hard reset"),
        0x02 => Some("power down"),
        0x03 => Some("power cycle"),
        0x08 => Some("timer interrupt"),
        _ => None,
    }
}

// Sensor type 24h.
fn platform_alert(offset: u8) -> Option<&'static str>
    ensures words { option_copied result ≡ row_at platform_alert_rows offset }
    ensures short { IfSome result (λ words. length words.now ≤ 80) }
{
    match offset {
        0x00 => Some("platform generated page"),
        0x01 => Some("platform generated LAN alert"),
        0x02 => Some("platform event trap generated"),
        0x03 => Some("platform generated SNMP trap, OEM format"),
        _ => None,
    }
}

// Sensor type 25h.
fn entity_presence(offset: u8) -> Option<&'static str>
    ensures words { option_copied result ≡ row_at entity_presence_rows offset }
    ensures short { IfSome result (λ words. length words.now ≤ 80) }
{
    match offset {
        0x00 => Some("entity present"),
        0x01 => Some("entity absent"),
        0x02 => Some("entity disabled"),
        _ => None,
    }
}

// Sensor type 27h.
fn lan(offset: u8) -> Option<&'static str>
    ensures words { option_copied result ≡ row_at lan_rows offset }
    ensures short { IfSome result (λ words. length words.now ≤ 80) }
{
    match offset {
        0x00 => Some("LAN heartbeat lost"),
        0x01 => Some("LAN heartbeat"),
        _ => None,
    }
}

// Sensor type 28h.
fn subsystem_health(offset: u8) -> Option<&'static str>
    ensures words { option_copied result ≡ row_at subsystem_health_rows offset }
    ensures short { IfSome result (λ words. length words.now ≤ 80) }
{
    match offset {
        0x00 => Some("sensor access degraded or unavailable"),
        0x01 => Some("controller access degraded or unavailable"),
        0x02 => Some("management controller off-line"),
        0x03 => Some("management controller unavailable"),
        0x04 => Some("sensor failure"),
        0x05 => Some("FRU failure"),
        _ => None,
    }
}

// Sensor type 29h.
fn battery(offset: u8) -> Option<&'static str>
    ensures words { option_copied result ≡ row_at battery_rows offset }
    ensures short { IfSome result (λ words. length words.now ≤ 80) }
{
    match offset {
        0x00 => Some("battery low (predictive failure)"),
        0x01 => Some("battery failed"),
        0x02 => Some("battery presence detected"),
        _ => None,
    }
}

// Sensor type 2Ah.
fn session_audit(offset: u8) -> Option<&'static str>
    ensures words { option_copied result ≡ row_at session_audit_rows offset }
    ensures short { IfSome result (λ words. length words.now ≤ 80) }
{
    match offset {
        0x00 => Some("session activated"),
        0x01 => Some("session deactivated"),
        0x02 => Some("invalid username or password"),
        0x03 => Some("invalid password disable"),
        _ => None,
    }
}

// Sensor type 2Bh.
fn version_change(offset: u8) -> Option<&'static str>
    ensures words { option_copied result ≡ row_at version_change_rows offset }
    ensures short { IfSome result (λ words. length words.now ≤ 80) }
{
    match offset {
        0x00 => Some("hardware change detected with associated entity"),
        0x01 => Some("firmware or software change detected with associated entity"),
        0x02 => Some("hardware incompatibility detected with associated entity"),
        0x03 => Some("firmware or software incompatibility detected with associated entity"),
        0x04 => Some("entity is of an invalid or unsupported hardware version"),
        0x05 => Some("entity contains an invalid or unsupported firmware or software version"),
        0x06 => Some("hardware change detected with associated entity was successful"),
        0x07 => Some("software or f/w change detected with associated entity was successful"),
        _ => None,
    }
}

// Sensor type 2Ch.
fn fru_state(offset: u8) -> Option<&'static str>
    ensures words { option_copied result ≡ row_at fru_state_rows offset }
    ensures short { IfSome result (λ words. length words.now ≤ 80) }
{
    match offset {
        0x00 => Some("FRU not installed"),
        0x01 => Some("FRU inactive"),
        0x02 => Some("FRU activation requested"),
        0x03 => Some("FRU activation in progress"),
        0x04 => Some("FRU active"),
        0x05 => Some("FRU deactivation requested"),
        0x06 => Some("FRU deactivation in progress"),
        0x07 => Some("FRU communication lost"),
        _ => None,
    }
}
