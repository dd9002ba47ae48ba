//! What a controller's settings say of it.
ghost use Rattle.std.specs.Prelude.{◌≡◌, ◌+◌, ◌≤◌, length, take, drop};
ghost use Rattle.pef_core.specs.Settings.{own_of as own_in, two, four};

use alert_trap::Origin;
use job_course::Own;
use lan_dest::Ports;
use pef_settings::{AGENT, MANUFACTURER, OEM1_PORT, OEM2_PORT, PET_PORT, SYSTEM};

/// What the settings say of the controller's traps.
pub(crate) fn own_of(settings: &[u8]) -> Own
    requires { length settings.now ≡ 55 }
    ensures { result ≡ own_in settings.now }
{
    Own {
        guid: octets_at(settings, 0),
        origin: Origin {
            agent: octets_at(settings, AGENT),
            manufacturer: four_at(settings, MANUFACTURER),
            system: two_at(settings, SYSTEM),
        },
        ports: Ports {
            pet: two_at(settings, PET_PORT),
            oem1: two_at(settings, OEM1_PORT),
            oem2: two_at(settings, OEM2_PORT),
        },
    }
}

// The number of two octets from this place on, and that of four.
fn two_at(settings: &[u8], place: usize) -> u16
    requires { place + 2 ≤ length settings.now }
    ensures { result ≡ two (place + 1) settings.now }
{
    u16::from_le_bytes([settings[place], settings[place + 1]])
}

fn four_at(settings: &[u8], place: usize) -> u32
    requires { place + 4 ≤ length settings.now }
    ensures { result ≡ four (place + 1) settings.now }
{
    let low = two_at(settings, place);
    let high = two_at(settings, place + 2);
    u32::from(high) * 0x1_0000 + u32::from(low)
}

// The octets from this place on, as many as the array has.
fn octets_at<const N: usize>(octets: &[u8], place: usize) -> [u8; N]
    requires { place + N ≤ length octets.now }
    ensures { result ≡ take N (drop place octets.now) }
{
    let mut part = [0; N];
    part.copy_from_slice(&octets[place..place + N]);
    part
}
