//! The layout of a state file.
ghost use Rattle.std.specs.Prelude.{◌≡◌, ◌<◌, ◌/◌, ◌%◌, [], ◌∷◌};
ghost use Rattle.pef_journal.specs.Image.{frame};

use board_core::{Bytes, Payload};

/// Octet 0 of a formatted file, and an open gate.
pub const OPEN: u8 = 0xA5;
/// A closed gate, and octet 0 of a file that isn't formatted.
pub const CLOSED: u8 = 0;
/// The longest entry, in octets.
pub const LONGEST: usize = 520;
/// The place of the settings.
pub const SETTINGS: u64 = 4;

/// The first four octets of a formatted file, by its kind's number and the length of its settings.
pub fn head_of(number: u8, length: usize) -> [u8; 4]
    requires { length < 65536 }
    ensures { result ≡ 165 ∷ number ∷ (length % 256) ∷ (length / 256) ∷ [] }
{
    [OPEN, number, (length % 256) as u8, (length / 256) as u8]
}

/// What stands behind an entry's gate: its length, its octets and the next gate, closed.
pub fn frame_of(payload: &Payload) -> Bytes<523>
    ensures { result ≡ frame payload.now }
{
    payload.fits();
    let octets = payload.as_slice();
    let mut frame = Bytes::new();
    let _ = frame.push((octets.len() % 256) as u8);
    let _ = frame.push((octets.len() / 256) as u8);
    let _ = frame.extend(octets);
    let _ = frame.push(CLOSED);
    frame
}
