//! How many arrivals a state file has stored.
// The gate before an entry that counts.
const OPEN: u8 = 0xa5;

/// How many entries of the file are a second, a frame or a datagram.
pub fn arrivals_stored(file: &[u8]) -> usize {
    let mut left = entries_of(file);
    let mut stored = 0usize;
    for _ in 0..file.len() {
        let Some((entry, behind)) = first_entry(left) else {
            break;
        };
        if is_arrival(entry) {
            stored = stored.saturating_add(1);
        }
        left = behind;
    }
    stored
}

// What stands behind the file's head: its mark, its kind, the length of its settings, and these.
fn entries_of(file: &[u8]) -> &[u8] {
    match file {
        [OPEN, _, low, high, rest @ ..] => behind(rest, *low, *high),
        _ => &[],
    }
}

fn behind(octets: &[u8], low: u8, high: u8) -> &[u8] {
    match octets.split_at_checked(length_of(low, high)) {
        Some((_, behind)) => behind,
        None => &[],
    }
}

// The octets of the first entry, and those behind it: None at a gate that is closed.
fn first_entry(octets: &[u8]) -> Option<(&[u8], &[u8])> {
    match octets {
        [OPEN, low, high, rest @ ..] => rest.split_at_checked(length_of(*low, *high)),
        _ => None,
    }
}

fn length_of(low: u8, high: u8) -> usize {
    usize::from(u16::from_le_bytes([low, high]))
}

// Whether an entry is a controller's second or frame, or a console's datagram.
fn is_arrival(entry: &[u8]) -> bool {
    match entry {
        [0x03, ..] => true,
        [0x07, ..] => true,
        [0x21, ..] => true,
        _ => false,
    }
}
