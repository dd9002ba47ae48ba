//! The alert policy entries, by parameter 9.
ghost use Rattle.std.specs.Prelude.{◌≡◌, ◌≢◌, ℕ, ◌==◌, not, [], ◌∷◌, drop, length};
ghost use Rattle.event_record.specs.Fields.{octet};
ghost use Rattle.filter_table.specs.Filters.{is_number, numbered};
ghost use Rattle.pef_config.specs.Places.{selector, selects, only_if, last_or};
ghost use Rattle.pef_config.specs.Rows.{answer_if};

use crate::parameter::{DONE, LENGTH, SELECTOR};
use crate::reading::{entry_reply, refusal};
use board_core::Octets;
use policy_table::{Policies, PolicyEntry};

/// Writes a policy entry: its selector, in bits 6:0, and its three octets.
pub(crate) fn put_policy(policies: &mut Policies, payload: &[u8]) -> u8
    ensures code { result ≡ answer_if (not (length payload.now == 4)) 0xC7 (
        answer_if (not (is_number 16 (selector (octet 1 payload.now)))) 0xC9 0x00) }
    ensures written { result ≡ 0x00 → (n : ℕ)
        → numbered policies.new n ≡ last_or (numbered policies.old n) (only_if (selects payload.now n) (drop 1 payload.now)) }
    ensures kept { result ≢ 0x00 → policies.new ≡ policies.old }
{
    let [selector, octets @ ..] = payload else {
        return LENGTH;
    };
    let mut entry = [0; 3];
    if octets.len() != entry.len() {
        return LENGTH;
    }
    entry.copy_from_slice(octets);
    match policies.set(selector % 128, PolicyEntry::read(&entry)) {
        Ok(()) => DONE,
        Err(_) => SELECTOR,
    }
}

/// Reads a policy entry.
pub(crate) fn policy_reply(policies: &Policies, selector: u8) -> Octets
    ensures { result ≡ answer_if (not (is_number 16 selector)) (0xC9 ∷ [])
        (0x00 ∷ 0x11 ∷ selector ∷ numbered policies.now selector) }
{
    match policies.get(selector) {
        Ok(entry) => entry_reply(selector, &entry.write()),
        Err(_) => refusal(SELECTOR),
    }
}
