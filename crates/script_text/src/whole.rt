//! A whole text of bounded length.
ghost use Rattle.std.specs.Prelude.{◌≡◌, ◌≤◌, ◌+◌, ◌-◌, ◌*◌, ◌<◌, ℕ, List, Option, Some, Err, IfOk, OnErr, length};
ghost use Rattle.board_core.specs.Causes.{Rose};
ghost use Rattle.script_text.specs.Whole.{IsWhole, TakesAtMost};

use board_core::Source;
use std::alloc::Global;

/// The longest text that is read whole, in octets.
pub const TEXT_LIMIT: usize = 65_536;

/// Why a text could not be read.
#[derive(Clone, Copy, Debug, PartialEq, Eq)]
pub enum TextFault {
    /// The source failed.
    Source,
    /// There was no memory to hold the text.
    Memory,
}

/// Reads what is left of the source, to its end: None where it has more than 65,536 octets.
///
/// It takes at most 65,537 octets.
pub fn read_text<S: Source>(alloc: Global, source: &mut S) -> Result<Option<Vec<u8>>, TextFault>
    ensures whole { (text : List ℕ) → S.left source.old ≡ Some text → IfOk result (IsWhole text) }
    ensures taken { (text : List ℕ) → S.left source.old ≡ Some text → TakesAtMost 65537 text (S.left source.new) }
    ensures later { S.faults source.old ≤ S.faults source.new }
    ensures failed { result ≡ Err TextFault.Source → Rose (S.faults source.old) (S.faults source.new) }
    ensures same { (result ≡ Err TextFault.Source → ⊥) → S.faults source.new ≡ S.faults source.old }
{
    let mut text = Vec::new(alloc);
    let mut chunk = [0u8; 256];
    'chunks: loop {
        let room = (TEXT_LIMIT + 1 - text.len()).min(chunk.len());
        let piece = &mut chunk[..room];
        let count = match source.read(piece) {
            Ok(count) => count,
            Err(_) => return Err(TextFault::Source),
        };
        if count == 0 {
            return Ok(Some(text));
        }
        if count > TEXT_LIMIT - text.len() {
            return Ok(None);
        }
        match text.extend_from_slice(&piece[..count]) {
            Ok(()) => {}
            Err(_) => return Err(TextFault::Memory),
        }
    }
}
