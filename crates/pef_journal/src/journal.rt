//! A journal, and where it stands in its file.
ghost use Rattle.std.specs.Prelude.{◌≡◌, ◌↔◌, IsTrue};
ghost use Rattle.pef_journal.specs.Journal.{HasEnded, HasRoom};

/// The greatest length of a header, entries and the gate behind them, in octets.
const MAX_FILE: u64 = 16_777_216;

/// The entries of a file, read from the first gate to the first closed one and then added to.
#[derive(Drop)]
pub struct Journal {
    // the place of the gate at which it stands
    pub(crate) place: u64,
    // the gate at that place was found closed
    pub(crate) ended: bool,
}

impl Journal {
    /// The place of the gate at which the journal stands.
    pub fn place(&self) -> u64
        ensures { result ≡ self.now.place }
    {
        self.place
    }

    /// True where the first closed gate was reached, so that entries may be added.
    pub fn has_ended(&self) -> bool
        ensures { IsTrue result ↔ HasEnded self.now }
    {
        self.ended
    }

    /// True where an entry of `length` octets fits: up to the gate behind it there are at most 16,777,216 octets. What lies behind the
    /// last gate of a file that was longer before it was formatted doesn't count.
    pub fn room(&self, length: usize) -> bool
        ensures { IsTrue result ↔ HasRoom self.now length }
    {
        match u64::try_from(length) {
            Ok(length) => length <= MAX_FILE
                && self.place <= MAX_FILE
                && self.place + 4 + length <= MAX_FILE,
            Err(_) => false,
        }
    }
}
