//! The test of one octet of event data.

/// The AND mask, compare 1 and compare 2 of a filter for one octet of event data.
#[derive(Clone, Copy, Debug, PartialEq, Eq)]
pub struct DataTest {
    pub mask: u8,
    pub compare_1: u8,
    pub compare_2: u8,
}

impl DataTest {
    ghost use Rattle.std.specs.Prelude.{◌↔◌, IsTrue};
    ghost use Rattle.filter_table.specs.Matching.{Fits};

    /// Whether the value fits: the bits that are 1 in compare 1 are exact, and of the others one at least is right.
    pub fn fits(self, value: u8) -> bool
        ensures { IsTrue result ↔ Fits self value }
    {
        let wrong = (value & self.mask) ^ self.compare_2;
        let exact = self.compare_1;
        wrong & exact == 0 && (exact == 0xFF || !wrong & !exact != 0)
    }
}
