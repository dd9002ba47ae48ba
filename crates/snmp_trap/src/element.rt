//! Octets that are being read, and the elements in them.
ghost use Rattle.std.specs.Prelude.{◌+◌, ◌<◌, ◌^◌, length};

/// The tags that are wanted.
#[derive(Clone, Copy)]
pub enum Tags {
    One(u8),
    /// Any whose low five bits aren't all 1.
    AnyValue,
}

/// Octets that aren't read yet, up to the end of the element around them.
#[derive(Clone, Copy)]
pub struct Reader<'a> {
    /// Where they begin in the input.
    pub at: usize,
    pub octets: &'a [u8],
    ghost in_input: { at + length octets.now < 2 ^ 64 },
}

/// An element whose header is read.
#[derive(Clone, Copy)]
pub struct Element<'a> {
    /// Where its tag stands in the input.
    pub at: usize,
    pub inside: Reader<'a>,
    ghost behind_tag: { at < inside.at },
}
