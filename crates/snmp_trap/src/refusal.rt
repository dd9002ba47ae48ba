use std::error::Error;
use std::fmt;

/// What keeps octets from being a trap message. The reasons, their order and their places are this project's.
#[derive(Clone, Copy, Debug, PartialEq, Eq)]
pub enum Why {
    /// The message reaches past the end of the input.
    Truncated,
    /// Another element is wanted here.
    Tag,
    /// The length octet is 80h or above 84h, or an agent address hasn't 4 octets.
    Length,
    /// An element reaches past the one around it, or nothing is left where one is wanted.
    Over,
    /// Octets follow where nothing more is wanted.
    Trailing,
    /// A number has no octets or more than 5, or is 2^32 or more.
    Integer,
    /// The version isn't SNMPv1's, 0.
    Version,
    /// The enterprise isn't 1.3.6.1.4.1.3183.1.1, that of Platform Event Traps.
    Enterprise,
    /// The generic trap isn't 6, enterprise specific.
    Generic,
    /// No binding has the name 1.3.6.1.4.1.3183.1.1.1.
    NoBinding,
    /// The value of that binding hasn't 46 to 110 octets.
    Body,
}

/// The first thing from the front of the input that is wrong.
#[derive(Clone, Copy, Debug, PartialEq, Eq)]
pub struct Refusal {
    /// How many octets of the input stand before the place.
    pub at: usize,
    pub why: Why,
}

impl fmt::Display for Why {
    fn fmt<W: fmt::Write>(&self, f: &mut fmt::Formatter<W>) -> fmt::Result {
        f.write_str(match self {
            Why::Truncated => "the message is cut short",
            Why::Tag => "another element is wanted",
            Why::Length => "bad length",
            Why::Over => "an element reaches past the one around it",
            Why::Trailing => "octets follow the last element",
            Why::Integer => "a number has no octets, more than 5, or more than 32 bits",
            Why::Version => "the version isn't 0",
            Why::Enterprise => "another enterprise",
            Why::Generic => "the generic trap isn't 6",
            Why::NoBinding => "no binding has the name",
            Why::Body => "the body hasn't 46 to 110 octets",
        })
    }
}

impl fmt::Display for Refusal {
    fn fmt<W: fmt::Write>(&self, f: &mut fmt::Formatter<W>) -> fmt::Result {
        write!(f, "{} at octet {}", self.why, self.at)
    }
}

impl Error for Refusal {}
