// Builds a report line from its parts.
ghost use Rattle.std.specs.Prelude.{◌≡◌, ◌≤◌, ◌+◌, ◌*◌, [], ◌++◌, length, decimal};
ghost use Rattle.hex.specs.Hex.{encode_lower};
ghost use Rattle.report_line.specs.Line.{line_end, ip_text, address_text};

use board_core::{Address, Bytes};
use hex::encode_to_slice;
use itoa::Buffer;
use std::marker::Model;

/// A line of the report with its end, at most 1,200 octets.
pub type ReportLine = Bytes<1200>;

/// A line that isn't ended yet: contracts see it as its octets. It has room for 1,199 octets and its end, and each part says how
/// much room it takes.
#[derive(Drop)]
pub struct LineBuilder {
    line: ReportLine,
}

impl Model for LineBuilder {
    ghost use Rattle.std.specs.Prelude.{◌≤◌, List, ℕ, length};

    ghost Value = { List ℕ };

    ghost view = { λ b. b.line };

    ghost invariant = { λ b. length b.line ≤ 1199 };
}

impl LineBuilder {
    /// A line with nothing in it yet.
    pub fn new() -> Self
        ensures { result ≡ [] }
    {
        LineBuilder {
            line: ReportLine::new(),
        }
    }

    /// Adds a text as it is.
    pub fn text(mut self, text: &[u8]) -> Self
        requires { length self + length text.now ≤ 1199 }
        ensures added { result ≡ self ++ text.now }
        ensures long { length result ≡ length self + length text.now }
    {
        let _ = self.line.extend(text);
        self
    }

    /// Adds a number in decimal digits, at most 10.
    pub fn decimal(self, value: u32) -> Self
        requires { length self + 10 ≤ 1199 }
        ensures added { result ≡ self ++ decimal value }
        ensures long { length result ≤ length self + 10 }
    {
        let mut buffer = Buffer::new();
        let digits = buffer.format(value);
        self.text(digits.as_bytes())
    }

    /// Adds octets as pairs of hexadecimal digits in lower case.
    pub fn hexadecimal(self, octets: &[u8]) -> Self
        requires { length self + 2 * length octets.now ≤ 1199 }
        ensures added { result ≡ self ++ encode_lower octets.now }
        ensures long { length result ≡ length self + 2 * length octets.now }
    {
        let mut room = [0u8; 1199];
        let pairs = &mut room[..2 * octets.len()];
        let _ = encode_to_slice(octets, pairs);
        self.text(pairs)
    }

    /// Adds an address: four decimal numbers with points, a colon and the port. It takes at most 54 octets.
    pub fn address(self, to: &Address) -> Self
        requires { length self + 54 ≤ 1199 }
        ensures added { result ≡ self ++ address_text to.now }
        ensures long { length result ≤ length self + 54 }
    {
        self.numbers(&to.ip).text(b":").decimal(u32::from(to.port))
    }

    // Adds four decimal numbers with points.
    fn numbers(self, ip: &[u8; 4]) -> Self
        requires { length self + 43 ≤ 1199 }
        ensures added { result ≡ self ++ ip_text ip.now }
        ensures long { length result ≤ length self + 43 }
    {
        self.decimal(u32::from(ip[0]))
            .text(b".")
            .decimal(u32::from(ip[1]))
            .text(b".")
            .decimal(u32::from(ip[2]))
            .text(b".")
            .decimal(u32::from(ip[3]))
    }

    /// Ends the line.
    pub fn end(self) -> ReportLine
        ensures { result ≡ self ++ line_end }
    {
        let mut line = self.line;
        let _ = line.push(b'\n');
        line
    }
}
