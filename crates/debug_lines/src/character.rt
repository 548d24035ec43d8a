//! Bytes as characters.

use rv_listing::TwoDigits;
use std::fmt;

/// A byte, which displays as a character of ASCII, or as an escape.
#[derive(Clone, Copy)]
pub(crate) struct Character(pub u8);

impl fmt::Display for Character {
    ghost use Rattle.std.specs.Prelude.{Some};
    ghost use Rattle.debug_lines.specs.Shown.{character};

    ghost output = { λ c. Some (character c.0) };

    fn fmt<W: fmt::Write>(&self, f: &mut fmt::Formatter<W>) -> fmt::Result {
        let byte = self.0;
        match byte {
            9 => f.write_str("\\t"),
            10 => f.write_str("\\n"),
            13 => f.write_str("\\r"),
            34 => f.write_str("\\\""),
            92 => f.write_str("\\\\"),
            32..=126 => f.write_char(char::from(byte)),
            _ => write!(f, "\\x{}", TwoDigits(byte)),
        }
    }
}
