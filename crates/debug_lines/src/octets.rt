//! Bytes in hexadecimal.

use rv_listing::TwoDigits;
use std::fmt;

/// Bytes, which display as two hexadecimal digits each, and as `-` if there are none.
#[derive(Clone, Copy)]
pub(crate) struct Octets<'a>(pub &'a [u8]);

impl fmt::Display for Octets<'_> {
    ghost use Rattle.std.specs.Prelude.{Some};
    ghost use Rattle.debug_lines.specs.Replies.{octets};

    ghost output = { λ o. Some (octets o.0.now) };

    fn fmt<W: fmt::Write>(&self, f: &mut fmt::Formatter<W>) -> fmt::Result {
        let bytes = self.0;
        if bytes.is_empty() {
            return write!(f, "-");
        }
        for byte in bytes {
            write!(f, "{}", TwoDigits(*byte))?;
        }
        Ok(())
    }
}
