//! Numbers in hexadecimal digits.

use std::fmt;

/// A byte. Its text has two lower-case hexadecimal digits.
#[derive(Clone, Copy, Debug)]
pub struct TwoDigits(pub u8);

impl fmt::Display for TwoDigits {
    ghost use Rattle.std.specs.Prelude.{Some};
    ghost use Rattle.rv_listing.specs.Numerals.{two_digits};

    ghost output = { λ n. Some (two_digits n.0) };

    #[tactic(auto, using(crate::proofs::Hexadecimal::padded_is_hexadecimal_in))]
    fn fmt<W: fmt::Write>(&self, f: &mut fmt::Formatter<W>) -> fmt::Result {
        let byte = self.0;
        write!(f, "{byte:02x}")
    }
}

/// A halfword. Its text has four lower-case hexadecimal digits.
#[derive(Clone, Copy, Debug)]
pub struct FourDigits(pub u16);

impl fmt::Display for FourDigits {
    ghost use Rattle.std.specs.Prelude.{Some};
    ghost use Rattle.rv_listing.specs.Numerals.{four_digits};

    ghost output = { λ n. Some (four_digits n.0) };

    #[tactic(auto, using(crate::proofs::Hexadecimal::padded_is_hexadecimal_in))]
    fn fmt<W: fmt::Write>(&self, f: &mut fmt::Formatter<W>) -> fmt::Result {
        let half = self.0;
        write!(f, "{half:04x}")
    }
}

/// A word. Its text has eight lower-case hexadecimal digits.
#[derive(Clone, Copy, Debug)]
pub struct EightDigits(pub u32);

impl fmt::Display for EightDigits {
    ghost use Rattle.std.specs.Prelude.{Some};
    ghost use Rattle.rv_listing.specs.Numerals.{eight_digits};

    ghost output = { λ n. Some (eight_digits n.0) };

    #[tactic(auto, using(crate::proofs::Hexadecimal::padded_is_hexadecimal_in))]
    fn fmt<W: fmt::Write>(&self, f: &mut fmt::Formatter<W>) -> fmt::Result {
        let word = self.0;
        write!(f, "{word:08x}")
    }
}
