//! The bit fields that integer instructions do not have, and what their values mean.

ghost use Rattle.std.specs.Prelude.{◌≡◌};
ghost use Rattle.rv_float_tables.specs.Fields.{funct5, rm, csr, uimm, rs3};
ghost use Rattle.rv_float_tables.specs.Fields.{rounding_of, rounding_code, csr_of, csr_number};

use crate::instr::{FloatCsr, RoundingField};
pub use rv_tables::fields::{bits, funct3, i_immediate, opcode, rd, rs1, rs2, s_immediate};

#[inline]
pub fn funct5(word: u32) -> u32
    ensures { result ≡ funct5 word }
{
    bits(word, 31, 27)
}

#[inline]
pub fn rs3(word: u32) -> u8
    ensures { result ≡ rs3 word }
{
    bits(word, 31, 27) as u8
}

#[inline]
pub fn uimm(word: u32) -> u8
    ensures { result ≡ uimm word }
{
    bits(word, 19, 15) as u8
}

/// The rounding mode of an operation, or none if it is reserved.
#[inline]
pub fn rounding(word: u32) -> Option<RoundingField>
    ensures { result ≡ rounding_of (rm word) }
{
    match bits(word, 14, 12) {
        0 => Some(RoundingField::Rne),
        1 => Some(RoundingField::Rtz),
        2 => Some(RoundingField::Rdn),
        3 => Some(RoundingField::Rup),
        4 => Some(RoundingField::Rmm),
        7 => Some(RoundingField::Dyn),
        _ => None,
    }
}

/// The control and status register that a word names, or none if it is not one of floating point.
#[inline]
pub fn csr(word: u32) -> Option<FloatCsr>
    ensures { result ≡ csr_of (csr word) }
{
    match bits(word, 31, 20) {
        1 => Some(FloatCsr::Fflags),
        2 => Some(FloatCsr::Frm),
        3 => Some(FloatCsr::Fcsr),
        _ => None,
    }
}

/// The code of a rounding mode.
#[inline]
pub fn rounding_code(rounding: RoundingField) -> u32
    ensures { result ≡ rounding_code rounding }
{
    match rounding {
        RoundingField::Rne => 0,
        RoundingField::Rtz => 1,
        RoundingField::Rdn => 2,
        RoundingField::Rup => 3,
        RoundingField::Rmm => 4,
        RoundingField::Dyn => 7,
    }
}

/// The number of a control and status register.
#[inline]
pub fn csr_number(csr: FloatCsr) -> u8
    ensures { result ≡ csr_number csr }
{
    match csr {
        FloatCsr::Fflags => 1,
        FloatCsr::Frm => 2,
        FloatCsr::Fcsr => 3,
    }
}
