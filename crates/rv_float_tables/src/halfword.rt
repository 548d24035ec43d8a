//! The offsets in compressed loads and stores of doubles. Those of singles are the offsets of words.

ghost use Rattle.std.specs.Prelude.{◌≡◌, pos};
ghost use Rattle.rv_tables.specs.Halfwords.{immediate};
ghost use Rattle.rv_float_tables.specs.Halfwords.{double_layout, fldsp_layout, fsdsp_layout};

use crate::fields::bits;
pub use rv_tables::halfword::{
    funct3, lwsp_offset, quadrant, rd, rs1_prime, rs2, rs2_prime, swsp_offset, word_offset,
};

/// The offset in `C.FLD` and `C.FSD`.
#[inline]
pub fn double_offset(half: u32) -> i32
    ensures { result ≡ pos (immediate half double_layout) }
{
    ((bits(half, 6, 5) << 6) + (bits(half, 12, 10) << 3)) as i32
}

/// The offset in `C.FLDSP`.
#[inline]
pub fn fldsp_offset(half: u32) -> i32
    ensures { result ≡ pos (immediate half fldsp_layout) }
{
    ((bits(half, 4, 2) << 6) + (bits(half, 12, 12) << 5) + (bits(half, 6, 5) << 3)) as i32
}

/// The offset in `C.FSDSP`.
#[inline]
pub fn fsdsp_offset(half: u32) -> i32
    ensures { result ≡ pos (immediate half fsdsp_layout) }
{
    ((bits(half, 9, 7) << 6) + (bits(half, 12, 10) << 3)) as i32
}
