//! Conversions between formats, to words, and singles in wide registers.

ghost use Rattle.std.specs.Prelude.{◌≡◌, to_bits};
ghost use Rattle.std.specs.Float.{round_to_format};
ghost use Rattle.rv_floats.specs.Conversions as Conversions;
ghost use Rattle.rv_floats.specs.Conversions.{signed_word, unsigned_word};
ghost use lib.Ieee.{binary32, binary64, of_bits};

use crate::pattern::Pattern;
use crate::rounding::Rounding;
use std::num::{
    f32_from_bits_with_nan, f32_to_bits_with_nan, f32_to_f64_with_nan, f64_from_bits_with_nan,
    f64_to_bits_with_nan, nearest_f64_to_f32_with_nan,
};

/// FCVT.W.
pub fn to_word<P: Pattern>(a: P, mode: Rounding) -> i32
    ensures { result ≡ signed_word mode P.format (of_bits P.format (P.bits a)) }
{
    if a.is_nan() {
        i32::MAX
    } else {
        a.rounded_whole(mode).whole_word()
    }
}

/// FCVT.WU.
pub fn to_unsigned_word<P: Pattern>(a: P, mode: Rounding) -> u32
    ensures { result ≡ unsigned_word mode P.format (of_bits P.format (P.bits a)) }
{
    if a.is_nan() {
        u32::MAX
    } else {
        a.rounded_whole(mode).whole_unsigned_word()
    }
}

/// FCVT.S.D.
#[inline]
pub fn d_to_s(a: u64) -> u32
    ensures { result ≡ to_bits binary32 (round_to_format binary32 (of_bits binary64 a)) }
{
    f32_to_bits_with_nan(nearest_f64_to_f32_with_nan(f64_from_bits_with_nan(a)))
}

/// FCVT.D.S, which rounds nothing: the value of the single as a double.
#[inline]
pub fn s_to_d(a: u32) -> u64
    ensures { result ≡ to_bits binary64 (of_bits binary32 a) }
{
    f64_to_bits_with_nan(f32_to_f64_with_nan(f32_from_bits_with_nan(a)))
}

/// The single as a register of 64 bits has it.
#[inline]
pub fn boxed(a: u32) -> u64
    ensures { result ≡ Conversions.boxed a }
{
    0xffff_ffff_0000_0000 + a as u64
}

/// The single that a register of 64 bits has, and the canonical NaN if it has none.
#[inline]
pub fn unboxed(register: u64) -> u32
    ensures { result ≡ Conversions.unboxed register }
{
    if register >> 32 == 0xffff_ffff {
        (register % 0x1_0000_0000) as u32
    } else {
        0x7fc0_0000
    }
}
