//! The patterns of singles, which are in the lower half of a register of 64 bits.

ghost use Rattle.std.specs.Prelude.{◌≡◌};
ghost use Rattle.rv_floats.specs.Conversions.{rounded_whole};
ghost use lib.Ieee.{binary32};

use crate::convert::{boxed, unboxed};
use crate::pattern::Pattern;
use crate::rounding::Rounding;
use std::num::{
    f32_from_bits_with_nan, f32_to_bits_with_nan, nearest_u32_to_f32, saturating_f32_to_i32,
    saturating_f32_to_u32,
};

impl Pattern for u32 {
    ghost format = { binary32 };

    ghost bits = { λ a. a };

    fn add(self, other: u32) -> u32 {
        f32_to_bits_with_nan(f32_from_bits_with_nan(self) + f32_from_bits_with_nan(other))
    }

    fn sub(self, other: u32) -> u32 {
        f32_to_bits_with_nan(f32_from_bits_with_nan(self) - f32_from_bits_with_nan(other))
    }

    fn mul(self, other: u32) -> u32 {
        f32_to_bits_with_nan(f32_from_bits_with_nan(self) * f32_from_bits_with_nan(other))
    }

    fn div(self, other: u32) -> u32 {
        f32_to_bits_with_nan(f32_from_bits_with_nan(self) / f32_from_bits_with_nan(other))
    }

    fn sqrt(self) -> u32 {
        f32_to_bits_with_nan(f32_from_bits_with_nan(self).sqrt())
    }

    fn multiply_add(self, factor: u32, term: u32) -> u32 {
        let (x, y) = (f32_from_bits_with_nan(self), f32_from_bits_with_nan(factor));
        f32_to_bits_with_nan(x.mul_add(y, f32_from_bits_with_nan(term)))
    }

    fn add_numbers(self, other: u32) -> u32 {
        (f32::from_bits(self) + f32::from_bits(other)).to_bits()
    }

    fn sub_numbers(self, other: u32) -> u32 {
        (f32::from_bits(self) - f32::from_bits(other)).to_bits()
    }

    fn mul_numbers(self, other: u32) -> u32 {
        (f32::from_bits(self) * f32::from_bits(other)).to_bits()
    }

    fn div_numbers(self, other: u32) -> u32 {
        (f32::from_bits(self) / f32::from_bits(other)).to_bits()
    }

    fn is_number_equal(self, other: u32) -> bool {
        f32::from_bits(self) == f32::from_bits(other)
    }

    fn is_number_less(self, other: u32) -> bool {
        f32::from_bits(self) < f32::from_bits(other)
    }

    fn is_number_at_most(self, other: u32) -> bool {
        f32::from_bits(self) <= f32::from_bits(other)
    }

    fn is_number_negative(self) -> bool {
        f32::from_bits(self).is_sign_negative()
    }

    fn is_nan(self) -> bool {
        f32_from_bits_with_nan(self).is_nan()
    }

    fn is_finite(self) -> bool {
        f32_from_bits_with_nan(self).is_finite()
    }

    fn is_infinite(self) -> bool {
        f32_from_bits_with_nan(self).is_infinite()
    }

    fn is_normal(self) -> bool {
        f32_from_bits_with_nan(self).is_normal()
    }

    fn is_subnormal(self) -> bool {
        f32_from_bits_with_nan(self).is_subnormal()
    }

    fn canonical(self) -> u32 {
        f32_to_bits_with_nan(f32_from_bits_with_nan(self))
    }

    // For speed: `nearest_i32_to_f32` is a call.
    #[inline(always)]
    fn of_word(word: i32) -> u32 {
        let size = nearest_u32_to_f32(word.unsigned_abs());
        if word < 0 {
            f32_to_bits_with_nan(-size)
        } else {
            f32_to_bits_with_nan(size)
        }
    }

    #[inline(always)]
    fn of_unsigned_word(word: u32) -> u32 {
        f32_to_bits_with_nan(nearest_u32_to_f32(word))
    }

    fn rounded_whole(self, mode: Rounding) -> u32 {
        f32_to_bits_with_nan(rounded(f32_from_bits_with_nan(self), mode))
    }

    fn whole_word(self) -> i32 {
        saturating_f32_to_i32(f32_from_bits_with_nan(self))
    }

    fn whole_unsigned_word(self) -> u32 {
        saturating_f32_to_u32(f32_from_bits_with_nan(self))
    }

    fn to_u64(self) -> u64 {
        self as u64
    }

    fn of_u64(number: u64) -> u32 {
        number as u32
    }

    fn top() -> u64 {
        0x8000_0000
    }

    fn hidden() -> u64 {
        0x80_0000
    }

    fn low() -> u32 {
        149
    }

    fn in_register(self) -> u64 {
        boxed(self)
    }

    fn of_register(register: u64) -> u32 {
        unboxed(register)
    }
}

fn rounded(x: f32, mode: Rounding) -> f32
    ensures { result ≡ rounded_whole mode binary32 x }
{
    match mode {
        Rounding::NearestEven => x.round_ties_even(),
        Rounding::TowardZero => x.trunc(),
        Rounding::Down => x.floor(),
        Rounding::Up => x.ceil(),
        Rounding::NearestAway => x.round(),
    }
}
