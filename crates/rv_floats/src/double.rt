//! The patterns of doubles.

ghost use Rattle.std.specs.Prelude.{◌≡◌};
ghost use Rattle.rv_floats.specs.Conversions.{rounded_whole};
ghost use lib.Ieee.{binary64};

use crate::pattern::Pattern;
use crate::rounding::Rounding;
use std::num::{
    f64_from_bits_with_nan, f64_to_bits_with_nan, nearest_i64_to_f64, nearest_u64_to_f64,
    saturating_f64_to_i32, saturating_f64_to_u32,
};

impl Pattern for u64 {
    ghost format = { binary64 };

    ghost bits = { λ a. a };

    fn add(self, other: u64) -> u64 {
        f64_to_bits_with_nan(f64_from_bits_with_nan(self) + f64_from_bits_with_nan(other))
    }

    fn sub(self, other: u64) -> u64 {
        f64_to_bits_with_nan(f64_from_bits_with_nan(self) - f64_from_bits_with_nan(other))
    }

    fn mul(self, other: u64) -> u64 {
        f64_to_bits_with_nan(f64_from_bits_with_nan(self) * f64_from_bits_with_nan(other))
    }

    fn div(self, other: u64) -> u64 {
        f64_to_bits_with_nan(f64_from_bits_with_nan(self) / f64_from_bits_with_nan(other))
    }

    fn sqrt(self) -> u64 {
        f64_to_bits_with_nan(f64_from_bits_with_nan(self).sqrt())
    }

    fn multiply_add(self, factor: u64, term: u64) -> u64 {
        let (x, y) = (f64_from_bits_with_nan(self), f64_from_bits_with_nan(factor));
        f64_to_bits_with_nan(x.mul_add(y, f64_from_bits_with_nan(term)))
    }

    fn add_numbers(self, other: u64) -> u64 {
        (f64::from_bits(self) + f64::from_bits(other)).to_bits()
    }

    fn sub_numbers(self, other: u64) -> u64 {
        (f64::from_bits(self) - f64::from_bits(other)).to_bits()
    }

    fn mul_numbers(self, other: u64) -> u64 {
        (f64::from_bits(self) * f64::from_bits(other)).to_bits()
    }

    fn div_numbers(self, other: u64) -> u64 {
        (f64::from_bits(self) / f64::from_bits(other)).to_bits()
    }

    fn is_number_equal(self, other: u64) -> bool {
        f64::from_bits(self) == f64::from_bits(other)
    }

    fn is_number_less(self, other: u64) -> bool {
        f64::from_bits(self) < f64::from_bits(other)
    }

    fn is_number_at_most(self, other: u64) -> bool {
        f64::from_bits(self) <= f64::from_bits(other)
    }

    fn is_number_negative(self) -> bool {
        f64::from_bits(self).is_sign_negative()
    }

    fn is_nan(self) -> bool {
        f64_from_bits_with_nan(self).is_nan()
    }

    fn is_finite(self) -> bool {
        f64_from_bits_with_nan(self).is_finite()
    }

    fn is_infinite(self) -> bool {
        f64_from_bits_with_nan(self).is_infinite()
    }

    fn is_normal(self) -> bool {
        f64_from_bits_with_nan(self).is_normal()
    }

    fn is_subnormal(self) -> bool {
        f64_from_bits_with_nan(self).is_subnormal()
    }

    fn canonical(self) -> u64 {
        f64_to_bits_with_nan(f64_from_bits_with_nan(self))
    }

    fn of_word(word: i32) -> u64 {
        f64_to_bits_with_nan(nearest_i64_to_f64(word as i64))
    }

    fn of_unsigned_word(word: u32) -> u64 {
        f64_to_bits_with_nan(nearest_u64_to_f64(word as u64))
    }

    fn rounded_whole(self, mode: Rounding) -> u64 {
        f64_to_bits_with_nan(rounded(f64_from_bits_with_nan(self), mode))
    }

    fn whole_word(self) -> i32 {
        saturating_f64_to_i32(f64_from_bits_with_nan(self))
    }

    fn whole_unsigned_word(self) -> u32 {
        saturating_f64_to_u32(f64_from_bits_with_nan(self))
    }

    fn to_u64(self) -> u64 {
        self
    }

    fn of_u64(number: u64) -> u64 {
        number
    }

    fn top() -> u64 {
        0x8000_0000_0000_0000
    }

    fn hidden() -> u64 {
        0x10_0000_0000_0000
    }

    fn low() -> u32 {
        1074
    }

    fn in_register(self) -> u64 {
        self
    }

    fn of_register(register: u64) -> u64 {
        register
    }
}

fn rounded(x: f64, mode: Rounding) -> f64
    ensures { result ≡ rounded_whole mode binary64 x }
{
    match mode {
        Rounding::NearestEven => x.round_ties_even(),
        Rounding::TowardZero => x.trunc(),
        Rounding::Down => x.floor(),
        Rounding::Up => x.ceil(),
        Rounding::NearestAway => x.round(),
    }
}
