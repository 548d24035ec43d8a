//! What the host does with patterns, once for doubles and once for singles.

ghost use Rattle.std.specs.Prelude.{◌≡◌, ℕ, ◌+◌, ◌*◌, ◌<◌, false, pos, is_nan, to_bits};
ghost use Rattle.std.specs.Float.{NotNan, NotNanBits, float_is_finite, float_is_infinite, float_mul_add, is_normal, is_sign_negative};
ghost use Rattle.std.specs.Float.{is_subnormal};
ghost use Rattle.rv_floats.specs.Conversions as Conversions;
ghost use lib.Ieee as Ieee;
ghost use lib.Ieee.{Format, hid, low, of_bits, of_int, to_signed, to_unsigned, top};

use crate::rounding::Rounding;

/// The bit pattern of a float: a `u64` of a double, a `u32` of a single.
pub trait Pattern: Copy {
    ghost format: { Format };

    ghost bits: { Self → ℕ };

    /// FADD.
    fn add(self, other: Self) -> Self
        ensures { bits result ≡ to_bits format (Ieee.add format (of_bits format (bits self)) (of_bits format (bits other))) };

    /// FSUB.
    fn sub(self, other: Self) -> Self
        ensures { bits result ≡ to_bits format (Ieee.sub format (of_bits format (bits self)) (of_bits format (bits other))) };

    /// FMUL.
    fn mul(self, other: Self) -> Self
        ensures { bits result ≡ to_bits format (Ieee.mul format (of_bits format (bits self)) (of_bits format (bits other))) };

    /// FDIV.
    fn div(self, other: Self) -> Self
        ensures { bits result ≡ to_bits format (Ieee.div format (of_bits format (bits self)) (of_bits format (bits other))) };

    /// FSQRT.
    fn sqrt(self) -> Self
        ensures { bits result ≡ to_bits format (Ieee.sqrt format (of_bits format (bits self))) };

    /// FMADD: `self * factor + term`.
    fn multiply_add(self, factor: Self, term: Self) -> Self
        ensures { bits result ≡ to_bits format
            (float_mul_add format (of_bits format (bits self)) (of_bits format (bits factor)) (of_bits format (bits term))) };

    /// FADD of numbers whose sum is a number. Nothing asks whether one is a NaN, and so it is with the other operations on numbers.
    fn add_numbers(self, other: Self) -> Self
        requires first { NotNanBits format (bits self) }
        requires second { NotNanBits format (bits other) }
        requires sum { NotNan (Ieee.add format (of_bits format (bits self)) (of_bits format (bits other))) }
        ensures { bits result ≡ to_bits format (Ieee.add format (of_bits format (bits self)) (of_bits format (bits other))) };

    /// FSUB of numbers.
    fn sub_numbers(self, other: Self) -> Self
        requires first { NotNanBits format (bits self) }
        requires second { NotNanBits format (bits other) }
        requires difference { NotNan (Ieee.sub format (of_bits format (bits self)) (of_bits format (bits other))) }
        ensures { bits result ≡ to_bits format (Ieee.sub format (of_bits format (bits self)) (of_bits format (bits other))) };

    /// FMUL of numbers.
    fn mul_numbers(self, other: Self) -> Self
        requires first { NotNanBits format (bits self) }
        requires second { NotNanBits format (bits other) }
        requires product { NotNan (Ieee.mul format (of_bits format (bits self)) (of_bits format (bits other))) }
        ensures { bits result ≡ to_bits format (Ieee.mul format (of_bits format (bits self)) (of_bits format (bits other))) };

    /// FDIV of numbers.
    fn div_numbers(self, other: Self) -> Self
        requires first { NotNanBits format (bits self) }
        requires second { NotNanBits format (bits other) }
        requires quotient { NotNan (Ieee.div format (of_bits format (bits self)) (of_bits format (bits other))) }
        ensures { bits result ≡ to_bits format (Ieee.div format (of_bits format (bits self)) (of_bits format (bits other))) };

    /// FEQ of numbers.
    fn is_number_equal(self, other: Self) -> bool
        requires first { NotNanBits format (bits self) }
        requires second { NotNanBits format (bits other) }
        ensures { result ≡ Ieee.eq (of_bits format (bits self)) (of_bits format (bits other)) };

    /// FLT of numbers.
    fn is_number_less(self, other: Self) -> bool
        requires first { NotNanBits format (bits self) }
        requires second { NotNanBits format (bits other) }
        ensures { result ≡ Ieee.lt (of_bits format (bits self)) (of_bits format (bits other)) };

    /// FLE of numbers.
    fn is_number_at_most(self, other: Self) -> bool
        requires first { NotNanBits format (bits self) }
        requires second { NotNanBits format (bits other) }
        ensures { result ≡ Ieee.le (of_bits format (bits self)) (of_bits format (bits other)) };

    /// Whether a number has a minus.
    fn is_number_negative(self) -> bool
        requires { NotNanBits format (bits self) }
        ensures { result ≡ is_sign_negative (of_bits format (bits self)) };

    fn is_nan(self) -> bool
        ensures value { result ≡ is_nan (of_bits format (bits self)) }
        ensures number { result ≡ false → NotNanBits format (bits self) };

    fn is_finite(self) -> bool
        ensures { result ≡ float_is_finite (of_bits format (bits self)) };

    fn is_infinite(self) -> bool
        ensures { result ≡ float_is_infinite (of_bits format (bits self)) };

    fn is_normal(self) -> bool
        ensures { result ≡ is_normal format (of_bits format (bits self)) };

    fn is_subnormal(self) -> bool
        ensures { result ≡ is_subnormal format (of_bits format (bits self)) };

    /// The same pattern, or the canonical NaN in place of a NaN's.
    fn canonical(self) -> Self
        ensures { bits result ≡ to_bits format (of_bits format (bits self)) };

    /// FCVT of a word.
    fn of_word(word: i32) -> Self
        ensures { bits result ≡ to_bits format (of_int format word) };

    /// FCVT of an unsigned word.
    fn of_unsigned_word(word: u32) -> Self
        ensures { bits result ≡ to_bits format (of_int format (pos word)) };

    /// The value rounded to a whole number in the mode, as conversions to words do it before they look at the range.
    fn rounded_whole(self, mode: Rounding) -> Self
        ensures { of_bits format (bits result) ≡ Conversions.rounded_whole mode format (of_bits format (bits self)) };

    /// A whole number as a word, or the nearest end of the range.
    fn whole_word(self) -> i32
        ensures { result ≡ to_signed 31 (of_bits format (bits self)) };

    /// A whole number as an unsigned word, or the nearest end of the range.
    fn whole_unsigned_word(self) -> u32
        ensures { result ≡ to_unsigned 32 (of_bits format (bits self)) };

    /// The pattern as a number.
    fn to_u64(self) -> u64
        ensures value { result ≡ bits self }
        ensures narrow { result < 2 * top format };

    /// The pattern that is a number.
    fn of_u64(number: u64) -> Self
        requires { number < 2 * top format }
        ensures { bits result ≡ number };

    /// The sign bit.
    fn top() -> u64
        ensures { result ≡ top format };

    /// The least bit of the exponent field, which is after the digits.
    fn hidden() -> u64
        ensures { result ≡ hid format };

    /// The smallest positive value is 2 to the power of minus this.
    fn low() -> u32
        ensures { result ≡ low format };

    /// The pattern as a register of 64 bits has it.
    fn in_register(self) -> u64
        ensures { result ≡ Conversions.in_register format (bits self) };

    /// The pattern that a register of 64 bits has, and the canonical NaN if it has none.
    fn of_register(register: u64) -> Self
        ensures { bits result ≡ Conversions.of_register format register };
}
