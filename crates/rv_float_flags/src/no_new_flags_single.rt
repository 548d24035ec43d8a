//! Quick tests whether a sum, product, quotient or root of singles raises no new flag.

ghost use Rattle.std.specs.Prelude.{◌≡◌, ◌%◌, ◌^◌, ◌<◌, true, IsTrue};
ghost use Rattle.rv_float_flags.specs.Scaled.{single_exponent, IsSingleMiddling};
ghost use Rattle.rv_float_flags.specs.NoNewFlags as NoNewFlags;

use crate::arithmetic::is_below_zero;
use crate::flags::Flags;
use crate::no_new_flags::Quick;

impl Quick for u32 {
    #[inline(always)]
    fn sum_raises_no_new_flags(flags: Flags, a: u32, b: u32) -> bool {
        if flags.nx && are_in_middle(a, b) {
            return true;
        }
        flags.nx && is_moderate(a) && is_moderate(b)
    }

    #[inline(always)]
    fn product_raises_no_new_flags(flags: Flags, a: u32, b: u32) -> bool {
        if flags.nx && are_in_middle(a, b) {
            return true;
        }
        (flags.nx && is_middling(a) && is_middling(b))
            || (is_finite(a) && is_finite(b) && (a % 0x8000_0000 == 0 || b % 0x8000_0000 == 0))
    }

    #[inline(always)]
    fn quotient_raises_no_new_flags(flags: Flags, a: u32, b: u32) -> bool {
        if flags.nx && are_in_middle(a, b) {
            return true;
        }
        flags.nx && is_middling(a) && is_middling(b)
    }

    #[inline(always)]
    fn root_raises_no_new_flags(flags: Flags, a: u32) -> bool {
        flags.nx && is_finite(a) && !is_below_zero(a)
    }
}

/// Whether a single is finite.
#[inline(always)]
fn is_finite(a: u32) -> bool
    ensures { result ≡ NoNewFlags.is_single_finite a }
{
    exponent(a) < 255
}

/// Whether it is less than 2^126 in size, so that a sum of two such is finite.
#[inline(always)]
fn is_moderate(a: u32) -> bool
    ensures { result ≡ NoNewFlags.is_single_moderate a }
{
    exponent(a) < 253
}

/// Whether it is from 2^-63 to 2^63 in size, so that neither a product nor a quotient of two such is tiny or infinite.
#[inline(always)]
fn is_middling(a: u32) -> bool
    ensures { result ≡ NoNewFlags.is_single_middling a }
{
    64 <= exponent(a) && exponent(a) < 190
}

/// Whether both are between 2^-31 and 2^33 in size, as most are.
// For speed: it is one comparison.
#[inline(always)]
fn are_in_middle(a: u32, b: u32) -> bool
    ensures first { IsTrue result → IsSingleMiddling a }
    ensures second { IsTrue result → IsSingleMiddling b }
{
    (from_middle(a) | from_middle(b)) < 0x4000_0000
}

/// How far a pattern, without its sign, is above that of 2^-31, twice. Below, it is a large number.
#[inline(always)]
fn from_middle(a: u32) -> u32
    ensures { result < 0x4000_0000 → IsSingleMiddling a }
{
    a.wrapping_mul(2).wrapping_sub(0x6000_0000)
}

/// The exponent field.
#[inline(always)]
fn exponent(a: u32) -> u32
    ensures { result ≡ single_exponent a }
{
    a / 0x80_0000 % 0x100
}
