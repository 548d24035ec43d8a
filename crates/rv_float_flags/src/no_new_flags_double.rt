//! Quick tests whether a sum, product, quotient or root of doubles raises no new flag.

ghost use Rattle.std.specs.Prelude.{◌≡◌, ◌%◌, ◌^◌, ◌<◌, true, IsTrue};
ghost use Rattle.rv_float_flags.specs.Scaled.{exponent, IsMiddling};
ghost use Rattle.rv_float_flags.specs.NoNewFlags as NoNewFlags;

use crate::arithmetic::is_below_zero;
use crate::flags::Flags;
use crate::no_new_flags::Quick;

impl Quick for u64 {
    #[inline(always)]
    fn sum_raises_no_new_flags(flags: Flags, a: u64, b: u64) -> bool {
        if flags.nx && are_middling(a, b) {
            return true;
        }
        is_moderate(a)
            && is_moderate(b)
            && (flags.nx || (are_short(a, b) && are_near(a, b)) || has_zero(a, b))
    }

    #[inline(always)]
    fn product_raises_no_new_flags(flags: Flags, a: u64, b: u64) -> bool {
        if flags.nx && are_middling(a, b) {
            return true;
        }
        is_finite(a)
            && is_finite(b)
            && ((is_product_moderate(a, b) && (flags.nx || are_short(a, b))) || has_zero(a, b))
    }

    #[inline(always)]
    fn quotient_raises_no_new_flags(flags: Flags, a: u64, b: u64) -> bool {
        if flags.nx && are_middling(a, b) {
            return true;
        }
        flags.nx && is_normal(a) && is_normal(b) && are_within_range(a, b)
    }

    #[inline(always)]
    fn root_raises_no_new_flags(flags: Flags, a: u64) -> bool {
        flags.nx && is_finite(a) && !is_below_zero(a)
    }
}

/// Whether both are between 2^-255 and 2^257 in size, as most are: then none of their sum, product and quotient is tiny or infinite.
// For speed: it is one comparison, of the upper halves.
#[inline(always)]
fn are_middling(a: u64, b: u64) -> bool
    ensures first { IsTrue result → IsMiddling a }
    ensures second { IsTrue result → IsMiddling b }
{
    (from_middle(a) | from_middle(b)) < 0x4000_0000
}

/// How far the upper half of a pattern, without its sign, is above that of 2^-255, twice. Below, it is a large number.
#[inline(always)]
fn from_middle(a: u64) -> u32
    ensures { result < 0x4000_0000 → IsMiddling a }
{
    ((a / 0x1_0000_0000) as u32)
        .wrapping_mul(2)
        .wrapping_sub(0x6000_0000)
}

/// Whether a double is finite.
#[inline(always)]
fn is_finite(a: u64) -> bool
    ensures { result ≡ NoNewFlags.is_finite a }
{
    exponent(a) < 2047
}

/// Whether it is less than 2^1022 in size, so that a sum of two such is finite.
#[inline(always)]
fn is_moderate(a: u64) -> bool
    ensures { result ≡ NoNewFlags.is_moderate a }
{
    exponent(a) < 2045
}

/// Whether a product of two such is neither tiny nor infinite, by the exponents.
#[inline(always)]
fn is_product_moderate(a: u64, b: u64) -> bool
    ensures { result ≡ NoNewFlags.is_product_moderate a b }
{
    let both = exponent(a) + exponent(b);
    1076 <= both && both <= 3066
}

/// Whether the last 27 of the 53 digits are zeros of both, so that their product has 52 digits at most.
#[inline(always)]
fn are_short(a: u64, b: u64) -> bool
    ensures { result ≡ NoNewFlags.are_short a b }
{
    a % 0x800_0000 == 0 && b % 0x800_0000 == 0
}

/// Whether they lie at most 26 binary places apart.
#[inline(always)]
fn are_near(a: u64, b: u64) -> bool
    ensures { result ≡ NoNewFlags.are_near a b }
{
    exponent(a) <= exponent(b) + 26 && exponent(b) <= exponent(a) + 26
}

/// Whether a double is normal.
#[inline(always)]
fn is_normal(a: u64) -> bool
    ensures { result ≡ NoNewFlags.is_normal a }
{
    1 <= exponent(a) && exponent(a) <= 2046
}

/// Whether they lie at most 1021 binary places apart.
#[inline(always)]
fn are_within_range(a: u64, b: u64) -> bool
    ensures { result ≡ NoNewFlags.are_within_range a b }
{
    exponent(a) <= exponent(b) + 1021 && exponent(b) <= exponent(a) + 1021
}

/// Whether one of two is zero, so that sum and product are exact.
#[inline(always)]
fn has_zero(a: u64, b: u64) -> bool
    ensures { result ≡ NoNewFlags.has_zero a b }
{
    a % 0x8000_0000_0000_0000 == 0 || b % 0x8000_0000_0000_0000 == 0
}

/// The exponent field.
// For speed: nothing else keeps the pattern without its sign.
#[inline(always)]
fn exponent(a: u64) -> u64
    ensures { result ≡ exponent a }
{
    a / 0x10_0000_0000_0000 % 0x800
}
