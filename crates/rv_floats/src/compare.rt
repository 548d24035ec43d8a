//! Comparisons, minimum and maximum.

ghost use Rattle.std.specs.Prelude.{◌≡◌, to_bits};
ghost use Rattle.std.specs.Float.{NotNanBits, is_sign_negative};
ghost use Rattle.rv_floats.specs.Comparisons as Comparisons;
ghost use lib.Ieee as Ieee;
ghost use lib.Ieee.{of_bits};

use crate::pattern::Pattern;

/// FEQ.
#[inline]
pub fn is_equal<P: Pattern>(a: P, b: P) -> bool
    ensures { result ≡ Ieee.eq (of_bits P.format (P.bits a)) (of_bits P.format (P.bits b)) }
{
    if b.is_nan() {
        return false;
    }
    !a.is_nan() && a.is_number_equal(b)
}

/// FLT.
#[inline]
pub fn is_less<P: Pattern>(a: P, b: P) -> bool
    ensures { result ≡ Ieee.lt (of_bits P.format (P.bits a)) (of_bits P.format (P.bits b)) }
{
    !a.is_nan() && !b.is_nan() && a.is_number_less(b)
}

/// FLE.
#[inline]
pub fn is_at_most<P: Pattern>(a: P, b: P) -> bool
    ensures { result ≡ Ieee.le (of_bits P.format (P.bits a)) (of_bits P.format (P.bits b)) }
{
    !a.is_nan() && !b.is_nan() && a.is_number_at_most(b)
}

/// FMIN.
#[inline]
pub fn minimum<P: Pattern>(a: P, b: P) -> P
    ensures { P.bits result ≡ to_bits P.format (Comparisons.minimum (of_bits P.format (P.bits a)) (of_bits P.format (P.bits b))) }
{
    let least = if a.is_nan() {
        b
    } else if b.is_nan() {
        a
    } else if is_before(b, a) {
        b
    } else {
        a
    };
    least.canonical()
}

/// FMAX.
#[inline]
pub fn maximum<P: Pattern>(a: P, b: P) -> P
    ensures { P.bits result ≡ to_bits P.format (Comparisons.maximum (of_bits P.format (P.bits a)) (of_bits P.format (P.bits b))) }
{
    let greatest = if a.is_nan() {
        b
    } else if b.is_nan() {
        a
    } else if is_before(a, b) {
        b
    } else {
        a
    };
    greatest.canonical()
}

/// Whether the first of two numbers is less than the second; here a zero with a minus is less than one with a plus.
#[inline(always)]
pub fn is_before<P: Pattern>(a: P, b: P) -> bool
    requires first { NotNanBits P.format (P.bits a) }
    requires second { NotNanBits P.format (P.bits b) }
    ensures { result ≡ Comparisons.is_before (of_bits P.format (P.bits a)) (of_bits P.format (P.bits b)) }
{
    a.is_number_less(b)
        || (a.is_number_equal(b) && a.is_number_negative() && !b.is_number_negative())
}

/// Whether it is a number with a minus.
#[inline]
pub fn is_negative<P: Pattern>(a: P) -> bool
    ensures { result ≡ is_sign_negative (of_bits P.format (P.bits a)) }
{
    if a.is_nan() {
        return false;
    }
    a.is_number_negative()
}
