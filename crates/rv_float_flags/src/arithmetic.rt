//! The flags of arithmetic.

ghost use Rattle.std.specs.Prelude.{◌≡◌, ◌^◌, ◌<◌, ◌||◌};
ghost use Rattle.std.specs.Float.{float_is_infinite, float_zero};
ghost use Rattle.rv_float_flags.specs.Operations as Operations;
ghost use Rattle.rv_float_flags.specs.Scaled.{IsMagnitude};
ghost use lib.Ieee.{lt, of_bits, Float};

use crate::flags::{DIVIDED_BY_ZERO, Flags, INVALID, NONE, inexact_if, invalid_if};
use crate::magnitude::magnitude_of;
use crate::rounding::{limit, quotient_rounding, sum_rounding};
use crate::scaled::{Scaled, ZERO, is_same};
use rv_floats::{Pattern, is_equal, is_less, is_negative, is_signaling, sign_negated};

/// FADD.
pub fn add_flags<P: Pattern>(a: P, b: P) -> Flags
    ensures { result ≡ Operations.add_flags P.format (P.bits a) (P.bits b) }
{
    if is_signaling(a) || is_signaling(b) {
        INVALID
    } else {
        sum_flags(a, b)
    }
}

/// FSUB.
pub fn sub_flags<P: Pattern>(a: P, b: P) -> Flags
    ensures { result ≡ Operations.sub_flags P.format (P.bits a) (P.bits b) }
{
    add_flags(a, sign_negated(b, b))
}

/// FMUL.
pub fn mul_flags<P: Pattern>(a: P, b: P) -> Flags
    ensures { result ≡ Operations.mul_flags P.format (P.bits a) (P.bits b) }
{
    if is_signaling(a) || is_signaling(b) {
        INVALID
    } else {
        product_flags(a, b)
    }
}

/// FDIV.
pub fn div_flags<P: Pattern>(a: P, b: P) -> Flags
    ensures { result ≡ Operations.div_flags P.format (P.bits a) (P.bits b) }
{
    if is_signaling(a) || is_signaling(b) {
        INVALID
    } else {
        quotient_flags(a, b)
    }
}

/// FSQRT.
pub fn sqrt_flags<P: Pattern>(a: P) -> Flags
    ensures { result ≡ Operations.sqrt_flags P.format (P.bits a) }
{
    if is_signaling(a) {
        INVALID
    } else {
        root_flags(a)
    }
}

/// FMADD.
pub fn multiply_add_flags<P: Pattern>(a: P, b: P, c: P) -> Flags
    ensures { result ≡ Operations.multiply_add_flags P.format (P.bits a) (P.bits b) (P.bits c) }
{
    if is_signaling(a) || is_signaling(b) || is_signaling(c) {
        INVALID
    } else {
        fused_flags(a, b, c)
    }
}

/// FMSUB.
pub fn multiply_subtract_flags<P: Pattern>(a: P, b: P, c: P) -> Flags
    ensures { result ≡ Operations.multiply_subtract_flags P.format (P.bits a) (P.bits b) (P.bits c) }
{
    multiply_add_flags(a, b, sign_negated(c, c))
}

/// FNMSUB.
pub fn negated_multiply_subtract_flags<P: Pattern>(a: P, b: P, c: P) -> Flags
    ensures { result ≡ Operations.negated_multiply_subtract_flags P.format (P.bits a) (P.bits b) (P.bits c) }
{
    multiply_add_flags(sign_negated(a, a), b, c)
}

/// FNMADD.
pub fn negated_multiply_add_flags<P: Pattern>(a: P, b: P, c: P) -> Flags
    ensures { result ≡ Operations.negated_multiply_add_flags P.format (P.bits a) (P.bits b) (P.bits c) }
{
    multiply_add_flags(sign_negated(a, a), b, sign_negated(c, c))
}

fn sum_flags<P: Pattern>(a: P, b: P) -> Flags
    ensures { result ≡ Operations.sum_flags P.format (of_bits P.format (P.bits a)) (of_bits P.format (P.bits b)) }
{
    let opposite = is_negative(a) != is_negative(b);
    match (magnitude_of(a), magnitude_of(b)) {
        (Some(p), Some(q)) => sum_rounding(
            p.raised(),
            q.raised(),
            opposite,
            magnitude_of(a.add(b)),
            limit::<P>(),
        ),
        _ => invalid_if(is_invalid_sum(a, b)),
    }
}

fn product_flags<P: Pattern>(a: P, b: P) -> Flags
    ensures { result ≡ Operations.product_flags P.format (of_bits P.format (P.bits a)) (of_bits P.format (P.bits b)) }
{
    match (magnitude_of(a), magnitude_of(b)) {
        (Some(p), Some(q)) => sum_rounding(
            p.times(q),
            ZERO,
            false,
            magnitude_of(a.mul(b)),
            limit::<P>(),
        ),
        _ => invalid_if(is_invalid_product(a, b)),
    }
}

fn quotient_flags<P: Pattern>(a: P, b: P) -> Flags
    ensures { result ≡ Operations.quotient_flags P.format (of_bits P.format (P.bits a)) (of_bits P.format (P.bits b)) }
{
    if is_invalid_quotient(a, b) {
        return INVALID;
    }
    if is_division_by_zero(a, b) {
        return DIVIDED_BY_ZERO;
    }
    match (magnitude_of(a), magnitude_of(b)) {
        (Some(p), Some(q)) => quotient_rounding(p, q, magnitude_of(a.div(b)), limit::<P>()),
        _ => NONE,
    }
}

fn root_flags<P: Pattern>(a: P) -> Flags
    ensures { result ≡ Operations.root_flags P.format (of_bits P.format (P.bits a)) }
{
    if is_below_zero(a) {
        return INVALID;
    }
    match magnitude_of(a) {
        Some(p) => inexact_if(!is_root(a.sqrt(), p)),
        None => NONE,
    }
}

fn fused_flags<P: Pattern>(a: P, b: P, c: P) -> Flags
    ensures { result ≡ Operations.fused_flags P.format (of_bits P.format (P.bits a)) (of_bits P.format (P.bits b))
        (of_bits P.format (P.bits c)) }
{
    let opposite = (is_negative(a) != is_negative(b)) != is_negative(c);
    match (magnitude_of(a), magnitude_of(b), magnitude_of(c)) {
        (Some(p), Some(q), Some(r)) => sum_rounding(
            p.times(q),
            r.raised(),
            opposite,
            magnitude_of(a.multiply_add(b, c)),
            limit::<P>(),
        ),
        _ => invalid_if(is_invalid_fused(a, b, c)),
    }
}

fn is_zero<P: Pattern>(a: P) -> bool
    ensures { result ≡ Operations.is_zero (of_bits P.format (P.bits a)) }
{
    is_equal(a, P::of_unsigned_word(0))
}

#[inline(always)]
pub(crate) fn is_below_zero<P: Pattern>(a: P) -> bool
    ensures { result ≡ lt (of_bits P.format (P.bits a)) float_zero }
{
    is_less(a, P::of_unsigned_word(0))
}

fn is_invalid_product<P: Pattern>(a: P, b: P) -> bool
    ensures { result ≡ Operations.is_invalid_product (of_bits P.format (P.bits a)) (of_bits P.format (P.bits b)) }
{
    (a.is_infinite() && is_zero(b)) || (is_zero(a) && b.is_infinite())
}

fn is_invalid_quotient<P: Pattern>(a: P, b: P) -> bool
    ensures { result ≡ Operations.is_invalid_quotient (of_bits P.format (P.bits a)) (of_bits P.format (P.bits b)) }
{
    (is_zero(a) && is_zero(b)) || (a.is_infinite() && b.is_infinite())
}

fn is_division_by_zero<P: Pattern>(a: P, b: P) -> bool
    ensures { result ≡ Operations.is_division_by_zero (of_bits P.format (P.bits a)) (of_bits P.format (P.bits b)) }
{
    a.is_finite() && is_zero(b)
}

fn is_invalid_sum<P: Pattern>(a: P, b: P) -> bool
    ensures { result ≡ Operations.is_invalid_sum (of_bits P.format (P.bits a)) (of_bits P.format (P.bits b)) }
{
    a.is_infinite() && b.is_infinite() && is_negative(a) != is_negative(b)
}

fn is_invalid_fused<P: Pattern>(a: P, b: P, c: P) -> bool
    ensures { result ≡ Operations.is_invalid_fused P.format (of_bits P.format (P.bits a)) (of_bits P.format (P.bits b))
        (of_bits P.format (P.bits c)) }
{
    is_invalid_product(a, b) || (is_either_infinite(a, b) && is_invalid_sum(a.mul(b), c))
}

fn is_either_infinite<P: Pattern>(a: P, b: P) -> bool
    ensures { result ≡ (float_is_infinite (of_bits P.format (P.bits a)) || float_is_infinite (of_bits P.format (P.bits b))) }
{
    a.is_infinite() || b.is_infinite()
}

/// Whether the square of `root` is `p`.
fn is_root<P: Pattern>(root: P, p: Scaled) -> bool
    requires { p.place < 2 ^ 15 }
    ensures { (x : Float) → IsMagnitude P.format x p → result ≡ Operations.is_root (of_bits P.format (P.bits root)) x }
{
    match magnitude_of(root) {
        Some(z) => is_same(z.times(z), p.raised()),
        None => false,
    }
}
