//! Arithmetic in a rounding mode.

ghost use Rattle.std.specs.Prelude.{◌≡◌, ◌<◌, ◌&&◌, false, not, IfSome, MatchOption};
ghost use Rattle.std.specs.Float.{is_sign_negative};
ghost use Rattle.rv_float_flags.specs.Scaled.{IsMagnitude, IsNarrow};
ghost use Rattle.rv_float_modes.specs.Operations as Operations;
ghost use Rattle.rv_float_modes.specs.Operations.{is_nonzero};
ghost use lib.Ieee.{of_bits};
ghost use lib.Ieee.Positive.{num};

use crate::finite::{Term, nonzero, product, quotient, root, sum};
use crate::rounded::Rounded;
use crate::rounding::shape_of;
use rv_float_flags::{
    Scaled, add_flags, div_flags, magnitude_of, mul_flags, multiply_add_flags, sqrt_flags,
};
use rv_floats::{Pattern, Rounding, is_negative, sign_negated};

/// FADD.
pub fn add_in<P: Pattern>(mode: Rounding, a: P, b: P) -> Rounded
    ensures { result ≡ Operations.add_in mode P.format (P.bits a) (P.bits b) }
{
    match (magnitude_of(a), magnitude_of(b)) {
        (Some(p), Some(q)) => sum(
            mode,
            Term {
                negative: is_negative(a),
                size: p.raised(),
            },
            Term {
                negative: is_negative(b),
                size: q.raised(),
            },
            shape_of::<P>(),
        ),
        _ => Rounded {
            bits: a.add(b).to_u64(),
            flags: add_flags(a, b),
        },
    }
}

/// FSUB.
pub fn sub_in<P: Pattern>(mode: Rounding, a: P, b: P) -> Rounded
    ensures { result ≡ Operations.sub_in mode P.format (P.bits a) (P.bits b) }
{
    add_in(mode, a, sign_negated(b, b))
}

/// FMUL.
pub fn mul_in<P: Pattern>(mode: Rounding, a: P, b: P) -> Rounded
    ensures { result ≡ Operations.mul_in mode P.format (P.bits a) (P.bits b) }
{
    match (magnitude_of(a), magnitude_of(b)) {
        (Some(p), Some(q)) => product(
            mode,
            is_negative(a) != is_negative(b),
            p,
            q,
            shape_of::<P>(),
        ),
        _ => Rounded {
            bits: a.mul(b).to_u64(),
            flags: mul_flags(a, b),
        },
    }
}

/// FDIV.
pub fn div_in<P: Pattern>(mode: Rounding, a: P, b: P) -> Rounded
    ensures { result ≡ Operations.div_in mode P.format (P.bits a) (P.bits b) }
{
    match (magnitude_of(a), nonzero(magnitude_of(b))) {
        (Some(p), Some(q)) => quotient(
            mode,
            is_negative(a) != is_negative(b),
            p,
            q,
            shape_of::<P>(),
        ),
        _ => Rounded {
            bits: a.div(b).to_u64(),
            flags: div_flags(a, b),
        },
    }
}

/// FSQRT.
pub fn sqrt_in<P: Pattern>(mode: Rounding, a: P) -> Rounded
    ensures { result ≡ Operations.sqrt_in mode P.format (P.bits a) }
{
    match positive(a) {
        Some(p) => root(mode, p, shape_of::<P>()),
        None => Rounded {
            bits: a.sqrt().to_u64(),
            flags: sqrt_flags(a),
        },
    }
}

/// FMADD.
pub fn multiply_add_in<P: Pattern>(mode: Rounding, a: P, b: P, c: P) -> Rounded
    ensures { result ≡ Operations.multiply_add_in mode P.format (P.bits a) (P.bits b) (P.bits c) }
{
    match (magnitude_of(a), magnitude_of(b), magnitude_of(c)) {
        (Some(p), Some(q), Some(r)) => sum(
            mode,
            Term {
                negative: is_negative(a) != is_negative(b),
                size: p.times(q),
            },
            Term {
                negative: is_negative(c),
                size: r.raised(),
            },
            shape_of::<P>(),
        ),
        _ => Rounded {
            bits: a.multiply_add(b, c).to_u64(),
            flags: multiply_add_flags(a, b, c),
        },
    }
}

/// FMSUB.
pub fn multiply_subtract_in<P: Pattern>(mode: Rounding, a: P, b: P, c: P) -> Rounded
    ensures { result ≡ Operations.multiply_subtract_in mode P.format (P.bits a) (P.bits b) (P.bits c) }
{
    multiply_add_in(mode, a, b, sign_negated(c, c))
}

/// FNMSUB.
pub fn negated_multiply_subtract_in<P: Pattern>(mode: Rounding, a: P, b: P, c: P) -> Rounded
    ensures { result ≡ Operations.negated_multiply_subtract_in mode P.format (P.bits a) (P.bits b) (P.bits c) }
{
    multiply_add_in(mode, sign_negated(a, a), b, c)
}

/// FNMADD.
pub fn negated_multiply_add_in<P: Pattern>(mode: Rounding, a: P, b: P, c: P) -> Rounded
    ensures { result ≡ Operations.negated_multiply_add_in mode P.format (P.bits a) (P.bits b) (P.bits c) }
{
    multiply_add_in(mode, sign_negated(a, a), b, sign_negated(c, c))
}

/// The magnitude of what is finite and above zero.
fn positive<P: Pattern>(a: P) -> Option<Scaled>
    ensures value { MatchOption result
        ((is_nonzero (of_bits P.format (P.bits a)) && not (is_sign_negative (of_bits P.format (P.bits a)))) ≡ false)
        (λ p. IsMagnitude P.format (of_bits P.format (P.bits a)) p × (0 < num (of_bits P.format (P.bits a)))
        × (is_sign_negative (of_bits P.format (P.bits a)) ≡ false)) }
    ensures narrow { IsNarrow result }
    ensures nonzero { IfSome result (λ p. 0 < p.digits) }
{
    if is_negative(a) {
        None
    } else {
        nonzero(magnitude_of(a))
    }
}
