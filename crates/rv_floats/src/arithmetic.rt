//! The fused multiply-adds. FMADD is [`Pattern::multiply_add`].

ghost use Rattle.std.specs.Prelude.{◌≡◌, to_bits};
ghost use Rattle.rv_floats.specs.Fused as Fused;
ghost use lib.Ieee.{of_bits};

use crate::pattern::Pattern;
use crate::sign::sign_negated;

/// FMSUB: `a * b - c`.
#[inline]
pub fn multiply_subtract<P: Pattern>(a: P, b: P, c: P) -> P
    ensures { P.bits result ≡ to_bits P.format
        (Fused.multiply_subtract P.format (of_bits P.format (P.bits a)) (of_bits P.format (P.bits b)) (of_bits P.format (P.bits c))) }
{
    a.multiply_add(b, sign_negated(c, c))
}

/// FNMSUB: `-(a * b) + c`.
#[inline]
pub fn negated_multiply_subtract<P: Pattern>(a: P, b: P, c: P) -> P
    ensures { P.bits result ≡ to_bits P.format
        (Fused.negated_multiply_subtract P.format (of_bits P.format (P.bits a)) (of_bits P.format (P.bits b))
        (of_bits P.format (P.bits c))) }
{
    sign_negated(a, a).multiply_add(b, c)
}

/// FNMADD: `-(a * b) - c`.
#[inline]
pub fn negated_multiply_add<P: Pattern>(a: P, b: P, c: P) -> P
    ensures { P.bits result ≡ to_bits P.format
        (Fused.negated_multiply_add P.format (of_bits P.format (P.bits a)) (of_bits P.format (P.bits b)) (of_bits P.format (P.bits c))) }
{
    sign_negated(a, a).multiply_add(b, sign_negated(c, c))
}
