//! Signs of patterns, and sign injection.

ghost use Rattle.std.specs.Prelude.{◌≡◌};
ghost use Rattle.rv_floats.specs.Signs as Signs;

use crate::pattern::Pattern;

/// FSGNJ: the first operand with the sign of the second.
#[inline]
pub fn sign_injected<P: Pattern>(a: P, b: P) -> P
    ensures { P.bits result ≡ Signs.sign_injected P.format (P.bits a) (P.bits b) }
{
    with_sign(has_sign_bit(b), a)
}

/// FSGNJN: with the opposite of that sign.
#[inline]
pub fn sign_negated<P: Pattern>(a: P, b: P) -> P
    ensures { P.bits result ≡ Signs.sign_negated P.format (P.bits a) (P.bits b) }
{
    with_sign(!has_sign_bit(b), a)
}

/// FSGNJX: with a minus if the signs differ.
#[inline]
pub fn sign_xored<P: Pattern>(a: P, b: P) -> P
    ensures { P.bits result ≡ Signs.sign_xored P.format (P.bits a) (P.bits b) }
{
    with_sign(has_sign_bit(a) != has_sign_bit(b), a)
}

/// Whether the sign bit is set.
#[inline]
pub(crate) fn has_sign_bit<P: Pattern>(a: P) -> bool
    ensures { result ≡ Signs.sign P.format (P.bits a) }
{
    P::top() <= a.to_u64()
}

#[inline]
fn with_sign<P: Pattern>(negative: bool, a: P) -> P
    ensures { P.bits result ≡ Signs.with_sign P.format negative (P.bits a) }
{
    let size = a.to_u64() % P::top();
    P::of_u64(if negative { P::top() + size } else { size })
}
