//! The flags of comparisons, minimum and maximum.

ghost use Rattle.std.specs.Prelude.{◌≡◌};
ghost use Rattle.rv_float_flags.specs.Operations as Operations;

use crate::flags::{Flags, invalid_if};
use rv_floats::{Pattern, is_signaling};

/// FEQ, FMIN, FMAX.
#[inline]
pub fn quiet_flags<P: Pattern>(a: P, b: P) -> Flags
    ensures { result ≡ Operations.quiet_flags P.format (P.bits a) (P.bits b) }
{
    invalid_if(is_signaling(a) || is_signaling(b))
}

/// FLT, FLE.
#[inline]
pub fn ordered_flags<P: Pattern>(a: P, b: P) -> Flags
    ensures { result ≡ Operations.ordered_flags P.format (P.bits a) (P.bits b) }
{
    invalid_if(a.is_nan() || b.is_nan())
}
