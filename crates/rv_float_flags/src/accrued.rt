//! The flags of the frequent operations, together with flags that are already set.

ghost use Rattle.std.specs.Prelude.{◌≡◌};
ghost use Rattle.rv_float_flags.specs.Flags.{accrued};
ghost use Rattle.rv_float_flags.specs.Operations as Operations;

use crate::arithmetic::{add_flags, div_flags, mul_flags};
use crate::flags::Flags;
use crate::magnitude::magnitude_of;
use crate::no_new_flags::Quick;
use crate::rounding::{accrued_sum_rounding, limit};
use crate::scaled::ZERO;
use rv_floats::{Pattern, is_negative, sign_negated};

/// FADD.
#[inline(always)]
pub fn accrued_add_flags<P: Pattern>(flags: Flags, a: P, b: P) -> Flags
    ensures { result ≡ accrued flags (Operations.add_flags P.format (P.bits a) (P.bits b)) }
{
    let opposite = is_negative(a) != is_negative(b);
    match (magnitude_of(a), magnitude_of(b)) {
        (Some(p), Some(q)) => accrued_sum_rounding(
            flags,
            p.raised(),
            q.raised(),
            opposite,
            magnitude_of(a.add(b)),
            limit::<P>(),
        ),
        _ => flags | add_flags(a, b),
    }
}

/// FSUB.
#[inline(always)]
pub fn accrued_sub_flags<P: Pattern>(flags: Flags, a: P, b: P) -> Flags
    ensures { result ≡ accrued flags (Operations.sub_flags P.format (P.bits a) (P.bits b)) }
{
    accrued_add_flags(flags, a, sign_negated(b, b))
}

/// FMUL.
#[inline(always)]
pub fn accrued_mul_flags<P: Pattern>(flags: Flags, a: P, b: P) -> Flags
    ensures { result ≡ accrued flags (Operations.mul_flags P.format (P.bits a) (P.bits b)) }
{
    match (magnitude_of(a), magnitude_of(b)) {
        (Some(p), Some(q)) => accrued_sum_rounding(
            flags,
            p.times(q),
            ZERO,
            false,
            magnitude_of(a.mul(b)),
            limit::<P>(),
        ),
        _ => flags | mul_flags(a, b),
    }
}

/// FDIV.
// For speed: most quotients are found out at once.
#[inline(always)]
pub fn accrued_div_flags<P: Quick>(flags: Flags, a: P, b: P) -> Flags
    ensures { result ≡ accrued flags (Operations.div_flags P.format (P.bits a) (P.bits b)) }
{
    if P::quotient_raises_no_new_flags(flags, a, b) {
        flags
    } else {
        flags | div_flags(a, b)
    }
}
