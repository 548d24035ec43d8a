//! The flags of a rounding, found by the exact result.

ghost use Rattle.std.specs.Prelude.{◌≡◌, ℕ, ◌+◌, ◌*◌, ◌^◌, ◌<◌, ◌≤◌, ◌&&◌, nat_lt};
ghost use Rattle.rv_float_flags.specs.Exact.{combined, is_inexact, is_tiny, rounded, Ratio};
ghost use Rattle.rv_float_flags.specs.Flags.{accrued, rounding_flags};
ghost use Rattle.rv_float_flags.specs.Scaled.{amount, IsFraction, IsLimit, IsMagnitudeOf, IsNarrow};
ghost use lib.Ieee.{Format};

use crate::flags::{Flags, overflow_if};
use crate::scaled::{Scaled, is_below, is_same, is_sum, sum_is_below};
use rv_floats::Pattern;

/// What is below this is tiny: the smallest normal value less a quarter of the smallest positive one, as a multiple of 2^-2148.
#[inline(always)]
pub(crate) fn limit<P: Pattern>() -> Scaled
    ensures limit { IsLimit P.format result }
    ensures narrow { result.digits < 2 ^ 54 }
    ensures low { result.place < 2 ^ 15 }
{
    Scaled {
        digits: (P::hidden() * 4 - 1) as u128,
        place: 2146 - P::low(),
    }
}

/// The flags if a sum of multiples of 2^-2148, or their difference, has been rounded to `nearest`, or is infinite.
pub(crate) fn sum_rounding(
    a: Scaled,
    b: Scaled,
    opposite: bool,
    nearest: Option<Scaled>,
    limit: Scaled,
) -> Flags
    requires a_narrow { a.digits < 2 ^ 106 }
    requires b_narrow { b.digits < 2 ^ 106 }
    requires a_low { a.place < 2 ^ 15 }
    requires b_low { b.place < 2 ^ 15 }
    requires b_coarse { limit.place + 2 ≤ b.place }
    requires limit_narrow { limit.digits < 2 ^ 54 }
    requires narrow { IsNarrow nearest }
    ensures { (f : Format) (r : Ratio) → IsLimit f limit → IsFraction r (combined opposite (amount a) (amount b)) 1
        → IsMagnitudeOf f (rounded f r) nearest → result ≡ rounding_flags f r }
{
    let inexact = is_sum_inexact(a, b, opposite, nearest);
    let underflow = inexact && is_sum_tiny(a, b, opposite, limit);
    Flags {
        nv: false,
        dz: false,
        of: nearest.is_none(),
        uf: underflow,
        nx: inexact,
    }
}

/// The same with the flags that are there.
// For speed: where NX is there, and the sum is not so small that it could be tiny, it is not found out whether it is exact.
#[inline(always)]
pub(crate) fn accrued_sum_rounding(
    flags: Flags,
    a: Scaled,
    b: Scaled,
    opposite: bool,
    nearest: Option<Scaled>,
    limit: Scaled,
) -> Flags
    requires a_narrow { a.digits < 2 ^ 106 }
    requires b_narrow { b.digits < 2 ^ 106 }
    requires a_low { a.place < 2 ^ 15 }
    requires b_low { b.place < 2 ^ 15 }
    requires b_coarse { limit.place + 2 ≤ b.place }
    requires limit_narrow { limit.digits < 2 ^ 54 }
    requires narrow { IsNarrow nearest }
    ensures { (f : Format) (r : Ratio) → IsLimit f limit → IsFraction r (combined opposite (amount a) (amount b)) 1
        → IsMagnitudeOf f (rounded f r) nearest → result ≡ accrued flags (rounding_flags f r) }
{
    if flags.nx && !is_sum_tiny(a, b, opposite, limit) {
        flags | overflow_if(nearest.is_none())
    } else {
        flags | sum_rounding(a, b, opposite, nearest, limit)
    }
}

fn is_sum_inexact(a: Scaled, b: Scaled, opposite: bool, nearest: Option<Scaled>) -> bool
    requires a_narrow { a.digits < 2 ^ 106 }
    requires b_narrow { b.digits < 2 ^ 106 }
    requires a_low { a.place < 2 ^ 15 }
    requires b_low { b.place < 2 ^ 15 }
    requires narrow { IsNarrow nearest }
    ensures { (f : Format) (r : Ratio) → IsFraction r (combined opposite (amount a) (amount b)) 1 → IsMagnitudeOf f (rounded f r) nearest
        → result ≡ is_inexact f r }
{
    match nearest {
        Some(z) => !is_sum(
            a,
            b,
            opposite,
            Scaled {
                digits: z.digits,
                place: z.place + 1074,
            },
        ),
        None => true,
    }
}

/// Whether a sum that is inexact is tiny. If both terms are multiples of the format's smallest value, one that is tiny is exact.
#[inline(always)]
fn is_sum_tiny(a: Scaled, b: Scaled, opposite: bool, limit: Scaled) -> bool
    requires a_narrow { a.digits < 2 ^ 106 }
    requires a_low { a.place < 2 ^ 15 }
    requires b_low { b.place < 2 ^ 15 }
    requires b_coarse { limit.place + 2 ≤ b.place }
    requires limit_narrow { limit.digits < 2 ^ 54 }
    ensures { (f : Format) (r : Ratio) → IsLimit f limit → IsFraction r (combined opposite (amount a) (amount b)) 1
        → (is_inexact f r && result) ≡ (is_tiny f r && is_inexact f r) }
{
    a.place < limit.place + 2 && sum_is_below(a, b, opposite, limit)
}

/// The flags if a quotient has been rounded to `nearest`, or is infinite.
pub(crate) fn quotient_rounding(
    x: Scaled,
    y: Scaled,
    nearest: Option<Scaled>,
    limit: Scaled,
) -> Flags
    requires x_narrow { x.digits < 2 ^ 53 }
    requires y_narrow { y.digits < 2 ^ 53 }
    requires x_low { x.place < 2 ^ 15 }
    requires y_low { y.place < 2 ^ 15 }
    requires limit_narrow { limit.digits < 2 ^ 54 }
    requires limit_low { limit.place < 2 ^ 15 }
    requires narrow { IsNarrow nearest }
    ensures { (f : Format) (r : Ratio) → IsLimit f limit → IsFraction r (x.digits * 2 ^ (x.place + 2148)) (amount y)
        → IsMagnitudeOf f (rounded f r) nearest → result ≡ rounding_flags f r }
{
    let dividend = Scaled {
        digits: x.digits,
        place: x.place + 2148,
    };
    let inexact = is_quotient_inexact(dividend, y, nearest);
    let underflow = inexact && is_quotient_below(dividend, y, limit);
    Flags {
        nv: false,
        dz: false,
        of: nearest.is_none(),
        uf: underflow,
        nx: inexact,
    }
}

fn is_quotient_inexact(dividend: Scaled, y: Scaled, nearest: Option<Scaled>) -> bool
    requires y_narrow { y.digits < 2 ^ 53 }
    requires y_low { y.place < 2 ^ 15 }
    requires narrow { IsNarrow nearest }
    ensures { (f : Format) (r : Ratio) → IsFraction r (amount dividend) (amount y) → IsMagnitudeOf f (rounded f r) nearest
        → result ≡ is_inexact f r }
{
    match nearest {
        Some(z) => !is_same(
            dividend,
            Scaled {
                digits: z.digits * y.digits,
                place: z.place + y.place + 1074,
            },
        ),
        None => true,
    }
}

fn is_quotient_below(dividend: Scaled, y: Scaled, limit: Scaled) -> bool
    requires narrow { dividend.digits < 2 ^ 53 }
    requires y_narrow { y.digits < 2 ^ 53 }
    requires y_low { y.place < 2 ^ 15 }
    requires limit_narrow { limit.digits < 2 ^ 54 }
    requires limit_low { limit.place < 2 ^ 15 }
    ensures { result ≡ nat_lt (amount dividend) (amount limit * amount y) }
{
    is_below(
        dividend,
        Scaled {
            digits: limit.digits * y.digits,
            place: limit.place + y.place,
        },
    )
}
