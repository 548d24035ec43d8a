//! Operations on finite operands, of either format.

ghost use Rattle.std.specs.Prelude.{◌≡◌, ◌+◌, ◌*◌, ◌-◌, ◌^◌, ◌<◌, ◌≤◌, IfSome, false};
ghost use Rattle.rv_float_flags.specs.Exact.{combined, exact_product, exact_quotient, Ratio};
ghost use Rattle.rv_float_flags.specs.Scaled.{amount, IsFraction, IsMagnitude, IsMagnitudeOf, IsNarrow};
ghost use Rattle.rv_float_modes.specs.Enclosed.{Encloses, IsNonzeroOf, IsFormat, IsShape, IsWide};
ghost use Rattle.rv_float_modes.specs.Modes.{rounding_in};
ghost use Rattle.rv_float_modes.specs.Operations as Operations;
ghost use Rattle.rv_float_modes.specs.Operations.{exact_root};
ghost use lib.Ieee.{Float, Format, unlike};
ghost use lib.Ieee.Positive.{num};

use crate::magnitude::{Magnitude, exactly};
use crate::rounded::Rounded;
use crate::rounding::{Shape, rounded, rounded_number};
use rv_float_flags::{Scaled, cut_at, is_below, times_power};
use rv_floats::Rounding;

/// A finite value.
#[derive(Clone, Copy)]
pub(crate) struct Term {
    pub(crate) negative: bool,
    pub(crate) size: Scaled,
}

/// A product.
pub(crate) fn product(mode: Rounding, negative: bool, p: Scaled, q: Scaled, shape: Shape) -> Rounded
    requires p_narrow { p.digits < 2 ^ 53 }
    requires q_narrow { q.digits < 2 ^ 53 }
    requires p_low { p.place < 2046 }
    requires q_low { q.place < 2046 }
    requires format { IsFormat shape }
    ensures { (f : Format) (x y : Float) → IsShape f shape → IsMagnitude f x p → IsMagnitude f y q
        → result ≡ rounding_in mode negative f (exact_product x y) }
{
    let product = p.times(q);
    rounded_number(mode, negative, product.digits, product.place + 1948, shape)
}

/// The magnitude of what is finite, if it is not zero.
pub(crate) fn nonzero(q: Option<Scaled>) -> Option<Scaled>
    requires narrow { IsNarrow q }
    ensures value { (f : Format) (y : Float) → IsMagnitudeOf f y q → IsNonzeroOf f y result }
    ensures narrow { IsNarrow result }
    ensures nonzero { IfSome result (λ q. 0 < q.digits) }
{
    match q {
        Some(q) => if q.digits == 0 { None } else { Some(q) },
        None => None,
    }
}

/// A quotient.
pub(crate) fn quotient(
    mode: Rounding,
    negative: bool,
    p: Scaled,
    q: Scaled,
    shape: Shape,
) -> Rounded
    requires p_narrow { p.digits < 2 ^ 53 }
    requires q_narrow { q.digits < 2 ^ 53 }
    requires p_low { p.place < 2046 }
    requires q_low { q.place < 2046 }
    requires nonzero { 0 < q.digits }
    requires format { IsFormat shape }
    ensures { (f : Format) (x y : Float) → IsShape f shape → IsMagnitude f x p → IsMagnitude f y q → 0 < num y
        → result ≡ rounding_in mode negative f (exact_quotient x y) }
{
    if p.digits == 0 {
        rounded_number(mode, negative, 0, 128, shape)
    } else {
        rounded(mode, negative, divided(p, q), shape)
    }
}

fn divided(p: Scaled, q: Scaled) -> Magnitude
    requires p_nonzero { 0 < p.digits }
    requires p_narrow { p.digits < 2 ^ 53 }
    requires q_narrow { q.digits < 2 ^ 53 }
    requires p_low { p.place < 2046 }
    requires q_low { q.place < 2046 }
    requires nonzero { 0 < q.digits }
    ensures wide { IsWide result }
    ensures low { result.place < 6499 }
    ensures quotient { (r : Ratio) → IsFraction r (p.digits * 2 ^ (p.place + 2148)) (amount q) → Encloses r result }
{
    let dividend = exactly(p.digits, p.place + 4096);
    Magnitude {
        digits: dividend.digits / q.digits,
        place: dividend.place - q.place,
        goes_on: dividend.digits % q.digits != 0,
    }
}

/// The root of what is above zero.
pub(crate) fn root(mode: Rounding, p: Scaled, shape: Shape) -> Rounded
    requires nonzero { 0 < p.digits }
    requires narrow { p.digits < 2 ^ 53 }
    requires low { p.place < 2046 }
    requires format { IsFormat shape }
    ensures { (f : Format) (x : Float) → IsShape f shape → IsMagnitude f x p → result ≡ rounding_in mode false f (exact_root x) }
{
    rounded(mode, false, rooted(p), shape)
}

/// As many digits as have an even place are taken into the whole number whose root is looked for.
fn rooted(p: Scaled) -> Magnitude
    requires nonzero { 0 < p.digits }
    requires narrow { p.digits < 2 ^ 53 }
    requires low { p.place < 2046 }
    ensures wide { IsWide result }
    ensures low { result.place < 6499 }
    ensures root { (f : Format) (x : Float) → IsMagnitude f x p → Encloses (exact_root x) result }
{
    let zeros = p.digits.leading_zeros();
    let shift = zeros - (p.place + zeros) % 2;
    let digits = p.digits << shift;
    let root = digits.isqrt();
    Magnitude {
        digits: root,
        place: (p.place + 7118 - shift) / 2,
        goes_on: root * root != digits,
    }
}

/// The sum of two multiples of 2^-2148.
pub(crate) fn sum(mode: Rounding, a: Term, b: Term, shape: Shape) -> Rounded
    requires a_narrow { a.size.digits < 2 ^ 106 }
    requires b_narrow { b.size.digits < 2 ^ 106 }
    requires a_low { a.size.place < 4200 }
    requires b_low { b.size.place < 4200 }
    requires format { IsFormat shape }
    ensures { (f : Format) (r : Ratio) → IsShape f shape
        → IsFraction r (combined (unlike a.negative b.negative) (amount a.size) (amount b.size)) 1
        → result ≡ rounding_in mode (Operations.sign_of_sum mode a.negative b.negative (amount a.size) (amount b.size)) f r }
{
    let negative = is_sum_negative(mode, a, b);
    let opposite = a.negative != b.negative;
    if a.size.place <= b.size.place {
        aligned_sum(mode, negative, a.size, b.size, opposite, shape)
    } else {
        aligned_sum(mode, negative, b.size, a.size, opposite, shape)
    }
}

fn is_sum_negative(mode: Rounding, a: Term, b: Term) -> bool
    requires a_narrow { a.size.digits < 2 ^ 106 }
    requires b_narrow { b.size.digits < 2 ^ 106 }
    ensures { result ≡ Operations.sign_of_sum mode a.negative b.negative (amount a.size) (amount b.size) }
{
    if a.negative == b.negative {
        a.negative
    } else if is_below(a.size, b.size) {
        b.negative
    } else if is_below(b.size, a.size) {
        a.negative
    } else {
        is_down(mode)
    }
}

fn is_down(mode: Rounding) -> bool
    ensures { result ≡ Operations.is_down mode }
{
    match mode {
        Rounding::Down => true,
        Rounding::NearestEven | Rounding::TowardZero | Rounding::Up | Rounding::NearestAway =>
            false,
    }
}

/// A sum of magnitudes, or their difference if they are `opposite`, rounded with a sign.
fn aligned_sum(
    mode: Rounding,
    negative: bool,
    low: Scaled,
    high: Scaled,
    opposite: bool,
    shape: Shape,
) -> Rounded
    requires ordered { low.place ≤ high.place }
    requires low_narrow { low.digits < 2 ^ 106 }
    requires high_narrow { high.digits < 2 ^ 106 }
    requires high_low { high.place < 4200 }
    requires format { IsFormat shape }
    ensures { (f : Format) (r : Ratio) → IsShape f shape → IsFraction r (combined opposite (amount low) (amount high)) 1
        → result ≡ rounding_in mode negative f r }
{
    match times_power(high.digits, high.place - low.place) {
        Some(digits) => {
            let sum = sum_of(low.digits, digits, opposite);
            rounded_number(mode, negative, sum, low.place + 1948, shape)
        }
        None => rounded(mode, negative, far_sum(low, high, opposite), shape),
    }
}

fn sum_of(a: u128, b: u128, opposite: bool) -> u128
    requires a_narrow { a < 2 ^ 120 }
    requires b_narrow { b < 2 ^ 120 }
    ensures sum { result ≡ combined opposite a b }
    ensures narrow { result < 2 ^ 121 }
{
    if opposite { a.abs_diff(b) } else { a + b }
}

/// The sum if the higher of the two is much larger: of the lower one, what is below the 120 digits of the higher one is a rest.
fn far_sum(low: Scaled, high: Scaled, opposite: bool) -> Magnitude
    requires ordered { low.place ≤ high.place }
    requires low_narrow { low.digits < 2 ^ 106 }
    requires high_narrow { high.digits < 2 ^ 106 }
    requires high_low { high.place < 4200 }
    requires far { 2 ^ 120 ≤ high.digits * 2 ^ (high.place - low.place) }
    ensures wide { IsWide result }
    ensures low { result.place < 6499 }
    ensures sum { (r : Ratio) → IsFraction r (combined opposite (amount low) (amount high)) 1 → Encloses r result }
{
    let shift = high.digits.leading_zeros() - 8;
    let place = high.place - shift;
    let digits = high.digits << shift;
    let (whole, goes_on) = cut_at(low, place);
    let digits = if !opposite {
        digits + whole
    } else if goes_on {
        digits - whole - 1
    } else {
        digits - whole
    };
    Magnitude {
        digits,
        place: place + 1948,
        goes_on,
    }
}
