//! Laws of the flags. There is nothing to run: a caller calls one for what it ensures.

ghost use Rattle.std.specs.Prelude.{◌≡◌, ℕ, ◌+◌, ◌-◌, ◌*◌, ◌^◌, ◌<◌, false, nat_lt, IsTrue};
ghost use Rattle.std.specs.Float.{float_is_finite};
ghost use Rattle.rv_float_flags.specs.Exact.{exact_sum, is_inexact, is_tiny, rounded_times, Ratio};
ghost use lib.Ieee.{Float, Format, fits, low, prec};

/// Tininess does not turn on how far a result is scaled up, and is a comparison: with 2^emin less a quarter of the smallest positive value.
pub fn tininess_is_a_comparison()
    ensures { (t : ℕ) (f : Format) (r : Ratio) → 0 < t → 0 < r.denominator
        → nat_lt (rounded_times t f r) (2 ^ (prec f - 1) * 2 ^ t)
        ≡ nat_lt (r.numerator * 2 ^ (low f) * 4) ((2 * 2 ^ (prec f) - 1) * r.denominator) }
{}

/// A sum of two values of the format that is tiny is exact, so that no addition underflows.
pub fn a_tiny_sum_is_exact()
    ensures { (f : Format) (x y : Float) → IsTrue (fits f x) → IsTrue (fits f y) → IsTrue (float_is_finite x) → IsTrue (float_is_finite y)
        → IsTrue (is_tiny f (exact_sum x y)) → is_inexact f (exact_sum x y) ≡ false }
{}
