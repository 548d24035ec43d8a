//! Laws of patterns. There is nothing to run: a caller calls one for what it ensures.

ghost use Rattle.std.specs.Prelude.{◌≡◌, ℕ, ◌^◌, ◌<◌, to_bits};
ghost use Rattle.rv_floats.specs.Conversions.{boxed, unboxed};
ghost use Rattle.rv_floats.specs.Nan.{canonical_nan};
ghost use lib.Ieee.{Format, nan};

/// A NaN is written as the canonical one.
pub fn a_nan_is_canonical()
    ensures { (f : Format) → to_bits f nan ≡ canonical_nan f }
{}

/// What is boxed comes out of the box.
pub fn a_boxed_single_is_unboxed()
    ensures { (a : ℕ) → a < 2 ^ 32 → unboxed (boxed a) ≡ a }
{}
