//! Laws of rounding. There is nothing to run: a caller calls one for what it ensures.

ghost use Rattle.std.specs.Prelude.{◌≡◌, ℕ, ℤ, ◌+◌, ◌*◌, ◌^◌, ◌<◌, ◌≤◌, false, to_bits};
ghost use Rattle.std.specs.Float.{round_to_format};
ghost use Rattle.rv_floats.specs.Fused as Fused;
ghost use Rattle.rv_floats.specs.declared.rounding.Rounding.TheVariants.{NearestEven};
ghost use Rattle.rv_float_flags.specs.Conversions.{exact_word, narrowing_flags};
ghost use Rattle.rv_float_flags.specs.Exact.{rounded, Ratio};
ghost use Rattle.rv_float_flags.specs.Flags.{rounding_flags};
ghost use Rattle.rv_float_flags.specs.Operations as Flags;
ghost use Rattle.rv_float_modes.specs.Modes.{rounded_in, rounding_flags_in, size_of, truncated};
ghost use Rattle.rv_float_modes.specs.Operations as Operations;
ghost use lib.Ieee.{Format, add, binary32, binary64, div, low, mul, of_bits, of_int, sqrt, sub};

/// To the nearest, ties to even, a magnitude is rounded as the library's `round` does it.
pub fn to_the_nearest_is_the_librarys()
    ensures { (f : Format) (r : Ratio) → rounded_in NearestEven false f r ≡ to_bits f (rounded f r) }
{}

/// To the nearest, ties to even, the flags are those of `rv_float_flags`.
pub fn to_the_nearest_the_flags_are_the_same()
    ensures { (f : Format) (r : Ratio) → 0 < r.denominator → rounding_flags_in NearestEven false f r ≡ rounding_flags f r }
{}

/// The value of the truncated pattern is not above the magnitude, and the next pattern's is.
pub fn the_truncated_pattern_is_the_largest()
    ensures { (f : Format) (r : Ratio) → 0 < r.denominator → (size_of f (truncated f r) * r.denominator ≤ r.numerator * 2 ^ low f)
        × (r.numerator * 2 ^ low f < size_of f (truncated f r + 1) * r.denominator) }
{}

/// To the nearest, ties to even, sums, products, quotients, square roots and conversions are the library's, with the flags of
/// `rv_float_flags`.
pub fn to_the_nearest_operations_are_the_librarys()
    ensures add { (f : Format) (a b : ℕ) → Operations.add_in NearestEven f a b
        ≡ record { bits = to_bits f (add f (of_bits f a) (of_bits f b)); flags = Flags.add_flags f a b } }
    ensures sub { (f : Format) (a b : ℕ) → Operations.sub_in NearestEven f a b
        ≡ record { bits = to_bits f (sub f (of_bits f a) (of_bits f b)); flags = Flags.sub_flags f a b } }
    ensures mul { (f : Format) (a b : ℕ) → Operations.mul_in NearestEven f a b
        ≡ record { bits = to_bits f (mul f (of_bits f a) (of_bits f b)); flags = Flags.mul_flags f a b } }
    ensures div { (f : Format) (a b : ℕ) → Operations.div_in NearestEven f a b
        ≡ record { bits = to_bits f (div f (of_bits f a) (of_bits f b)); flags = Flags.div_flags f a b } }
    ensures multiply_add { (f : Format) (a b c : ℕ) → Operations.multiply_add_in NearestEven f a b c
        ≡ record {
          bits = to_bits f (Fused.multiply_add f (of_bits f a) (of_bits f b) (of_bits f c));
          flags = Flags.multiply_add_flags f a b c;
        } }
    ensures multiply_subtract { (f : Format) (a b c : ℕ) → Operations.multiply_subtract_in NearestEven f a b c
        ≡ record {
          bits = to_bits f (Fused.multiply_subtract f (of_bits f a) (of_bits f b) (of_bits f c));
          flags = Flags.multiply_subtract_flags f a b c;
        } }
    ensures negated_multiply_subtract { (f : Format) (a b c : ℕ) → Operations.negated_multiply_subtract_in NearestEven f a b c
        ≡ record {
          bits = to_bits f (Fused.negated_multiply_subtract f (of_bits f a) (of_bits f b) (of_bits f c));
          flags = Flags.negated_multiply_subtract_flags f a b c;
        } }
    ensures negated_multiply_add { (f : Format) (a b c : ℕ) → Operations.negated_multiply_add_in NearestEven f a b c
        ≡ record {
          bits = to_bits f (Fused.negated_multiply_add f (of_bits f a) (of_bits f b) (of_bits f c));
          flags = Flags.negated_multiply_add_flags f a b c;
        } }
    ensures narrowed { (a : ℕ) → Operations.narrowed_in NearestEven a
        ≡ record { bits = to_bits binary32 (round_to_format binary32 (of_bits binary64 a)); flags = narrowing_flags a } }
    ensures word { (n : ℤ) → Operations.word_in NearestEven n
        ≡ record { bits = to_bits binary32 (of_int binary32 n); flags = rounding_flags binary32 (exact_word n) } }
    ensures root { (f : Format) (a : ℕ) → Operations.sqrt_in NearestEven f a
        ≡ record { bits = to_bits f (sqrt f (of_bits f a)); flags = Flags.sqrt_flags f a } }
{}
