//! The rounding of a magnitude, in each mode.

ghost use Rattle.std.specs.Prelude.{◌≡◌, ◌-◌, ◌^◌, ◌==◌, ◌%◌, ◌<◌, ◌≤◌, ◌&&◌, ◌||◌, false, not, nat_lt};
ghost use Rattle.rv_float_flags.specs.Exact.{Ratio};
ghost use Rattle.rv_float_modes.specs.Enclosed.{Encloses, IsCut, IsFormat, IsNumber, IsShape, IsWide};
ghost use Rattle.rv_float_modes.specs.Modes as Modes;
ghost use lib.Ieee.{Format};

use crate::magnitude::{Magnitude, exactly};
use crate::rounded::Rounded;
use rv_float_flags::Flags;
use rv_floats::{Pattern, Rounding};

/// A format, by its numbers.
#[derive(Clone, Copy)]
pub(crate) struct Shape {
    /// How many binary digits it keeps.
    pub(crate) digits: u32,
    /// The smallest positive value is 2^(lowest - 4096).
    pub(crate) lowest: u32,
    /// The weight of the exponent's field.
    pub(crate) hidden: u64,
    pub(crate) infinity: u64,
    pub(crate) sign: u64,
}

/// The format of the patterns.
#[inline(always)]
pub(crate) fn shape_of<P: Pattern>() -> Shape
    ensures shape { IsShape P.format result }
    ensures format { IsFormat result }
{
    Shape {
        digits: P::hidden().trailing_zeros() + 1,
        lowest: 4096 - P::low(),
        hidden: P::hidden(),
        infinity: P::top() - P::hidden(),
        sign: P::top(),
    }
}

/// A magnitude cut off: a pattern, and what is above its value.
#[derive(Clone, Copy)]
pub(crate) struct Cut {
    pub(crate) pattern: u64,
    /// At least half of what leads to the next pattern's value.
    pub(crate) half: bool,
    /// More than half, or more than nothing if it is less than half.
    pub(crate) more: bool,
}

impl Cut {
    /// Whether a mode takes the next pattern.
    fn goes_up(self, mode: Rounding, negative: bool) -> bool
        ensures { (f : Format) (r : Ratio) → IsCut f r self
            → result ≡ Modes.goes_up mode negative (Modes.truncated f r % 2 == 1) (Modes.rest f r) (Modes.step f r) }
    {
        match mode {
            Rounding::NearestEven => self.half && (self.more || self.pattern % 2 == 1),
            Rounding::TowardZero => false,
            Rounding::Down => negative && self.is_inexact(),
            Rounding::Up => !negative && self.is_inexact(),
            Rounding::NearestAway => self.half,
        }
    }

    fn is_inexact(self) -> bool
        ensures { result ≡ (self.half || self.more) }
    {
        self.half || self.more
    }
}

/// Cuts a magnitude off where the format's digits end.
fn cut_off(exact: Magnitude, shape: Shape) -> Cut
    requires wide { IsWide exact }
    requires low { exact.place < 6500 }
    requires format { IsFormat shape }
    ensures narrow { result.pattern < 2 ^ 64 - 1 }
    ensures cut { (f : Format) (r : Ratio) → IsShape f shape → Encloses r exact → IsCut f r result }
{
    let size = 128 - exact.digits.leading_zeros();
    let dropped = (size + exact.place).saturating_sub(shape.digits + shape.lowest);
    let below = (dropped + shape.lowest - exact.place - 1).min(127);
    let halves = exact.digits >> below;
    Cut {
        pattern: dropped as u64 * shape.hidden + (halves / 2) as u64,
        half: halves % 2 == 1,
        more: has_rest(exact, below),
    }
}

/// Whether anything is left below a digit.
fn has_rest(exact: Magnitude, below: u32) -> bool
    requires { below < 128 }
    ensures { result ≡ (exact.goes_on || not (exact.digits % 2 ^ below == 0)) }
{
    exact.goes_on || exact.digits % (1 << below) != 0
}

/// What a magnitude is rounded to, with an exponent that has no upper bound, and whether that is another.
fn unbounded(mode: Rounding, negative: bool, exact: Magnitude, shape: Shape) -> (u64, bool)
    requires wide { IsWide exact }
    requires low { exact.place < 6500 }
    requires format { IsFormat shape }
    ensures { (f : Format) (r : Ratio) → IsShape f shape → Encloses r exact
        → (result.0 ≡ Modes.unbounded mode negative f r) × (result.1 ≡ nat_lt 0 (Modes.rest f r)) }
{
    let cut = cut_off(exact, shape);
    let pattern = if cut.goes_up(mode, negative) {
        cut.pattern + 1
    } else {
        cut.pattern
    };
    (pattern, cut.is_inexact())
}

/// The pattern, or what stands for one that is past the largest finite value.
fn bounded(mode: Rounding, negative: bool, pattern: u64, shape: Shape) -> u64
    requires format { IsFormat shape }
    ensures value { (f : Format) → IsShape f shape → result ≡ Modes.bounded mode negative f pattern }
    ensures narrow { result ≤ shape.infinity }
{
    if pattern < shape.infinity {
        pattern
    } else if goes_to_infinity(mode, negative) {
        shape.infinity
    } else {
        shape.infinity - 1
    }
}

fn goes_to_infinity(mode: Rounding, negative: bool) -> bool
    ensures { result ≡ Modes.goes_to_infinity mode negative }
{
    match mode {
        Rounding::NearestEven | Rounding::NearestAway => true,
        Rounding::TowardZero => false,
        Rounding::Down => negative,
        Rounding::Up => !negative,
    }
}

/// A pattern with a sign.
fn with_sign(negative: bool, pattern: u64, shape: Shape) -> u64
    requires narrow { pattern ≤ shape.infinity }
    requires format { IsFormat shape }
    ensures { (f : Format) → IsShape f shape → result ≡ Modes.with_sign f negative pattern }
{
    if negative {
        shape.sign + pattern
    } else {
        pattern
    }
}

/// The flags of a rounding.
fn rounding_flags(inexact: bool, overflow: bool, tiny: bool) -> Flags
    ensures { result ≡ record { nv = false; dz = false; of = overflow; uf = tiny && (inexact || overflow); nx = inexact || overflow } }
{
    let nx = inexact || overflow;
    Flags {
        nv: false,
        dz: false,
        of: overflow,
        uf: tiny && nx,
        nx,
    }
}

/// A result and its flags, by its sign and magnitude.
pub(crate) fn rounded(mode: Rounding, negative: bool, exact: Magnitude, shape: Shape) -> Rounded
    requires wide { IsWide exact }
    requires low { exact.place < 6499 }
    requires format { IsFormat shape }
    ensures { (f : Format) (r : Ratio) → IsShape f shape → Encloses r exact → result ≡ Modes.rounding_in mode negative f r }
{
    let (pattern, inexact) = unbounded(mode, negative, exact, shape);
    let twice = Magnitude {
        digits: exact.digits,
        place: exact.place + 1,
        goes_on: exact.goes_on,
    };
    let tiny = unbounded(mode, negative, twice, shape).0 < 2 * shape.hidden;
    Rounded {
        bits: with_sign(negative, bounded(mode, negative, pattern, shape), shape),
        flags: rounding_flags(inexact, shape.infinity <= pattern, tiny),
    }
}

/// The same of `digits * 2^(place - 4096)`.
pub(crate) fn rounded_number(
    mode: Rounding,
    negative: bool,
    digits: u128,
    place: u32,
    shape: Shape,
) -> Rounded
    requires narrow { digits < 2 ^ 127 }
    requires high { 128 ≤ place }
    requires low { place < 6499 }
    requires format { IsFormat shape }
    ensures { (f : Format) (r : Ratio) → IsShape f shape → IsNumber r digits place → result ≡ Modes.rounding_in mode negative f r }
{
    if digits == 0 {
        Rounded {
            bits: with_sign(negative, 0, shape),
            flags: Flags::none(),
        }
    } else {
        rounded(mode, negative, exactly(digits, place), shape)
    }
}
