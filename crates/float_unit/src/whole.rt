//! Conversions of floats to integers, toward zero, for values in range. Nothing here asks the host to convert a float.

ghost use Rattle.std.specs.Prelude.{◌≡◌, ℕ, ◌+◌, ◌*◌, ◌%◌, ◌^◌, ◌<◌, ◌≤◌, true, false, IsTrue, IfSome, is_some, ◌&&◌, ◌||◌};
ghost use Rattle.rv_floats.specs.declared.rounding.Rounding.TheVariants.{TowardZero};
ghost use Rattle.rv_float_flags.specs.Flags.{accrued};
ghost use Rattle.rv_float_tables.specs.declared.instr.WordKind.TheVariants.{Signed, Unsigned};
ghost use Rattle.float_unit.specs.NoNewFlags as NoNewFlags;
ghost use Rattle.float_unit.specs.Values as Values;
ghost use Rattle.float_unit.specs.Whole.{IsCut, pattern};
ghost use lib.Ieee.{of_bits, prec};
ghost use lib.Ieee.Positive.{den, num};

use crate::width::{Width, digits, exponent};
use rv_float_flags::Flags;
use rv_float_tables::WordKind;

/// FCVT.W or FCVT.WU toward zero, if it raises no new flags, and the operand is in range.
#[inline(always)]
pub fn to_word_without_new_flags<W: Width>(kind: WordKind, flags: Flags, a: W) -> Option<u32>
    ensures when { is_some result ≡ NoNewFlags.pattern_to_word_raises_no_new_flags kind W.format flags (W.bits a) }
    ensures value { IfSome result (λ z. z ≡ Values.word kind TowardZero W.format (W.bits a)) }
    ensures flags { IfSome result (λ z. accrued flags (Values.flags_of_word kind TowardZero W.format (W.bits a)) ≡ flags) }
{
    if raises_no_new_flags(kind, flags, a) {
        Some(signed(W::top() <= a.to_u64(), whole_part(a)))
    } else {
        None
    }
}

/// Whether it is in range, and exact or beside NX.
// For speed: what tests a flag and answers `true` is one jump, where `||` would answer the flag, which is tested once more.
#[inline(always)]
fn raises_no_new_flags<W: Width>(kind: WordKind, flags: Flags, a: W) -> bool
    ensures { result ≡ NoNewFlags.pattern_to_word_raises_no_new_flags kind W.format flags (W.bits a) }
{
    if !is_in_range(kind, a) {
        return false;
    }
    if flags.nx {
        return true;
    }
    is_whole(a)
}

/// A word by its sign and size.
#[inline(always)]
fn signed(negative: bool, size: u32) -> u32
    ensures { result ≡ pattern negative size }
{
    if negative {
        0u32.wrapping_sub(size)
    } else {
        size
    }
}

#[inline(always)]
fn is_in_range<W: Width>(kind: WordKind, a: W) -> bool
    ensures { result ≡ NoNewFlags.is_in_range kind W.format (W.bits a) }
{
    match kind {
        WordKind::Signed => a.to_u64() % W::top() < W::limit(kind) * W::hidden(),
        WordKind::Unsigned => a.to_u64() < W::limit(kind) * W::hidden(),
    }
}

/// Whether what is below 2^32 has no fraction.
#[inline(always)]
fn is_whole<W: Width>(a: W) -> bool
    requires { NoNewFlags.exponent W.format (W.bits a) < NoNewFlags.limit Unsigned W.format }
    ensures { result ≡ NoNewFlags.is_whole W.format (W.bits a) }
{
    let exponent = exponent(a);
    if exponent < W::bias() {
        a.to_u64() % W::top() == 0
    } else {
        digits(a) % (1 << (W::low() + 1 - exponent as u32)) == 0
    }
}

/// The whole part of the size of what is below 2^32.
#[inline(always)]
fn whole_part<W: Width>(a: W) -> u32
    requires { NoNewFlags.exponent W.format (W.bits a) < NoNewFlags.limit Unsigned W.format }
    ensures cut { IsCut (of_bits W.format (W.bits a)) result }
    ensures whole { NoNewFlags.is_whole W.format (W.bits a) ≡ true
        → result * den (of_bits W.format (W.bits a)) ≡ num (of_bits W.format (W.bits a)) }
    ensures narrow { result < 2 ^ 32 }
    ensures below { NoNewFlags.exponent W.format (W.bits a) < NoNewFlags.limit Signed W.format → result < 2 ^ 31 }
    ensures short { result ≤ 2 ^ prec W.format }
{
    let exponent = exponent(a);
    if exponent < W::bias() {
        0
    } else {
        // The digits stand at the upper end of the word, where the exponent was, so that a host need not clear that first.
        (digits(a) * (0x8000_0000_0000_0000 / W::hidden()) >> (W::bias() + 63 - exponent)) as u32
    }
}
