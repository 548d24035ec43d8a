//! The flags of conversions.

ghost use Rattle.std.specs.Prelude.{◌≡◌, not, pos, if◌then◌else◌};
ghost use Rattle.rv_float_flags.specs.Conversions as Conversions;
ghost use Rattle.rv_float_flags.specs.Conversions.{exact_word, is_signed_word, is_unsigned_word, word_flags};
ghost use Rattle.rv_float_flags.specs.Flags as Defined;
ghost use Rattle.rv_float_flags.specs.Flags.{rounding_flags};
ghost use lib.Ieee.{binary32, of_bits};

use crate::flags::{Flags, INVALID, NONE, inexact_if, invalid_if};
use crate::magnitude::magnitude_of;
use crate::rounding::{limit, sum_rounding};
use crate::scaled::{Scaled, ZERO};
use rv_floats::{Pattern, Rounding, d_to_s, is_at_most, is_equal, is_less, is_signaling};

/// FCVT.W.
pub fn to_word_flags<P: Pattern>(a: P, mode: Rounding) -> Flags
    ensures { result ≡ word_flags is_signed_word mode P.format (of_bits P.format (P.bits a)) }
{
    let whole = a.rounded_whole(mode);
    flags_of_word(is_signed_word(whole), is_equal(whole, a))
}

/// FCVT.WU.
pub fn to_unsigned_word_flags<P: Pattern>(a: P, mode: Rounding) -> Flags
    ensures { result ≡ word_flags is_unsigned_word mode P.format (of_bits P.format (P.bits a)) }
{
    let whole = a.rounded_whole(mode);
    flags_of_word(is_unsigned_word(whole), is_equal(whole, a))
}

/// FCVT.S.W.
pub fn word_to_s_flags(word: i32) -> Flags
    ensures { result ≡ rounding_flags binary32 (exact_word word) }
{
    let exact = Scaled {
        digits: word.unsigned_abs() as u128,
        place: 2148,
    };
    sum_rounding(
        exact,
        ZERO,
        false,
        magnitude_of(u32::of_word(word)),
        limit::<u32>(),
    )
}

/// FCVT.S.WU.
pub fn word_unsigned_to_s_flags(word: u32) -> Flags
    ensures { result ≡ rounding_flags binary32 (exact_word (pos word)) }
{
    let exact = Scaled {
        digits: word as u128,
        place: 2148,
    };
    sum_rounding(
        exact,
        ZERO,
        false,
        magnitude_of(u32::of_unsigned_word(word)),
        limit::<u32>(),
    )
}

/// FCVT.S.D.
pub fn d_to_s_flags(a: u64) -> Flags
    ensures { result ≡ Conversions.narrowing_flags a }
{
    if is_signaling(a) {
        return INVALID;
    }
    match magnitude_of(a) {
        Some(p) => sum_rounding(
            p.raised(),
            ZERO,
            false,
            magnitude_of(d_to_s(a)),
            limit::<u32>(),
        ),
        None => NONE,
    }
}

/// FCVT.D.S.
#[inline]
pub fn s_to_d_flags(a: u32) -> Flags
    ensures { result ≡ Conversions.widening_flags a }
{
    invalid_if(is_signaling(a))
}

fn flags_of_word(is_word: bool, is_whole: bool) -> Flags
    ensures { result ≡ (if is_word then Defined.inexact_if (not is_whole) else Defined.invalid) }
{
    if is_word {
        inexact_if(!is_whole)
    } else {
        INVALID
    }
}

fn is_signed_word<P: Pattern>(a: P) -> bool
    ensures { result ≡ is_signed_word (of_bits P.format (P.bits a)) }
{
    is_at_most(P::of_word(i32::MIN), a) && is_less(a, P::of_unsigned_word(0x8000_0000))
}

fn is_unsigned_word<P: Pattern>(a: P) -> bool
    ensures { result ≡ is_unsigned_word (of_bits P.format (P.bits a)) }
{
    let half = P::of_unsigned_word(0x8000_0000);
    is_less(P::of_word(-1), a) && is_less(a, half.add(half))
}
