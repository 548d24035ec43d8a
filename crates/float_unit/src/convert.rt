//! Conversions into floating-point registers.

ghost use Rattle.std.specs.Prelude.{◌≡◌, ◌^◌, ◌<◌};
ghost use Rattle.float_unit.specs.Values as Values;
ghost use Rattle.rv_float_flags.specs.Conversions.{exact_word};
ghost use Rattle.rv_float_flags.specs.Flags.{rounding_flags};
ghost use Rattle.rv_float_modes.specs.Operations.{word_in};
ghost use Rattle.rv_float_tables.specs.declared.instr.Format.TheVariants.{Single};
ghost use lib.Ieee.{binary32};

use rv_float_flags::{Flags, d_to_s_flags, word_to_s_flags, word_unsigned_to_s_flags};
use rv_float_modes::{Rounded, d_to_s_in, word_to_s_in, word_unsigned_to_s_in};
use rv_float_tables::WordKind;
use rv_floats::{Pattern, Rounding, d_to_s};

/// FCVT.S.D.
pub fn double_to_single(mode: Rounding, a: u64) -> Rounded
    ensures value { result ≡ Values.converted_in Single mode a }
    ensures narrow { result.bits < 2 ^ 32 }
{
    match mode {
        Rounding::NearestEven => Rounded {
            bits: d_to_s(a) as u64,
            flags: d_to_s_flags(a),
        },
        _ => d_to_s_in(mode, a),
    }
}

/// FCVT.S.W, FCVT.S.WU.
pub fn word_to_single(kind: WordKind, mode: Rounding, x: u32) -> Rounded
    ensures value { result ≡ Values.from_word_in Single mode (Values.whole kind x) }
    ensures narrow { result.bits < 2 ^ 32 }
{
    match mode {
        Rounding::NearestEven => Rounded {
            bits: nearest::<u32>(kind, x) as u64,
            flags: nearest_single_flags(kind, x),
        },
        _ => word_otherwise(kind, mode, x),
    }
}

/// The same if the mode is another than to the nearest, ties to even.
fn word_otherwise(kind: WordKind, mode: Rounding, x: u32) -> Rounded
    ensures value { result ≡ word_in mode (Values.whole kind x) }
    ensures narrow { result.bits < 2 ^ 32 }
{
    match kind {
        WordKind::Signed => word_to_s_in(mode, x.cast_signed()),
        WordKind::Unsigned => word_unsigned_to_s_in(mode, x),
    }
}

/// FCVT of a word, to the nearest, ties to even. To doubles it is exact.
#[inline(always)]
pub fn nearest<P: Pattern>(kind: WordKind, x: u32) -> P
    ensures { P.bits result ≡ Values.from_word P.format (Values.whole kind x) }
{
    match kind {
        WordKind::Signed => P::of_word(x.cast_signed()),
        WordKind::Unsigned => P::of_unsigned_word(x),
    }
}

fn nearest_single_flags(kind: WordKind, x: u32) -> Flags
    ensures { result ≡ rounding_flags binary32 (exact_word (Values.whole kind x)) }
{
    match kind {
        WordKind::Signed => word_to_s_flags(x.cast_signed()),
        WordKind::Unsigned => word_unsigned_to_s_flags(x),
    }
}
