//! Conversions to singles. Those to doubles are exact.

ghost use Rattle.std.specs.Prelude.{◌≡◌, pos};
ghost use Rattle.rv_float_modes.specs.Operations as Operations;

use crate::rounded::Rounded;
use crate::rounding::{rounded_number, shape_of};
use rv_float_flags::{d_to_s_flags, magnitude_of};
use rv_floats::{Rounding, d_to_s, is_negative};

/// FCVT.S.D.
pub fn d_to_s_in(mode: Rounding, a: u64) -> Rounded
    ensures { result ≡ Operations.narrowed_in mode a }
{
    match magnitude_of(a) {
        Some(p) => {
            let p = p.raised();
            rounded_number(
                mode,
                is_negative(a),
                p.digits,
                p.place + 1948,
                shape_of::<u32>(),
            )
        }
        None => Rounded {
            bits: d_to_s(a) as u64,
            flags: d_to_s_flags(a),
        },
    }
}

/// FCVT.S.W.
pub fn word_to_s_in(mode: Rounding, word: i32) -> Rounded
    ensures { result ≡ Operations.word_in mode word }
{
    rounded_number(
        mode,
        word < 0,
        word.unsigned_abs() as u128,
        4096,
        shape_of::<u32>(),
    )
}

/// FCVT.S.WU.
pub fn word_unsigned_to_s_in(mode: Rounding, word: u32) -> Rounded
    ensures { result ≡ Operations.word_in mode (pos word) }
{
    rounded_number(mode, false, word as u128, 4096, shape_of::<u32>())
}
