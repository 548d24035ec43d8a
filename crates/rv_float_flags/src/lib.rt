//! The exception flags of the RISC-V extensions F and D: which of NV, DZ, OF, UF and NX an operation raises, by its operands' patterns.
//!
//! The flags of a finite result follow from the exact one, which is a fraction (`specs/Exact.antt`): NX if the rounded result differs from
//! it, OF if the rounded result exceeds the largest finite value, UF if it is inexact and, rounded with an unbounded exponent, below the
//! smallest normal value (tininess after rounding). NV and DZ follow from the operands. The values themselves are `rv_floats`'s.
//!
//! What callers may rely on:
//!
//! - [`add_flags`] to [`negated_multiply_add_flags`] are the flags of these operations to the nearest, ties to even.
//! - [`accrued_add_flags`] to [`accrued_div_flags`] are the first four with flags that are there already.
//! - [`add_without_new_flags`] to [`sqrt_without_new_flags`] are the values of these operations if they raise no new flags and a few
//!   comparisons can show it.
//! - [`quiet_flags`] are those of FEQ, FMIN and FMAX, [`ordered_flags`] those of FLT and FLE.
//! - [`to_word_flags`] and its kin are those of conversions. Sign injection, classes, moves and words to doubles raise nothing.
//! - [`Flags`] accrue by `|`: what is set stays. Their word is that of fflags.
//! - [`magnitude_of`] is the digits and the place of a finite value; [`times_power`], [`cut_at`] and [`is_below`] are
//!   for numbers of such digits and places.
//! - [`laws`] has what holds of all results: tininess is a comparison, and a sum that is tiny is exact.
//!
//! No exact result is computed. Digits and places of the operands are compared with those of the result (`src/scaled.rt`), in numbers of
//! 128 bits.
//!
//! Source: The RISC-V Instruction Set Manual, Volume I: Unprivileged ISA, 20191213, chapters 11 and 12; IEEE 754-2008, clause 7.
#![tactic(auto)]

mod accrued;
mod arithmetic;
mod compare;
mod convert;
mod flags;
pub mod laws;
mod magnitude;
mod no_new_flags;
mod no_new_flags_double;
mod no_new_flags_single;
mod rounding;
mod scaled;

pub use accrued::{accrued_add_flags, accrued_div_flags, accrued_mul_flags, accrued_sub_flags};
pub use arithmetic::{
    add_flags, div_flags, mul_flags, multiply_add_flags, multiply_subtract_flags,
    negated_multiply_add_flags, negated_multiply_subtract_flags, sqrt_flags, sub_flags,
};
pub use compare::{ordered_flags, quiet_flags};
pub use convert::{
    d_to_s_flags, s_to_d_flags, to_unsigned_word_flags, to_word_flags, word_to_s_flags,
    word_unsigned_to_s_flags,
};
pub use flags::Flags;
pub use magnitude::magnitude_of;
pub use no_new_flags::{
    Quick, add_without_new_flags, div_without_new_flags, mul_without_new_flags,
    sqrt_without_new_flags, sub_without_new_flags,
};
pub use scaled::{Scaled, cut_at, is_below, times_power};
