//! Arithmetic of the RISC-V extensions F and D in the rounding modes: the patterns of the results, and their flags.
//!
//! An exact result is a fraction, whose magnitude is truncated to a pattern and then goes up to the next one or does not, by mode, sign and
//! what was cut off (`specs/Modes.antt`). What is not finite is `rv_floats`' and `rv_float_flags`', in each mode.
//!
//! What callers may rely on:
//!
//! - [`add_in`] to [`negated_multiply_add_in`] are these operations in a mode, with the flags that they raise.
//! - [`d_to_s_in`], [`word_to_s_in`] and [`word_unsigned_to_s_in`] are the conversions to singles; those to doubles are exact.
//! - [`laws`] has what holds of all roundings: the truncated pattern is not above and the next one is, and to the nearest, ties to
//!   even, this is the library's rounding, with the flags of `rv_float_flags`, and so is each operation.
//!
//! If the operands are finite, no floating-point operation of the host is used: the digits of the exact result, in numbers of 128 bits, are
//! cut off where the format's end (`src/rounding.rt`).
//!
//! Source: The RISC-V Instruction Set Manual, Volume I: Unprivileged ISA, 20191213, chapters 11 and 12; IEEE 754-2008, clauses 4 and 7.
#![tactic(auto)]

mod arithmetic;
mod convert;
mod finite;
pub mod laws;
mod magnitude;
mod rounded;
mod rounding;

pub use arithmetic::{
    add_in, div_in, mul_in, multiply_add_in, multiply_subtract_in, negated_multiply_add_in,
    negated_multiply_subtract_in, sqrt_in, sub_in,
};
pub use convert::{d_to_s_in, word_to_s_in, word_unsigned_to_s_in};
pub use rounded::Rounded;
