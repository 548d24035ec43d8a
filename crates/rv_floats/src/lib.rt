//! The arithmetic of the RISC-V extensions F and D, on bit patterns: a double is a `u64`, a single a `u32`.
//!
//! A pattern means a value of IEEE 754 (`lib.Ieee.of_bits`), and a value has a pattern (`to_bits`); that of a NaN is the canonical one. So
//! each operation is one line: the pattern of what the standard's operation gives for the patterns' values. Nothing here allocates, and
//! every pattern has an answer.
//!
//! [`Pattern`] is the trait of both types. It has what the host does with a pattern, which `src/double.rt` and `src/single.rt` say for one
//! format each; all else is written, and proved, once for both.
//!
//! What callers may rely on:
//!
//! - [`Pattern::add`] to [`Pattern::multiply_add`], and [`multiply_subtract`] to [`negated_multiply_add`], round to the nearest, ties to
//!   even; a NaN that comes out is canonical, whatever went in. Those of numbers, as [`Pattern::add_numbers`], do not ask whether an
//!   operand is a NaN.
//! - [`minimum`], [`maximum`] and the comparisons treat -0 and +0 as the manual says: the former distinguish them, the latter do not.
//! - [`sign_injected`] and its kin, and [`class_mask`], are of the pattern, and see a NaN's sign and payload.
//! - [`to_word`] and [`to_unsigned_word`] round in the given mode ([`Rounding`]), and saturate at the ends of the range.
//! - [`boxed`] and [`unboxed`] put a single into a wide register and take it out.
//! - [`laws`] has what holds of all patterns: a NaN is written as the canonical one, and a boxed single comes out of its box.
//!
//! Source: The RISC-V Instruction Set Manual, Volume I: Unprivileged ISA, 20191213, chapters 11 and 12; IEEE 754-2008, as the library
//! `lib.Ieee` defines it.
#![tactic(auto)]

mod arithmetic;
mod class;
mod compare;
mod convert;
mod double;
pub mod laws;
mod pattern;
mod rounding;
mod sign;
mod single;

pub use arithmetic::{multiply_subtract, negated_multiply_add, negated_multiply_subtract};
pub use class::{class_mask, is_signaling};
pub use compare::{is_at_most, is_before, is_equal, is_less, is_negative, maximum, minimum};
pub use convert::{boxed, d_to_s, s_to_d, to_unsigned_word, to_word, unboxed};
pub use pattern::Pattern;
pub use rounding::Rounding;
pub use sign::{sign_injected, sign_negated, sign_xored};
