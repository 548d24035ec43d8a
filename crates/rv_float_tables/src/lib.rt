//! The instructions of F and D, and those of Zicsr on the registers of floating point: their rows, words, names and registers; and the
//! compressed loads and stores, which expand to them.
//!
//! This crate has for floating point what `rv_tables` has for integers. A code without an instruction there may have one here, and no code
//! has one in both.
//!
//! A row of the listings fixes some bits of a word, and the other bits are the operands of its form. Two of these fields have values that
//! are of no instruction: the rounding modes 5 and 6, which are reserved, and the number of each control and status register but
//! `fflags`, `frm` and `fcsr`.
//!
//! What callers may rely on:
//!
//! - [`rows`] is the table, in a fixed order, and its rows are pairwise disjoint.
//! - [`decode`] answers the instruction of a word, and none for a word of no row or with a field at such a value. Each operand that it
//!   answers fits its field: registers are below 32.
//! - [`encode`] goes back: it answers the one word of each instruction whose operands fit.
//! - [`decode16`] answers the instruction that a halfword expands to, and none for a halfword of no compressed row of these. What it
//!   answers is an instruction that `encode` takes.
//! - [`decode_code`] takes either: `rv_tables` knows which one it is.
//! - [`mnemonic`], [`rounding_name`], [`csr_name`] and [`float_reg_name`] know the names of the manual; [`rounding_named`], [`csr_named`]
//!   and [`float_reg_number`] know what has a name.
//! - [`listing`] is the list of the rows, [`FLOAT_ROW_COUNT`] of them, for tables of other crates.
//! - [`laws`] has what holds of all codes: each spells at most one instruction, which is the one that is decoded; and each that has
//!   one has none of whole numbers.
//!
//! Source: The RISC-V Instruction Set Manual, Volume I: Unprivileged ISA, 20191213, chapters 9, 11 and 12, the listings of chapter 24 and
//! the names of chapter 25, and chapter 16 for compressed instructions.
#![tactic(auto)]

mod code;
mod compressed;
mod decoder;
mod encoder;
mod fields;
mod halfword;
mod instr;
pub mod laws;
mod mnemonics;
mod registers;
mod table;
mod words;

pub use code::decode_code;
pub use compressed::decode16;
pub use decoder::decode;
pub use encoder::encode;
pub use instr::{
    ArithmeticOp, CompareOp, CsrOp, FloatCsr, FloatForm, FloatInstr, Format, FusedOp, MinMaxOp,
    RoundingField, SignOp, WordKind,
};
pub use mnemonics::{csr_name, csr_named, mnemonic, rounding_name, rounding_named};
pub use registers::{float_reg_name, float_reg_number};
pub use table::{FLOAT_ROW_COUNT, rows};
