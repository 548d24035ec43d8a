//! The instructions of A on words: their rows, words and names, and what the atomic memory operations compute.
//!
//! This crate has for them what `rv_tables` and `rv_values` have for integer instructions. A code without an instruction there may have one
//! here, and no code has one in both.
//!
//! A row of the listing fixes some bits of a word. The other bits are `aq` and `rl`, and the registers.
//!
//! What callers may rely on:
//!
//! - [`rows`] is the table, in a fixed order, and its rows are pairwise disjoint.
//! - [`decode`] answers the instruction of a word, and none for a word of no row. Each register that it answers is below 32.
//!   [`decode_code`] takes a halfword or a word: no halfword has one of these instructions.
//! - [`encode`] goes back: it answers the one word of each instruction whose registers are below 32.
//! - [`row_name`] followed by [`order_suffix`] is the mnemonic of an instruction, as `lr.w.aq`, and [`atomic_named`] knows which
//!   instruction has a mnemonic.
//! - [`amo_value`] is what an atomic memory operation stores, of the word that it has loaded and of the value in `rs2`, both numbers from
//!   0 to 2^32 - 1.
//! - A [`Reservation`] is what LR registers for SC. What the instructions do to it, to registers and memory, is for `node_core` to say.
//! - [`laws`] has what holds of all codes: each spells at most one instruction, which is the one that is decoded; and each that has
//!   one has none of whole numbers or of floating point.
//! - [`Extensions`] says which extensions a text or a listing knows: A here, and those of floating point in `rv_float_tables`.
//!
//! Source: The RISC-V Instruction Set Manual, Volume I: Unprivileged ISA, 20191213, chapter 8 and the listing of chapter 24.
#![tactic(auto)]

mod code;
mod decoder;
mod encoder;
mod extensions;
mod fields;
mod instr;
pub mod laws;
mod mnemonics;
mod reservation;
mod table;
mod values;

pub use code::decode_code;
pub use decoder::decode;
pub use encoder::encode;
pub use extensions::Extensions;
pub use instr::{AmoOp, AtomicForm, AtomicInstr, Order};
pub use mnemonics::{atomic_named, order_suffix, ordering_of, row_name};
pub use reservation::Reservation;
pub use table::rows;
pub use values::amo_value;
