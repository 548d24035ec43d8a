//! The instructions of RV32I, Zifencei and M: their rows, words, names and registers; and those of RV32C, which expand to them.
//!
//! A row of the listings fixes some bits of a word, and the other bits are the operands of its form. So the listings
//! are a map from words to instructions: no two rows agree on a word, and most words are of none.
//!
//! What callers may rely on:
//!
//! - [`rows`] is the table, in a fixed order, and its rows are pairwise disjoint.
//! - [`decode`] answers the instruction of a word, and none for a word of no row. Each operand that it answers fits its
//!   field: registers are below 32.
//! - [`encode`] goes back: it answers a word for each instruction whose operands fit, which decodes to that instruction
//!   and is the only one to do so, but for the two fences.
//! - [`decode16`] answers the instruction that a halfword expands to, and none for a halfword of no compressed row or of a
//!   reserved code. What it answers is an instruction that `encode` takes.
//! - A [`Code`] is one instruction in memory: a halfword or a word, depending on its low bits. It has a length in bytes and at most one
//!   instruction, by the two above.
//! - [`fields`] and [`halfword`] cut a word and a halfword as the manual does, [`words`] has the words of the base formats, and [`named`]
//!   looks names up, for tables of further extensions too.
//! - [`reg_number`], [`mnemonic`] and [`instr_named`] know the names of the manual, and no others.
//! - [`laws`] has what holds of all words: each spells at most one instruction, which is the one that is decoded. And of all
//!   halfwords: each is of at most one compressed row.
//!
//! Source: The RISC-V Instruction Set Manual, Volume I: Unprivileged ISA, 20191213, chapters 2, 3 and 7, the listings of chapter 24 and the
//! names of chapter 25, and chapter 16 for RV32C without floating point.
#![tactic(auto)]

mod code;
mod compressed;
mod decoder;
mod encoder;
pub mod fields;
pub mod halfword;
mod instr;
pub mod laws;
mod mnemonics;
mod names;
mod registers;
mod table;
pub mod words;

pub use code::{Code, code_length};
pub use compressed::decode16;
pub use decoder::decode;
pub use encoder::encode;
pub use instr::{BranchOp, Form, IOp, Instr, LoadOp, PlainOp, ROp, Row, ShiftOp, StoreOp, UpperOp};
pub use mnemonics::{instr_named, mnemonic};
pub use names::named;
pub use registers::reg_number;
pub use table::rows;
