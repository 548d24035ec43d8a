//! Parses the lines of an assembly text, each by itself: tokens, labels and a statement.
//!
//! A line is a list of tokens; these are any number of labels and at most one statement; a statement is a mnemonic and operands. This crate
//! does not know addresses: it says neither what a line means at one, nor where a label is.
//!
//! What callers may rely on:
//!
//! - [`split_line`] takes the first line off a text.
//! - [`parse_line`] answers the labels and the statement of a line, with every number in the range that its statement requires. If the line
//!   has faults, it answers the least of them, in the order of [`LineError`].
//! - [`laws`] has what holds of every line.
//!
//! A language has the statements of some extensions, as [`Extensions`](rv_atomics::Extensions) says: of floating point, and of A. In a
//! language without an extension, the mnemonics of that extension do not exist. The caller says for each line in which language it is.
//!
//! The names of instructions and registers are those of `rv_tables`, `rv_float_tables` and `rv_atomics`, and numbers those of `numerals`.
//! The language is this project's own. It is a part of the RISC-V Assembly Programmer's Handbook (The RISC-V Instruction Set Manual, Volume
//! I: Unprivileged ISA, 20191213, chapter 25).
#![tactic(auto)]

mod bytes;
mod data;
mod error;
mod float_form;
mod float_operands;
mod form;
pub mod laws;
mod lines;
mod number;
mod operand;
mod parse;
mod pseudo;
mod rows;
mod shapes;
mod statement;
mod text;
mod token;

pub use error::LineError;
pub use lines::split_line;
pub use parse::parse_line;
pub use statement::{Line, Statement, Target};
