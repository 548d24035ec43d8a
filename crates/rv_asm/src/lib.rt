//! An assembler: the image of a text.
//!
//! A text is a list of lines. Each line is at the address where the statement before it ends, a label is the address of its line, and the
//! image is the bytes of the statements one after the other, in one segment at 0.
//!
//! What callers may rely on:
//!
//! - [`assemble`] answers the image of a text, or the text's fault: its first faulty line, with the least kind of fault that the line has.
//!   Lines are first checked without the addresses of labels. Only if no line has a fault then, their uses of labels are checked.
//! - [`laws`] has what holds of all texts: at most one image, and exactly one if there is no fault.
//!
//! What a line says by itself is the matter of `asm_syntax`, the words of instructions that of `rv_tables`. Here are
//! addresses, sizes, labels and offsets. No statement's size depends on a label, so one pass over the text finds the
//! addresses of all labels, and a second one writes the bytes. The work grows with the length of the text, times the
//! logarithm of the number of labels.
//!
//! Source: The RISC-V Instruction Set Manual, Volume I: Unprivileged ISA, 20191213, chapter 25 for what `li` and `la` put
//! into a register. Which instructions they are is this project's own choice (there, `la` counts from pc), as the rest of
//! the language is.
#![tactic(auto)]

mod assembler;
mod errors;
mod first_pass;
mod labels;
pub mod laws;
mod layout;
mod program;
mod second_pass;
mod targets;
mod writer;

pub use assembler::assemble;
pub use errors::{AsmError, AsmKind};
