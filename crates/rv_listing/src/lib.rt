//! Assembly statements of codes, and listings of images.
//!
//! A code at an address is one statement: its instruction, with the target address if it jumps, or data if it is not an instruction. A
//! listing has a line for each code of each segment, with its address.
//!
//! What callers may rely on:
//!
//! - [`list`] answers the text of the statement with which a word begins, and refuses nothing but memory. [`Statement`] displays
//!   as the text of a code's.
//! - [`Lines`] goes over the lines of a segment in order, without memory: each [`Line`] displays as its text. So whoever
//!   writes a listing needs room for one line at a time. The listing of an image is the lines of its segments in their
//!   order, each ended by a line feed.
//! - Instructions of extensions are data in all of these, as on nodes without them. [`ShownLine`] and [`NamedStatement`] have the names
//!   of those of floating point and of A, as GNU objdump writes them; all else is the same there.
//! - [`TwoDigits`], [`FourDigits`] and [`EightDigits`] display bytes, halfwords and words as listings write them, for other texts that show
//!   them. [`word_at`] gives the word at a place among bytes.
//! - The text of a code does not rest on the codes beside it, and says nothing of labels, sections or pseudo-instructions. A
//!   compressed instruction has the text of the one to which it expands, with a comment that it is compressed.
//!
//! Source: The RISC-V Instruction Set Manual, Volume I: Unprivileged ISA, 20191213, the listings of chapter 24 and the
//! assembly of chapter 25; section 1.5 for how long codes are. Layout and the spelling of numbers are this project's own.
#![tactic(auto)]

mod atomics;
mod floats;
mod lines;
mod named;
mod numerals;
mod statement;

pub use lines::{Line, Lines, word_at};
pub use named::{NamedStatement, ShownLine};
pub use numerals::{EightDigits, FourDigits, TwoDigits};
pub use statement::{Statement, list};
