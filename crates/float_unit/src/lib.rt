//! The floating-point unit: its registers and fcsr, and what each instruction of F, D and Zicsr does to them.
//!
//! A [`FloatUnit`] is the patterns of f0 to f31, the dynamic rounding mode and the accrued exceptions. Contracts see it as a record of
//! these. [`FloatUnit::apply`] executes an instruction. Integer registers and memory do not belong to the unit: their values come in and go
//! out.
//!
//! What callers may rely on:
//!
//! - An effect is one function of the unit's record, with one clause for each form of instruction (`specs/Effects.antt`). `rv_floats`,
//!   `rv_float_flags` and `rv_float_modes` say what operations return and raise.
//! - Singles are NaN-boxed in a register: the upper bits are ones. Operations read a single that is not boxed as the canonical NaN; moves
//!   and stores do not.
//! - Flags are sticky, and only a write of a CSR clears them.
//! - Results are rounded in the mode of the instruction, or in that of `frm` if the instruction asks for it, in any of the five modes. To
//!   the nearest, ties to even, the host's arithmetic computes results and flags; in the other modes `rv_float_modes` does. If an
//!   instruction asks for the mode in `frm` and that is not a mode, the instruction is illegal and changes nothing, even if it is always
//!   exact.
//!
//! Source: The RISC-V Instruction Set Manual, Volume I: Unprivileged ISA, 20191213, chapters 9, 11 and 12.
#![tactic(auto)]

mod convert;
mod effect;
mod fault;
mod frequent;
mod frequent_conversion;
mod frequent_move;
mod operations;
mod ordered;
mod unit;
mod whole;
mod width;

pub use fault::FloatFault;
pub use unit::FloatUnit;
pub use width::Width;
