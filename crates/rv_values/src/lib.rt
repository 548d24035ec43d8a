//! What the instructions of RV32I and M compute: values of 32 bits from those of registers and from immediates.
//!
//! A value is the number from 0 to 2^32 - 1 that its bits are without sign. The functions know no register, no memory and no pc but
//! as numbers that they are given.
//!
//! What callers may rely on: each function is what the manual says of its rows, in whole numbers, for all values. [`r_value`] has the
//! instructions on two registers; a division by zero and the division that overflows answer as the manual says; [`i_value`] and
//! [`shift_value`] have those on a register and an immediate, [`upper_value`] LUI and AUIPC, [`is_taken`] the branches, and [`offset_by`]
//! the addresses of loads, stores and jumps.
//!
//! Source: The RISC-V Instruction Set Manual, Volume I: Unprivileged ISA, 20191213, sections 2.4 and 2.5, and chapter 7.
#![tactic(auto)]

mod arithmetic;

pub use arithmetic::{i_value, is_taken, offset_by, r_value, shift_value, upper_value};
