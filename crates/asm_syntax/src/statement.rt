//! The statement of a line.

use list_vec::ListVec;
use rv_atomics::AtomicInstr;
use rv_float_tables::FloatInstr;
use rv_tables::{BranchOp, Instr};
use std::alloc::Allocator;

/// An address: that of a label with an offset to it, or a number, which is the address itself.
#[derive(Clone, Copy, Debug)]
pub struct Target<'a> {
    /// The label, as it is written; none for a number.
    pub label: Option<&'a [u8]>,
    /// -2^32 + 1 to 2^32 - 1 beside a label, -2^31 to 2^32 - 1 without one.
    pub offset: i64,
}

/// A statement, with each number in its range. Pseudo-instructions that always stand for one instruction are that
/// instruction.
#[derive(Drop)]
pub enum Statement<'a, A: Allocator> {
    /// An instruction whose word depends on no address. Its operands fit.
    Instruction(Instr),
    /// An instruction of floating point. Its operands fit.
    FloatInstruction(FloatInstr),
    /// An instruction of A. Its operands fit.
    AtomicInstruction(AtomicInstr),
    /// A branch to a target.
    Branch {
        op: BranchOp,
        rs1: u8,
        rs2: u8,
        target: Target<'a>,
    },
    /// A jump to a target.
    Jal {
        rd: u8,
        target: Target<'a>,
    },
    /// `li`: a number into a register, -2^31 to 2^32 - 1.
    LoadImmediate {
        rd: u8,
        value: i64,
    },
    /// `la`: an address into a register.
    LoadAddress {
        rd: u8,
        target: Target<'a>,
    },
    /// `.word`: one or more words.
    Words(ListVec<Target<'a>, A>),
    /// `.half`: one or more halves, -32768 to 65535.
    Halves(ListVec<i32, A>),
    /// `.byte`: one or more bytes, -128 to 255.
    Bytes(ListVec<i32, A>),
    /// `.ascii`: the bytes of a string.
    Ascii(ListVec<u8, A>),
    /// `.space`: that many zeros, up to 2^24.
    Space(u32),
    /// `.align`: zeros to a multiple of 2 to that power, up to 12.
    Align(u8),
    /// `.entry`: where the program starts.
    Entry(Target<'a>),
}

/// The labels of a line, in order, and its statement.
#[derive(Drop)]
pub struct Line<'a, A: Allocator> {
    pub labels: ListVec<&'a [u8], A>,
    pub statement: Option<Statement<'a, A>>,
}
