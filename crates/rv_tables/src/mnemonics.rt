//! The names of the instructions.

ghost use Rattle.std.specs.Prelude.{◌≡◌};
ghost use Rattle.rv_tables.specs.Mnemonics.{mnemonic_of, instruction_named};

use crate::instr::{BranchOp, IOp, Instr, LoadOp, PlainOp, ROp, ShiftOp, StoreOp, UpperOp};
use crate::names::named;
use crate::table::{ROW_COUNT, listing};

// The name of a row.
macro_rules! name_of {
    ([$row:ident] $($form:ident $mask:literal: $($value:literal $op:ident::$name:ident $text:literal),*;)*) => {
        match $row {
            $($($op::$name => $text,)*)*
        }
    };
}

/// The instruction's name in assembly: the row's name in lower case, as `addi` and `fence.i`.
pub fn mnemonic(instr: &Instr) -> &'static str
    ensures { result.now ≡ mnemonic_of instr.now }
{
    match *instr {
        Instr::R { op, .. } => listing!(R; name_of [op]),
        Instr::I { op, .. } => listing!(I; name_of [op]),
        Instr::Shift { op, .. } => listing!(Shift; name_of [op]),
        Instr::Load { op, .. } => listing!(Load; name_of [op]),
        Instr::Store { op, .. } => listing!(Store; name_of [op]),
        Instr::Branch { op, .. } => listing!(Branch; name_of [op]),
        Instr::Upper { op, .. } => listing!(Upper; name_of [op]),
        Instr::Jal { .. } => "jal",
        Instr::Jalr { .. } => "jalr",
        Instr::Plain { op } => listing!(Fence System; name_of [op]),
    }
}

// The instruction of a row, with 0 for each operand.
macro_rules! bare {
    (R $op:ident $row:ident) => { Instr::R { op: $op::$row, rd: 0, rs1: 0, rs2: 0 } };
    (I $op:ident $row:ident) => { Instr::I { op: $op::$row, rd: 0, rs1: 0, imm: 0 } };
    (Shift $op:ident $row:ident) => { Instr::Shift { op: $op::$row, rd: 0, rs1: 0, shamt: 0 } };
    (Load $op:ident $row:ident) => { Instr::Load { op: $op::$row, rd: 0, rs1: 0, imm: 0 } };
    (Store $op:ident $row:ident) => { Instr::Store { op: $op::$row, rs1: 0, rs2: 0, imm: 0 } };
    (Branch $op:ident $row:ident) => { Instr::Branch { op: $op::$row, rs1: 0, rs2: 0, imm: 0 } };
    (Upper $op:ident $row:ident) => { Instr::Upper { op: $op::$row, rd: 0, imm: 0 } };
    (Jal $op:ident $row:ident) => { Instr::Jal { rd: 0, imm: 0 } };
    (Jalr $op:ident $row:ident) => { Instr::Jalr { rd: 0, rs1: 0, imm: 0 } };
    (Plain $op:ident $row:ident) => { Instr::Plain { op: $op::$row } };
}

// Each name with its instruction.
macro_rules! names_of {
    ([] $($form:ident $mask:literal: $($value:literal $op:ident::$row:ident $name:literal),*;)*) => {
        [$($(($name, bare!($form $op $row)),)*)*]
    };
}

static NAMES: [(&str, Instr); ROW_COUNT] = listing!(all; names_of []);

/// The instruction with a name, as [`mnemonic`] answers it, with 0 for each operand; or none if no instruction has it.
pub fn instr_named(name: &[u8]) -> Option<Instr>
    ensures { result ≡ instruction_named name.now }
{
    named(&NAMES, name)
}
