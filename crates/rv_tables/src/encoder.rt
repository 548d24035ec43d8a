//! Encodes an instruction as a word.

ghost use Rattle.std.specs.Prelude.{◌≡◌, ◌↔◌, ℕ, ◌^◌, ◌<◌, Some, IsSome, IfSome, bit_and};
ghost use Rattle.rv_tables.specs.Mnemonics.{row_named, r_mnemonic, i_mnemonic, shift_mnemonic, load_mnemonic, store_mnemonic};
ghost use Rattle.rv_tables.specs.Mnemonics.{branch_mnemonic, upper_mnemonic};
ghost use Rattle.rv_tables.specs.Operands.{IsEncodable, IsFence};
ghost use Rattle.rv_tables.specs.Rows.{instruction_of};
ghost use Rattle.rv_tables.specs.Words.{r_row_of, i_row_of, shift_row_of, load_row_of, store_row_of, branch_row_of, upper_row_of};

use crate::instr::{BranchOp, IOp, Instr, LoadOp, PlainOp, ROp, ShiftOp, StoreOp, UpperOp};
use crate::table::listing;
use crate::words;

// The value of a row.
macro_rules! value_of {
    ([$row:ident] $form:ident $mask:literal: $($value:literal $op:ident::$name:ident $text:literal),*;) => {
        match $row {
            $($op::$name => $value,)*
        }
    };
}

/// The word of an instruction, or none if a register, a shift amount or an immediate does not fit its field.
///
/// Each instruction has one word, but for the two fences: `fence` is answered as `fence iorw,iorw`, and `fence.i` with
/// its unused fields zero.
pub fn encode(instr: &Instr) -> Option<u32>
    ensures encodable { IsSome result ↔ IsEncodable instr.now }
    ensures decodes { IfSome result (λ w. instruction_of w ≡ Some instr.now) }
    ensures only_word { (w : ℕ) → w < 2 ^ 32 → instruction_of w ≡ Some instr.now
        → ¬ IsFence instr.now → result ≡ Some w }
    ensures fence { instr.now ≡ Instr.Plain PlainOp.Fence → result ≡ Some 0x0FF0000F }
    ensures fence_i { instr.now ≡ Instr.Plain PlainOp.FenceI → result ≡ Some 0x100F }
{
    match *instr {
        Instr::R { op, rd, rs1, rs2 } => words::r_word(r_value(op), rd, rs1, rs2),
        Instr::I { op, rd, rs1, imm } => words::i_word(i_value(op), rd, rs1, imm),
        Instr::Shift { op, rd, rs1, shamt } => words::r_word(shift_value(op), rd, rs1, shamt),
        Instr::Load { op, rd, rs1, imm } => words::i_word(load_value(op), rd, rs1, imm),
        Instr::Store { op, rs1, rs2, imm } => words::s_word(store_value(op), rs1, rs2, imm),
        Instr::Branch { op, rs1, rs2, imm } => words::b_word(branch_value(op), rs1, rs2, imm),
        Instr::Upper { op, rd, imm } => words::u_word(upper_value(op), rd, imm),
        Instr::Jal { rd, imm } => words::j_word(0x6F, rd, imm),
        Instr::Jalr { rd, rs1, imm } => words::i_word(0x67, rd, rs1, imm),
        Instr::Plain { op } => Some(plain_word(op)),
    }
}

/// The word of an instruction without operands.
#[tactic(auto, using(crate::proofs::OnlyWords::systems), unfolding(crate::specs::Rows::instruction_of, crate::specs::Rows::encodings))]
fn plain_word(op: PlainOp) -> u32
    ensures decodes { instruction_of result ≡ Some (Instr.Plain op) }
    ensures only_word { (w : ℕ) → w < 2 ^ 32 → instruction_of w ≡ Some (Instr.Plain op)
        → ¬ IsFence (Instr.Plain op) → result ≡ w }
    ensures fence { op ≡ PlainOp.Fence → result ≡ 0x0FF0000F }
    ensures fence_i { op ≡ PlainOp.FenceI → result ≡ 0x100F }
{
    match op {
        PlainOp::Fence => 0x0FF0_000F,
        PlainOp::FenceI => 0x100F,
        PlainOp::Ecall => 0x73,
        PlainOp::Ebreak => 0x10_0073,
    }
}

/// The value of a row on three registers, which has no bits outside the row's mask.
#[tactic(auto, unfolding(crate::specs::Mnemonics::row_named, crate::specs::Rows::encodings))]
fn r_value(op: ROp) -> u32
    ensures row { row_named (r_mnemonic op) ≡ Some (r_row_of result op) }
    ensures own { bit_and result 0xFE00707F ≡ result }
{
    listing!(R; value_of [op])
}

/// The value of a row on a register and an immediate, which has no bits outside the row's mask.
#[tactic(auto, unfolding(crate::specs::Mnemonics::row_named, crate::specs::Rows::encodings))]
fn i_value(op: IOp) -> u32
    ensures row { row_named (i_mnemonic op) ≡ Some (i_row_of result op) }
    ensures own { bit_and result 0x707F ≡ result }
{
    listing!(I; value_of [op])
}

/// The value of a row that shifts by an amount in the word, which has no bits outside the row's mask.
#[tactic(auto, unfolding(crate::specs::Mnemonics::row_named, crate::specs::Rows::encodings))]
fn shift_value(op: ShiftOp) -> u32
    ensures row { row_named (shift_mnemonic op) ≡ Some (shift_row_of result op) }
    ensures own { bit_and result 0xFE00707F ≡ result }
{
    listing!(Shift; value_of [op])
}

/// The value of a row that reads memory, which has no bits outside the row's mask.
#[tactic(auto, unfolding(crate::specs::Mnemonics::row_named, crate::specs::Rows::encodings))]
fn load_value(op: LoadOp) -> u32
    ensures row { row_named (load_mnemonic op) ≡ Some (load_row_of result op) }
    ensures own { bit_and result 0x707F ≡ result }
{
    listing!(Load; value_of [op])
}

/// The value of a row that writes memory, which has no bits outside the row's mask.
#[tactic(auto, unfolding(crate::specs::Mnemonics::row_named, crate::specs::Rows::encodings))]
fn store_value(op: StoreOp) -> u32
    ensures row { row_named (store_mnemonic op) ≡ Some (store_row_of result op) }
    ensures own { bit_and result 0x707F ≡ result }
{
    listing!(Store; value_of [op])
}

/// The value of a row that compares two registers and jumps, which has no bits outside the row's mask.
#[tactic(auto, unfolding(crate::specs::Mnemonics::row_named, crate::specs::Rows::encodings))]
fn branch_value(op: BranchOp) -> u32
    ensures row { row_named (branch_mnemonic op) ≡ Some (branch_row_of result op) }
    ensures own { bit_and result 0x707F ≡ result }
{
    listing!(Branch; value_of [op])
}

/// The value of a row with a field of 20 bits, which has no bits outside the row's mask.
#[tactic(auto, unfolding(crate::specs::Mnemonics::row_named, crate::specs::Rows::encodings))]
fn upper_value(op: UpperOp) -> u32
    ensures row { row_named (upper_mnemonic op) ≡ Some (upper_row_of result op) }
    ensures own { bit_and result 0x7F ≡ result }
{
    listing!(Upper; value_of [op])
}
