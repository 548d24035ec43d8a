//! Encodes an instruction of A as a word.

ghost use Rattle.std.specs.Prelude.{◌≡◌, ◌*◌, ◌^◌, Some};
ghost use Rattle.rv_tables.specs.Words.{IsEncoded};
ghost use Rattle.rv_atomics.specs.Mnemonics.{amo_name as name_of_amo};
ghost use Rattle.rv_atomics.specs.Operands.{IsEncodable};
ghost use Rattle.rv_atomics.specs.Rows.{amo_of, atomic_instruction_of};
ghost use Rattle.rv_atomics.specs.Words.{IsRowValue, order_code};
ghost use Rattle.rv_atomics.specs.declared.instr.AtomicForm.TheVariants as form;

use crate::instr::{AmoOp, AtomicInstr, Order};
use rv_tables::words::r_word;

/// The word of an instruction, or none if a register does not fit its field.
///
/// Each instruction has one word.
pub fn encode(instr: &AtomicInstr) -> Option<u32>
    ensures { IsEncoded (IsEncodable instr.now) (λ w. atomic_instruction_of w ≡ Some instr.now) result }
{
    match *instr {
        AtomicInstr::LoadReserved { order, rd, rs1 } => {
            r_word(0x1000_202F + order_bits(order), rd, rs1, 0)
        }
        AtomicInstr::StoreConditional {
            order,
            rd,
            rs1,
            rs2,
        } => r_word(0x1800_202F + order_bits(order), rd, rs1, rs2),
        AtomicInstr::Amo {
            op,
            order,
            rd,
            rs1,
            rs2,
        } => r_word(amo_row(op) + order_bits(order), rd, rs1, rs2),
    }
}

/// The bits `aq` and `rl` where they stand in a word.
fn order_bits(order: Order) -> u32
    ensures { result ≡ order_code order * 2 ^ 25 }
{
    match order {
        Order::Unordered => 0,
        Order::Release => 0x200_0000,
        Order::Acquire => 0x400_0000,
        Order::Sequential => 0x600_0000,
    }
}

/// The value of the row of an atomic memory operation.
#[tactic(auto, unfolding(crate::specs::Mnemonics::atomic_row_named, crate::specs::Rows::atomic_encodings))]
fn amo_row(op: AmoOp) -> u32
    ensures { IsRowValue 0xF800707F form.Amo (amo_of op) (name_of_amo op) result }
{
    match op {
        AmoOp::Swap => 0x800_202F,
        AmoOp::Add => 0x202F,
        AmoOp::Xor => 0x2000_202F,
        AmoOp::And => 0x6000_202F,
        AmoOp::Or => 0x4000_202F,
        AmoOp::Min => 0x8000_202F,
        AmoOp::Max => 0xA000_202F,
        AmoOp::Minu => 0xC000_202F,
        AmoOp::Maxu => 0xE000_202F,
    }
}
