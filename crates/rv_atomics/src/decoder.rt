//! Decodes a word of A.

ghost use Rattle.std.specs.Prelude.{◌≡◌, bit_and};
ghost use Rattle.rv_tables.specs.Operands.{IsFound};
ghost use Rattle.rv_atomics.specs.Operands.{IsEncodable};
ghost use Rattle.rv_atomics.specs.Rows.{atomic_instruction_of, amo_of};

use crate::fields::{funct5, order, rd, rs1, rs2};
use crate::instr::{AmoOp, AtomicInstr};

/// The instruction of A that a word spells, or none if the word meets no row.
///
/// By the opcode and funct3, and by funct5.
#[tactic(auto, using(crate::proofs::Lookup::by_masks, crate::proofs::RowReads::found_word), unfolding(crate::specs::Rows::atomic_instruction_of, crate::specs::Rows::atomic_encodings))]
pub fn decode(word: u32) -> Option<AtomicInstr>
    ensures { IsFound IsEncodable (atomic_instruction_of word) result }
{
    if word & 0x707F != 0x202F {
        return None;
    }
    atomic(word)
}

/// The rows, which funct5 distinguishes.
#[tactic(auto, using(crate::proofs::Lookup::by_masks), unfolding(crate::specs::Rows::atomic_instruction_of, crate::specs::Rows::atomic_encodings))]
fn atomic(word: u32) -> Option<AtomicInstr>
    requires { bit_and word 0x707F ≡ 0x202F }
    ensures { result ≡ atomic_instruction_of word }
{
    match funct5(word) {
        0b00000 => Some(amo(AmoOp::Add, word)),
        0b00001 => Some(amo(AmoOp::Swap, word)),
        0b00010 if rs2(word) == 0 => Some(AtomicInstr::LoadReserved {
            order: order(word),
            rd: rd(word),
            rs1: rs1(word),
        }),
        0b00011 => Some(AtomicInstr::StoreConditional {
            order: order(word),
            rd: rd(word),
            rs1: rs1(word),
            rs2: rs2(word),
        }),
        0b00100 => Some(amo(AmoOp::Xor, word)),
        0b01000 => Some(amo(AmoOp::Or, word)),
        0b01100 => Some(amo(AmoOp::And, word)),
        0b10000 => Some(amo(AmoOp::Min, word)),
        0b10100 => Some(amo(AmoOp::Max, word)),
        0b11000 => Some(amo(AmoOp::Minu, word)),
        0b11100 => Some(amo(AmoOp::Maxu, word)),
        _ => None,
    }
}

/// An atomic memory operation with the operands of a word.
fn amo(op: AmoOp, word: u32) -> AtomicInstr
    ensures { result ≡ amo_of op word }
{
    AtomicInstr::Amo {
        op,
        order: order(word),
        rd: rd(word),
        rs1: rs1(word),
        rs2: rs2(word),
    }
}
