//! Decodes a word.

ghost use Rattle.std.specs.Prelude.{◌≡◌, ◌≢◌, ◌⊎◌, bit_and};
ghost use Rattle.std.specs.Option.{option_map};
ghost use Rattle.rv_tables.specs.declared.instr.Instr.TheVariants as instr;
ghost use Rattle.rv_tables.specs.Fields as Fields;
ghost use Rattle.rv_tables.specs.Operands.{IsEncodable, IsFound};
ghost use Rattle.rv_tables.specs.Rows.{instruction_of};

use crate::fields;
use crate::instr::{BranchOp, IOp, Instr, LoadOp, PlainOp, ROp, ShiftOp, StoreOp, UpperOp};
use crate::table::listing;

// The row that a word meets, or none: which value it has under the mask of a group.
macro_rules! met {
    ([$word:ident] $form:ident $mask:literal: $($value:literal $op:ident::$row:ident $name:literal),*;) => {
        match $word & $mask {
            $($value => Some($op::$row),)*
            _ => None,
        }
    };
}

/// The instruction that a word spells, or none if the word meets no row.
///
/// By the opcode, and by the rows of the opcode's form.
// For speed: a node decodes a word in each step, and a call of its own would cost as much as the rest of the step.
#[inline(always)]
#[tactic(auto, using(crate::proofs::Lookup::by_value, crate::proofs::RowReads::found_word), unfolding(crate::proofs::Lookup::instruction_at, crate::specs::Rows::encodings))]
pub fn decode(word: u32) -> Option<Instr>
    ensures { IsFound IsEncodable (instruction_of word) result }
{
    match fields::opcode(word) {
        0x37 | 0x17 => upper(word),
        0x6F => jal(word),
        0x67 => jalr(word),
        0x63 => branch(word),
        0x03 => load(word),
        0x23 => store(word),
        0x13 => match word & 0x707F {
            0x1013 | 0x5013 => shift(word),
            _ => immediate(word),
        },
        0x33 => register(word),
        0x0F => fence(word),
        0x73 => system(word),
        _ => None,
    }
}

#[inline(always)]
fn upper(word: u32) -> Option<Instr>
    requires { (Fields.opcode word ≡ 0x37) ⊎ (Fields.opcode word ≡ 0x17) }
    ensures { result ≡ instruction_of word }
{
    Some(Instr::Upper {
        op: upper_op(word)?,
        rd: fields::rd(word),
        imm: fields::u_immediate(word),
    })
}

#[inline(always)]
#[tactic(auto, using(crate::proofs::Lookup::by_value), unfolding(crate::proofs::Lookup::instruction_at, crate::specs::Rows::encodings))]
fn upper_op(word: u32) -> Option<UpperOp>
    requires { (Fields.opcode word ≡ 0x37) ⊎ (Fields.opcode word ≡ 0x17) }
    ensures { option_map (λ op. instr.Upper op (Fields.rd word) (Fields.u_immediate word)) result ≡ instruction_of word }
{
    listing!(Upper; met [word])
}

#[inline(always)]
#[tactic(auto, using(crate::proofs::Lookup::jal))]
fn jal(word: u32) -> Option<Instr>
    requires { Fields.opcode word ≡ 0x6F }
    ensures { result ≡ instruction_of word }
{
    Some(Instr::Jal {
        rd: fields::rd(word),
        imm: fields::j_immediate(word),
    })
}

#[inline(always)]
#[tactic(auto, using(crate::proofs::Lookup::by_value), unfolding(crate::proofs::Lookup::instruction_at, crate::specs::Rows::encodings))]
fn jalr(word: u32) -> Option<Instr>
    requires { Fields.opcode word ≡ 0x67 }
    ensures { result ≡ instruction_of word }
{
    if word & 0x707F != 0x67 {
        return None;
    }
    Some(Instr::Jalr {
        rd: fields::rd(word),
        rs1: fields::rs1(word),
        imm: fields::i_immediate(word),
    })
}

#[inline(always)]
fn branch(word: u32) -> Option<Instr>
    requires { Fields.opcode word ≡ 0x63 }
    ensures { result ≡ instruction_of word }
{
    Some(Instr::Branch {
        op: branch_op(word)?,
        rs1: fields::rs1(word),
        rs2: fields::rs2(word),
        imm: fields::b_immediate(word),
    })
}

#[inline(always)]
#[tactic(auto, using(crate::proofs::Lookup::by_value), unfolding(crate::proofs::Lookup::instruction_at, crate::specs::Rows::encodings))]
fn branch_op(word: u32) -> Option<BranchOp>
    requires { Fields.opcode word ≡ 0x63 }
    ensures { option_map (λ op. instr.Branch op (Fields.rs1 word) (Fields.rs2 word) (Fields.b_immediate word)) result
        ≡ instruction_of word }
{
    listing!(Branch; met [word])
}

#[inline(always)]
fn load(word: u32) -> Option<Instr>
    requires { Fields.opcode word ≡ 0x03 }
    ensures { result ≡ instruction_of word }
{
    Some(Instr::Load {
        op: load_op(word)?,
        rd: fields::rd(word),
        rs1: fields::rs1(word),
        imm: fields::i_immediate(word),
    })
}

#[inline(always)]
#[tactic(auto, using(crate::proofs::Lookup::by_value), unfolding(crate::proofs::Lookup::instruction_at, crate::specs::Rows::encodings))]
fn load_op(word: u32) -> Option<LoadOp>
    requires { Fields.opcode word ≡ 0x03 }
    ensures { option_map (λ op. instr.Load op (Fields.rd word) (Fields.rs1 word) (Fields.i_immediate word)) result ≡ instruction_of word }
{
    listing!(Load; met [word])
}

#[inline(always)]
fn store(word: u32) -> Option<Instr>
    requires { Fields.opcode word ≡ 0x23 }
    ensures { result ≡ instruction_of word }
{
    Some(Instr::Store {
        op: store_op(word)?,
        rs1: fields::rs1(word),
        rs2: fields::rs2(word),
        imm: fields::s_immediate(word),
    })
}

#[inline(always)]
#[tactic(auto, using(crate::proofs::Lookup::by_value), unfolding(crate::proofs::Lookup::instruction_at, crate::specs::Rows::encodings))]
fn store_op(word: u32) -> Option<StoreOp>
    requires { Fields.opcode word ≡ 0x23 }
    ensures { option_map (λ op. instr.Store op (Fields.rs1 word) (Fields.rs2 word) (Fields.s_immediate word)) result ≡ instruction_of word }
{
    listing!(Store; met [word])
}

#[inline(always)]
fn immediate(word: u32) -> Option<Instr>
    requires opcode { Fields.opcode word ≡ 0x13 }
    requires no_left_shift { bit_and word 0x707F ≢ 0x1013 }
    requires no_right_shift { bit_and word 0x707F ≢ 0x5013 }
    ensures { result ≡ instruction_of word }
{
    Some(Instr::I {
        op: immediate_op(word)?,
        rd: fields::rd(word),
        rs1: fields::rs1(word),
        imm: fields::i_immediate(word),
    })
}

#[inline(always)]
#[tactic(auto, using(crate::proofs::Lookup::by_values), unfolding(crate::proofs::Lookup::instruction_at, crate::specs::Rows::encodings))]
fn immediate_op(word: u32) -> Option<IOp>
    requires opcode { Fields.opcode word ≡ 0x13 }
    requires no_left_shift { bit_and word 0x707F ≢ 0x1013 }
    requires no_right_shift { bit_and word 0x707F ≢ 0x5013 }
    ensures { option_map (λ op. instr.I op (Fields.rd word) (Fields.rs1 word) (Fields.i_immediate word)) result ≡ instruction_of word }
{
    listing!(I; met [word])
}

/// The rows that shift by an amount in the word: funct3 is 1 or 5.
#[inline(always)]
fn shift(word: u32) -> Option<Instr>
    requires opcode { Fields.opcode word ≡ 0x13 }
    requires funct3 { (bit_and word 0x707F ≡ 0x1013) ⊎ (bit_and word 0x707F ≡ 0x5013) }
    ensures { result ≡ instruction_of word }
{
    Some(Instr::Shift {
        op: shift_op(word)?,
        rd: fields::rd(word),
        rs1: fields::rs1(word),
        shamt: fields::shamt(word),
    })
}

#[inline(always)]
#[tactic(auto, using(crate::proofs::Lookup::by_value), unfolding(crate::proofs::Lookup::instruction_at, crate::specs::Rows::encodings))]
fn shift_op(word: u32) -> Option<ShiftOp>
    requires opcode { Fields.opcode word ≡ 0x13 }
    requires funct3 { (bit_and word 0x707F ≡ 0x1013) ⊎ (bit_and word 0x707F ≡ 0x5013) }
    ensures { option_map (λ op. instr.Shift op (Fields.rd word) (Fields.rs1 word) (Fields.shamt word)) result ≡ instruction_of word }
{
    listing!(Shift; met [word])
}

#[inline(always)]
fn register(word: u32) -> Option<Instr>
    requires { Fields.opcode word ≡ 0x33 }
    ensures { result ≡ instruction_of word }
{
    Some(Instr::R {
        op: register_op(word)?,
        rd: fields::rd(word),
        rs1: fields::rs1(word),
        rs2: fields::rs2(word),
    })
}

#[inline(always)]
#[tactic(auto, using(crate::proofs::Lookup::by_value), unfolding(crate::proofs::Lookup::instruction_at, crate::specs::Rows::encodings))]
fn register_op(word: u32) -> Option<ROp>
    requires { Fields.opcode word ≡ 0x33 }
    ensures { option_map (λ op. instr.R op (Fields.rd word) (Fields.rs1 word) (Fields.rs2 word)) result ≡ instruction_of word }
{
    listing!(R; met [word])
}

#[inline(always)]
fn fence(word: u32) -> Option<Instr>
    requires { Fields.opcode word ≡ 0x0F }
    ensures { result ≡ instruction_of word }
{
    Some(Instr::Plain {
        op: fence_op(word)?,
    })
}

#[inline(always)]
#[tactic(auto, using(crate::proofs::Lookup::by_value), unfolding(crate::proofs::Lookup::instruction_at, crate::specs::Rows::encodings))]
fn fence_op(word: u32) -> Option<PlainOp>
    requires { Fields.opcode word ≡ 0x0F }
    ensures { option_map (λ op. instr.Plain op) result ≡ instruction_of word }
{
    listing!(Fence; met [word])
}

#[inline(always)]
fn system(word: u32) -> Option<Instr>
    requires { Fields.opcode word ≡ 0x73 }
    ensures { result ≡ instruction_of word }
{
    Some(Instr::Plain {
        op: system_op(word)?,
    })
}

#[inline(always)]
#[tactic(auto, using(crate::proofs::Lookup::by_value), unfolding(crate::proofs::Lookup::instruction_at, crate::specs::Rows::encodings))]
fn system_op(word: u32) -> Option<PlainOp>
    requires { Fields.opcode word ≡ 0x73 }
    ensures { option_map (λ op. instr.Plain op) result ≡ instruction_of word }
{
    listing!(System; met [word])
}
