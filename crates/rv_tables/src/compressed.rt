//! Expands a halfword to the instruction that it stands for.

ghost use Rattle.std.specs.Prelude.{◌≡◌, nat_lt, if◌then◌else◌, Some, None};
ghost use Rattle.rv_tables.specs.Fields.{bits};
ghost use Rattle.rv_tables.specs.Halfwords as Halfwords;
ghost use Rattle.rv_tables.specs.Halfwords.{immediate, small_layout};
ghost use Rattle.rv_tables.specs.Operands.{IsEncodable, IsFound};
ghost use Rattle.rv_tables.specs.Compressed.{expansion_of};

use crate::fields::bits;
use crate::halfword;
use crate::instr::{BranchOp, IOp, Instr, LoadOp, PlainOp, ROp, ShiftOp, StoreOp, UpperOp};

/// The instruction that a halfword expands to, or none if it meets no row of RV32C: if its low bits are 11, as those of a word's first half
/// are, if its code is reserved, and if it is an instruction of floating point. A hint expands to an instruction that does nothing.
///
/// By matches on the quadrant and on funct3, and on further bits if these ask for them.
// For speed: a node decodes a halfword in each step on compressed code.
#[inline(always)]
#[tactic(auto, using(crate::proofs::CompressedLookup::by_fields, crate::proofs::CompressedReads::found_halfword), unfolding(crate::proofs::CompressedLookup::expansion_at, crate::specs::Compressed::compressed_rows))]
pub fn decode16(half: u16) -> Option<Instr>
    ensures { IsFound IsEncodable (expansion_of half) result }
{
    let half = u32::from(half);
    match halfword::quadrant(half) {
        0 => quadrant_0(half),
        1 => quadrant_1(half),
        2 => quadrant_2(half),
        _ => None,
    }
}

#[inline(always)]
#[tactic(auto, using(crate::proofs::CompressedLookup::by_fields), unfolding(crate::proofs::CompressedLookup::expansion_at, crate::specs::Compressed::compressed_rows))]
fn quadrant_0(half: u32) -> Option<Instr>
    requires { Halfwords.quadrant half ≡ 0 }
    ensures { result ≡ expansion_of half }
{
    match halfword::funct3(half) {
        0 => addi4spn(half),
        2 => Some(Instr::Load {
            op: LoadOp::Lw,
            rd: halfword::rs2_prime(half),
            rs1: halfword::rs1_prime(half),
            imm: halfword::word_offset(half),
        }),
        6 => Some(Instr::Store {
            op: StoreOp::Sw,
            rs1: halfword::rs1_prime(half),
            rs2: halfword::rs2_prime(half),
            imm: halfword::word_offset(half),
        }),
        _ => None,
    }
}

#[inline(always)]
#[tactic(auto, using(crate::proofs::CompressedLookup::by_fields), unfolding(crate::proofs::CompressedLookup::expansion_at, crate::specs::Compressed::compressed_rows))]
fn addi4spn(half: u32) -> Option<Instr>
    requires quadrant { Halfwords.quadrant half ≡ 0 }
    requires funct3 { Halfwords.funct3 half ≡ 0 }
    ensures { result ≡ expansion_of half }
{
    if bits(half, 12, 5) == 0 {
        return None;
    }
    Some(Instr::I {
        op: IOp::Addi,
        rd: halfword::rs2_prime(half),
        rs1: 2,
        imm: halfword::addi4spn_immediate(half),
    })
}

#[inline(always)]
#[tactic(auto, using(crate::proofs::CompressedLookup::by_fields), unfolding(crate::proofs::CompressedLookup::expansion_at, crate::specs::Compressed::compressed_rows))]
fn quadrant_1(half: u32) -> Option<Instr>
    requires { Halfwords.quadrant half ≡ 1 }
    ensures { result ≡ expansion_of half }
{
    match halfword::funct3(half) {
        0 => Some(Instr::I {
            op: IOp::Addi,
            rd: halfword::rd(half),
            rs1: halfword::rd(half),
            imm: halfword::small_immediate(half),
        }),
        1 => Some(Instr::Jal {
            rd: 1,
            imm: halfword::jump_offset(half),
        }),
        2 => Some(Instr::I {
            op: IOp::Addi,
            rd: halfword::rd(half),
            rs1: 0,
            imm: halfword::small_immediate(half),
        }),
        3 => addi16sp_or_lui(half),
        4 => arithmetic(half),
        5 => Some(Instr::Jal {
            rd: 0,
            imm: halfword::jump_offset(half),
        }),
        6 => Some(Instr::Branch {
            op: BranchOp::Beq,
            rs1: halfword::rs1_prime(half),
            rs2: 0,
            imm: halfword::branch_offset(half),
        }),
        _ => Some(Instr::Branch {
            op: BranchOp::Bne,
            rs1: halfword::rs1_prime(half),
            rs2: 0,
            imm: halfword::branch_offset(half),
        }),
    }
}

/// The two rows with a large immediate, which rd distinguishes. An immediate of 0 is reserved in both.
#[inline(always)]
#[tactic(auto, using(crate::proofs::EachCompressedRow::large))]
fn addi16sp_or_lui(half: u32) -> Option<Instr>
    requires quadrant { Halfwords.quadrant half ≡ 1 }
    requires funct3 { Halfwords.funct3 half ≡ 3 }
    ensures { result ≡ expansion_of half }
{
    if halfword::small_field(half) == 0 {
        return None;
    }
    let rd = halfword::rd(half);
    if rd == 2 {
        return Some(Instr::I {
            op: IOp::Addi,
            rd: 2,
            rs1: 2,
            imm: halfword::addi16sp_immediate(half),
        });
    }
    Some(Instr::Upper {
        op: UpperOp::Lui,
        rd,
        imm: halfword::lui_field(half),
    })
}

/// The rows that change one of x8 to x15 by an amount, an immediate or another register, which bits 11 and 10 distinguish.
#[inline(always)]
#[tactic(auto, using(crate::proofs::EachCompressedRow::arithmetic))]
fn arithmetic(half: u32) -> Option<Instr>
    requires quadrant { Halfwords.quadrant half ≡ 1 }
    requires funct3 { Halfwords.funct3 half ≡ 4 }
    ensures { result ≡ expansion_of half }
{
    match bits(half, 11, 10) {
        0 => shift(ShiftOp::Srli, halfword::rs1_prime(half), half),
        1 => shift(ShiftOp::Srai, halfword::rs1_prime(half), half),
        2 => Some(Instr::I {
            op: IOp::Andi,
            rd: halfword::rs1_prime(half),
            rs1: halfword::rs1_prime(half),
            imm: halfword::small_immediate(half),
        }),
        _ => registers(half),
    }
}

/// A shift of a register in its place. An amount above 31 is reserved.
#[inline(always)]
fn shift(op: ShiftOp, register: u8, half: u32) -> Option<Instr>
    ensures { result
        ≡ (if nat_lt (immediate half small_layout) 32
        then Some (Instr.Shift op register register (immediate half small_layout)) else None) }
{
    let shamt = halfword::small_field(half);
    if shamt > 31 {
        return None;
    }
    Some(Instr::Shift {
        op,
        rd: register,
        rs1: register,
        shamt,
    })
}

/// The rows on two of x8 to x15, which bits 6 and 5 distinguish.
#[inline(always)]
#[tactic(auto, using(crate::proofs::CompressedLookup::by_fields), unfolding(crate::proofs::CompressedLookup::expansion_at, crate::specs::Compressed::compressed_rows))]
fn registers(half: u32) -> Option<Instr>
    requires quadrant { Halfwords.quadrant half ≡ 1 }
    requires funct3 { Halfwords.funct3 half ≡ 4 }
    requires registers { bits half 11 10 ≡ 3 }
    ensures { result ≡ expansion_of half }
{
    if bits(half, 12, 12) != 0 {
        return None;
    }
    let op = match bits(half, 6, 5) {
        0 => ROp::Sub,
        1 => ROp::Xor,
        2 => ROp::Or,
        _ => ROp::And,
    };
    Some(Instr::R {
        op,
        rd: halfword::rs1_prime(half),
        rs1: halfword::rs1_prime(half),
        rs2: halfword::rs2_prime(half),
    })
}

#[inline(always)]
#[tactic(auto, using(crate::proofs::CompressedLookup::by_fields), unfolding(crate::proofs::CompressedLookup::expansion_at, crate::specs::Compressed::compressed_rows))]
fn quadrant_2(half: u32) -> Option<Instr>
    requires { Halfwords.quadrant half ≡ 2 }
    ensures { result ≡ expansion_of half }
{
    match halfword::funct3(half) {
        0 => shift(ShiftOp::Slli, halfword::rd(half), half),
        2 => lwsp(half),
        4 => if bits(half, 12, 12) == 0 {
            jr_or_mv(half)
        } else {
            ebreak_or_jalr_or_add(half)
        },
        6 => Some(Instr::Store {
            op: StoreOp::Sw,
            rs1: 2,
            rs2: halfword::rs2(half),
            imm: halfword::swsp_offset(half),
        }),
        _ => None,
    }
}

/// A load into x0 is reserved.
#[inline(always)]
#[tactic(auto, using(crate::proofs::CompressedLookup::by_fields), unfolding(crate::proofs::CompressedLookup::expansion_at, crate::specs::Compressed::compressed_rows))]
fn lwsp(half: u32) -> Option<Instr>
    requires quadrant { Halfwords.quadrant half ≡ 2 }
    requires funct3 { Halfwords.funct3 half ≡ 2 }
    ensures { result ≡ expansion_of half }
{
    let rd = halfword::rd(half);
    if rd == 0 {
        return None;
    }
    Some(Instr::Load {
        op: LoadOp::Lw,
        rd,
        rs1: 2,
        imm: halfword::lwsp_offset(half),
    })
}

/// Without rs2 a jump, to x0 a reserved one; with rs2 a copy of it.
#[inline(always)]
#[tactic(auto, using(crate::proofs::CompressedLookup::by_fields), unfolding(crate::proofs::CompressedLookup::expansion_at, crate::specs::Compressed::compressed_rows))]
fn jr_or_mv(half: u32) -> Option<Instr>
    requires quadrant { Halfwords.quadrant half ≡ 2 }
    requires funct3 { Halfwords.funct3 half ≡ 4 }
    requires bit_12 { bits half 12 12 ≡ 0 }
    ensures { result ≡ expansion_of half }
{
    let rd = halfword::rd(half);
    let rs2 = halfword::rs2(half);
    if rs2 != 0 {
        return Some(Instr::R {
            op: ROp::Add,
            rd,
            rs1: 0,
            rs2,
        });
    }
    if rd == 0 {
        return None;
    }
    Some(Instr::Jalr {
        rd: 0,
        rs1: rd,
        imm: 0,
    })
}

/// Without rs2 a jump with a link, or a break if it has no register at all; with rs2 a sum.
#[inline(always)]
#[tactic(auto, using(crate::proofs::CompressedLookup::by_fields), unfolding(crate::proofs::CompressedLookup::expansion_at, crate::specs::Compressed::compressed_rows))]
fn ebreak_or_jalr_or_add(half: u32) -> Option<Instr>
    requires quadrant { Halfwords.quadrant half ≡ 2 }
    requires funct3 { Halfwords.funct3 half ≡ 4 }
    requires bit_12 { bits half 12 12 ≡ 1 }
    ensures { result ≡ expansion_of half }
{
    let rd = halfword::rd(half);
    let rs2 = halfword::rs2(half);
    if rs2 != 0 {
        return Some(Instr::R {
            op: ROp::Add,
            rd,
            rs1: rd,
            rs2,
        });
    }
    if rd == 0 {
        return Some(Instr::Plain {
            op: PlainOp::Ebreak,
        });
    }
    Some(Instr::Jalr {
        rd: 1,
        rs1: rd,
        imm: 0,
    })
}
