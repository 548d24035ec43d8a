//! Expands a compressed load or store of floating point.

ghost use Rattle.std.specs.Prelude.{◌≡◌};
ghost use Rattle.rv_tables.specs.Halfwords as Halfwords;
ghost use Rattle.rv_tables.specs.Operands.{IsFound};
ghost use Rattle.rv_float_tables.specs.Compressed.{float_expansion_of};
ghost use Rattle.rv_float_tables.specs.Operands.{IsEncodable};

use crate::halfword;
use crate::instr::{FloatInstr, Format};

/// The instruction of floating point that a halfword expands to, or none if it meets no row of these.
#[tactic(auto, using(crate::proofs::CompressedRows::found_halfword))]
pub fn decode16(half: u16) -> Option<FloatInstr>
    ensures { IsFound IsEncodable (float_expansion_of half) result }
{
    expansion(u32::from(half))
}

/// By matches on the quadrant and on funct3. The rows of quadrant 0 go through one of x8 to x15, those of quadrant 2 through the stack
/// pointer.
#[tactic(auto, using(crate::proofs::CompressedRows::expansions))]
fn expansion(half: u32) -> Option<FloatInstr>
    ensures { result ≡ float_expansion_of half }
{
    match halfword::quadrant(half) {
        0 => match halfword::funct3(half) {
            1 => Some(load(half, Format::Double, halfword::double_offset(half))),
            3 => Some(load(half, Format::Single, halfword::word_offset(half))),
            5 => Some(store(half, Format::Double, halfword::double_offset(half))),
            7 => Some(store(half, Format::Single, halfword::word_offset(half))),
            _ => None,
        },
        2 => match halfword::funct3(half) {
            1 => Some(load_sp(half, Format::Double, halfword::fldsp_offset(half))),
            3 => Some(load_sp(half, Format::Single, halfword::lwsp_offset(half))),
            5 => Some(store_sp(half, Format::Double, halfword::fsdsp_offset(half))),
            7 => Some(store_sp(half, Format::Single, halfword::swsp_offset(half))),
            _ => None,
        },
        _ => None,
    }
}

fn load(half: u32, format: Format, imm: i32) -> FloatInstr
    ensures { result ≡ FloatInstr.Load format (Halfwords.rs2_prime half) (Halfwords.rs1_prime half) imm }
{
    FloatInstr::Load {
        format,
        rd: halfword::rs2_prime(half),
        rs1: halfword::rs1_prime(half),
        imm,
    }
}

fn store(half: u32, format: Format, imm: i32) -> FloatInstr
    ensures { result ≡ FloatInstr.Store format (Halfwords.rs1_prime half) (Halfwords.rs2_prime half) imm }
{
    FloatInstr::Store {
        format,
        rs1: halfword::rs1_prime(half),
        rs2: halfword::rs2_prime(half),
        imm,
    }
}

fn load_sp(half: u32, format: Format, imm: i32) -> FloatInstr
    ensures { result ≡ FloatInstr.Load format (Halfwords.rd half) 2 imm }
{
    FloatInstr::Load {
        format,
        rd: halfword::rd(half),
        rs1: 2,
        imm,
    }
}

fn store_sp(half: u32, format: Format, imm: i32) -> FloatInstr
    ensures { result ≡ FloatInstr.Store format 2 (Halfwords.rs2 half) imm }
{
    FloatInstr::Store {
        format,
        rs1: 2,
        rs2: halfword::rs2(half),
        imm,
    }
}
