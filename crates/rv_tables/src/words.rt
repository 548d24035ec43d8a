//! The words of the base formats: a row's value, and operands in the bits that the value leaves free.

ghost use Rattle.std.specs.Prelude.{◌≡◌, ◌+◌, ◌*◌, ◌^◌, ◌<◌, bit_and};
ghost use Rattle.rv_tables.specs.Fields as Fields;
ghost use Rattle.rv_tables.specs.Operands.{IsRegister, IsImmediate, IsBranchOffset, IsJumpOffset};
ghost use Rattle.rv_tables.specs.Words.{IsRWord, IsIWord, IsSWord, IsBWord, IsUWord, IsJWord, IsEncoded};

use crate::fields::bits;

/// The word of an R-type row, or of a shift by an amount in the word, which stands where `rs2` does.
#[tactic(auto, using(crate::proofs::Masks::under_FE00707F))]
pub fn r_word(value: u32, rd: u8, rs1: u8, rs2: u8) -> Option<u32>
    requires { bit_and value 0xFE00707F ≡ value }
    ensures { IsEncoded (IsRegister rd × IsRegister rs1 × IsRegister rs2) (IsRWord value rd rs1 rs2) result }
{
    if rd >= 32 || rs1 >= 32 || rs2 >= 32 {
        return None;
    }
    Some(value + (u32::from(rd) << 7) + (u32::from(rs1) << 15) + (u32::from(rs2) << 20))
}

/// The word of an I-type row.
#[tactic(auto, using(crate::proofs::Masks::under_707F))]
pub fn i_word(value: u32, rd: u8, rs1: u8, imm: i32) -> Option<u32>
    requires { bit_and value 0x707F ≡ value }
    ensures { IsEncoded (IsRegister rd × IsRegister rs1 × IsImmediate imm) (IsIWord value rd rs1 imm) result }
{
    if rd >= 32 || rs1 >= 32 || !(-2048..2048).contains(&imm) {
        return None;
    }
    let field = imm.cast_unsigned();
    Some(value + (u32::from(rd) << 7) + (u32::from(rs1) << 15) + (bits(field, 11, 0) << 20))
}

/// The word of an S-type row.
#[tactic(auto, using(crate::proofs::Masks::under_707F))]
pub fn s_word(value: u32, rs1: u8, rs2: u8, imm: i32) -> Option<u32>
    requires { bit_and value 0x707F ≡ value }
    ensures { IsEncoded (IsRegister rs1 × IsRegister rs2 × IsImmediate imm) (IsSWord value rs1 rs2 imm) result }
{
    if rs1 >= 32 || rs2 >= 32 || !(-2048..2048).contains(&imm) {
        return None;
    }
    let field = imm.cast_unsigned();
    let immediate = (bits(field, 11, 5) << 25) + (bits(field, 4, 0) << 7);
    Some(value + (u32::from(rs1) << 15) + (u32::from(rs2) << 20) + immediate)
}

/// The word of a B-type row.
pub fn b_word(value: u32, rs1: u8, rs2: u8, imm: i32) -> Option<u32>
    requires { bit_and value 0x707F ≡ value }
    ensures { IsEncoded (IsRegister rs1 × IsRegister rs2 × IsBranchOffset imm) (IsBWord value rs1 rs2 imm) result }
{
    if rs1 >= 32 || rs2 >= 32 || !(-4096..4096).contains(&imm) || imm % 2 != 0 {
        return None;
    }
    Some(value + (u32::from(rs1) << 15) + (u32::from(rs2) << 20) + b_bits(imm))
}

/// The bits of a B-type word in which its offset stands.
fn b_bits(imm: i32) -> u32
    requires { IsBranchOffset imm }
    ensures offset { Fields.b_immediate result ≡ imm }
    ensures alone { result ≡ Fields.bits result 31 25 * 2 ^ 25 + Fields.bits result 11 7 * 2 ^ 7 }
{
    let field = imm.cast_unsigned();
    let high = (bits(field, 12, 12) << 31) + (bits(field, 10, 5) << 25);
    let low = (bits(field, 4, 1) << 8) + (bits(field, 11, 11) << 7);
    high + low
}

/// The word of a U-type row.
pub fn u_word(value: u32, rd: u8, imm: u32) -> Option<u32>
    requires { bit_and value 0x7F ≡ value }
    ensures { IsEncoded (IsRegister rd × (imm < 2 ^ 20)) (IsUWord value rd imm) result }
{
    if rd >= 32 || imm >= 1 << 20 {
        return None;
    }
    Some(value + (u32::from(rd) << 7) + (imm << 12))
}

/// The word of a J-type row.
pub fn j_word(value: u32, rd: u8, imm: i32) -> Option<u32>
    requires { bit_and value 0x7F ≡ value }
    ensures { IsEncoded (IsRegister rd × IsJumpOffset imm) (IsJWord value rd imm) result }
{
    if rd >= 32 || !(-0x10_0000..0x10_0000).contains(&imm) || imm % 2 != 0 {
        return None;
    }
    Some(value + (u32::from(rd) << 7) + j_bits(imm))
}

/// The bits of a J-type word in which its offset stands.
fn j_bits(imm: i32) -> u32
    requires { IsJumpOffset imm }
    ensures offset { Fields.j_immediate result ≡ imm }
    ensures alone { result ≡ Fields.bits result 31 12 * 2 ^ 12 }
{
    let field = imm.cast_unsigned();
    let high = (bits(field, 20, 20) << 31) + (bits(field, 10, 1) << 21);
    let low = (bits(field, 11, 11) << 20) + (bits(field, 19, 12) << 12);
    high + low
}
