//! The words of the formats that integer instructions do not have: a row's value, and operands in the bits that the value leaves free.

ghost use Rattle.std.specs.Prelude.{◌≡◌, ◌^◌, ◌<◌, bit_and};
ghost use Rattle.rv_tables.specs.Operands.{IsRegister};
ghost use Rattle.rv_tables.specs.Words.{IsEncoded};
ghost use Rattle.rv_float_tables.specs.Words.{IsR4Word, IsRoundedWord, IsRoundedUnaryWord, IsUnaryWord, IsCsrWord};

pub use rv_tables::words::{i_word, r_word, s_word};

/// The word of an R4-type row, which has a third operand, and a rounding mode where funct3 stands in others.
#[tactic(auto, using(crate::proofs::Masks::under_600007F))]
pub fn r4_word(value: u32, rd: u8, rm: u32, rs1: u8, rs2: u8, rs3: u8) -> Option<u32>
    requires value { bit_and value 0x600007F ≡ value }
    requires rm { rm < 2 ^ 3 }
    ensures { IsEncoded (IsRegister rd × IsRegister rs1 × IsRegister rs2 × IsRegister rs3) (IsR4Word value rd rm rs1 rs2 rs3) result }
{
    if rd >= 32 || rs1 >= 32 || rs2 >= 32 || rs3 >= 32 {
        return None;
    }
    let registers = (u32::from(rd) << 7) + (u32::from(rs1) << 15) + (u32::from(rs2) << 20);
    Some(value + (rm << 12) + registers + (u32::from(rs3) << 27))
}

/// The word of an R-type row with a rounding mode.
#[tactic(auto, using(crate::proofs::Masks::under_FE00007F))]
pub fn rounded_word(value: u32, rd: u8, rm: u32, rs1: u8, rs2: u8) -> Option<u32>
    requires value { bit_and value 0xFE00007F ≡ value }
    requires rm { rm < 2 ^ 3 }
    ensures { IsEncoded (IsRegister rd × IsRegister rs1 × IsRegister rs2) (IsRoundedWord value rd rm rs1 rs2) result }
{
    if rd >= 32 || rs1 >= 32 || rs2 >= 32 {
        return None;
    }
    Some(
        value + (rm << 12) + (u32::from(rd) << 7) + (u32::from(rs1) << 15) + (u32::from(rs2) << 20),
    )
}

/// The word of an R-type row with a rounding mode and one operand.
#[tactic(auto, using(crate::proofs::Masks::under_FFF0007F))]
pub fn rounded_unary_word(value: u32, rd: u8, rm: u32, rs1: u8) -> Option<u32>
    requires value { bit_and value 0xFFF0007F ≡ value }
    requires rm { rm < 2 ^ 3 }
    ensures { IsEncoded (IsRegister rd × IsRegister rs1) (IsRoundedUnaryWord value rd rm rs1) result }
{
    if rd >= 32 || rs1 >= 32 {
        return None;
    }
    Some(value + (rm << 12) + (u32::from(rd) << 7) + (u32::from(rs1) << 15))
}

/// The word of an R-type row with one operand.
#[tactic(auto, using(crate::proofs::Masks::under_FFF0707F))]
pub fn unary_word(value: u32, rd: u8, rs1: u8) -> Option<u32>
    requires { bit_and value 0xFFF0707F ≡ value }
    ensures { IsEncoded (IsRegister rd × IsRegister rs1) (IsUnaryWord value rd rs1) result }
{
    if rd >= 32 || rs1 >= 32 {
        return None;
    }
    Some(value + (u32::from(rd) << 7) + (u32::from(rs1) << 15))
}

/// The word of a row on a control and status register. An immediate stands where `rs1` does.
#[tactic(auto, using(rv_tables::proofs::Masks::under_707F))]
pub fn csr_word(value: u32, rd: u8, rs1: u8, csr: u8) -> Option<u32>
    requires { bit_and value 0x707F ≡ value }
    ensures { IsEncoded (IsRegister rd × IsRegister rs1) (IsCsrWord value rd rs1 csr) result }
{
    if rd >= 32 || rs1 >= 32 {
        return None;
    }
    Some(value + (u32::from(rd) << 7) + (u32::from(rs1) << 15) + (u32::from(csr) << 20))
}
