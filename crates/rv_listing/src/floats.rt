//! Statements of floating-point instructions.

ghost use Rattle.std.specs.Prelude.{◌≡◌, ◌++◌, codes};
ghost use Rattle.std.specs.List.{flat_map};
ghost use Rattle.rv_listing.specs.FloatOperands.{float_operand_texts, rounding_operands};
ghost use Rattle.rv_listing.specs.Floats.{float_operands_of, unless_dyn, unless_rne, rounding_to};

use crate::statement::Operand;
use FloatOperand::{Csr, Float, Other};
use FloatOperands::{Four, Three, Two};
use rv_float_tables::{FloatCsr, FloatInstr, Format, RoundingField, csr_name, mnemonic};
use std::fmt;

/// An instruction of floating point. Its text is its mnemonic and its operands.
#[derive(Clone, Copy)]
pub(crate) struct FloatInstruction(pub(crate) FloatInstr);

impl fmt::Display for FloatInstruction {
    ghost use Rattle.std.specs.Prelude.{Some};
    ghost use Rattle.rv_listing.specs.Floats.{float_instruction_text};

    ghost output = { λ s. Some (float_instruction_text s.0) };

    fn fmt<W: fmt::Write>(&self, f: &mut fmt::Formatter<W>) -> fmt::Result {
        let name = mnemonic(&self.0);
        let operands = float_operands_of(self.0);
        let rounding = rounding_of(self.0);
        write!(f, "{name}{operands}{rounding}")
    }
}

/// The operands of an instruction, but for its rounding mode. Their text begins with a blank.
#[derive(Clone, Copy)]
enum FloatOperands {
    Two(FloatOperand, FloatOperand),
    Three(FloatOperand, FloatOperand, FloatOperand),
    Four(FloatOperand, FloatOperand, FloatOperand, FloatOperand),
}

impl fmt::Display for FloatOperands {
    ghost use Rattle.std.specs.Prelude.{Some};
    ghost use Rattle.rv_listing.specs.FloatOperands.{float_operand_texts};
    ghost use Rattle.rv_listing.specs.Statement.{operand_list};

    ghost output = { λ operands. Some (operand_list (float_operand_texts operands)) };

    fn fmt<W: fmt::Write>(&self, f: &mut fmt::Formatter<W>) -> fmt::Result {
        match *self {
            Two(first, last) => write!(f, " {first},{last}"),
            Three(first, second, last) => write!(f, " {first},{second},{last}"),
            Four(first, second, third, last) => write!(f, " {first},{second},{third},{last}"),
        }
    }
}

/// The operands of an instruction, but for its rounding mode.
fn float_operands_of(instr: FloatInstr) -> FloatOperands
    ensures { float_operand_texts result ++ rounding_operands instr ≡ float_operands_of instr }
{
    match instr {
        FloatInstr::Load { rd, rs1, imm, .. } => {
            Two(Float(rd), Other(Operand::Relative { imm, base: rs1 }))
        }
        FloatInstr::Store { rs1, rs2, imm, .. } => {
            Two(Float(rs2), Other(Operand::Relative { imm, base: rs1 }))
        }
        FloatInstr::Fused {
            rd,
            rs1,
            rs2,
            rs3,
            ..
        } => { Four(Float(rd), Float(rs1), Float(rs2), Float(rs3)) }
        FloatInstr::Arithmetic { rd, rs1, rs2, .. }
        | FloatInstr::Sign { rd, rs1, rs2, .. }
        | FloatInstr::MinMax { rd, rs1, rs2, .. } => Three(Float(rd), Float(rs1), Float(rs2)),
        FloatInstr::SquareRoot { rd, rs1, .. } | FloatInstr::ToFormat { rd, rs1, .. } => {
            Two(Float(rd), Float(rs1))
        }
        FloatInstr::Compare { rd, rs1, rs2, .. } => {
            Three(Other(Operand::Register(rd)), Float(rs1), Float(rs2))
        }
        FloatInstr::Class { rd, rs1, .. }
        | FloatInstr::ToWord { rd, rs1, .. }
        | FloatInstr::MoveToInteger { rd, rs1 } => Two(Other(Operand::Register(rd)), Float(rs1)),
        FloatInstr::FromWord { rd, rs1, .. } | FloatInstr::MoveFromInteger { rd, rs1 } => {
            Two(Float(rd), Other(Operand::Register(rs1)))
        }
        FloatInstr::Csr { csr, rd, rs1, .. } => {
            Three(
                Other(Operand::Register(rd)),
                Csr(csr),
                Other(Operand::Register(rs1)),
            )
        }
        FloatInstr::CsrImmediate { csr, rd, imm, .. } => {
            Three(
                Other(Operand::Register(rd)),
                Csr(csr),
                Other(Operand::Number(i32::from(imm))),
            )
        }
    }
}

/// What is after the other operands for the rounding mode of an instruction, if it is written.
fn rounding_of(instr: FloatInstr) -> &'static str
    ensures { result.now ≡ flat_map (λ operand. codes "," ++ operand) (rounding_operands instr) }
{
    match instr {
        FloatInstr::Fused { rm, .. }
        | FloatInstr::Arithmetic { rm, .. }
        | FloatInstr::SquareRoot { rm, .. }
        | FloatInstr::ToWord { rm, .. } => unless_dyn(rm),
        FloatInstr::FromWord { format, rm, .. } | FloatInstr::ToFormat { format, rm, .. } => {
            rounding_to(format, rm)
        }
        _ => "",
    }
}

/// An operand of an instruction of floating point.
#[derive(Clone, Copy)]
enum FloatOperand {
    /// A register of floating point.
    Float(u8),
    Csr(FloatCsr),
    /// One as other instructions have them.
    Other(Operand),
}

impl fmt::Display for FloatOperand {
    ghost use Rattle.std.specs.Prelude.{Some};
    ghost use Rattle.rv_listing.specs.FloatOperands.{float_operand_text};

    ghost output = { λ operand. Some (float_operand_text operand) };

    fn fmt<W: fmt::Write>(&self, f: &mut fmt::Formatter<W>) -> fmt::Result {
        match *self {
            FloatOperand::Float(number) => write!(f, "f{number}"),
            FloatOperand::Csr(csr) => write!(f, "{}", csr_name(csr)),
            FloatOperand::Other(operand) => write!(f, "{operand}"),
        }
    }
}

/// What is after the other operands for the rounding mode of a row that makes a value of a format of a word, or of one of the other format:
/// doubles hold each of these exactly.
fn rounding_to(format: Format, rm: RoundingField) -> &'static str
    ensures { result.now ≡ flat_map (λ operand. codes "," ++ operand) (rounding_to format rm) }
{
    match format {
        Format::Single => unless_dyn(rm),
        Format::Double => unless_rne(rm),
    }
}

/// What stands there for a rounding mode that is not that of `frm`.
fn unless_dyn(rm: RoundingField) -> &'static str
    ensures { result.now ≡ flat_map (λ operand. codes "," ++ operand) (unless_dyn rm) }
{
    match rm {
        RoundingField::Rne => ",rne",
        RoundingField::Rtz => ",rtz",
        RoundingField::Rdn => ",rdn",
        RoundingField::Rup => ",rup",
        RoundingField::Rmm => ",rmm",
        RoundingField::Dyn => "",
    }
}

/// What stands there for a rounding mode that is not to nearest.
fn unless_rne(rm: RoundingField) -> &'static str
    ensures { result.now ≡ flat_map (λ operand. codes "," ++ operand) (unless_rne rm) }
{
    match rm {
        RoundingField::Rne => "",
        RoundingField::Rtz => ",rtz",
        RoundingField::Rdn => ",rdn",
        RoundingField::Rup => ",rup",
        RoundingField::Rmm => ",rmm",
        RoundingField::Dyn => ",dyn",
    }
}
