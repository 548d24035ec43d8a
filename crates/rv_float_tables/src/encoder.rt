//! Encodes a floating-point instruction as a word.

ghost use Rattle.std.specs.Prelude.{◌≡◌, ◌++◌, codes, Some};
ghost use Rattle.rv_tables.specs.Words.{IsEncoded};
ghost use Rattle.rv_float_tables.specs.Mnemonics.{of_format, load_mnemonic, store_mnemonic, fused_mnemonic, arithmetic_mnemonic};
ghost use Rattle.rv_float_tables.specs.Mnemonics.{sign_mnemonic, min_max_mnemonic, compare_mnemonic, to_word_mnemonic, from_word_mnemonic};
ghost use Rattle.rv_float_tables.specs.Mnemonics.{to_format_mnemonic, csr_mnemonic};
ghost use Rattle.rv_float_tables.specs.Operands.{IsEncodable};
ghost use Rattle.rv_float_tables.specs.Rows.{float_instruction_of, load_of, store_of, fused_of, arithmetic_of, square_root_of, sign_of};
ghost use Rattle.rv_float_tables.specs.Rows.{min_max_of, compare_of, class_of, to_word_of, from_word_of, to_format_of};
ghost use Rattle.rv_float_tables.specs.Rows.{csr_instruction_of, csr_immediate_of};
ghost use Rattle.rv_float_tables.specs.Words.{IsRowValue};
ghost use Rattle.rv_float_tables.specs.declared.instr.FloatForm.TheVariants as form;

use crate::fields::{csr_number, rounding_code};
use crate::instr::{
    ArithmeticOp, CompareOp, CsrOp, FloatInstr, Format, FusedOp, MinMaxOp, SignOp, WordKind,
};
use crate::{listing, words};

// The value of a row.
macro_rules! value_of {
    (
        [$row:tt] $form:ident $mask:literal:
        [$($value:literal $which:tt $name:literal),*] [$($wide_value:literal $wide_which:tt $wide_name:literal),*];
    ) => {
        match $row {
            $($which => $value,)*
            $($wide_which => $wide_value,)*
        }
    };
}

/// The word of an instruction, or none if a register or an immediate does not fit its field.
///
/// Each instruction has one word.
pub fn encode(instr: &FloatInstr) -> Option<u32>
    ensures { IsEncoded (IsEncodable instr.now) (λ w. float_instruction_of w ≡ Some instr.now) result }
{
    match *instr {
        FloatInstr::Load {
            format,
            rd,
            rs1,
            imm,
        } => words::i_word(load_value(format), rd, rs1, imm),
        FloatInstr::Store {
            format,
            rs1,
            rs2,
            imm,
        } => words::s_word(store_value(format), rs1, rs2, imm),
        FloatInstr::Fused {
            op,
            format,
            rd,
            rs1,
            rs2,
            rs3,
            rm,
        } => {
            words::r4_word(
                fused_value(op, format),
                rd,
                rounding_code(rm),
                rs1,
                rs2,
                rs3,
            )
        }
        FloatInstr::Arithmetic {
            op,
            format,
            rd,
            rs1,
            rs2,
            rm,
        } => {
            words::rounded_word(
                arithmetic_value(op, format),
                rd,
                rounding_code(rm),
                rs1,
                rs2,
            )
        }
        FloatInstr::SquareRoot {
            format,
            rd,
            rs1,
            rm,
        } => { words::rounded_unary_word(square_root_value(format), rd, rounding_code(rm), rs1) }
        FloatInstr::Sign {
            op,
            format,
            rd,
            rs1,
            rs2,
        } => words::r_word(sign_value(op, format), rd, rs1, rs2),
        FloatInstr::MinMax {
            op,
            format,
            rd,
            rs1,
            rs2,
        } => words::r_word(min_max_value(op, format), rd, rs1, rs2),
        FloatInstr::Compare {
            op,
            format,
            rd,
            rs1,
            rs2,
        } => words::r_word(compare_value(op, format), rd, rs1, rs2),
        FloatInstr::Class { format, rd, rs1 } => words::unary_word(class_value(format), rd, rs1),
        FloatInstr::ToWord {
            kind,
            format,
            rd,
            rs1,
            rm,
        } => { words::rounded_unary_word(to_word_value(kind, format), rd, rounding_code(rm), rs1) }
        FloatInstr::FromWord {
            kind,
            format,
            rd,
            rs1,
            rm,
        } => {
            words::rounded_unary_word(from_word_value(kind, format), rd, rounding_code(rm), rs1)
        }
        FloatInstr::ToFormat {
            format,
            rd,
            rs1,
            rm,
        } => { words::rounded_unary_word(to_format_value(format), rd, rounding_code(rm), rs1) }
        FloatInstr::MoveToInteger { rd, rs1 } => {
            words::unary_word(listing!(MoveToInteger; value_of [()]), rd, rs1)
        }
        FloatInstr::MoveFromInteger { rd, rs1 } => {
            words::unary_word(listing!(MoveFromInteger; value_of [()]), rd, rs1)
        }
        FloatInstr::Csr { op, csr, rd, rs1 } => words::csr_word(
            csr_value(op),
            rd,
            rs1,
            csr_number(csr),
        ),
        FloatInstr::CsrImmediate { op, csr, rd, imm } => {
            words::csr_word(csr_immediate_value(op), rd, imm, csr_number(csr))
        }
    }
}

// The value of each form's rows, by what tells them apart.

#[tactic(auto, unfolding(crate::specs::Mnemonics::float_row_named, crate::specs::Rows::float_encodings))]
fn load_value(format: Format) -> u32
    ensures { IsRowValue 0x707F form.Load (load_of format) (load_mnemonic format) result }
{
    listing!(Load; value_of [format])
}

#[tactic(auto, unfolding(crate::specs::Mnemonics::float_row_named, crate::specs::Rows::float_encodings))]
fn store_value(format: Format) -> u32
    ensures { IsRowValue 0x707F form.Store (store_of format) (store_mnemonic format) result }
{
    listing!(Store; value_of [format])
}

#[tactic(auto, unfolding(crate::specs::Mnemonics::float_row_named, crate::specs::Rows::float_encodings))]
fn fused_value(op: FusedOp, format: Format) -> u32
    ensures { IsRowValue 0x600007F form.Fused (fused_of op format) (fused_mnemonic op format) result }
{
    listing!(Fused; value_of [(op, format)])
}

#[tactic(auto, unfolding(crate::specs::Mnemonics::float_row_named, crate::specs::Rows::float_encodings))]
fn arithmetic_value(op: ArithmeticOp, format: Format) -> u32
    ensures { IsRowValue 0xFE00007F form.Arithmetic (arithmetic_of op format) (arithmetic_mnemonic op format) result }
{
    listing!(Arithmetic; value_of [(op, format)])
}

#[tactic(auto, unfolding(crate::specs::Mnemonics::float_row_named, crate::specs::Rows::float_encodings))]
fn square_root_value(format: Format) -> u32
    ensures { IsRowValue 0xFFF0007F form.SquareRoot (square_root_of format) (of_format (codes "fsqrt") format) result }
{
    listing!(SquareRoot; value_of [format])
}

#[tactic(auto, unfolding(crate::specs::Mnemonics::float_row_named, crate::specs::Rows::float_encodings))]
fn sign_value(op: SignOp, format: Format) -> u32
    ensures { IsRowValue 0xFE00707F form.Sign (sign_of op format) (sign_mnemonic op format) result }
{
    listing!(Sign; value_of [(op, format)])
}

#[tactic(auto, unfolding(crate::specs::Mnemonics::float_row_named, crate::specs::Rows::float_encodings))]
fn min_max_value(op: MinMaxOp, format: Format) -> u32
    ensures { IsRowValue 0xFE00707F form.MinMax (min_max_of op format) (min_max_mnemonic op format) result }
{
    listing!(MinMax; value_of [(op, format)])
}

#[tactic(auto, unfolding(crate::specs::Mnemonics::float_row_named, crate::specs::Rows::float_encodings))]
fn compare_value(op: CompareOp, format: Format) -> u32
    ensures { IsRowValue 0xFE00707F form.Compare (compare_of op format) (compare_mnemonic op format) result }
{
    listing!(Compare; value_of [(op, format)])
}

#[tactic(auto, unfolding(crate::specs::Mnemonics::float_row_named, crate::specs::Rows::float_encodings))]
fn class_value(format: Format) -> u32
    ensures { IsRowValue 0xFFF0707F form.Class (class_of format) (of_format (codes "fclass") format) result }
{
    listing!(Class; value_of [format])
}

#[tactic(auto, unfolding(crate::specs::Mnemonics::float_row_named, crate::specs::Rows::float_encodings))]
fn to_word_value(kind: WordKind, format: Format) -> u32
    ensures { IsRowValue 0xFFF0007F form.ToWord (to_word_of kind format) (to_word_mnemonic kind format) result }
{
    listing!(ToWord; value_of [(kind, format)])
}

#[tactic(auto, unfolding(crate::specs::Mnemonics::float_row_named, crate::specs::Rows::float_encodings))]
fn from_word_value(kind: WordKind, format: Format) -> u32
    ensures { IsRowValue 0xFFF0007F form.FromWord (from_word_of kind format) (from_word_mnemonic kind format) result }
{
    listing!(FromWord; value_of [(kind, format)])
}

#[tactic(auto, unfolding(crate::specs::Mnemonics::float_row_named, crate::specs::Rows::float_encodings))]
fn to_format_value(format: Format) -> u32
    ensures { IsRowValue 0xFFF0007F form.ToFormat (to_format_of format) (to_format_mnemonic format) result }
{
    listing!(ToFormat; value_of [format])
}

#[tactic(auto, unfolding(crate::specs::Mnemonics::float_row_named, crate::specs::Rows::float_encodings))]
fn csr_value(op: CsrOp) -> u32
    ensures { IsRowValue 0x707F form.Csr (csr_instruction_of op) (csr_mnemonic op) result }
{
    listing!(Csr; value_of [op])
}

#[tactic(auto, unfolding(crate::specs::Mnemonics::float_row_named, crate::specs::Rows::float_encodings))]
fn csr_immediate_value(op: CsrOp) -> u32
    ensures { IsRowValue 0x707F form.CsrImmediate (csr_immediate_of op) (csr_mnemonic op ++ codes "i") result }
{
    listing!(CsrImmediate; value_of [op])
}
