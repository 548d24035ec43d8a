//! Decodes a word of floating point.

ghost use Rattle.std.specs.Prelude.{◌≡◌, ◌≢◌, ◌/◌, ◌^◌, ◌≤◌, ◌<◌, bit_and};
ghost use Rattle.std.specs.Option.{option_and_then};
ghost use Rattle.rv_tables.specs.Fields as Fields;
ghost use Rattle.rv_tables.specs.Operands.{IsFound};
ghost use Rattle.rv_float_tables.specs.Fields.{funct5};
ghost use Rattle.rv_float_tables.specs.Operands.{IsEncodable};
ghost use Rattle.rv_float_tables.specs.Rows.{float_instruction_of, load_of, store_of, fused_of, arithmetic_of, square_root_of, sign_of};
ghost use Rattle.rv_float_tables.specs.Rows.{min_max_of, compare_of, class_of, to_word_of, from_word_of, to_format_of};
ghost use Rattle.rv_float_tables.specs.Rows.{csr_instruction_of, csr_immediate_of};

use crate::instr::{
    ArithmeticOp, CompareOp, CsrOp, FloatInstr, Format, FusedOp, MinMaxOp, SignOp, WordKind,
};
use crate::{fields, listing};

// The row that a word meets, or none: which value it has under the mask of a form.
macro_rules! met {
    (
        [$word:ident] $form:ident $mask:literal:
        [$($value:literal $which:tt $name:literal),*] [$($wide_value:literal $wide_which:tt $wide_name:literal),*];
    ) => {
        match $word & $mask {
            $($value => Some($which),)*
            $($wide_value => Some($wide_which),)*
            _ => None,
        }
    };
}

/// The instruction of floating point that a word spells, or none if the word meets no row, has a reserved rounding mode, or names a control
/// and status register of another kind.
///
/// By the opcode and funct5, and by the rows of their form.
#[tactic(auto, using(crate::proofs::Lookup::by_no_opcode, crate::proofs::RowReads::found_word), unfolding(crate::proofs::Lookup::among, crate::specs::Rows::float_encodings))]
pub fn decode(word: u32) -> Option<FloatInstr>
    ensures { IsFound IsEncodable (float_instruction_of word) result }
{
    match fields::opcode(word) {
        0x07 => load(word),
        0x27 => store(word),
        0x43 | 0x47 | 0x4B | 0x4F => fused(word),
        0x53 => operation(word),
        0x73 => csr(word),
        _ => None,
    }
}

/// The rows of opcode OP-FP, which funct5 distinguishes.
#[tactic(auto, using(crate::proofs::Lookup::by_no_funct5), unfolding(crate::proofs::Lookup::among, crate::specs::Rows::float_encodings))]
fn operation(word: u32) -> Option<FloatInstr>
    requires { Fields.opcode word ≡ 0x53 }
    ensures { result ≡ float_instruction_of word }
{
    match fields::funct5(word) {
        0x00 | 0x01 | 0x02 | 0x03 => arithmetic(word),
        0x04 => sign(word),
        0x05 => min_max(word),
        0x08 => to_format(word),
        0x0B => square_root(word),
        0x14 => compare(word),
        0x18 => to_word(word),
        0x1A => from_word(word),
        0x1C => move_to_integer_or_class(word),
        0x1E => move_from_integer(word),
        _ => None,
    }
}

fn load(word: u32) -> Option<FloatInstr>
    requires { Fields.opcode word ≡ 0x07 }
    ensures { result ≡ float_instruction_of word }
{
    Some(FloatInstr::Load {
        format: load_format(word)?,
        rd: fields::rd(word),
        rs1: fields::rs1(word),
        imm: fields::i_immediate(word),
    })
}

#[tactic(auto, using(crate::proofs::Lookup::by_value), unfolding(crate::proofs::Lookup::among, crate::specs::Rows::float_encodings))]
fn load_format(word: u32) -> Option<Format>
    requires { Fields.opcode word ≡ 0x07 }
    ensures { option_and_then (λ format. load_of format word) result ≡ float_instruction_of word }
{
    listing!(Load; met [word])
}

fn store(word: u32) -> Option<FloatInstr>
    requires { Fields.opcode word ≡ 0x27 }
    ensures { result ≡ float_instruction_of word }
{
    Some(FloatInstr::Store {
        format: store_format(word)?,
        rs1: fields::rs1(word),
        rs2: fields::rs2(word),
        imm: fields::s_immediate(word),
    })
}

#[tactic(auto, using(crate::proofs::Lookup::by_value), unfolding(crate::proofs::Lookup::among, crate::specs::Rows::float_encodings))]
fn store_format(word: u32) -> Option<Format>
    requires { Fields.opcode word ≡ 0x27 }
    ensures { option_and_then (λ format. store_of format word) result ≡ float_instruction_of word }
{
    listing!(Store; met [word])
}

fn fused(word: u32) -> Option<FloatInstr>
    requires { Fields.opcode word / 2 ^ 4 ≡ 4 }
    ensures { result ≡ float_instruction_of word }
{
    let (op, format) = fused_op(word)?;
    Some(FloatInstr::Fused {
        op,
        format,
        rd: fields::rd(word),
        rs1: fields::rs1(word),
        rs2: fields::rs2(word),
        rs3: fields::rs3(word),
        rm: fields::rounding(word)?,
    })
}

#[tactic(auto, using(crate::proofs::Lookup::by_value), unfolding(crate::proofs::Lookup::among, crate::specs::Rows::float_encodings))]
fn fused_op(word: u32) -> Option<(FusedOp, Format)>
    requires { Fields.opcode word / 2 ^ 4 ≡ 4 }
    ensures { option_and_then (λ row. fused_of row.0 row.1 word) result ≡ float_instruction_of word }
{
    listing!(Fused; met [word])
}

fn arithmetic(word: u32) -> Option<FloatInstr>
    requires opcode { Fields.opcode word ≡ 0x53 }
    requires funct5 { funct5 word < 4 }
    ensures { result ≡ float_instruction_of word }
{
    let (op, format) = arithmetic_op(word)?;
    Some(FloatInstr::Arithmetic {
        op,
        format,
        rd: fields::rd(word),
        rs1: fields::rs1(word),
        rs2: fields::rs2(word),
        rm: fields::rounding(word)?,
    })
}

#[tactic(auto, using(crate::proofs::Lookup::by_value), unfolding(crate::proofs::Lookup::among, crate::specs::Rows::float_encodings))]
fn arithmetic_op(word: u32) -> Option<(ArithmeticOp, Format)>
    requires opcode { Fields.opcode word ≡ 0x53 }
    requires funct5 { funct5 word < 4 }
    ensures { option_and_then (λ row. arithmetic_of row.0 row.1 word) result ≡ float_instruction_of word }
{
    listing!(Arithmetic; met [word])
}

fn sign(word: u32) -> Option<FloatInstr>
    requires opcode { Fields.opcode word ≡ 0x53 }
    requires funct5 { funct5 word ≡ 0x04 }
    ensures { result ≡ float_instruction_of word }
{
    let (op, format) = sign_op(word)?;
    Some(FloatInstr::Sign {
        op,
        format,
        rd: fields::rd(word),
        rs1: fields::rs1(word),
        rs2: fields::rs2(word),
    })
}

#[tactic(auto, using(crate::proofs::Lookup::by_value), unfolding(crate::proofs::Lookup::among, crate::specs::Rows::float_encodings))]
fn sign_op(word: u32) -> Option<(SignOp, Format)>
    requires opcode { Fields.opcode word ≡ 0x53 }
    requires funct5 { funct5 word ≡ 0x04 }
    ensures { option_and_then (λ row. sign_of row.0 row.1 word) result ≡ float_instruction_of word }
{
    listing!(Sign; met [word])
}

fn min_max(word: u32) -> Option<FloatInstr>
    requires opcode { Fields.opcode word ≡ 0x53 }
    requires funct5 { funct5 word ≡ 0x05 }
    ensures { result ≡ float_instruction_of word }
{
    let (op, format) = min_max_op(word)?;
    Some(FloatInstr::MinMax {
        op,
        format,
        rd: fields::rd(word),
        rs1: fields::rs1(word),
        rs2: fields::rs2(word),
    })
}

#[tactic(auto, using(crate::proofs::Lookup::by_value), unfolding(crate::proofs::Lookup::among, crate::specs::Rows::float_encodings))]
fn min_max_op(word: u32) -> Option<(MinMaxOp, Format)>
    requires opcode { Fields.opcode word ≡ 0x53 }
    requires funct5 { funct5 word ≡ 0x05 }
    ensures { option_and_then (λ row. min_max_of row.0 row.1 word) result ≡ float_instruction_of word }
{
    listing!(MinMax; met [word])
}

/// The rows of one operand have a second code where the others have rs2: here that of the format that the operand has.
fn to_format(word: u32) -> Option<FloatInstr>
    requires opcode { Fields.opcode word ≡ 0x53 }
    requires funct5 { funct5 word ≡ 0x08 }
    ensures { result ≡ float_instruction_of word }
{
    Some(FloatInstr::ToFormat {
        format: to_format_format(word)?,
        rd: fields::rd(word),
        rs1: fields::rs1(word),
        rm: fields::rounding(word)?,
    })
}

#[tactic(auto, using(crate::proofs::Lookup::by_value), unfolding(crate::proofs::Lookup::among, crate::specs::Rows::float_encodings))]
fn to_format_format(word: u32) -> Option<Format>
    requires opcode { Fields.opcode word ≡ 0x53 }
    requires funct5 { funct5 word ≡ 0x08 }
    ensures { option_and_then (λ format. to_format_of format word) result ≡ float_instruction_of word }
{
    listing!(ToFormat; met [word])
}

fn square_root(word: u32) -> Option<FloatInstr>
    requires opcode { Fields.opcode word ≡ 0x53 }
    requires funct5 { funct5 word ≡ 0x0B }
    ensures { result ≡ float_instruction_of word }
{
    Some(FloatInstr::SquareRoot {
        format: square_root_format(word)?,
        rd: fields::rd(word),
        rs1: fields::rs1(word),
        rm: fields::rounding(word)?,
    })
}

#[tactic(auto, using(crate::proofs::Lookup::by_value), unfolding(crate::proofs::Lookup::among, crate::specs::Rows::float_encodings))]
fn square_root_format(word: u32) -> Option<Format>
    requires opcode { Fields.opcode word ≡ 0x53 }
    requires funct5 { funct5 word ≡ 0x0B }
    ensures { option_and_then (λ format. square_root_of format word) result ≡ float_instruction_of word }
{
    listing!(SquareRoot; met [word])
}

fn compare(word: u32) -> Option<FloatInstr>
    requires opcode { Fields.opcode word ≡ 0x53 }
    requires funct5 { funct5 word ≡ 0x14 }
    ensures { result ≡ float_instruction_of word }
{
    let (op, format) = compare_op(word)?;
    Some(FloatInstr::Compare {
        op,
        format,
        rd: fields::rd(word),
        rs1: fields::rs1(word),
        rs2: fields::rs2(word),
    })
}

#[tactic(auto, using(crate::proofs::Lookup::by_value), unfolding(crate::proofs::Lookup::among, crate::specs::Rows::float_encodings))]
fn compare_op(word: u32) -> Option<(CompareOp, Format)>
    requires opcode { Fields.opcode word ≡ 0x53 }
    requires funct5 { funct5 word ≡ 0x14 }
    ensures { option_and_then (λ row. compare_of row.0 row.1 word) result ≡ float_instruction_of word }
{
    listing!(Compare; met [word])
}

fn to_word(word: u32) -> Option<FloatInstr>
    requires opcode { Fields.opcode word ≡ 0x53 }
    requires funct5 { funct5 word ≡ 0x18 }
    ensures { result ≡ float_instruction_of word }
{
    let (kind, format) = to_word_kind(word)?;
    Some(FloatInstr::ToWord {
        kind,
        format,
        rd: fields::rd(word),
        rs1: fields::rs1(word),
        rm: fields::rounding(word)?,
    })
}

#[tactic(auto, using(crate::proofs::Lookup::by_value), unfolding(crate::proofs::Lookup::among, crate::specs::Rows::float_encodings))]
fn to_word_kind(word: u32) -> Option<(WordKind, Format)>
    requires opcode { Fields.opcode word ≡ 0x53 }
    requires funct5 { funct5 word ≡ 0x18 }
    ensures { option_and_then (λ row. to_word_of row.0 row.1 word) result ≡ float_instruction_of word }
{
    listing!(ToWord; met [word])
}

fn from_word(word: u32) -> Option<FloatInstr>
    requires opcode { Fields.opcode word ≡ 0x53 }
    requires funct5 { funct5 word ≡ 0x1A }
    ensures { result ≡ float_instruction_of word }
{
    let (kind, format) = from_word_kind(word)?;
    Some(FloatInstr::FromWord {
        kind,
        format,
        rd: fields::rd(word),
        rs1: fields::rs1(word),
        rm: fields::rounding(word)?,
    })
}

#[tactic(auto, using(crate::proofs::Lookup::by_value), unfolding(crate::proofs::Lookup::among, crate::specs::Rows::float_encodings))]
fn from_word_kind(word: u32) -> Option<(WordKind, Format)>
    requires opcode { Fields.opcode word ≡ 0x53 }
    requires funct5 { funct5 word ≡ 0x1A }
    ensures { option_and_then (λ row. from_word_of row.0 row.1 word) result ≡ float_instruction_of word }
{
    listing!(FromWord; met [word])
}

#[tactic(auto, using(crate::proofs::Lookup::by_value), unfolding(crate::proofs::Lookup::among, crate::specs::Rows::float_encodings))]
fn move_to_integer_or_class(word: u32) -> Option<FloatInstr>
    requires opcode { Fields.opcode word ≡ 0x53 }
    requires funct5 { funct5 word ≡ 0x1C }
    ensures { result ≡ float_instruction_of word }
{
    match listing!(MoveToInteger; met [word]) {
        Some(()) => Some(FloatInstr::MoveToInteger {
            rd: fields::rd(word),
            rs1: fields::rs1(word),
        }),
        None => class(word),
    }
}

fn class(word: u32) -> Option<FloatInstr>
    requires opcode { Fields.opcode word ≡ 0x53 }
    requires funct5 { funct5 word ≡ 0x1C }
    requires no_move { bit_and word 0xFFF0707F ≢ 0xE0000053 }
    ensures { result ≡ float_instruction_of word }
{
    Some(FloatInstr::Class {
        format: class_format(word)?,
        rd: fields::rd(word),
        rs1: fields::rs1(word),
    })
}

#[tactic(auto, using(crate::proofs::Lookup::by_value), unfolding(crate::proofs::Lookup::among, crate::specs::Rows::float_encodings))]
fn class_format(word: u32) -> Option<Format>
    requires opcode { Fields.opcode word ≡ 0x53 }
    requires funct5 { funct5 word ≡ 0x1C }
    requires no_move { bit_and word 0xFFF0707F ≢ 0xE0000053 }
    ensures { option_and_then (λ format. class_of format word) result ≡ float_instruction_of word }
{
    listing!(Class; met [word])
}

#[tactic(auto, using(crate::proofs::Lookup::by_value), unfolding(crate::proofs::Lookup::among, crate::specs::Rows::float_encodings))]
fn move_from_integer(word: u32) -> Option<FloatInstr>
    requires opcode { Fields.opcode word ≡ 0x53 }
    requires funct5 { funct5 word ≡ 0x1E }
    ensures { result ≡ float_instruction_of word }
{
    let () = listing!(MoveFromInteger; met [word])?;
    Some(FloatInstr::MoveFromInteger {
        rd: fields::rd(word),
        rs1: fields::rs1(word),
    })
}

/// A row with an immediate has bit 2 of funct3, and one with a register has not.
fn csr(word: u32) -> Option<FloatInstr>
    requires { Fields.opcode word ≡ 0x73 }
    ensures { result ≡ float_instruction_of word }
{
    if fields::funct3(word) < 4 {
        csr_register(word)
    } else {
        csr_immediate(word)
    }
}

fn csr_register(word: u32) -> Option<FloatInstr>
    requires opcode { Fields.opcode word ≡ 0x73 }
    requires funct3 { Fields.funct3 word < 4 }
    ensures { result ≡ float_instruction_of word }
{
    Some(FloatInstr::Csr {
        op: csr_op(word)?,
        csr: fields::csr(word)?,
        rd: fields::rd(word),
        rs1: fields::rs1(word),
    })
}

#[tactic(auto, using(crate::proofs::Lookup::by_value), unfolding(crate::proofs::Lookup::among, crate::specs::Rows::float_encodings))]
fn csr_op(word: u32) -> Option<CsrOp>
    requires opcode { Fields.opcode word ≡ 0x73 }
    requires funct3 { Fields.funct3 word < 4 }
    ensures { option_and_then (λ op. csr_instruction_of op word) result ≡ float_instruction_of word }
{
    listing!(Csr; met [word])
}

fn csr_immediate(word: u32) -> Option<FloatInstr>
    requires opcode { Fields.opcode word ≡ 0x73 }
    requires funct3 { 4 ≤ Fields.funct3 word }
    ensures { result ≡ float_instruction_of word }
{
    Some(FloatInstr::CsrImmediate {
        op: csr_immediate_op(word)?,
        csr: fields::csr(word)?,
        rd: fields::rd(word),
        imm: fields::uimm(word),
    })
}

#[tactic(auto, using(crate::proofs::Lookup::by_value), unfolding(crate::proofs::Lookup::among, crate::specs::Rows::float_encodings))]
fn csr_immediate_op(word: u32) -> Option<CsrOp>
    requires opcode { Fields.opcode word ≡ 0x73 }
    requires funct3 { 4 ≤ Fields.funct3 word }
    ensures { option_and_then (λ op. csr_immediate_of op word) result ≡ float_instruction_of word }
{
    listing!(CsrImmediate; met [word])
}
