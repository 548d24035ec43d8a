//! The statements of the language by their mnemonics.

ghost use Rattle.std.specs.Prelude.{◌≡◌};
ghost use Rattle.asm_syntax.specs.Forms.{form_named, integer_form_named, extension_form_named, form_of, atomic_form_of, own_form_named};

use crate::float_form::{FloatForm, float_form_named};
use rv_atomics::{AmoOp, AtomicInstr, Extensions, Order, atomic_named};
use rv_tables::{
    BranchOp, IOp, Instr, LoadOp, PlainOp, ROp, ShiftOp, StoreOp, UpperOp, instr_named, named,
};

/// A statement of the language by its mnemonic: what it makes, and so which operands it takes.
#[derive(Clone, Copy)]
pub(crate) enum Form {
    /// A row on three registers.
    Arithmetic(ROp),
    /// A row on a register and an immediate.
    WithImmediate(IOp),
    /// A shift by an amount in the word.
    ShiftByAmount(ShiftOp),
    LoadFrom(LoadOp),
    StoreTo(StoreOp),
    BranchTo(BranchOp),
    /// `lui` and `auipc`.
    UpperImmediate(UpperOp),
    JumpAndLink,
    JumpAndLinkRegister,
    NoOperands(PlainOp),
    /// `.word`.
    WordData,
    /// `.half`.
    HalfData,
    /// `.byte`.
    ByteData,
    /// `.ascii`.
    TextData,
    /// `.space`.
    ZeroData,
    /// `.align`.
    AlignData,
    /// `.entry`.
    EntryPoint,
    Nop,
    Move,
    LoadImmediate,
    LoadAddress,
    /// `j`.
    Jump,
    /// `jr`.
    JumpRegister,
    /// `ret`.
    Return,
    Call,
    /// `beqz`.
    BranchIfZero,
    /// `bnez`.
    BranchIfNotZero,
    /// One of floating point.
    Float(FloatForm),
    /// `lr.w`, and the same with `.aq`, `.rl` or `.aqrl`.
    LoadReserved(Order),
    /// `sc.w`, likewise.
    StoreConditional(Order),
    /// `amoadd.w` and its kin, likewise.
    AtomicMemory(AmoOp, Order),
}

/// The statements of data and the pseudo-instructions.
static OWN_FORMS: [(&str, Form); 17] = [
    (".word", Form::WordData),
    (".half", Form::HalfData),
    (".byte", Form::ByteData),
    (".ascii", Form::TextData),
    (".space", Form::ZeroData),
    (".align", Form::AlignData),
    (".entry", Form::EntryPoint),
    ("nop", Form::Nop),
    ("mv", Form::Move),
    ("li", Form::LoadImmediate),
    ("la", Form::LoadAddress),
    ("j", Form::Jump),
    ("jr", Form::JumpRegister),
    ("ret", Form::Return),
    ("call", Form::Call),
    ("beqz", Form::BranchIfZero),
    ("bnez", Form::BranchIfNotZero),
];

/// The statement with a mnemonic. Those of extensions are among them if the language has these.
pub(crate) fn form_named(extensions: Extensions, mnemonic: &[u8]) -> Option<Form>
    ensures { result ≡ form_named extensions mnemonic.now }
{
    match integer_form_named(mnemonic) {
        None => extension_form_named(extensions, mnemonic),
        form => form,
    }
}

/// The statement with a mnemonic, if it is of an extension that the language has.
fn extension_form_named(extensions: Extensions, mnemonic: &[u8]) -> Option<Form>
    ensures { result ≡ extension_form_named extensions mnemonic.now }
{
    let of_floats = if extensions.float {
        float_form_named(mnemonic).map(Form::Float)
    } else {
        None
    };
    match of_floats {
        None if extensions.atomic => atomic_named(mnemonic).map(atomic_form_of),
        form => form,
    }
}

/// The statement of an instruction of A.
fn atomic_form_of(instr: AtomicInstr) -> Form
    ensures { result ≡ atomic_form_of instr }
{
    match instr {
        AtomicInstr::LoadReserved { order, .. } => Form::LoadReserved(order),
        AtomicInstr::StoreConditional { order, .. } => Form::StoreConditional(order),
        AtomicInstr::Amo { op, order, .. } => Form::AtomicMemory(op, order),
    }
}

/// The statement with a mnemonic, if it is of no extension.
#[tactic(auto, using(crate::proofs::FormNames::integer_form_parts))]
fn integer_form_named(mnemonic: &[u8]) -> Option<Form>
    ensures { result ≡ integer_form_named mnemonic.now }
{
    match instr_named(mnemonic) {
        Some(instr) => Some(form_of(instr)),
        None => own_form_named(mnemonic),
    }
}

/// The statement of an instruction.
fn form_of(instr: Instr) -> Form
    ensures { result ≡ form_of instr }
{
    match instr {
        Instr::R { op, .. } => Form::Arithmetic(op),
        Instr::I { op, .. } => Form::WithImmediate(op),
        Instr::Shift { op, .. } => Form::ShiftByAmount(op),
        Instr::Load { op, .. } => Form::LoadFrom(op),
        Instr::Store { op, .. } => Form::StoreTo(op),
        Instr::Branch { op, .. } => Form::BranchTo(op),
        Instr::Upper { op, .. } => Form::UpperImmediate(op),
        Instr::Jal { .. } => Form::JumpAndLink,
        Instr::Jalr { .. } => Form::JumpAndLinkRegister,
        Instr::Plain { op } => Form::NoOperands(op),
    }
}

/// The statement with a mnemonic, if it is of data or a pseudo-instruction.
fn own_form_named(mnemonic: &[u8]) -> Option<Form>
    ensures { result ≡ own_form_named mnemonic.now }
{
    named(&OWN_FORMS, mnemonic)
}
