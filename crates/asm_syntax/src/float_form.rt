//! The floating-point statements by their mnemonics, and what each makes of its operands.

ghost use Rattle.std.specs.Prelude.{◌≡◌, option_map};
ghost use Rattle.asm_syntax.specs.FloatForms.{float_forms, float_form_named, float_mnemonic, row_instruction, row_of};
ghost use Rattle.asm_syntax.specs.FloatForms.{kinds_of, row_kinds, exactly, but_for_last, but_for_first, left_out};

use crate::float_operands::{FloatOperands, Kind};
use rv_float_tables::{
    ArithmeticOp, CompareOp, CsrOp, FLOAT_ROW_COUNT, FloatCsr, FloatInstr, Format, FusedOp,
    MinMaxOp, RoundingField, SignOp, WordKind, listing, mnemonic,
};

/// A row of the listings, by what is no operand of it.
#[derive(Clone, Copy)]
pub(crate) enum RowForm {
    Load(Format),
    Store(Format),
    Fused(FusedOp, Format),
    Arithmetic(ArithmeticOp, Format),
    SquareRoot(Format),
    Sign(SignOp, Format),
    MinMax(MinMaxOp, Format),
    Compare(CompareOp, Format),
    Class(Format),
    ToWord(WordKind, Format),
    FromWord(WordKind, Format),
    ToFormat(Format),
    MoveToInteger,
    MoveFromInteger,
    Csr(CsrOp),
    CsrImmediate(CsrOp),
}

/// A statement of floating point by its mnemonic: which instruction it makes, and so which operands it takes.
#[derive(Clone, Copy)]
pub(crate) enum FloatForm {
    Row(RowForm),
    /// `fmv.s` and `fmv.d`.
    Move(Format),
    /// `fneg.s` and `fneg.d`.
    Negate(Format),
    /// `fabs.s` and `fabs.d`.
    Absolute(Format),
    /// `fgt.s` and `fgt.d`: `flt` with its operands in the other order.
    Greater(Format),
    /// `fge.s` and `fge.d`.
    GreaterOrEqual(Format),
    /// `frcsr` and its kin.
    ReadFloatCsr(FloatCsr),
    /// `fscsr` and its kin.
    WriteFloatCsr(FloatCsr),
    /// `fsrmi` and `fsflagsi`.
    WriteFloatCsrImmediate(FloatCsr),
    /// `csrr`.
    ReadCsr,
    /// `csrw`, `csrs`, `csrc`.
    ChangeCsr(CsrOp),
    /// `csrwi`, `csrsi`, `csrci`.
    ChangeCsrImmediate(CsrOp),
}

// The row of a listing, by what tells it from the others of its form.
macro_rules! row_form {
    ($form:ident ()) => { RowForm::$form };
    ($form:ident ($($which:tt)*)) => { RowForm::$form($($which)*) };
}

// A statement for each row, and the pseudo-instructions.
macro_rules! with_pseudo_instructions {
    ([] $($mask:literal $value:literal $form:ident $which:tt $name:literal,)*) => {
        [
            $(FloatForm::Row(row_form!($form $which)),)*
            FloatForm::Move(Format::Single),
            FloatForm::Move(Format::Double),
            FloatForm::Negate(Format::Single),
            FloatForm::Negate(Format::Double),
            FloatForm::Absolute(Format::Single),
            FloatForm::Absolute(Format::Double),
            FloatForm::Greater(Format::Single),
            FloatForm::Greater(Format::Double),
            FloatForm::GreaterOrEqual(Format::Single),
            FloatForm::GreaterOrEqual(Format::Double),
            FloatForm::ReadFloatCsr(FloatCsr::Fcsr),
            FloatForm::ReadFloatCsr(FloatCsr::Frm),
            FloatForm::ReadFloatCsr(FloatCsr::Fflags),
            FloatForm::WriteFloatCsr(FloatCsr::Fcsr),
            FloatForm::WriteFloatCsr(FloatCsr::Frm),
            FloatForm::WriteFloatCsr(FloatCsr::Fflags),
            FloatForm::WriteFloatCsrImmediate(FloatCsr::Frm),
            FloatForm::WriteFloatCsrImmediate(FloatCsr::Fflags),
            FloatForm::ReadCsr,
            FloatForm::ChangeCsr(CsrOp::Write),
            FloatForm::ChangeCsr(CsrOp::Set),
            FloatForm::ChangeCsr(CsrOp::Clear),
            FloatForm::ChangeCsrImmediate(CsrOp::Write),
            FloatForm::ChangeCsrImmediate(CsrOp::Set),
            FloatForm::ChangeCsrImmediate(CsrOp::Clear),
        ]
    };
}

/// All statements of floating point.
static FLOAT_FORMS: [FloatForm; FLOAT_ROW_COUNT + 25] =
    listing!(in_order; with_pseudo_instructions []);

static LOAD: [Kind; 2] = [Kind::Rd, Kind::Address];

static STORE: [Kind; 2] = [Kind::Rs2, Kind::Address];

static FUSED: [Kind; 5] = [Kind::Rd, Kind::Rs1, Kind::Rs2, Kind::Rs3, Kind::Rounding];

static ARITHMETIC: [Kind; 4] = [Kind::Rd, Kind::Rs1, Kind::Rs2, Kind::Rounding];

static UNARY: [Kind; 3] = [Kind::Rd, Kind::Rs1, Kind::Rounding];

static BINARY: [Kind; 3] = [Kind::Rd, Kind::Rs1, Kind::Rs2];

static COMPARE: [Kind; 3] = [Kind::IntegerRd, Kind::Rs1, Kind::Rs2];

static TO_INTEGER: [Kind; 2] = [Kind::IntegerRd, Kind::Rs1];

static TO_WORD: [Kind; 3] = [Kind::IntegerRd, Kind::Rs1, Kind::Rounding];

static FROM_INTEGER: [Kind; 2] = [Kind::Rd, Kind::IntegerRs1];

static FROM_WORD: [Kind; 3] = [Kind::Rd, Kind::IntegerRs1, Kind::Rounding];

static CSR: [Kind; 3] = [Kind::IntegerRd, Kind::Csr, Kind::IntegerRs1];

static CSR_IMMEDIATE: [Kind; 3] = [Kind::IntegerRd, Kind::Csr, Kind::Immediate];

static SIGN: [Kind; 2] = [Kind::Rd, Kind::BothSources];

static SWAPPED: [Kind; 3] = [Kind::IntegerRd, Kind::Rs2, Kind::Rs1];

static READ_FLOAT_CSR: [Kind; 1] = [Kind::IntegerRd];

static WRITE_FLOAT_CSR: [Kind; 2] = [Kind::IntegerRd, Kind::IntegerRs1];

static WRITE_FLOAT_CSR_IMMEDIATE: [Kind; 2] = [Kind::IntegerRd, Kind::Immediate];

static READ_CSR: [Kind; 2] = [Kind::IntegerRd, Kind::Csr];

static CHANGE_CSR: [Kind; 2] = [Kind::Csr, Kind::IntegerRs1];

static CHANGE_CSR_IMMEDIATE: [Kind; 2] = [Kind::Csr, Kind::Immediate];

/// The statement of floating point with a mnemonic.
pub(crate) fn float_form_named(mnemonic: &[u8]) -> Option<FloatForm>
    ensures { result ≡ float_form_named mnemonic.now }
{
    FLOAT_FORMS
        .iter()
        .find(|form| name_of(**form).as_bytes() == mnemonic)
        .copied()
}

/// The mnemonic of a statement.
pub(crate) fn name_of(form: FloatForm) -> &'static str
    ensures { result.now ≡ float_mnemonic form }
{
    match form {
        FloatForm::Row(row) => mnemonic(&instruction(row, FloatOperands::left_out(form))),
        FloatForm::Move(Format::Single) => "fmv.s",
        FloatForm::Move(Format::Double) => "fmv.d",
        FloatForm::Negate(Format::Single) => "fneg.s",
        FloatForm::Negate(Format::Double) => "fneg.d",
        FloatForm::Absolute(Format::Single) => "fabs.s",
        FloatForm::Absolute(Format::Double) => "fabs.d",
        FloatForm::Greater(Format::Single) => "fgt.s",
        FloatForm::Greater(Format::Double) => "fgt.d",
        FloatForm::GreaterOrEqual(Format::Single) => "fge.s",
        FloatForm::GreaterOrEqual(Format::Double) => "fge.d",
        FloatForm::ReadFloatCsr(FloatCsr::Fcsr) => "frcsr",
        FloatForm::ReadFloatCsr(FloatCsr::Frm) => "frrm",
        FloatForm::ReadFloatCsr(FloatCsr::Fflags) => "frflags",
        FloatForm::WriteFloatCsr(FloatCsr::Fcsr) => "fscsr",
        FloatForm::WriteFloatCsr(FloatCsr::Frm) => "fsrm",
        FloatForm::WriteFloatCsr(FloatCsr::Fflags) => "fsflags",
        FloatForm::WriteFloatCsrImmediate(FloatCsr::Fcsr) => "fscsri",
        FloatForm::WriteFloatCsrImmediate(FloatCsr::Frm) => "fsrmi",
        FloatForm::WriteFloatCsrImmediate(FloatCsr::Fflags) => "fsflagsi",
        FloatForm::ReadCsr => "csrr",
        FloatForm::ChangeCsr(CsrOp::Write) => "csrw",
        FloatForm::ChangeCsr(CsrOp::Set) => "csrs",
        FloatForm::ChangeCsr(CsrOp::Clear) => "csrc",
        FloatForm::ChangeCsrImmediate(CsrOp::Write) => "csrwi",
        FloatForm::ChangeCsrImmediate(CsrOp::Set) => "csrsi",
        FloatForm::ChangeCsrImmediate(CsrOp::Clear) => "csrci",
    }
}

/// The row whose instruction a statement makes.
pub(crate) fn row_of(form: FloatForm) -> RowForm
    ensures { result ≡ row_of form }
{
    match form {
        FloatForm::Row(row) => row,
        FloatForm::Move(format) => RowForm::Sign(SignOp::Sgnj, format),
        FloatForm::Negate(format) => RowForm::Sign(SignOp::Sgnjn, format),
        FloatForm::Absolute(format) => RowForm::Sign(SignOp::Sgnjx, format),
        FloatForm::Greater(format) => RowForm::Compare(CompareOp::Flt, format),
        FloatForm::GreaterOrEqual(format) => RowForm::Compare(CompareOp::Fle, format),
        FloatForm::ReadFloatCsr(_) | FloatForm::ReadCsr => RowForm::Csr(CsrOp::Set),
        FloatForm::WriteFloatCsr(_) => RowForm::Csr(CsrOp::Write),
        FloatForm::WriteFloatCsrImmediate(_) => RowForm::CsrImmediate(CsrOp::Write),
        FloatForm::ChangeCsr(op) => RowForm::Csr(op),
        FloatForm::ChangeCsrImmediate(op) => RowForm::CsrImmediate(op),
    }
}

impl FloatOperands {
    /// The operands of a statement if none are written: the rounding mode is that of `frm`, but to nearest if a value goes to doubles,
    /// which hold it exactly.
    pub(crate) fn left_out(form: FloatForm) -> FloatOperands
        ensures { result ≡ left_out form }
    {
        let rm = match form {
            FloatForm::Row(
                RowForm::FromWord(_, Format::Double) | RowForm::ToFormat(Format::Double),
            ) => RoundingField::Rne,
            _ => RoundingField::Dyn,
        };
        let csr = match form {
            FloatForm::ReadFloatCsr(csr)
            | FloatForm::WriteFloatCsr(csr)
            | FloatForm::WriteFloatCsrImmediate(csr) => csr,
            _ => FloatCsr::Fcsr,
        };
        FloatOperands {
            rd: 0,
            rs1: 0,
            rs2: 0,
            rs3: 0,
            imm: 0,
            csr,
            rm,
        }
    }
}

/// The instruction of a row with these operands.
pub(crate) fn instruction(row: RowForm, operands: FloatOperands) -> FloatInstr
    ensures { result ≡ row_instruction row operands }
{
    let FloatOperands {
        rd,
        rs1,
        rs2,
        rs3,
        imm,
        csr,
        rm,
    } = operands;
    match row {
        RowForm::Load(format) => FloatInstr::Load {
            format,
            rd,
            rs1,
            imm,
        },
        RowForm::Store(format) => FloatInstr::Store {
            format,
            rs1,
            rs2,
            imm,
        },
        RowForm::Fused(op, format) => FloatInstr::Fused {
            op,
            format,
            rd,
            rs1,
            rs2,
            rs3,
            rm,
        },
        RowForm::Arithmetic(op, format) => FloatInstr::Arithmetic {
            op,
            format,
            rd,
            rs1,
            rs2,
            rm,
        },
        RowForm::SquareRoot(format) => FloatInstr::SquareRoot {
            format,
            rd,
            rs1,
            rm,
        },
        RowForm::Sign(op, format) => FloatInstr::Sign {
            op,
            format,
            rd,
            rs1,
            rs2,
        },
        RowForm::MinMax(op, format) => FloatInstr::MinMax {
            op,
            format,
            rd,
            rs1,
            rs2,
        },
        RowForm::Compare(op, format) => FloatInstr::Compare {
            op,
            format,
            rd,
            rs1,
            rs2,
        },
        RowForm::Class(format) => FloatInstr::Class { format, rd, rs1 },
        RowForm::ToWord(kind, format) => FloatInstr::ToWord {
            kind,
            format,
            rd,
            rs1,
            rm,
        },
        RowForm::FromWord(kind, format) => FloatInstr::FromWord {
            kind,
            format,
            rd,
            rs1,
            rm,
        },
        RowForm::ToFormat(format) => FloatInstr::ToFormat {
            format,
            rd,
            rs1,
            rm,
        },
        RowForm::MoveToInteger => FloatInstr::MoveToInteger { rd, rs1 },
        RowForm::MoveFromInteger => FloatInstr::MoveFromInteger { rd, rs1 },
        RowForm::Csr(op) => FloatInstr::Csr { op, csr, rd, rs1 },
        RowForm::CsrImmediate(op) => FloatInstr::CsrImmediate {
            op,
            csr,
            rd,
            imm: rs1,
        },
    }
}

/// The kinds of so many operands of a statement, or none if it does not take so many.
pub(crate) fn kinds_of(form: FloatForm, count: usize) -> Option<&'static [Kind]>
    ensures { option_map (λ kinds. kinds.now) result ≡ kinds_of form count }
{
    match form {
        FloatForm::Row(row) => row_kinds(row, count),
        FloatForm::Move(_) | FloatForm::Negate(_) | FloatForm::Absolute(_) => exactly(&SIGN, count),
        FloatForm::Greater(_) | FloatForm::GreaterOrEqual(_) => exactly(&SWAPPED, count),
        FloatForm::ReadFloatCsr(_) => exactly(&READ_FLOAT_CSR, count),
        FloatForm::WriteFloatCsr(_) => but_for_first(&WRITE_FLOAT_CSR, count),
        FloatForm::WriteFloatCsrImmediate(_) => but_for_first(&WRITE_FLOAT_CSR_IMMEDIATE, count),
        FloatForm::ReadCsr => exactly(&READ_CSR, count),
        FloatForm::ChangeCsr(_) => exactly(&CHANGE_CSR, count),
        FloatForm::ChangeCsrImmediate(_) => exactly(&CHANGE_CSR_IMMEDIATE, count),
    }
}

/// The same of a row.
fn row_kinds(row: RowForm, count: usize) -> Option<&'static [Kind]>
    ensures { option_map (λ kinds. kinds.now) result ≡ row_kinds row count }
{
    match row {
        RowForm::Load(_) => exactly(&LOAD, count),
        RowForm::Store(_) => exactly(&STORE, count),
        RowForm::Fused(_, _) => but_for_last(&FUSED, count),
        RowForm::Arithmetic(_, _) => but_for_last(&ARITHMETIC, count),
        RowForm::SquareRoot(_) | RowForm::ToFormat(_) => but_for_last(&UNARY, count),
        RowForm::Sign(_, _) | RowForm::MinMax(_, _) => exactly(&BINARY, count),
        RowForm::Compare(_, _) => exactly(&COMPARE, count),
        RowForm::Class(_) | RowForm::MoveToInteger => exactly(&TO_INTEGER, count),
        RowForm::ToWord(_, _) => but_for_last(&TO_WORD, count),
        RowForm::FromWord(_, _) => but_for_last(&FROM_WORD, count),
        RowForm::MoveFromInteger => exactly(&FROM_INTEGER, count),
        RowForm::Csr(_) => exactly(&CSR, count),
        RowForm::CsrImmediate(_) => exactly(&CSR_IMMEDIATE, count),
    }
}

/// All of some kinds, if there are so many operands.
fn exactly(kinds: &'static [Kind], count: usize) -> Option<&'static [Kind]>
    ensures { option_map (λ kinds. kinds.now) result ≡ exactly kinds.now count }
{
    if count == kinds.len() {
        Some(kinds)
    } else {
        None
    }
}

/// The same if the last operand may be left out.
fn but_for_last(kinds: &'static [Kind], count: usize) -> Option<&'static [Kind]>
    ensures { option_map (λ kinds. kinds.now) result ≡ but_for_last kinds.now count }
{
    match kinds {
        [others @ .., _] if count == others.len() => Some(others),
        _ => exactly(kinds, count),
    }
}

/// The same if the first operand may be left out.
fn but_for_first(kinds: &'static [Kind], count: usize) -> Option<&'static [Kind]>
    ensures { option_map (λ kinds. kinds.now) result ≡ but_for_first kinds.now count }
{
    match kinds {
        [_, others @ ..] if count == others.len() => Some(others),
        _ => exactly(kinds, count),
    }
}
