//! The names of instructions, of rounding modes, and of control and status registers.

ghost use Rattle.std.specs.Prelude.{◌≡◌};
ghost use Rattle.rv_float_tables.specs.Mnemonics.{float_mnemonic_of, rounding_name, rounding_named, csr_name, csr_named};

use crate::instr::{
    ArithmeticOp, CompareOp, CsrOp, FloatCsr, FloatInstr, Format, FusedOp, MinMaxOp, RoundingField,
    SignOp, WordKind,
};
use crate::listing;
use rv_tables::named;

static ROUNDINGS: [(&str, RoundingField); 6] = [
    ("rne", RoundingField::Rne),
    ("rtz", RoundingField::Rtz),
    ("rdn", RoundingField::Rdn),
    ("rup", RoundingField::Rup),
    ("rmm", RoundingField::Rmm),
    ("dyn", RoundingField::Dyn),
];

static CSRS: [(&str, FloatCsr); 3] = [
    ("fflags", FloatCsr::Fflags),
    ("frm", FloatCsr::Frm),
    ("fcsr", FloatCsr::Fcsr),
];

// The name of a row.
macro_rules! name_of {
    (
        [$row:tt] $form:ident $mask:literal:
        [$($value:literal $which:tt $name:literal),*] [$($wide_value:literal $wide_which:tt $wide_name:literal),*];
    ) => {
        match $row {
            $($which => $name,)*
            $($wide_which => $wide_name,)*
        }
    };
}

/// The instruction's name in assembly: the row's name in lower case, as `fadd.d` and `csrrw`.
pub fn mnemonic(instr: &FloatInstr) -> &'static str
    ensures { result.now ≡ float_mnemonic_of instr.now }
{
    match *instr {
        FloatInstr::Load { format, .. } => listing!(Load; name_of [format]),
        FloatInstr::Store { format, .. } => listing!(Store; name_of [format]),
        FloatInstr::Fused { op, format, .. } => listing!(Fused; name_of [(op, format)]),
        FloatInstr::Arithmetic { op, format, .. } => listing!(Arithmetic; name_of [(op, format)]),
        FloatInstr::SquareRoot { format, .. } => listing!(SquareRoot; name_of [format]),
        FloatInstr::Sign { op, format, .. } => listing!(Sign; name_of [(op, format)]),
        FloatInstr::MinMax { op, format, .. } => listing!(MinMax; name_of [(op, format)]),
        FloatInstr::Compare { op, format, .. } => listing!(Compare; name_of [(op, format)]),
        FloatInstr::Class { format, .. } => listing!(Class; name_of [format]),
        FloatInstr::ToWord { kind, format, .. } => listing!(ToWord; name_of [(kind, format)]),
        FloatInstr::FromWord { kind, format, .. } => listing!(FromWord; name_of [(kind, format)]),
        FloatInstr::ToFormat { format, .. } => listing!(ToFormat; name_of [format]),
        FloatInstr::MoveToInteger { .. } => listing!(MoveToInteger; name_of [()]),
        FloatInstr::MoveFromInteger { .. } => listing!(MoveFromInteger; name_of [()]),
        FloatInstr::Csr { op, .. } => listing!(Csr; name_of [op]),
        FloatInstr::CsrImmediate { op, .. } => listing!(CsrImmediate; name_of [op]),
    }
}

/// The name of a rounding mode, as `rne`; `dyn` is that of the mode in `frm`.
pub fn rounding_name(rounding: RoundingField) -> &'static str
    ensures { result.now ≡ rounding_name rounding }
{
    match rounding {
        RoundingField::Rne => "rne",
        RoundingField::Rtz => "rtz",
        RoundingField::Rdn => "rdn",
        RoundingField::Rup => "rup",
        RoundingField::Rmm => "rmm",
        RoundingField::Dyn => "dyn",
    }
}

/// The rounding mode with a name, or none if no mode has it.
pub fn rounding_named(name: &[u8]) -> Option<RoundingField>
    ensures { result ≡ rounding_named name.now }
{
    named(&ROUNDINGS, name)
}

/// The name of a control and status register, as `fcsr`.
pub fn csr_name(csr: FloatCsr) -> &'static str
    ensures { result.now ≡ csr_name csr }
{
    match csr {
        FloatCsr::Fflags => "fflags",
        FloatCsr::Frm => "frm",
        FloatCsr::Fcsr => "fcsr",
    }
}

/// The control and status register of floating point with a name, or none if none of them has it.
pub fn csr_named(name: &[u8]) -> Option<FloatCsr>
    ensures { result ≡ csr_named name.now }
{
    named(&CSRS, name)
}
