//! The table of the rows.

ghost use Rattle.rv_tables.specs.Tables.{AreRowsOf};
ghost use Rattle.rv_float_tables.specs.Rows.{float_encodings};

use crate::instr::FloatForm;
use crate::listing;
use rv_tables::Row;

/// The list of the rows, from which the table and the names follow, most of the decoder and the encoder, and statements of assembly.
///
/// `listing!(FORM..; MACRO [ARGUMENT])` calls a macro with the rows of these forms. After the argument come, for each form, its name and
/// its mask, then its rows of F and Zicsr, and then those of D. A row is the value under the mask, what tells it from the others of its
/// form, and its name. `listing!(in_order; MACRO [ARGUMENT])` calls a macro with all rows in the order of the manual, each with its mask
/// and its form.
#[macro_export]
macro_rules! listing {
    (@Csr $($then:tt)*) => {
        $crate::listing! { @joined $($then)*
            Csr 0x707F:
            [
                0x1073 (CsrOp::Write) "csrrw",
                0x2073 (CsrOp::Set) "csrrs",
                0x3073 (CsrOp::Clear) "csrrc"
            ]
            [];
        }
    };
    (@CsrImmediate $($then:tt)*) => {
        $crate::listing! { @joined $($then)*
            CsrImmediate 0x707F:
            [
                0x5073 (CsrOp::Write) "csrrwi",
                0x6073 (CsrOp::Set) "csrrsi",
                0x7073 (CsrOp::Clear) "csrrci"
            ]
            [];
        }
    };
    (@Load $($then:tt)*) => {
        $crate::listing! { @joined $($then)*
            Load 0x707F:
            [0x2007 (Format::Single) "flw"]
            [0x3007 (Format::Double) "fld"];
        }
    };
    (@Store $($then:tt)*) => {
        $crate::listing! { @joined $($then)*
            Store 0x707F:
            [0x2027 (Format::Single) "fsw"]
            [0x3027 (Format::Double) "fsd"];
        }
    };
    (@Fused $($then:tt)*) => {
        $crate::listing! { @joined $($then)*
            Fused 0x600_007F:
            [
                0x43 (FusedOp::Madd, Format::Single) "fmadd.s",
                0x47 (FusedOp::Msub, Format::Single) "fmsub.s",
                0x4B (FusedOp::Nmsub, Format::Single) "fnmsub.s",
                0x4F (FusedOp::Nmadd, Format::Single) "fnmadd.s"
            ]
            [
                0x200_0043 (FusedOp::Madd, Format::Double) "fmadd.d",
                0x200_0047 (FusedOp::Msub, Format::Double) "fmsub.d",
                0x200_004B (FusedOp::Nmsub, Format::Double) "fnmsub.d",
                0x200_004F (FusedOp::Nmadd, Format::Double) "fnmadd.d"
            ];
        }
    };
    (@Arithmetic $($then:tt)*) => {
        $crate::listing! { @joined $($then)*
            Arithmetic 0xFE00_007F:
            [
                0x53 (ArithmeticOp::Add, Format::Single) "fadd.s",
                0x800_0053 (ArithmeticOp::Sub, Format::Single) "fsub.s",
                0x1000_0053 (ArithmeticOp::Mul, Format::Single) "fmul.s",
                0x1800_0053 (ArithmeticOp::Div, Format::Single) "fdiv.s"
            ]
            [
                0x200_0053 (ArithmeticOp::Add, Format::Double) "fadd.d",
                0xA00_0053 (ArithmeticOp::Sub, Format::Double) "fsub.d",
                0x1200_0053 (ArithmeticOp::Mul, Format::Double) "fmul.d",
                0x1A00_0053 (ArithmeticOp::Div, Format::Double) "fdiv.d"
            ];
        }
    };
    (@SquareRoot $($then:tt)*) => {
        $crate::listing! { @joined $($then)*
            SquareRoot 0xFFF0_007F:
            [0x5800_0053 (Format::Single) "fsqrt.s"]
            [0x5A00_0053 (Format::Double) "fsqrt.d"];
        }
    };
    (@Sign $($then:tt)*) => {
        $crate::listing! { @joined $($then)*
            Sign 0xFE00_707F:
            [
                0x2000_0053 (SignOp::Sgnj, Format::Single) "fsgnj.s",
                0x2000_1053 (SignOp::Sgnjn, Format::Single) "fsgnjn.s",
                0x2000_2053 (SignOp::Sgnjx, Format::Single) "fsgnjx.s"
            ]
            [
                0x2200_0053 (SignOp::Sgnj, Format::Double) "fsgnj.d",
                0x2200_1053 (SignOp::Sgnjn, Format::Double) "fsgnjn.d",
                0x2200_2053 (SignOp::Sgnjx, Format::Double) "fsgnjx.d"
            ];
        }
    };
    (@MinMax $($then:tt)*) => {
        $crate::listing! { @joined $($then)*
            MinMax 0xFE00_707F:
            [
                0x2800_0053 (MinMaxOp::Min, Format::Single) "fmin.s",
                0x2800_1053 (MinMaxOp::Max, Format::Single) "fmax.s"
            ]
            [
                0x2A00_0053 (MinMaxOp::Min, Format::Double) "fmin.d",
                0x2A00_1053 (MinMaxOp::Max, Format::Double) "fmax.d"
            ];
        }
    };
    (@ToFormat $($then:tt)*) => {
        $crate::listing! { @joined $($then)*
            ToFormat 0xFFF0_007F:
            []
            [
                0x4010_0053 (Format::Single) "fcvt.s.d",
                0x4200_0053 (Format::Double) "fcvt.d.s"
            ];
        }
    };
    (@ToWord $($then:tt)*) => {
        $crate::listing! { @joined $($then)*
            ToWord 0xFFF0_007F:
            [
                0xC000_0053 (WordKind::Signed, Format::Single) "fcvt.w.s",
                0xC010_0053 (WordKind::Unsigned, Format::Single) "fcvt.wu.s"
            ]
            [
                0xC200_0053 (WordKind::Signed, Format::Double) "fcvt.w.d",
                0xC210_0053 (WordKind::Unsigned, Format::Double) "fcvt.wu.d"
            ];
        }
    };
    (@MoveToInteger $($then:tt)*) => {
        $crate::listing! { @joined $($then)*
            MoveToInteger 0xFFF0_707F:
            [0xE000_0053 () "fmv.x.w"]
            [];
        }
    };
    (@Compare $($then:tt)*) => {
        $crate::listing! { @joined $($then)*
            Compare 0xFE00_707F:
            [
                0xA000_2053 (CompareOp::Feq, Format::Single) "feq.s",
                0xA000_1053 (CompareOp::Flt, Format::Single) "flt.s",
                0xA000_0053 (CompareOp::Fle, Format::Single) "fle.s"
            ]
            [
                0xA200_2053 (CompareOp::Feq, Format::Double) "feq.d",
                0xA200_1053 (CompareOp::Flt, Format::Double) "flt.d",
                0xA200_0053 (CompareOp::Fle, Format::Double) "fle.d"
            ];
        }
    };
    (@Class $($then:tt)*) => {
        $crate::listing! { @joined $($then)*
            Class 0xFFF0_707F:
            [0xE000_1053 (Format::Single) "fclass.s"]
            [0xE200_1053 (Format::Double) "fclass.d"];
        }
    };
    (@FromWord $($then:tt)*) => {
        $crate::listing! { @joined $($then)*
            FromWord 0xFFF0_007F:
            [
                0xD000_0053 (WordKind::Signed, Format::Single) "fcvt.s.w",
                0xD010_0053 (WordKind::Unsigned, Format::Single) "fcvt.s.wu"
            ]
            [
                0xD200_0053 (WordKind::Signed, Format::Double) "fcvt.d.w",
                0xD210_0053 (WordKind::Unsigned, Format::Double) "fcvt.d.wu"
            ];
        }
    };
    (@MoveFromInteger $($then:tt)*) => {
        $crate::listing! { @joined $($then)*
            MoveFromInteger 0xFFF0_707F:
            [0xF000_0053 () "fmv.w.x"]
            [];
        }
    };
    // Goes on with the next form, or calls the macro after the last one.
    (@joined [] @singles $argument:tt $($rows:tt)*) => {
        $crate::listing! { @singles $argument $($rows)* }
    };
    (@joined [] @doubles $argument:tt $($rows:tt)*) => {
        $crate::listing! { @doubles $argument $($rows)* }
    };
    (@joined [] $then:ident $argument:tt $($rows:tt)*) => {
        $then! { $argument $($rows)* }
    };
    (@joined [$form:ident $($more:ident)*] $($then:tt)*) => {
        $crate::listing! { @$form [$($more)*] $($then)* }
    };
    // The rows of F and Zicsr, and then those of D, in the order in which the manual lists their forms.
    (in_order; $then:ident $argument:tt) => {
        $crate::listing! { @joined
            [Csr CsrImmediate Load Store Fused Arithmetic SquareRoot Sign MinMax ToWord MoveToInteger Compare Class FromWord MoveFromInteger]
            @singles [$then $argument]
        }
    };
    (
        @singles [$then:ident $argument:tt]
        $($form:ident $mask:literal: [$($value:literal $which:tt $name:literal),*] $doubles:tt;)*
    ) => {
        $crate::listing! { @joined
            [Load Store Fused Arithmetic SquareRoot Sign MinMax ToFormat Compare Class ToWord FromWord]
            @doubles [$then $argument $($($mask $value $form $which $name,)*)*]
        }
    };
    (
        @doubles [$then:ident $argument:tt $($singles:tt)*]
        $($form:ident $mask:literal: $of_single:tt [$($value:literal $which:tt $name:literal),*];)*
    ) => {
        $then! { $argument $($singles)* $($($mask $value $form $which $name,)*)* }
    };
    ($($form:ident)+; $then:ident $argument:tt) => {
        $crate::listing! { @joined [$($form)*] $then $argument }
    };
}

// The mask, value and form of each row.
macro_rules! table_of {
    ([] $($mask:literal $value:literal $form:ident $which:tt $name:literal,)*) => {
        [$(Row { mask: $mask, value: $value, form: FloatForm::$form },)*]
    };
}

/// How many rows there are.
pub const FLOAT_ROW_COUNT: usize = 58;

static ROWS: [Row<FloatForm>; FLOAT_ROW_COUNT] = listing!(in_order; table_of []);

/// The rows of Zicsr, F and D, in the order of the manual's listings.
#[tactic(auto, unfolding(crate::specs::Rows::float_encodings))]
pub fn rows() -> &'static [Row<FloatForm>]
    ensures { AreRowsOf float_encodings result.now }
{
    &ROWS
}
