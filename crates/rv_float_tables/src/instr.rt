//! Instructions, and the rows of the listings.
//!
//! `rd`, `rs1`, `rs2` and `rs3` are numbers of floating-point registers, f0 to f31, unless a form says that one is an integer register, x0
//! to x31.

/// How the operands of an instruction lie in its word.
#[derive(Clone, Copy)]
pub enum FloatForm {
    /// `rd`, an integer `rs1` and a signed immediate of 12 bits: the address is `rs1` plus the immediate.
    Load,
    /// An integer `rs1`, `rs2` and a signed immediate of 12 bits.
    Store,
    /// `rd`, `rs1`, `rs2`, `rs3` and a rounding mode.
    Fused,
    /// `rd`, `rs1`, `rs2` and a rounding mode.
    Arithmetic,
    /// `rd`, `rs1` and a rounding mode.
    SquareRoot,
    /// `rd`, `rs1` and `rs2`.
    Sign,
    /// `rd`, `rs1` and `rs2`.
    MinMax,
    /// An integer `rd`, `rs1` and `rs2`.
    Compare,
    /// An integer `rd`, and `rs1`.
    Class,
    /// An integer `rd`, `rs1` and a rounding mode.
    ToWord,
    /// `rd`, an integer `rs1` and a rounding mode.
    FromWord,
    /// `rd`, `rs1` and a rounding mode.
    ToFormat,
    /// An integer `rd`, and `rs1`.
    MoveToInteger,
    /// `rd`, and an integer `rs1`.
    MoveFromInteger,
    /// A control and status register, and integer `rd` and `rs1`.
    Csr,
    /// A control and status register, an integer `rd`, and an immediate of 5 bits.
    CsrImmediate,
}

/// The two formats: of F and of D.
#[derive(Clone, Copy, PartialEq, Eq)]
pub enum Format {
    /// 32 bits, as `.s`, and `flw` and `fsw`, have it.
    Single,
    /// 64 bits, as `.d`, and `fld` and `fsd`, have it.
    Double,
}

/// The rounding mode that an instruction asks for, in its field `rm`.
#[derive(Clone, Copy)]
pub enum RoundingField {
    /// To the nearest, and of two to the even one.
    Rne,
    /// Toward zero.
    Rtz,
    /// Down.
    Rdn,
    /// Up.
    Rup,
    /// To the nearest, and of two to the one of larger magnitude.
    Rmm,
    /// The mode that `frm` has.
    Dyn,
}

/// The rows that round the result of two operands.
#[derive(Clone, Copy)]
pub enum ArithmeticOp {
    Add,
    Sub,
    Mul,
    Div,
}

/// The fused rows, which multiply, add and round once.
#[derive(Clone, Copy)]
pub enum FusedOp {
    /// rs1 * rs2 + rs3.
    Madd,
    /// rs1 * rs2 - rs3.
    Msub,
    /// -(rs1 * rs2) + rs3.
    Nmsub,
    /// -(rs1 * rs2) - rs3.
    Nmadd,
}

/// The rows that inject a sign.
#[derive(Clone, Copy)]
pub enum SignOp {
    /// That of `rs2`.
    Sgnj,
    /// The opposite of that.
    Sgnjn,
    /// The exclusive or of both.
    Sgnjx,
}

/// The rows that choose one of two operands.
#[derive(Clone, Copy)]
pub enum MinMaxOp {
    Min,
    Max,
}

/// The rows that compare.
#[derive(Clone, Copy)]
pub enum CompareOp {
    Feq,
    Flt,
    Fle,
}

/// A word as a whole number.
#[derive(Clone, Copy)]
pub enum WordKind {
    Signed,
    Unsigned,
}

/// What becomes of the bits of a control and status register.
#[derive(Clone, Copy)]
pub enum CsrOp {
    /// CSRRW, CSRRWI: they are written.
    Write,
    /// CSRRS, CSRRSI: some are set.
    Set,
    /// CSRRC, CSRRCI: some are cleared.
    Clear,
}

/// The control and status registers of floating point. An instruction on another one is of no row here.
#[derive(Clone, Copy)]
pub enum FloatCsr {
    /// The accrued exceptions: bits 4 to 0 of `Fcsr`.
    Fflags,
    /// The dynamic rounding mode: bits 7 to 5 of `Fcsr`.
    Frm,
    Fcsr,
}

/// An instruction. Registers are 0 to 31, integer ones if [`FloatForm`] says so; an immediate is the value that it stands for.
#[derive(Clone, Copy)]
pub enum FloatInstr {
    Load {
        format: Format,
        rd: u8,
        rs1: u8,
        imm: i32,
    },
    Store {
        format: Format,
        rs1: u8,
        rs2: u8,
        imm: i32,
    },
    Fused {
        op: FusedOp,
        format: Format,
        rd: u8,
        rs1: u8,
        rs2: u8,
        rs3: u8,
        rm: RoundingField,
    },
    Arithmetic {
        op: ArithmeticOp,
        format: Format,
        rd: u8,
        rs1: u8,
        rs2: u8,
        rm: RoundingField,
    },
    SquareRoot {
        format: Format,
        rd: u8,
        rs1: u8,
        rm: RoundingField,
    },
    Sign {
        op: SignOp,
        format: Format,
        rd: u8,
        rs1: u8,
        rs2: u8,
    },
    MinMax {
        op: MinMaxOp,
        format: Format,
        rd: u8,
        rs1: u8,
        rs2: u8,
    },
    Compare {
        op: CompareOp,
        format: Format,
        rd: u8,
        rs1: u8,
        rs2: u8,
    },
    Class {
        format: Format,
        rd: u8,
        rs1: u8,
    },
    /// FCVT.W, FCVT.WU, of a value of this format.
    ToWord {
        kind: WordKind,
        format: Format,
        rd: u8,
        rs1: u8,
        rm: RoundingField,
    },
    /// FCVT.S.W and its kin, to this format.
    FromWord {
        kind: WordKind,
        format: Format,
        rd: u8,
        rs1: u8,
        rm: RoundingField,
    },
    /// FCVT.S.D and FCVT.D.S, to this format from the other one.
    ToFormat {
        format: Format,
        rd: u8,
        rs1: u8,
        rm: RoundingField,
    },
    /// FMV.X.W.
    MoveToInteger {
        rd: u8,
        rs1: u8,
    },
    /// FMV.W.X.
    MoveFromInteger {
        rd: u8,
        rs1: u8,
    },
    Csr {
        op: CsrOp,
        csr: FloatCsr,
        rd: u8,
        rs1: u8,
    },
    CsrImmediate {
        op: CsrOp,
        csr: FloatCsr,
        rd: u8,
        imm: u8,
    },
}
