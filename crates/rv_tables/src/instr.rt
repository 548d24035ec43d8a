//! Instructions, and the rows of the listings.

/// How the operands of an instruction lie in its word.
#[derive(Clone, Copy)]
pub enum Form {
    /// `rd`, `rs1` and `rs2`.
    R,
    /// `rd`, `rs1` and a signed immediate of 12 bits.
    I,
    /// `rd`, `rs1` and a shift amount of 5 bits.
    Shift,
    /// As `I`: the address is `rs1` plus the immediate.
    Load,
    /// `rs1`, `rs2` and a signed immediate of 12 bits.
    Store,
    /// `rs1`, `rs2` and a signed, even offset of 13 bits.
    Branch,
    /// `rd` and a field of 20 bits.
    Upper,
    /// `rd` and a signed, even offset of 21 bits.
    Jal,
    /// As `I`: the target is `rs1` plus the immediate, with bit 0 cleared.
    Jalr,
    /// No operands.
    Plain,
}

/// A row of the listings: the bits that it fixes, as a mask, the value that a word of it has in them, and the form of its operands.
#[derive(Clone, Copy)]
pub struct Row<F> {
    pub mask: u32,
    pub value: u32,
    pub form: F,
}

/// The rows on three registers.
#[derive(Clone, Copy)]
pub enum ROp {
    Add,
    Sub,
    Sll,
    Slt,
    Sltu,
    Xor,
    Srl,
    Sra,
    Or,
    And,
    Mul,
    Mulh,
    Mulhsu,
    Mulhu,
    Div,
    Divu,
    Rem,
    Remu,
}

/// The rows on a register and an immediate.
#[derive(Clone, Copy)]
pub enum IOp {
    Addi,
    Slti,
    Sltiu,
    Xori,
    Ori,
    Andi,
}

/// The rows that shift by an amount in the word.
#[derive(Clone, Copy)]
pub enum ShiftOp {
    Slli,
    Srli,
    Srai,
}

/// The rows that read memory.
#[derive(Clone, Copy)]
pub enum LoadOp {
    Lb,
    Lh,
    Lw,
    Lbu,
    Lhu,
}

/// The rows that write memory.
#[derive(Clone, Copy)]
pub enum StoreOp {
    Sb,
    Sh,
    Sw,
}

/// The rows that compare two registers and jump.
#[derive(Clone, Copy)]
pub enum BranchOp {
    Beq,
    Bne,
    Blt,
    Bge,
    Bltu,
    Bgeu,
}

/// The rows with a field of 20 bits.
#[derive(Clone, Copy)]
pub enum UpperOp {
    Lui,
    Auipc,
}

/// The rows without operands. `Fence` and `FenceI` are so for this machine: the other fields of their words say nothing
/// to it.
#[derive(Clone, Copy)]
pub enum PlainOp {
    Fence,
    FenceI,
    Ecall,
    Ebreak,
}

/// An instruction. Registers are 0 to 31; immediates are the values that they stand for, sign-extended if the manual extends them, and
/// `Upper`'s is the field itself.
#[derive(Clone, Copy)]
pub enum Instr {
    R {
        op: ROp,
        rd: u8,
        rs1: u8,
        rs2: u8,
    },
    I {
        op: IOp,
        rd: u8,
        rs1: u8,
        imm: i32,
    },
    Shift {
        op: ShiftOp,
        rd: u8,
        rs1: u8,
        shamt: u8,
    },
    Load {
        op: LoadOp,
        rd: u8,
        rs1: u8,
        imm: i32,
    },
    Store {
        op: StoreOp,
        rs1: u8,
        rs2: u8,
        imm: i32,
    },
    Branch {
        op: BranchOp,
        rs1: u8,
        rs2: u8,
        imm: i32,
    },
    Upper {
        op: UpperOp,
        rd: u8,
        imm: u32,
    },
    Jal {
        rd: u8,
        imm: i32,
    },
    Jalr {
        rd: u8,
        rs1: u8,
        imm: i32,
    },
    Plain {
        op: PlainOp,
    },
}
