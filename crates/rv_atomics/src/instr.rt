//! Instructions, and the rows of the listing.

/// How the operands of an instruction lie in its word. `rd`, `rs1` and `rs2` are integer registers, and the address is that in `rs1`.
#[derive(Clone, Copy)]
pub enum AtomicForm {
    /// `rd` and `rs1`.
    LoadReserved,
    /// `rd`, `rs1` and `rs2`.
    StoreConditional,
    /// `rd`, `rs1` and `rs2`.
    Amo,
}

/// The rows that load a word and store what they make of it.
#[derive(Clone, Copy)]
pub enum AmoOp {
    Swap,
    Add,
    Xor,
    And,
    Or,
    Min,
    Max,
    Minu,
    Maxu,
}

/// What other harts and devices see of the order of an instruction and of those around it: its bits `aq` and `rl`.
#[derive(Clone, Copy, PartialEq, Eq)]
pub enum Order {
    /// Neither bit is set.
    Unordered,
    /// `rl`: nothing before it is seen after it.
    Release,
    /// `aq`: nothing after it is seen before it.
    Acquire,
    /// Both bits are set.
    Sequential,
}

/// An instruction. Registers are 0 to 31.
#[derive(Clone, Copy)]
pub enum AtomicInstr {
    /// LR.W.
    LoadReserved {
        order: Order,
        rd: u8,
        rs1: u8,
    },
    /// SC.W.
    StoreConditional {
        order: Order,
        rd: u8,
        rs1: u8,
        rs2: u8,
    },
    /// AMOSWAP.W and its kin.
    Amo {
        op: AmoOp,
        order: Order,
        rd: u8,
        rs1: u8,
        rs2: u8,
    },
}
