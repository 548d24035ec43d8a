//! The names of the instructions.

ghost use Rattle.std.specs.Prelude.{◌≡◌};
ghost use Rattle.rv_atomics.specs.Mnemonics.{amo_name as name_of_amo, row_name as name_of_row, order_suffix as suffix_of};
ghost use Rattle.rv_atomics.specs.Mnemonics.{atomic_named as instruction_with_mnemonic, ordering_of as order_of_instruction};

use crate::instr::{AmoOp, AtomicInstr, Order};
use rv_tables::named;

// The instruction of a row with an order, and with x0 for each register.
macro_rules! bare {
    (LoadReserved $order:ident) => {
        AtomicInstr::LoadReserved {
            order: Order::$order,
            rd: 0,
            rs1: 0,
        }
    };
    (StoreConditional $order:ident) => {
        AtomicInstr::StoreConditional {
            order: Order::$order,
            rd: 0,
            rs1: 0,
            rs2: 0,
        }
    };
    ($op:ident $order:ident) => {
        AtomicInstr::Amo {
            op: AmoOp::$op,
            order: Order::$order,
            rd: 0,
            rs1: 0,
            rs2: 0,
        }
    };
}

// The four mnemonics of each row, each with its instruction.
macro_rules! mnemonics {
    ($($row:ident $plain:literal $release:literal $acquire:literal $sequential:literal;)*) => {
        [
            $(
                ($plain, bare!($row Unordered)),
                ($release, bare!($row Release)),
                ($acquire, bare!($row Acquire)),
                ($sequential, bare!($row Sequential)),
            )*
        ]
    };
}

static MNEMONICS: [(&str, AtomicInstr); 44] = mnemonics! {
    LoadReserved "lr.w" "lr.w.rl" "lr.w.aq" "lr.w.aqrl";
    StoreConditional "sc.w" "sc.w.rl" "sc.w.aq" "sc.w.aqrl";
    Swap "amoswap.w" "amoswap.w.rl" "amoswap.w.aq" "amoswap.w.aqrl";
    Add "amoadd.w" "amoadd.w.rl" "amoadd.w.aq" "amoadd.w.aqrl";
    Xor "amoxor.w" "amoxor.w.rl" "amoxor.w.aq" "amoxor.w.aqrl";
    And "amoand.w" "amoand.w.rl" "amoand.w.aq" "amoand.w.aqrl";
    Or "amoor.w" "amoor.w.rl" "amoor.w.aq" "amoor.w.aqrl";
    Min "amomin.w" "amomin.w.rl" "amomin.w.aq" "amomin.w.aqrl";
    Max "amomax.w" "amomax.w.rl" "amomax.w.aq" "amomax.w.aqrl";
    Minu "amominu.w" "amominu.w.rl" "amominu.w.aq" "amominu.w.aqrl";
    Maxu "amomaxu.w" "amomaxu.w.rl" "amomaxu.w.aq" "amomaxu.w.aqrl";
};

/// The instruction with a mnemonic, as `amoadd.w` or `lr.w.aqrl`, with x0 for each register; or none if no instruction has it.
pub fn atomic_named(mnemonic: &[u8]) -> Option<AtomicInstr>
    ensures { result ≡ instruction_with_mnemonic mnemonic.now }
{
    named(&MNEMONICS, mnemonic)
}

/// The name of an instruction's row in lower case, as `amoadd.w`. With [`order_suffix`] after it, it is the instruction's mnemonic.
pub fn row_name(instr: AtomicInstr) -> &'static str
    ensures { result.now ≡ name_of_row instr }
{
    match instr {
        AtomicInstr::LoadReserved { .. } => "lr.w",
        AtomicInstr::StoreConditional { .. } => "sc.w",
        AtomicInstr::Amo { op, .. } => amo_name(op),
    }
}

/// The name of the row of an atomic memory operation.
fn amo_name(op: AmoOp) -> &'static str
    ensures { result.now ≡ name_of_amo op }
{
    match op {
        AmoOp::Swap => "amoswap.w",
        AmoOp::Add => "amoadd.w",
        AmoOp::Xor => "amoxor.w",
        AmoOp::And => "amoand.w",
        AmoOp::Or => "amoor.w",
        AmoOp::Min => "amomin.w",
        AmoOp::Max => "amomax.w",
        AmoOp::Minu => "amominu.w",
        AmoOp::Maxu => "amomaxu.w",
    }
}

/// What is after the name of a row for `aq` and `rl`: nothing, `.rl`, `.aq` or `.aqrl`.
pub fn order_suffix(order: Order) -> &'static str
    ensures { result.now ≡ suffix_of order }
{
    match order {
        Order::Unordered => "",
        Order::Release => ".rl",
        Order::Acquire => ".aq",
        Order::Sequential => ".aqrl",
    }
}

/// The order of an instruction.
pub fn ordering_of(instr: AtomicInstr) -> Order
    ensures { result ≡ order_of_instruction instr }
{
    match instr {
        AtomicInstr::LoadReserved { order, .. } => order,
        AtomicInstr::StoreConditional { order, .. } => order,
        AtomicInstr::Amo { order, .. } => order,
    }
}
