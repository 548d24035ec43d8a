//! The bit fields that only instructions of A have, and what their values mean.

ghost use Rattle.std.specs.Prelude.{◌≡◌};
ghost use Rattle.rv_tables.specs.Fields.{bits as bits_of};
ghost use Rattle.rv_atomics.specs.Rows.{order as order_of_word};

use crate::instr::Order;
pub use rv_tables::fields::{bits, rd, rs1, rs2};

/// What tells the instructions of an opcode and a funct3 apart.
pub fn funct5(word: u32) -> u32
    ensures { result ≡ bits_of word 31 27 }
{
    bits(word, 31, 27)
}

/// The bits `aq` and `rl`.
pub fn order(word: u32) -> Order
    ensures { result ≡ order_of_word word }
{
    match bits(word, 26, 25) {
        0 => Order::Unordered,
        1 => Order::Release,
        2 => Order::Acquire,
        _ => Order::Sequential,
    }
}
