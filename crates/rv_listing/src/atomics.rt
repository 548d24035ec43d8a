//! Statements of instructions of A.

use rv_atomics::{AtomicInstr, order_suffix, ordering_of, row_name};
use std::fmt;

/// An instruction of A. Its text is its mnemonic and its operands, as `amoadd.w x10,x11,(x12)`.
#[derive(Clone, Copy)]
pub(crate) struct AtomicInstruction(pub(crate) AtomicInstr);

impl fmt::Display for AtomicInstruction {
    ghost use Rattle.std.specs.Prelude.{Some};
    ghost use Rattle.rv_listing.specs.Atomics.{atomic_instruction_text};

    ghost output = { λ s. Some (atomic_instruction_text s.0) };

    fn fmt<W: fmt::Write>(&self, f: &mut fmt::Formatter<W>) -> fmt::Result {
        let name = row_name(self.0);
        let order = order_suffix(ordering_of(self.0));
        let operands = AtomicOperands(self.0);
        write!(f, "{name}{order}{operands}")
    }
}

/// The operands of an instruction. Their text begins with a blank.
#[derive(Clone, Copy)]
struct AtomicOperands(AtomicInstr);

impl fmt::Display for AtomicOperands {
    ghost use Rattle.std.specs.Prelude.{Some};
    ghost use Rattle.rv_listing.specs.Atomics.{atomic_operands_of};
    ghost use Rattle.rv_listing.specs.Statement.{operand_list};

    ghost output = { λ s. Some (operand_list (atomic_operands_of s.0)) };

    fn fmt<W: fmt::Write>(&self, f: &mut fmt::Formatter<W>) -> fmt::Result {
        match self.0 {
            AtomicInstr::LoadReserved { rd, rs1, .. } => write!(f, " x{rd},(x{rs1})"),
            AtomicInstr::StoreConditional { rd, rs1, rs2, .. }
            | AtomicInstr::Amo { rd, rs1, rs2, .. } => write!(f, " x{rd},x{rs2},(x{rs1})"),
        }
    }
}
