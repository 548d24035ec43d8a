//! The statements of the instruction rows.

ghost use Rattle.std.specs.Prelude.{◌≡◌};
ghost use Rattle.asm_syntax.specs.Faults.{if_ok};
ghost use Rattle.asm_syntax.specs.Forms.{reading};
ghost use Rattle.asm_syntax.specs.TokenViews.{operand_values};
ghost use Rattle.asm_syntax.specs.Views.{statement_value};

use crate::error::LineError;
use crate::form::Form;
use crate::shapes;
use crate::statement::Statement;
use crate::token::Token;
use rv_atomics::{AmoOp, AtomicInstr, Order};
use rv_tables::{BranchOp, IOp, Instr, LoadOp, PlainOp, ROp, ShiftOp, StoreOp, UpperOp};
use std::alloc::Allocator;

/// `add rd,rs1,rs2` and its kin.
pub(crate) fn arithmetic<'a, A: Allocator + Copy>(
    op: ROp,
    operands: &[&[Token<'a>]],
) -> Result<Statement<'a, A>, LineError>
    ensures { if_ok statement_value result ≡ reading (Form.Arithmetic op) (operand_values operands.now) }
{
    let (rd, rs1, rs2) = shapes::three_registers(operands)?;
    Ok(Statement::Instruction(Instr::R { op, rd, rs1, rs2 }))
}

/// `addi rd,rs1,imm` and its kin.
pub(crate) fn with_immediate<'a, A: Allocator + Copy>(
    op: IOp,
    operands: &[&[Token<'a>]],
) -> Result<Statement<'a, A>, LineError>
    ensures { if_ok statement_value result ≡ reading (Form.WithImmediate op) (operand_values operands.now) }
{
    let (rd, rs1, number) = shapes::two_registers_number(operands, -2048, 2047)?;
    let imm = number as i32;
    Ok(Statement::Instruction(Instr::I { op, rd, rs1, imm }))
}

/// `slli rd,rs1,n` and its kin.
pub(crate) fn shift_by_amount<'a, A: Allocator + Copy>(
    op: ShiftOp,
    operands: &[&[Token<'a>]],
) -> Result<Statement<'a, A>, LineError>
    ensures { if_ok statement_value result ≡ reading (Form.ShiftByAmount op) (operand_values operands.now) }
{
    let (rd, rs1, number) = shapes::two_registers_number(operands, 0, 31)?;
    let shamt = number as u8;
    Ok(Statement::Instruction(Instr::Shift { op, rd, rs1, shamt }))
}

/// `lw rd,imm(rs1)` and its kin.
pub(crate) fn load_from<'a, A: Allocator + Copy>(
    op: LoadOp,
    operands: &[&[Token<'a>]],
) -> Result<Statement<'a, A>, LineError>
    ensures { if_ok statement_value result ≡ reading (Form.LoadFrom op) (operand_values operands.now) }
{
    let (rd, address) = shapes::register_address(operands)?;
    let (rs1, imm) = (address.base, address.offset);
    Ok(Statement::Instruction(Instr::Load { op, rd, rs1, imm }))
}

/// `sw rs2,imm(rs1)` and its kin.
pub(crate) fn store_to<'a, A: Allocator + Copy>(
    op: StoreOp,
    operands: &[&[Token<'a>]],
) -> Result<Statement<'a, A>, LineError>
    ensures { if_ok statement_value result ≡ reading (Form.StoreTo op) (operand_values operands.now) }
{
    let (rs2, address) = shapes::register_address(operands)?;
    let (rs1, imm) = (address.base, address.offset);
    Ok(Statement::Instruction(Instr::Store { op, rs1, rs2, imm }))
}

/// `jalr rd,imm(rs1)`.
pub(crate) fn jump_and_link_register<'a, A: Allocator + Copy>(
    operands: &[&[Token<'a>]],
) -> Result<Statement<'a, A>, LineError>
    ensures { if_ok statement_value result ≡ reading Form.JumpAndLinkRegister (operand_values operands.now) }
{
    let (rd, address) = shapes::register_address(operands)?;
    let (rs1, imm) = (address.base, address.offset);
    Ok(Statement::Instruction(Instr::Jalr { rd, rs1, imm }))
}

/// `beq rs1,rs2,target` and its kin.
pub(crate) fn branch_to<'a, A: Allocator + Copy>(
    op: BranchOp,
    operands: &[&[Token<'a>]],
) -> Result<Statement<'a, A>, LineError>
    ensures { if_ok statement_value result ≡ reading (Form.BranchTo op) (operand_values operands.now) }
{
    let (rs1, rs2, target) = shapes::two_registers_target(operands)?;
    Ok(Statement::Branch {
        op,
        rs1,
        rs2,
        target,
    })
}

/// `lui rd,n` and `auipc rd,n`.
pub(crate) fn upper_immediate<'a, A: Allocator + Copy>(
    op: UpperOp,
    operands: &[&[Token<'a>]],
) -> Result<Statement<'a, A>, LineError>
    ensures { if_ok statement_value result ≡ reading (Form.UpperImmediate op) (operand_values operands.now) }
{
    let (rd, number) = shapes::register_number(operands, 0, 0xFFFFF)?;
    let imm = number as u32;
    Ok(Statement::Instruction(Instr::Upper { op, rd, imm }))
}

/// `jal rd,target`.
pub(crate) fn jump_and_link<'a, A: Allocator + Copy>(
    operands: &[&[Token<'a>]],
) -> Result<Statement<'a, A>, LineError>
    ensures { if_ok statement_value result ≡ reading Form.JumpAndLink (operand_values operands.now) }
{
    let (rd, target) = shapes::register_target(operands)?;
    Ok(Statement::Jal { rd, target })
}

/// `fence`, `fence.i`, `ecall` and `ebreak`.
pub(crate) fn no_operands<'a, A: Allocator + Copy>(
    op: PlainOp,
    operands: &[&[Token<'a>]],
) -> Result<Statement<'a, A>, LineError>
    ensures { if_ok statement_value result ≡ reading (Form.NoOperands op) (operand_values operands.now) }
{
    shapes::nothing(operands)?;
    Ok(Statement::Instruction(Instr::Plain { op }))
}

/// `lr.w rd,(rs1)`.
pub(crate) fn load_reserved<'a, A: Allocator + Copy>(
    order: Order,
    operands: &[&[Token<'a>]],
) -> Result<Statement<'a, A>, LineError>
    ensures { if_ok statement_value result ≡ reading (Form.LoadReserved order) (operand_values operands.now) }
{
    let (rd, address) = shapes::register_base(operands)?;
    let rs1 = address.base;
    Ok(Statement::AtomicInstruction(AtomicInstr::LoadReserved { order, rd, rs1 }))
}

/// `sc.w rd,rs2,(rs1)`.
pub(crate) fn store_conditional<'a, A: Allocator + Copy>(
    order: Order,
    operands: &[&[Token<'a>]],
) -> Result<Statement<'a, A>, LineError>
    ensures { if_ok statement_value result ≡ reading (Form.StoreConditional order) (operand_values operands.now) }
{
    let (rd, rs2, address) = shapes::two_registers_base(operands)?;
    let rs1 = address.base;
    Ok(Statement::AtomicInstruction(AtomicInstr::StoreConditional {
        order,
        rd,
        rs1,
        rs2,
    }))
}

/// `amoadd.w rd,rs2,(rs1)` and its kin.
pub(crate) fn atomic_memory<'a, A: Allocator + Copy>(
    op: AmoOp,
    order: Order,
    operands: &[&[Token<'a>]],
) -> Result<Statement<'a, A>, LineError>
    ensures { if_ok statement_value result ≡ reading (Form.AtomicMemory op order) (operand_values operands.now) }
{
    let (rd, rs2, address) = shapes::two_registers_base(operands)?;
    let rs1 = address.base;
    Ok(Statement::AtomicInstruction(AtomicInstr::Amo {
        op,
        order,
        rd,
        rs1,
        rs2,
    }))
}
