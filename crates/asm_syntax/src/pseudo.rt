//! The statements of the pseudo-instructions.

ghost use Rattle.std.specs.Prelude.{◌≡◌, pos};
ghost use Rattle.asm_syntax.specs.Faults.{if_ok};
ghost use Rattle.asm_syntax.specs.Forms.{reading};
ghost use Rattle.asm_syntax.specs.TokenViews.{operand_values};
ghost use Rattle.asm_syntax.specs.Views.{statement_value};
ghost use Rattle.asm_syntax.specs.Statements.{instruction};

use crate::error::LineError;
use crate::form::Form;
use crate::shapes;
use crate::statement::Statement;
use crate::token::Token;
use rv_tables::{BranchOp, IOp, Instr};
use std::alloc::Allocator;

/// `nop`.
pub(crate) fn nop<'a, A: Allocator + Copy>(
    operands: &[&[Token<'a>]],
) -> Result<Statement<'a, A>, LineError>
    ensures { if_ok statement_value result ≡ reading Form.Nop (operand_values operands.now) }
{
    shapes::nothing(operands)?;
    Ok(add_immediate(0, 0))
}

/// `mv rd,rs`.
pub(crate) fn move_register<'a, A: Allocator + Copy>(
    operands: &[&[Token<'a>]],
) -> Result<Statement<'a, A>, LineError>
    ensures { if_ok statement_value result ≡ reading Form.Move (operand_values operands.now) }
{
    let (rd, rs) = shapes::two_registers(operands)?;
    Ok(add_immediate(rd, rs))
}

/// `li rd,n`.
pub(crate) fn load_immediate<'a, A: Allocator + Copy>(
    operands: &[&[Token<'a>]],
) -> Result<Statement<'a, A>, LineError>
    ensures { if_ok statement_value result ≡ reading Form.LoadImmediate (operand_values operands.now) }
{
    let low = i64::from(i32::MIN);
    let (rd, value) = shapes::register_number(operands, low, i64::from(u32::MAX))?;
    Ok(Statement::LoadImmediate { rd, value })
}

/// `la rd,target`.
pub(crate) fn load_address<'a, A: Allocator + Copy>(
    operands: &[&[Token<'a>]],
) -> Result<Statement<'a, A>, LineError>
    ensures { if_ok statement_value result ≡ reading Form.LoadAddress (operand_values operands.now) }
{
    let (rd, target) = shapes::register_target(operands)?;
    Ok(Statement::LoadAddress { rd, target })
}

/// `j target`.
pub(crate) fn jump<'a, A: Allocator + Copy>(
    operands: &[&[Token<'a>]],
) -> Result<Statement<'a, A>, LineError>
    ensures { if_ok statement_value result ≡ reading Form.Jump (operand_values operands.now) }
{
    let target = shapes::target(operands)?;
    Ok(Statement::Jal { rd: 0, target })
}

/// `jr rs`.
pub(crate) fn jump_register<'a, A: Allocator + Copy>(
    operands: &[&[Token<'a>]],
) -> Result<Statement<'a, A>, LineError>
    ensures { if_ok statement_value result ≡ reading Form.JumpRegister (operand_values operands.now) }
{
    let rs = shapes::register(operands)?;
    Ok(jump_to(rs))
}

/// `ret`.
pub(crate) fn return_to_link<'a, A: Allocator + Copy>(
    operands: &[&[Token<'a>]],
) -> Result<Statement<'a, A>, LineError>
    ensures { if_ok statement_value result ≡ reading Form.Return (operand_values operands.now) }
{
    shapes::nothing(operands)?;
    Ok(jump_to(1))
}

/// `call target`.
pub(crate) fn call<'a, A: Allocator + Copy>(
    operands: &[&[Token<'a>]],
) -> Result<Statement<'a, A>, LineError>
    ensures { if_ok statement_value result ≡ reading Form.Call (operand_values operands.now) }
{
    let target = shapes::target(operands)?;
    Ok(Statement::Jal { rd: 1, target })
}

/// `beqz rs,target`.
pub(crate) fn branch_if_zero<'a, A: Allocator + Copy>(
    operands: &[&[Token<'a>]],
) -> Result<Statement<'a, A>, LineError>
    ensures { if_ok statement_value result ≡ reading Form.BranchIfZero (operand_values operands.now) }
{
    let (rs1, target) = shapes::register_target(operands)?;
    Ok(Statement::Branch {
        op: BranchOp::Beq,
        rs1,
        rs2: 0,
        target,
    })
}

/// `bnez rs,target`.
pub(crate) fn branch_if_not_zero<'a, A: Allocator + Copy>(
    operands: &[&[Token<'a>]],
) -> Result<Statement<'a, A>, LineError>
    ensures { if_ok statement_value result ≡ reading Form.BranchIfNotZero (operand_values operands.now) }
{
    let (rs1, target) = shapes::register_target(operands)?;
    Ok(Statement::Branch {
        op: BranchOp::Bne,
        rs1,
        rs2: 0,
        target,
    })
}

/// `addi rd,rs,0`.
fn add_immediate<'a, A: Allocator + Copy>(rd: u8, rs: u8) -> Statement<'a, A>
    ensures { statement_value result ≡ instruction (Instr.I IOp.Addi rd rs (pos 0)) }
{
    Statement::Instruction(Instr::I {
        op: IOp::Addi,
        rd,
        rs1: rs,
        imm: 0,
    })
}

/// `jalr x0,0(rs)`.
fn jump_to<'a, A: Allocator + Copy>(rs: u8) -> Statement<'a, A>
    ensures { statement_value result ≡ instruction (Instr.Jalr 0 rs (pos 0)) }
{
    Statement::Instruction(Instr::Jalr {
        rd: 0,
        rs1: rs,
        imm: 0,
    })
}
