//! The statements of the directives.

ghost use Rattle.std.specs.Prelude.{◌≡◌, ◌≢◌, ◌^◌, ◌-◌, ◌≤ℤ◌, pos, neg_ℤ, map, Ok, Err, IfOk, IfErr};
ghost use Rattle.asm_syntax.specs.Faults.{if_ok};
ghost use Rattle.asm_syntax.specs.Forms.{reading};
ghost use Rattle.asm_syntax.specs.Ranges.{from_to};
ghost use Rattle.asm_syntax.specs.Shapes as Shapes;
ghost use Rattle.asm_syntax.specs.TokenViews.{operand_values};
ghost use Rattle.asm_syntax.specs.Views.{statement_value, target_value};

use crate::error::LineError;
use crate::form::Form;
use crate::statement::{Statement, Target};
use crate::token::Token;
use crate::{operand, shapes, text};
use list_vec::ListVec;
use std::alloc::Allocator;

/// `.space n`.
pub(crate) fn space<'a, A: Allocator + Copy>(
    operands: &[&[Token<'a>]],
) -> Result<Statement<'a, A>, LineError>
    ensures { if_ok statement_value result ≡ reading Form.ZeroData (operand_values operands.now) }
{
    let number = shapes::number(operands, 0, 1 << 24)?;
    Ok(Statement::Space(number as u32))
}

/// `.align n`.
pub(crate) fn align<'a, A: Allocator + Copy>(
    operands: &[&[Token<'a>]],
) -> Result<Statement<'a, A>, LineError>
    ensures { if_ok statement_value result ≡ reading Form.AlignData (operand_values operands.now) }
{
    let number = shapes::number(operands, 0, 12)?;
    Ok(Statement::Align(number as u8))
}

/// `.entry target`.
pub(crate) fn entry<'a, A: Allocator + Copy>(
    operands: &[&[Token<'a>]],
) -> Result<Statement<'a, A>, LineError>
    ensures { if_ok statement_value result ≡ reading Form.EntryPoint (operand_values operands.now) }
{
    let target = shapes::target(operands)?;
    Ok(Statement::Entry(target))
}

/// `.ascii "text"`.
pub(crate) fn ascii<'a, A: Allocator + Copy>(
    alloc: A,
    operands: &[&[Token<'a>]],
) -> Result<Statement<'a, A>, LineError>
    ensures ok { IfOk result (λ s. reading Form.TextData (operand_values operands.now) ≡ Ok (statement_value s)) }
    ensures err { IfErr result (λ e. e ≢ LineError.NoMemory
        → reading Form.TextData (operand_values operands.now) ≡ Err e) }
{
    let raw = shapes::text(operands)?;
    let bytes = text::unescaped(alloc, raw)?;
    Ok(Statement::Ascii(ListVec::from_vec(bytes)))
}

/// `.word target,..`.
pub(crate) fn words<'a, A: Allocator + Copy>(
    alloc: A,
    operands: &[&[Token<'a>]],
) -> Result<Statement<'a, A>, LineError>
    ensures ok { IfOk result (λ s. reading Form.WordData (operand_values operands.now) ≡ Ok (statement_value s)) }
    ensures err { IfErr result (λ e. e ≢ LineError.NoMemory
        → reading Form.WordData (operand_values operands.now) ≡ Err e) }
{
    let targets = targets(alloc, operands)?;
    Ok(Statement::Words(ListVec::from_vec(targets)))
}

/// `.half n,..`.
pub(crate) fn halves<'a, A: Allocator + Copy>(
    alloc: A,
    operands: &[&[Token<'a>]],
) -> Result<Statement<'a, A>, LineError>
    ensures ok { IfOk result (λ s. reading Form.HalfData (operand_values operands.now) ≡ Ok (statement_value s)) }
    ensures err { IfErr result (λ e. e ≢ LineError.NoMemory
        → reading Form.HalfData (operand_values operands.now) ≡ Err e) }
{
    let numbers = numbers(alloc, operands, -32768, 65535)?;
    Ok(Statement::Halves(ListVec::from_vec(numbers)))
}

/// `.byte n,..`.
pub(crate) fn bytes<'a, A: Allocator + Copy>(
    alloc: A,
    operands: &[&[Token<'a>]],
) -> Result<Statement<'a, A>, LineError>
    ensures ok { IfOk result (λ s. reading Form.ByteData (operand_values operands.now) ≡ Ok (statement_value s)) }
    ensures err { IfErr result (λ e. e ≢ LineError.NoMemory
        → reading Form.ByteData (operand_values operands.now) ≡ Err e) }
{
    let numbers = numbers(alloc, operands, -128, 255)?;
    Ok(Statement::Bytes(ListVec::from_vec(numbers)))
}

/// One or more targets.
fn targets<'a, A: Allocator + Copy>(
    alloc: A,
    operands: &[&[Token<'a>]],
) -> Result<Vec<Target<'a>, A>, LineError>
    ensures ok { IfOk result (λ targets.
        Shapes.targets (operand_values operands.now) ≡ Ok (map target_value targets.items)) }
    ensures err { IfErr result (λ e. e ≢ LineError.NoMemory → Shapes.targets (operand_values operands.now) ≡ Err e) }
{
    if operands.is_empty() {
        return Err(LineError::BadOperand);
    }
    let mut targets = Vec::new(alloc);
    let mut fits = true;
    for operand in operands {
        match operand::target(operand) {
            Ok(target) => targets.push(target)?,
            Err(fault) => {
                if fault != LineError::OutOfRange {
                    return Err(fault);
                }
                fits = false;
            }
        }
    }
    if fits {
        Ok(targets)
    } else {
        Err(LineError::OutOfRange)
    }
}

/// One or more numbers from `low` to `high`.
fn numbers<A: Allocator + Copy>(
    alloc: A,
    operands: &[&[Token<'_>]],
    low: i64,
    high: i64,
) -> Result<Vec<i32, A>, LineError>
    requires low { neg_ℤ (pos (2 ^ 31)) ≤ℤ low }
    requires high { high ≤ℤ pos (2 ^ 31 - 1) }
    ensures ok { IfOk result (λ numbers.
        Shapes.numbers (from_to low high) (operand_values operands.now) ≡ Ok numbers.items) }
    ensures err { IfErr result (λ e. e ≢ LineError.NoMemory
        → Shapes.numbers (from_to low high) (operand_values operands.now) ≡ Err e) }
{
    if operands.is_empty() {
        return Err(LineError::BadOperand);
    }
    let mut numbers = Vec::new(alloc);
    let mut fits = true;
    for operand in operands {
        match operand::number_within(operand, low, high) {
            Ok(number) => numbers.push(number as i32)?,
            Err(fault) => {
                if fault != LineError::OutOfRange {
                    return Err(fault);
                }
                fits = false;
            }
        }
    }
    if fits {
        Ok(numbers)
    } else {
        Err(LineError::OutOfRange)
    }
}
