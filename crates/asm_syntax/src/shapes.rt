//! The operands of a statement: how many, and of which kinds.
//!
//! Each call answers the operands of one shape. It answers `BadOperand` if the number of operands or the kind of one is wrong, and
//! otherwise `OutOfRange` if a number is out of its range.

ghost use Rattle.std.specs.Prelude.{true, ◌≡◌, ◌≤ℤ◌, ◌^◌, pos, neg_ℤ, map, IfOk};
ghost use Rattle.asm_syntax.specs.Faults.{judged, if_ok};
ghost use Rattle.asm_syntax.specs.Operands.{register_in};
ghost use Rattle.asm_syntax.specs.Ranges.{from_to, IsWithin};
ghost use Rattle.asm_syntax.specs.Shapes as Shapes;
ghost use Rattle.asm_syntax.specs.TokenViews.{operand_values, register_address_value, registers_address_value, token_value, unescaped};
ghost use Rattle.asm_syntax.specs.Views.{target_value, register_target_value, registers_target_value};

use crate::error::LineError;
use crate::operand::{self, Address};
use crate::statement::Target;
use crate::token::Token;

/// No operands.
pub(crate) fn nothing(operands: &[&[Token<'_>]]) -> Result<(), LineError>
    ensures { result ≡ Shapes.no_operands (operand_values operands.now) }
{
    match operands {
        [] => Ok(()),
        _ => Err(LineError::BadOperand),
    }
}

/// `rs`.
pub(crate) fn register(operands: &[&[Token<'_>]]) -> Result<u8, LineError>
    ensures { result ≡ Shapes.a_register (operand_values operands.now) }
{
    let [first] = operands else {
        return Err(LineError::BadOperand);
    };
    operand::register(first)
}

/// `rd,rs`.
pub(crate) fn two_registers(operands: &[&[Token<'_>]]) -> Result<(u8, u8), LineError>
    ensures { result ≡ Shapes.two_registers (operand_values operands.now) }
{
    let [first, second] = operands else {
        return Err(LineError::BadOperand);
    };
    both_registers(first, second)
}

/// Two operands that are registers.
fn both_registers(first: &[Token<'_>], second: &[Token<'_>]) -> Result<(u8, u8), LineError>
    ensures { result
        ≡ judged (λ _. true)
        (Shapes.with_both (register_in (map token_value first.now)) (register_in (map token_value second.now)) (λ x y. (x, y))) }
{
    let first = operand::register(first)?;
    let second = operand::register(second)?;
    Ok((first, second))
}

/// `rd,rs1,rs2`.
pub(crate) fn three_registers(operands: &[&[Token<'_>]]) -> Result<(u8, u8, u8), LineError>
    ensures { result ≡ Shapes.three_registers (operand_values operands.now) }
{
    let [first, second, third] = operands else {
        return Err(LineError::BadOperand);
    };
    let (rd, rs1) = both_registers(first, second)?;
    let rs2 = operand::register(third)?;
    Ok((rd, rs1, rs2))
}

/// A number from `low` to `high`.
pub(crate) fn number(operands: &[&[Token<'_>]], low: i64, high: i64) -> Result<i64, LineError>
    requires low { neg_ℤ (pos (2 ^ 39)) ≤ℤ low }
    requires high { high ≤ℤ pos (2 ^ 39) }
    ensures value { result ≡ Shapes.a_number (from_to low high) (operand_values operands.now) }
    ensures in_range { IfOk result (IsWithin (from_to low high)) }
{
    let [first] = operands else {
        return Err(LineError::BadOperand);
    };
    operand::number_within(first, low, high)
}

/// `rd,n`, with the number from `low` to `high`.
pub(crate) fn register_number(
    operands: &[&[Token<'_>]],
    low: i64,
    high: i64,
) -> Result<(u8, i64), LineError>
    requires low { neg_ℤ (pos (2 ^ 39)) ≤ℤ low }
    requires high { high ≤ℤ pos (2 ^ 39) }
    ensures value { result ≡ Shapes.register_and_number (from_to low high) (operand_values operands.now) }
    ensures in_range { IfOk result (λ o. IsWithin (from_to low high) o.1) }
{
    let [first, second] = operands else {
        return Err(LineError::BadOperand);
    };
    let rd = operand::register(first)?;
    let number = operand::number_within(second, low, high)?;
    Ok((rd, number))
}

/// `rd,rs1,n`, with the number from `low` to `high`.
pub(crate) fn two_registers_number(
    operands: &[&[Token<'_>]],
    low: i64,
    high: i64,
) -> Result<(u8, u8, i64), LineError>
    requires low { neg_ℤ (pos (2 ^ 39)) ≤ℤ low }
    requires high { high ≤ℤ pos (2 ^ 39) }
    ensures value { result ≡ Shapes.registers_and_number (from_to low high) (operand_values operands.now) }
    ensures in_range { IfOk result (λ o. IsWithin (from_to low high) o.2) }
{
    let [first, second, third] = operands else {
        return Err(LineError::BadOperand);
    };
    let (rd, rs1) = both_registers(first, second)?;
    let number = operand::number_within(third, low, high)?;
    Ok((rd, rs1, number))
}

/// `r,imm(rs1)`.
pub(crate) fn register_address(operands: &[&[Token<'_>]]) -> Result<(u8, Address), LineError>
    ensures { if_ok register_address_value result ≡ Shapes.register_and_address (operand_values operands.now) }
{
    let [first, second] = operands else {
        return Err(LineError::BadOperand);
    };
    let register = operand::register(first)?;
    let address = operand::memory_address(second)?;
    Ok((register, address))
}

/// `rd,(rs1)`, with no number in front of the `(` but 0.
pub(crate) fn register_base(operands: &[&[Token<'_>]]) -> Result<(u8, Address), LineError>
    ensures { if_ok register_address_value result ≡ Shapes.register_and_base (operand_values operands.now) }
{
    let [first, second] = operands else {
        return Err(LineError::BadOperand);
    };
    let register = operand::register(first)?;
    let address = operand::base_address(second)?;
    Ok((register, address))
}

/// `rd,rs2,(rs1)`, likewise.
pub(crate) fn two_registers_base(operands: &[&[Token<'_>]]) -> Result<(u8, u8, Address), LineError>
    ensures { if_ok registers_address_value result ≡ Shapes.registers_and_base (operand_values operands.now) }
{
    let [first, second, third] = operands else {
        return Err(LineError::BadOperand);
    };
    let (rd, rs2) = both_registers(first, second)?;
    let address = operand::base_address(third)?;
    Ok((rd, rs2, address))
}

/// A target.
pub(crate) fn target<'a>(operands: &[&[Token<'a>]]) -> Result<Target<'a>, LineError>
    ensures { if_ok target_value result ≡ Shapes.a_target (operand_values operands.now) }
{
    let [first] = operands else {
        return Err(LineError::BadOperand);
    };
    operand::target(first)
}

/// `r,target`.
pub(crate) fn register_target<'a>(operands: &[&[Token<'a>]]) -> Result<(u8, Target<'a>), LineError>
    ensures { if_ok register_target_value result ≡ Shapes.register_and_target (operand_values operands.now) }
{
    let [first, second] = operands else {
        return Err(LineError::BadOperand);
    };
    let register = operand::register(first)?;
    let target = operand::target(second)?;
    Ok((register, target))
}

/// `rs1,rs2,target`.
pub(crate) fn two_registers_target<'a>(
    operands: &[&[Token<'a>]],
) -> Result<(u8, u8, Target<'a>), LineError>
    ensures { if_ok registers_target_value result ≡ Shapes.registers_and_target (operand_values operands.now) }
{
    let [first, second, third] = operands else {
        return Err(LineError::BadOperand);
    };
    let (rs1, rs2) = both_registers(first, second)?;
    let target = operand::target(third)?;
    Ok((rs1, rs2, target))
}

/// A string: what is between its `"`, with its escapes.
pub(crate) fn text<'a>(operands: &[&[Token<'a>]]) -> Result<&'a [u8], LineError>
    ensures { if_ok (λ raw. unescaped raw.now) result ≡ Shapes.a_text (operand_values operands.now) }
{
    let [first] = operands else {
        return Err(LineError::BadOperand);
    };
    operand::text(first).ok_or(LineError::BadOperand)
}
