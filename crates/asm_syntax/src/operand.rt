//! The operands of a statement.

ghost use Rattle.std.specs.Prelude.{true, ◌≡◌, ◌≤ℤ◌, ◌^◌, pos, neg_ℤ, min, map, unwrap_or, IfOk};
ghost use Rattle.std.specs.Option.{option_map};
ghost use Rattle.numerals.specs.Numbers.{number_value as value_of};
ghost use Rattle.asm_syntax.specs.Faults.{judged, if_ok};
ghost use Rattle.asm_syntax.specs.Limits.{clamped, clamped_based, clamped_target};
ghost use Rattle.asm_syntax.specs.Operands.{register_in, number_in, in_parentheses, based_in, address_in, target_in, text_in, fits_target};
ghost use Rattle.asm_syntax.specs.Ranges.{from_to, signed, up_to, is_within, IsWithin};
ghost use Rattle.asm_syntax.specs.TokenViews.{address_value, token_value, unescaped, based_value};
ghost use Rattle.asm_syntax.specs.Views.{target_value};

use crate::error::LineError;
use crate::number::{LIMIT, number_value};
use crate::statement::Target;
use crate::token::Token;
use rv_tables::reg_number;

/// An address in memory: that in a register, plus a number.
#[derive(Clone, Copy, Debug)]
pub(crate) struct Address {
    pub(crate) offset: i32,
    pub(crate) base: u8,
}

/// A number and what is in parentheses after it.
#[derive(Clone, Copy, Debug)]
struct NumberAndBase<'a> {
    number: i64,
    base: &'a [u8],
}

/// A register by its name.
pub(crate) fn register(operand: &[Token<'_>]) -> Result<u8, LineError>
    ensures { result ≡ judged (λ _. true) (register_in (map token_value operand.now)) }
{
    match operand {
        [Token::Name(name)] => reg_number(name).ok_or(LineError::BadOperand),
        _ => Err(LineError::BadOperand),
    }
}

/// The value of a number's word, or [`LIMIT`] if it is more.
fn magnitude(word: &[u8]) -> i64
    ensures { result ≡ pos (min (unwrap_or (value_of word.now) 0) LIMIT) }
{
    number_value(word).unwrap_or(0) as i64
}

/// The value of a number's word with its sign turned, or -[`LIMIT`] if it is less.
fn negated(word: &[u8]) -> i64
    ensures { result ≡ clamped LIMIT (neg_ℤ (pos (unwrap_or (value_of word.now) 0))) }
{
    -magnitude(word)
}

/// A number, with or without `-`.
fn number(operand: &[Token<'_>]) -> Option<i64>
    ensures { result ≡ option_map (clamped LIMIT) (number_in (map token_value operand.now)) }
{
    match operand {
        [Token::Number(word)] => Some(magnitude(word)),
        [Token::Minus, Token::Number(word)] => Some(negated(word)),
        _ => None,
    }
}

/// A number in a range.
pub(crate) fn number_within(operand: &[Token<'_>], low: i64, high: i64) -> Result<i64, LineError>
    requires low { neg_ℤ (pos (2 ^ 39)) ≤ℤ low }
    requires high { high ≤ℤ pos (2 ^ 39) }
    ensures value { result ≡ judged (is_within (from_to low high)) (number_in (map token_value operand.now)) }
    ensures within { IfOk result (IsWithin (from_to low high)) }
{
    let value = number(operand).ok_or(LineError::BadOperand)?;
    if low <= value && value <= high {
        Ok(value)
    } else {
        Err(LineError::OutOfRange)
    }
}

/// A name in parentheses.
fn in_parentheses<'a>(operand: &[Token<'a>]) -> Option<&'a [u8]>
    ensures { option_map (λ r. r.now) result ≡ in_parentheses (map token_value operand.now) }
{
    match operand {
        [Token::Open, Token::Name(name), Token::Close] => Some(name),
        _ => None,
    }
}

/// A number and a name in parentheses; without a number it is 0.
fn based<'a>(operand: &[Token<'a>]) -> Option<NumberAndBase<'a>>
    ensures { option_map based_value result
        ≡ option_map (clamped_based LIMIT) (based_in (map token_value operand.now)) }
{
    let (number, rest) = match operand {
        [Token::Number(word), rest @ ..] => (magnitude(word), rest),
        [Token::Minus, Token::Number(word), rest @ ..] => (negated(word), rest),
        _ => (0, operand),
    };
    let base = in_parentheses(rest)?;
    Some(NumberAndBase { number, base })
}

/// An address in memory.
pub(crate) fn memory_address(operand: &[Token<'_>]) -> Result<Address, LineError>
    ensures { if_ok address_value result
        ≡ judged (λ a. is_within (signed 12) a.offset) (address_in (map token_value operand.now)) }
{
    let NumberAndBase { number, base } = based(operand).ok_or(LineError::BadOperand)?;
    let base = reg_number(base).ok_or(LineError::BadOperand)?;
    if -2048 <= number && number <= 2047 {
        Ok(Address {
            offset: number as i32,
            base,
        })
    } else {
        Err(LineError::OutOfRange)
    }
}

/// An address in memory that is in a register, with no number but 0.
pub(crate) fn base_address(operand: &[Token<'_>]) -> Result<Address, LineError>
    ensures { if_ok address_value result
        ≡ judged (λ a. is_within (up_to 0) a.offset) (address_in (map token_value operand.now)) }
{
    let NumberAndBase { number, base } = based(operand).ok_or(LineError::BadOperand)?;
    let base = reg_number(base).ok_or(LineError::BadOperand)?;
    if number == 0 {
        Ok(Address { offset: 0, base })
    } else {
        Err(LineError::OutOfRange)
    }
}

/// A label, a label plus or minus a number, or a number, whatever its range.
fn any_target<'a>(operand: &[Token<'a>]) -> Option<Target<'a>>
    ensures { option_map target_value result
        ≡ option_map (clamped_target LIMIT) (target_in (map token_value operand.now)) }
{
    match operand {
        [Token::Name(label)] => Some(Target {
            label: Some(label),
            offset: 0,
        }),
        [Token::Name(label), Token::Plus, Token::Number(word)] => {
            Some(Target {
                label: Some(label),
                offset: magnitude(word),
            })
        }
        [Token::Name(label), Token::Minus, Token::Number(word)] => {
            Some(Target {
                label: Some(label),
                offset: negated(word),
            })
        }
        _ => number(operand).map(|offset| Target {
            label: None,
            offset,
        }),
    }
}

/// A target whose number is in its range.
pub(crate) fn target<'a>(operand: &[Token<'a>]) -> Result<Target<'a>, LineError>
    ensures { if_ok target_value result ≡ judged fits_target (target_in (map token_value operand.now)) }
{
    let target = any_target(operand).ok_or(LineError::BadOperand)?;
    let low = match target.label {
        Some(_) => -(u32::MAX as i64),
        None => i32::MIN as i64,
    };
    if low <= target.offset && target.offset <= u32::MAX as i64 {
        Ok(target)
    } else {
        Err(LineError::OutOfRange)
    }
}

/// What is between the `"` of a string, with its escapes.
pub(crate) fn text<'a>(operand: &[Token<'a>]) -> Option<&'a [u8]>
    ensures { option_map (λ s. unescaped s.now) result ≡ text_in (map token_value operand.now) }
{
    match operand {
        [Token::Text(raw)] => Some(raw),
        _ => None,
    }
}
