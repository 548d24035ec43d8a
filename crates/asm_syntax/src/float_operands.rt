//! The operands of floating-point statements: their kinds, and how each is read.

ghost use Rattle.std.specs.Prelude.{true, ◌≡◌, map};
ghost use Rattle.asm_syntax.specs.Faults.{judged};
ghost use Rattle.asm_syntax.specs.FloatOperands.{csr_in, float_register_in, float_operation, read_all, read_one, rounding_in};
ghost use Rattle.asm_syntax.specs.TokenViews.{operand_values, token_value};

use crate::error::LineError;
use crate::float_form::{FloatForm, instruction, kinds_of, row_of};
use crate::operand;
use crate::token::Token;
use rv_float_tables::{
    FloatCsr, FloatInstr, RoundingField, csr_named, float_reg_number, rounding_named,
};

/// What an operand is, and where its value goes to in an instruction. Registers are of floating point, but for the integer ones.
#[derive(Clone, Copy)]
pub(crate) enum Kind {
    IntegerRd,
    IntegerRs1,
    Rd,
    Rs1,
    Rs2,
    Rs3,
    /// One register that is rs1 and rs2.
    BothSources,
    Csr,
    /// An immediate of 5 bits, which stands where rs1 does.
    Immediate,
    /// An integer rs1 and an immediate, as `8(x2)`.
    Address,
    Rounding,
}

/// The operands of a statement, whatever its instruction has of them.
#[derive(Clone, Copy)]
pub(crate) struct FloatOperands {
    pub(crate) rd: u8,
    pub(crate) rs1: u8,
    pub(crate) rs2: u8,
    pub(crate) rs3: u8,
    pub(crate) imm: i32,
    pub(crate) csr: FloatCsr,
    pub(crate) rm: RoundingField,
}

impl FloatOperands {
    /// These operands with what an operand of a kind says.
    fn with(self, kind: Kind, operand: &[Token<'_>]) -> Result<FloatOperands, LineError>
        ensures { result ≡ read_one kind (map token_value operand.now) self }
    {
        let mut read = self;
        match kind {
            Kind::IntegerRd => read.rd = operand::register(operand)?,
            Kind::IntegerRs1 => read.rs1 = operand::register(operand)?,
            Kind::Rd => read.rd = float_register(operand)?,
            Kind::Rs1 => read.rs1 = float_register(operand)?,
            Kind::Rs2 => read.rs2 = float_register(operand)?,
            Kind::Rs3 => read.rs3 = float_register(operand)?,
            Kind::BothSources => {
                let source = float_register(operand)?;
                read.rs1 = source;
                read.rs2 = source;
            }
            Kind::Csr => read.csr = csr(operand)?,
            Kind::Immediate => read.rs1 = operand::number_within(operand, 0, 31)? as u8,
            Kind::Address => {
                let address = operand::memory_address(operand)?;
                read.rs1 = address.base;
                read.imm = address.offset;
            }
            Kind::Rounding => read.rm = rounding(operand)?,
        }
        Ok(read)
    }
}

/// The instruction that operands of a statement make.
pub(crate) fn operation(form: FloatForm, operands: &[&[Token<'_>]]) -> Result<FloatInstr, LineError>
    ensures { result ≡ float_operation form (operand_values operands.now) }
{
    let kinds = kinds_of(form, operands.len()).ok_or(LineError::BadOperand)?;
    let read = read_all(kinds, operands, FloatOperands::left_out(form))?;
    Ok(instruction(row_of(form), read))
}

/// Reads each operand as what stands in its place among the kinds.
fn read_all(
    kinds: &[Kind],
    operands: &[&[Token<'_>]],
    left_out: FloatOperands,
) -> Result<FloatOperands, LineError>
    ensures { result ≡ read_all kinds.now (operand_values operands.now) left_out }
{
    let mut read = left_out;
    let mut kinds = kinds;
    let mut rest = operands;
    while let [operand, behind @ ..] = rest {
        let [kind, others @ ..] = kinds else {
            return Ok(read);
        };
        read = read.with(*kind, operand)?;
        kinds = others;
        rest = behind;
    }
    Ok(read)
}

/// A register of floating point by its name.
fn float_register(operand: &[Token<'_>]) -> Result<u8, LineError>
    ensures { result ≡ judged (λ _. true) (float_register_in (map token_value operand.now)) }
{
    match operand {
        [Token::Name(name)] => float_reg_number(name).ok_or(LineError::BadOperand),
        _ => Err(LineError::BadOperand),
    }
}

/// A control and status register by its name.
fn csr(operand: &[Token<'_>]) -> Result<FloatCsr, LineError>
    ensures { result ≡ judged (λ _. true) (csr_in (map token_value operand.now)) }
{
    match operand {
        [Token::Name(name)] => csr_named(name).ok_or(LineError::BadOperand),
        _ => Err(LineError::BadOperand),
    }
}

/// A rounding mode by its name.
fn rounding(operand: &[Token<'_>]) -> Result<RoundingField, LineError>
    ensures { result ≡ judged (λ _. true) (rounding_in (map token_value operand.now)) }
{
    match operand {
        [Token::Name(name)] => rounding_named(name).ok_or(LineError::BadOperand),
        _ => Err(LineError::BadOperand),
    }
}
