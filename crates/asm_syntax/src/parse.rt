//! The parser of a line.

ghost use Rattle.std.specs.Prelude.{◌≡◌, ◌≢◌, ◌∷◌, [], map, Some, None, Ok, Err, IfOk, IfErr, IfSome};
ghost use Rattle.std.specs.Option.{option_map};
ghost use Rattle.asm_syntax.specs.Forms.{form_named, reading};
ghost use Rattle.asm_syntax.specs.Operands.{operands_in};
ghost use Rattle.asm_syntax.specs.Parse.{line_of, labels_in, behind_labels, statement_in, statement_of_form};
ghost use Rattle.asm_syntax.specs.Statements.{IsInRange};
ghost use Rattle.asm_syntax.specs.TokenViews.{token_value, operand_values};
ghost use Rattle.asm_syntax.specs.Views.{statement_value, line_value};

use crate::error::LineError;
use crate::form::{Form, form_named};
use crate::statement::{Line, Statement};
use crate::token::{Token, tokens};
use crate::{data, float_operands, pseudo, rows};
use list_vec::ListVec;
use rv_atomics::Extensions;
use std::alloc::{AllocError, Allocator};

/// What a line says: its labels and its statement. A line is any bytes without its line feed. The language has the statements of
/// some extensions.
///
/// The error is the first fault of [`LineError`] that the line has, or `NoMemory` if memory is refused.
#[tactic(auto, unfolding(crate::specs::Parse::line_of))]
pub fn parse_line<'a, A: Allocator + Copy>(
    alloc: A,
    extensions: Extensions,
    line: &'a [u8],
) -> Result<Line<'a, A>, LineError>
    ensures ok { IfOk result (λ l. line_of extensions line.now ≡ Ok (line_value l)) }
    ensures in_range { IfOk result (λ l. IfSome l.statement (λ s. IsInRange (statement_value s))) }
    ensures err { IfErr result (λ e. e ≢ LineError.NoMemory → line_of extensions line.now ≡ Err e) }
{
    let tokens = tokens(alloc, line)?;
    let (labels, rest) = labels(alloc, &tokens)?;
    let statement = statement(alloc, extensions, rest)?;
    Ok(Line {
        labels: ListVec::from_vec(labels),
        statement,
    })
}

/// The labels that tokens begin with, and the tokens after them.
fn labels<'t, 'a, A: Allocator + Copy>(
    alloc: A,
    tokens: &'t [Token<'a>],
) -> Result<(Vec<&'a [u8], A>, &'t [Token<'a>]), AllocError>
    ensures labels { IfOk result (λ split.
        map (λ l. l.now) split.0.items ≡ labels_in (map token_value tokens.now)) }
    ensures rest { IfOk result (λ split.
        map token_value split.1.now ≡ behind_labels (map token_value tokens.now)) }
{
    let mut labels = Vec::new(alloc);
    let mut rest = tokens;
    while let [Token::Name(label), Token::Colon, behind @ ..] = rest {
        labels.push(*label)?;
        rest = behind;
    }
    Ok((labels, rest))
}

/// The statement that tokens without labels spell, if there is one.
fn statement<'a, A: Allocator + Copy>(
    alloc: A,
    extensions: Extensions,
    tokens: &[Token<'a>],
) -> Result<Option<Statement<'a, A>>, LineError>
    ensures ok { IfOk result (λ s. statement_in extensions (map token_value tokens.now) ≡ Ok (option_map statement_value s)) }
    ensures err { IfErr result (λ e. e ≢ LineError.NoMemory → statement_in extensions (map token_value tokens.now) ≡ Err e) }
{
    match tokens {
        [] => Ok(None),
        [Token::Name(mnemonic), rest @ ..] => {
            let statement = statement_named(alloc, extensions, mnemonic, rest)?;
            Ok(Some(statement))
        }
        _ => Err(LineError::UnknownMnemonic),
    }
}

/// The statement that a mnemonic and the tokens after it spell.
fn statement_named<'a, A: Allocator + Copy>(
    alloc: A,
    extensions: Extensions,
    mnemonic: &[u8],
    tokens: &[Token<'a>],
) -> Result<Statement<'a, A>, LineError>
    ensures ok { IfOk result (λ s.
        statement_of_form (form_named extensions mnemonic.now) (operands_in (map token_value tokens.now)) ≡ Ok (statement_value s)) }
    ensures err { IfErr result (λ e. e ≢ LineError.NoMemory
        → statement_of_form (form_named extensions mnemonic.now) (operands_in (map token_value tokens.now)) ≡ Err e) }
{
    let form = form_named(extensions, mnemonic).ok_or(LineError::UnknownMnemonic)?;
    let operands = operands(alloc, tokens)?;
    read(alloc, form, &operands)
}

/// The operands in the tokens after a mnemonic: what is between the commas.
fn operands<'t, 'a, A: Allocator + Copy>(
    alloc: A,
    tokens: &'t [Token<'a>],
) -> Result<Vec<&'t [Token<'a>], A>, AllocError>
    ensures { IfOk result (λ operands.
        operand_values operands.items ≡ operands_in (map token_value tokens.now)) }
{
    if tokens.is_empty() {
        return Ok(Vec::new(alloc));
    }
    tokens
        .split(|token| matches!(token, Token::Comma))
        .collect(alloc)
}

/// The statement of a form and operands.
fn read<'a, A: Allocator + Copy>(
    alloc: A,
    form: Form,
    operands: &[&[Token<'a>]],
) -> Result<Statement<'a, A>, LineError>
    ensures ok { IfOk result (λ s. reading form (operand_values operands.now) ≡ Ok (statement_value s)) }
    ensures err { IfErr result (λ e. e ≢ LineError.NoMemory
        → reading form (operand_values operands.now) ≡ Err e) }
{
    match form {
        Form::Arithmetic(op) => rows::arithmetic(op, operands),
        Form::WithImmediate(op) => rows::with_immediate(op, operands),
        Form::ShiftByAmount(op) => rows::shift_by_amount(op, operands),
        Form::LoadFrom(op) => rows::load_from(op, operands),
        Form::StoreTo(op) => rows::store_to(op, operands),
        Form::BranchTo(op) => rows::branch_to(op, operands),
        Form::UpperImmediate(op) => rows::upper_immediate(op, operands),
        Form::JumpAndLink => rows::jump_and_link(operands),
        Form::JumpAndLinkRegister => rows::jump_and_link_register(operands),
        Form::NoOperands(op) => rows::no_operands(op, operands),
        Form::WordData => data::words(alloc, operands),
        Form::HalfData => data::halves(alloc, operands),
        Form::ByteData => data::bytes(alloc, operands),
        Form::TextData => data::ascii(alloc, operands),
        Form::ZeroData => data::space(operands),
        Form::AlignData => data::align(operands),
        Form::EntryPoint => data::entry(operands),
        Form::Nop => pseudo::nop(operands),
        Form::Move => pseudo::move_register(operands),
        Form::LoadImmediate => pseudo::load_immediate(operands),
        Form::LoadAddress => pseudo::load_address(operands),
        Form::Jump => pseudo::jump(operands),
        Form::JumpRegister => pseudo::jump_register(operands),
        Form::Return => pseudo::return_to_link(operands),
        Form::Call => pseudo::call(operands),
        Form::BranchIfZero => pseudo::branch_if_zero(operands),
        Form::BranchIfNotZero => pseudo::branch_if_not_zero(operands),
        Form::Float(form) => {
            let instr = float_operands::operation(form, operands)?;
            Ok(Statement::FloatInstruction(instr))
        }
        Form::LoadReserved(order) => rows::load_reserved(order, operands),
        Form::StoreConditional(order) => rows::store_conditional(order, operands),
        Form::AtomicMemory(op, order) => rows::atomic_memory(op, order, operands),
    }
}
