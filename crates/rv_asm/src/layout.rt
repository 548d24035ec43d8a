//! The sizes of statements.

ghost use Rattle.std.specs.Prelude.{ℕ, ◌≡◌, ◌+◌, ◌-◌, ◌*◌, ◌^◌, ◌≤◌, min, length};
ghost use Rattle.std.specs.Int.{next_multiple_of};
ghost use Rattle.std.specs.Option.{SomeIff};
ghost use Rattle.asm_syntax.specs.Statements.{IsInRange};
ghost use Rattle.asm_syntax.specs.Views.{statement_value};
ghost use Rattle.rv_asm.specs.Layout as Layout;

use crate::targets::word_of;
use asm_syntax::Statement;
use std::alloc::Allocator;

/// The address that no statement ends past (own limit).
pub const LIMIT: u32 = 16_777_216;

/// Whether a word is an immediate of 12 bits as a signed number.
pub fn is_short(word: u32) -> bool
    ensures { result ≡ Layout.is_short word }
{
    let value = word.cast_signed();
    -2048 <= value && value < 2048
}

/// The bytes from `address` to the next multiple of 2^`power`.
pub fn padding(address: u32, power: u8) -> u32
    requires { power ≤ 12 }
    ensures { result ≡ next_multiple_of address (2 ^ power) - address }
{
    let unit = 1u32 << power;
    (unit - address % unit) % unit
}

/// How many bytes `li` has.
fn load_size(word: u32) -> u64
    ensures { (rd : ℕ) → result ≡ 4 * length (Layout.load_of rd word) }
{
    if is_short(word) { 4 } else { 8 }
}

/// How many bytes a statement at `address` has, or all that 64 bits can count if that is less.
fn size_of<A: Allocator>(statement: &Statement<'_, A>, address: u32) -> u64
    requires { IsInRange (statement_value statement.now) }
    ensures { result ≡ min (Layout.size_of (statement_value statement.now) address) (2 ^ 64 - 1) }
{
    match statement {
        Statement::Instruction(_)
        | Statement::FloatInstruction(_)
        | Statement::AtomicInstruction(_)
        | Statement::Branch { .. }
        | Statement::Jal { .. } => 4,
        Statement::LoadImmediate { value, .. } => load_size(word_of(*value)),
        Statement::LoadAddress { .. } => 8,
        Statement::Words(targets) => (targets.len() as u64).saturating_mul(4),
        Statement::Halves(numbers) => (numbers.len() as u64).saturating_mul(2),
        Statement::Bytes(numbers) => numbers.len() as u64,
        Statement::Ascii(text) => text.len() as u64,
        Statement::Space(count) => u64::from(*count),
        Statement::Align(power) => u64::from(padding(address, *power)),
        Statement::Entry(_) => 0,
    }
}

/// Where a statement at `address` ends, or none if that is past the limit.
pub fn end_of<A: Allocator>(statement: &Statement<'_, A>, address: u32) -> Option<u32>
    requires at { address ≤ 2 ^ 24 }
    requires in_range { IsInRange (statement_value statement.now) }
    ensures { SomeIff result
        (address + Layout.size_of (statement_value statement.now) address ≤ 2 ^ 24)
        (address + Layout.size_of (statement_value statement.now) address) }
{
    let size = size_of(statement, address);
    if size > u64::from(LIMIT - address) {
        return None;
    }
    Some(address + size as u32)
}
