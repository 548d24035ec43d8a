//! The values of targets, and the offsets of jumps to them.

ghost use Rattle.std.specs.Prelude.{◌≡◌, ◌↔◌, ◌^◌, IsTrue};
ghost use Rattle.rv_tables.specs.Operands.{IsBranchOffset, IsJumpOffset};
ghost use Rattle.asm_syntax.specs.Operands.{IsTarget};
ghost use Rattle.asm_syntax.specs.Statements.{IsInRange};
ghost use Rattle.asm_syntax.specs.Views.{statement_value, target_value};
ghost use Rattle.rv_asm.specs.Labels.{symbols};
ghost use Rattle.rv_asm.specs.Targets as Targets;

use crate::labels::Labels;
use asm_syntax::{Statement, Target};
use std::alloc::Allocator;

/// An integer modulo 2^32.
pub fn word_of(n: i64) -> u32
    ensures { result ≡ Targets.modulo (2 ^ 32) n }
{
    n.rem_euclid(1 << 32) as u32
}

/// The word that a target stands for; none if its label is not known.
pub fn value_of<A: Allocator + Copy>(labels: &Labels<'_, A>, target: &Target<'_>) -> Option<u32>
    requires { IsTarget (target_value target.now) }
    ensures { result ≡ Targets.value_of (symbols labels.now) (target_value target.now) }
{
    let base = match target.label {
        Some(label) => labels.get(label)?,
        None => 0,
    };
    Some(word_of(i64::from(base) + target.offset))
}

/// The offset of a jump at `address` to `value`.
pub fn offset_to(address: u32, value: u32) -> i32
    ensures { result ≡ Targets.offset_to address value }
{
    word_of(i64::from(value) - i64::from(address)).cast_signed()
}

/// Whether a branch has room for its offset.
pub fn reaches_branch(offset: i32) -> bool
    ensures value { result ≡ Targets.is_reached 13 offset }
    ensures fits { IsTrue result ↔ IsBranchOffset offset }
{
    -4096 <= offset && offset < 4096 && offset % 2 == 0
}

/// Whether a `jal` has room for its offset.
pub fn reaches_jal(offset: i32) -> bool
    ensures value { result ≡ Targets.is_reached 21 offset }
    ensures fits { IsTrue result ↔ IsJumpOffset offset }
{
    -0x10_0000 <= offset && offset < 0x10_0000 && offset % 2 == 0
}

/// Whether a statement at `address` is a jump to a target that is known and that its offset does not reach.
pub fn is_out_of_reach<A: Allocator + Copy>(
    labels: &Labels<'_, A>,
    statement: &Statement<'_, A>,
    address: u32,
) -> bool
    requires { IsInRange (statement_value statement.now) }
    ensures { result ≡ Targets.is_out_of_reach (symbols labels.now) address (statement_value statement.now) }
{
    match statement {
        Statement::Branch { target, .. } => match value_of(labels, target) {
            Some(value) => !reaches_branch(offset_to(address, value)),
            None => false,
        },
        Statement::Jal { target, .. } => match value_of(labels, target) {
            Some(value) => !reaches_jal(offset_to(address, value)),
            None => false,
        },
        _ => false,
    }
}
