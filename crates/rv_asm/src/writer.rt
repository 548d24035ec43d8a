//! The bytes of statements.

ghost use Rattle.std.specs.Prelude.{◌≡◌, ◌≢◌, ◌⊎◌, ◌+◌, ◌^◌, ◌<◌, ◌≤◌, ◌∷◌, ◌++◌, [], List, ℕ, map, flat_map, replicate};
ghost use Rattle.std.specs.Prelude.{OnOk, OnErr, IfErr, All, IsSome, None, Some, is_none, vec_len, true, false};
ghost use Rattle.std.specs.List.{list_any};
ghost use Rattle.std.specs.Int.{w16, w32, to_le_bytes};
ghost use Rattle.rv_tables.specs.Fields.{bits, sign_extended};
ghost use Rattle.rv_tables.specs.Operands.{IsEncodable, IsImmediate, IsRegister};
ghost use Rattle.rv_float_tables.specs.Operands.{IsEncodable as IsFloatEncodable};
ghost use Rattle.rv_atomics.specs.Operands.{IsEncodable as IsAtomicEncodable};
ghost use Rattle.asm_syntax.specs.Operands.{IsTarget};
ghost use Rattle.asm_syntax.specs.Statements.{words};
ghost use Rattle.asm_syntax.specs.Views.{target_value};
ghost use Rattle.rv_asm.specs.Labels.{symbols};
ghost use Rattle.rv_asm.specs.Layout.{Spell, SpellAtomic, SpellFloat, lui_addi, load_of, word_bytes};
ghost use Rattle.rv_asm.specs.Targets.{modulo, uses_undefined, is_reached};
ghost use Rattle.rv_asm.specs.Writing.{Adds};

use crate::errors::AsmKind;
use crate::labels::Labels;
use crate::layout::is_short;
use crate::targets::{self, reaches_branch, reaches_jal};
use asm_syntax::Target;
use rv_atomics::AtomicInstr;
use rv_float_tables::FloatInstr;
use rv_tables::{BranchOp, IOp, Instr, UpperOp, encode};
use std::alloc::Allocator;

/// Writes the word of an instruction after `bytes`.
pub fn push_instr<A: Allocator>(bytes: &mut Vec<u8, A>, instr: &Instr) -> Result<(), AsmKind>
    ensures ok { OnOk result (Adds (Spell (instr.now ∷ [])) bytes.old.items bytes.new.items) }
    ensures encodable { OnOk result (IsEncodable instr.now) }
    ensures err { IfErr result (λ kind. (kind ≡ AsmKind.NoMemory) ⊎ ((kind ≡ AsmKind.OutOfRange) × ¬ IsEncodable instr.now)) }
{
    let Some(word) = encode(instr) else {
        return Err(AsmKind::OutOfRange);
    };
    bytes.extend_from_slice(&word.to_le_bytes())?;
    Ok(())
}

/// Writes the word of an instruction of floating point.
pub fn push_float_instr<A: Allocator>(
    bytes: &mut Vec<u8, A>,
    instr: &FloatInstr,
) -> Result<(), AsmKind>
    ensures ok { OnOk result (Adds (SpellFloat instr.now) bytes.old.items bytes.new.items) }
    ensures err { IfErr result (λ kind. (kind ≡ AsmKind.NoMemory) ⊎ ((kind ≡ AsmKind.OutOfRange) × ¬ IsFloatEncodable instr.now)) }
{
    let Some(word) = rv_float_tables::encode(instr) else {
        return Err(AsmKind::OutOfRange);
    };
    bytes.extend_from_slice(&word.to_le_bytes())?;
    Ok(())
}

/// Writes the word of an instruction of A.
pub fn push_atomic_instr<A: Allocator>(
    bytes: &mut Vec<u8, A>,
    instr: &AtomicInstr,
) -> Result<(), AsmKind>
    ensures ok { OnOk result (Adds (SpellAtomic instr.now) bytes.old.items bytes.new.items) }
    ensures err { IfErr result (λ kind. (kind ≡ AsmKind.NoMemory) ⊎ ((kind ≡ AsmKind.OutOfRange) × ¬ IsAtomicEncodable instr.now)) }
{
    let Some(word) = rv_atomics::encode(instr) else {
        return Err(AsmKind::OutOfRange);
    };
    bytes.extend_from_slice(&word.to_le_bytes())?;
    Ok(())
}

/// The upper 20 bits of a word, rounded so that the low part can be added as a signed number.
fn upper_part(word: u32) -> u32
    ensures value { result ≡ bits (word + 0x800) 31 12 }
    ensures fits { result < 2 ^ 20 }
{
    word.wrapping_add(0x800) >> 12
}

/// The low 12 bits of a word as a signed number.
fn low_part(word: u32) -> i32
    ensures value { result ≡ sign_extended 12 (bits word 11 0) }
    ensures fits { IsImmediate result }
{
    let low = word % 0x1000;
    if low < 0x800 {
        low as i32
    } else {
        low as i32 - 0x1000
    }
}

/// Writes the two instructions that load a word.
pub fn push_lui_addi<A: Allocator>(bytes: &mut Vec<u8, A>, rd: u8, word: u32) -> Result<(), AsmKind>
    ensures ok { OnOk result (Adds (Spell (lui_addi rd word)) bytes.old.items bytes.new.items) }
    ensures err { IfErr result (λ kind. (kind ≡ AsmKind.NoMemory) ⊎ ((kind ≡ AsmKind.OutOfRange) × ¬ IsRegister rd)) }
{
    let upper = Instr::Upper {
        op: UpperOp::Lui,
        rd,
        imm: upper_part(word),
    };
    let low = Instr::I {
        op: IOp::Addi,
        rd,
        rs1: rd,
        imm: low_part(word),
    };
    push_instr(bytes, &upper)?;
    push_instr(bytes, &low)
}

/// Writes the instructions of `li`.
pub fn push_load<A: Allocator>(bytes: &mut Vec<u8, A>, rd: u8, word: u32) -> Result<(), AsmKind>
    ensures ok { OnOk result (Adds (Spell (load_of rd word)) bytes.old.items bytes.new.items) }
    ensures err { IfErr result (λ kind. (kind ≡ AsmKind.NoMemory) ⊎ ((kind ≡ AsmKind.OutOfRange) × ¬ IsRegister rd)) }
{
    if !is_short(word) {
        return push_lui_addi(bytes, rd, word);
    }
    push_instr(
        bytes,
        &Instr::I {
            op: IOp::Addi,
            rd,
            rs1: 0,
            imm: word.cast_signed(),
        },
    )
}

/// Writes a branch, unless its offset has no place in it.
pub fn push_branch<A: Allocator>(
    bytes: &mut Vec<u8, A>,
    op: BranchOp,
    rs1: u8,
    rs2: u8,
    offset: i32,
) -> Result<(), AsmKind>
    requires { IsRegister rs1 × IsRegister rs2 }
    ensures ok { OnOk result (Adds (Spell (Instr.Branch op rs1 rs2 offset ∷ [])) bytes.old.items bytes.new.items) }
    ensures reached { OnOk result (is_reached 13 offset ≡ true) }
    ensures err { IfErr result (λ kind. (kind ≡ AsmKind.NoMemory) ⊎ ((kind ≡ AsmKind.OutOfRange) × (is_reached 13 offset ≡ false))) }
{
    if !reaches_branch(offset) {
        return Err(AsmKind::OutOfRange);
    }
    push_instr(
        bytes,
        &Instr::Branch {
            op,
            rs1,
            rs2,
            imm: offset,
        },
    )
}

/// Writes a `jal`, unless its offset has no place in it.
pub fn push_jal<A: Allocator>(bytes: &mut Vec<u8, A>, rd: u8, offset: i32) -> Result<(), AsmKind>
    ensures ok { OnOk result (Adds (Spell (Instr.Jal rd offset ∷ [])) bytes.old.items bytes.new.items) }
    ensures reached { OnOk result (is_reached 21 offset ≡ true) }
    ensures err { IfErr result (λ kind. (kind ≡ AsmKind.NoMemory)
        ⊎ ((kind ≡ AsmKind.OutOfRange) × ((is_reached 21 offset ≡ false) ⊎ ¬ IsRegister rd))) }
{
    if !reaches_jal(offset) {
        return Err(AsmKind::OutOfRange);
    }
    push_instr(bytes, &Instr::Jal { rd, imm: offset })
}

/// Writes the words that targets stand for.
#[tactic(auto, using(crate::proofs::Words::undefined_at))]
pub fn push_words<A: Allocator + Copy>(
    bytes: &mut Vec<u8, A>,
    labels: &Labels<'_, A>,
    targets: &[Target<'_>],
) -> Result<(), AsmKind>
    requires { All IsTarget (map target_value targets.now) }
    ensures ok { OnOk result (bytes.new.items ≡ bytes.old.items
        ++ flat_map (word_bytes (symbols labels.now)) (map target_value targets.now)) }
    ensures defined { OnOk result (uses_undefined (symbols labels.now) (words (map target_value targets.now)) ≡ false) }
    ensures err { IfErr result (λ kind. (kind ≡ AsmKind.NoMemory) ⊎ ((kind ≡ AsmKind.UndefinedLabel)
        × (uses_undefined (symbols labels.now) (words (map target_value targets.now)) ≡ true))) }
{
    for target in targets {
        let Some(value) = targets::value_of(labels, target) else {
            return Err(AsmKind::UndefinedLabel);
        };
        bytes.extend_from_slice(&value.to_le_bytes())?;
    }
    Ok(())
}

/// Writes half-words.
pub fn push_halves<A: Allocator>(bytes: &mut Vec<u8, A>, numbers: &[i32]) -> Result<(), AsmKind>
    ensures ok { OnOk result (bytes.new.items ≡ bytes.old.items ++ flat_map (λ n. to_le_bytes w16 (modulo (2 ^ 16) n)) numbers.now) }
    ensures err { IfErr result (λ kind. kind ≡ AsmKind.NoMemory) }
{
    for number in numbers {
        let half = number.rem_euclid(0x1_0000) as u16;
        bytes.extend_from_slice(&half.to_le_bytes())?;
    }
    Ok(())
}

/// Writes bytes.
pub fn push_bytes<A: Allocator>(bytes: &mut Vec<u8, A>, numbers: &[i32]) -> Result<(), AsmKind>
    ensures ok { OnOk result (bytes.new.items ≡ bytes.old.items ++ map (modulo (2 ^ 8)) numbers.now) }
    ensures err { IfErr result (λ kind. kind ≡ AsmKind.NoMemory) }
{
    for number in numbers {
        bytes.push(number.rem_euclid(0x100) as u8)?;
    }
    Ok(())
}

/// Writes zeros.
pub fn push_zeros<A: Allocator>(bytes: &mut Vec<u8, A>, count: u32) -> Result<(), AsmKind>
    requires { vec_len bytes.old ≤ 2 ^ 24 }
    ensures ok { OnOk result (bytes.new.items ≡ bytes.old.items ++ replicate count 0) }
    ensures err { IfErr result (λ kind. kind ≡ AsmKind.NoMemory) }
{
    let end = bytes.len() + count as usize;
    bytes.resize(end, 0)?;
    Ok(())
}
