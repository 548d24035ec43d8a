//! The program so far, while its text is assembled.

ghost use Rattle.std.specs.Prelude.{◌≡◌, ◌≢◌, ◌⊎◌, ◌+◌, ◌^◌, ◌≤◌, OnOk, IfErr, Some, None, unwrap_or, option_and_then, IfSome, vec_len};
ghost use Rattle.asm_syntax.specs.Statements.{IsInRange};
ghost use Rattle.asm_syntax.specs.Views.{line_value, statement_value};
ghost use Rattle.rv_asm.specs.Faults.{fault_of_use};
ghost use Rattle.rv_asm.specs.Labels.{symbols};
ghost use Rattle.rv_asm.specs.Layout.{HasBytes, size_of};
ghost use Rattle.rv_asm.specs.Text.{LineHasBytes, entry_of};
ghost use Rattle.rv_asm.specs.Places.{end_of_statement};
ghost use Rattle.rv_asm.specs.Writing.{Adds};

use crate::errors::AsmKind;
use crate::labels::Labels;
use crate::layout::padding;
use crate::targets::{offset_to, value_of, word_of};
use crate::writer;
use asm_syntax::{Line, Statement};
use std::alloc::Allocator;

/// The bytes so far, and where the program starts.
#[derive(Drop)]
pub struct Program<A: Allocator> {
    pub bytes: Vec<u8, A>,
    pub entry: u32,
}

impl<A: Allocator + Copy> Program<A> {
    /// Writes a statement after the bytes so far.
    pub fn push(
        &mut self,
        labels: &Labels<'_, A>,
        statement: &Statement<'_, A>,
    ) -> Result<(), AsmKind>
        requires in_range { IsInRange (statement_value statement.now) }
        requires room { vec_len self.old.bytes + size_of (statement_value statement.now) (vec_len self.old.bytes) ≤ 2 ^ 24 }
        ensures bytes { OnOk result (Adds
            (HasBytes (symbols labels.now) (vec_len self.old.bytes) (statement_value statement.now))
            self.old.bytes.items self.new.bytes.items) }
        ensures entry { OnOk result (self.new.entry
            ≡ unwrap_or (entry_of (symbols labels.now) (Some (statement_value statement.now))) self.old.entry) }
        ensures ok { OnOk result (fault_of_use (symbols labels.now) (vec_len self.old.bytes) (statement_value statement.now) ≡ None) }
        ensures err { IfErr result (λ kind. (kind ≡ AsmKind.NoMemory)
            ⊎ (fault_of_use (symbols labels.now) (vec_len self.old.bytes) (statement_value statement.now) ≡ Some kind)) }
    {
        let address = self.bytes.len() as u32;
        let bytes = &mut self.bytes;
        match statement {
            Statement::Instruction(instr) => writer::push_instr(bytes, instr),
            Statement::FloatInstruction(instr) => writer::push_float_instr(bytes, instr),
            Statement::AtomicInstruction(instr) => writer::push_atomic_instr(bytes, instr),
            Statement::Branch {
                op,
                rs1,
                rs2,
                target,
            } => {
                let value = value_of(labels, target).ok_or(AsmKind::UndefinedLabel)?;
                writer::push_branch(bytes, *op, *rs1, *rs2, offset_to(address, value))
            }
            Statement::Jal { rd, target } => {
                let value = value_of(labels, target).ok_or(AsmKind::UndefinedLabel)?;
                writer::push_jal(bytes, *rd, offset_to(address, value))
            }
            Statement::LoadImmediate { rd, value } => writer::push_load(
                bytes,
                *rd,
                word_of(*value),
            ),
            Statement::LoadAddress { rd, target } => {
                let value = value_of(labels, target).ok_or(AsmKind::UndefinedLabel)?;
                writer::push_lui_addi(bytes, *rd, value)
            }
            Statement::Words(targets) => writer::push_words(bytes, labels, targets.as_slice()),
            Statement::Halves(numbers) => writer::push_halves(bytes, numbers.as_slice()),
            Statement::Bytes(numbers) => writer::push_bytes(bytes, numbers.as_slice()),
            Statement::Ascii(text) => Ok(bytes.extend_from_slice(text.as_slice())?),
            Statement::Space(count) => writer::push_zeros(bytes, *count),
            Statement::Align(power) => writer::push_zeros(bytes, padding(address, *power)),
            Statement::Entry(target) => {
                self.entry = value_of(labels, target).ok_or(AsmKind::UndefinedLabel)?;
                Ok(())
            }
        }
    }

    /// Writes what a line says after the bytes so far.
    pub fn push_line(&mut self, labels: &Labels<'_, A>, line: &Line<'_, A>) -> Result<(), AsmKind>
        requires in_range { IfSome line.now.statement (λ s. IsInRange (statement_value s)) }
        requires room { end_of_statement (vec_len self.old.bytes) (line_value line.now).statement ≤ 2 ^ 24 }
        ensures bytes { OnOk result (Adds
            (LineHasBytes (symbols labels.now) (vec_len self.old.bytes) (line_value line.now).statement)
            self.old.bytes.items self.new.bytes.items) }
        ensures entry { OnOk result (self.new.entry
            ≡ unwrap_or (entry_of (symbols labels.now) (line_value line.now).statement) self.old.entry) }
        ensures ok { OnOk result
            (option_and_then (fault_of_use (symbols labels.now) (vec_len self.old.bytes)) (line_value line.now).statement ≡ None) }
        ensures err { IfErr result (λ kind. kind ≢ AsmKind.NoMemory
            → option_and_then (fault_of_use (symbols labels.now) (vec_len self.old.bytes)) (line_value line.now).statement ≡ Some kind) }
    {
        match &line.statement {
            Some(statement) => self.push(labels, statement),
            None => Ok(()),
        }
    }
}
