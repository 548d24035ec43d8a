//! The second pass: checks the uses of labels, and writes the bytes of the lines.

ghost use Rattle.std.specs.Prelude.{◌≡◌, ◌≢◌, ◌^◌, ◌≤◌, List, ℕ, length, None, Some, unwrap_or};
ghost use Rattle.std.specs.Prelude.{vec_len, option_and_then, IsOkAnd, OnOk, IfOk, IfErr};
ghost use Rattle.asm_syntax.specs.Lines.{lines_of};
ghost use Rattle.asm_syntax.specs.Parse.{line_of};
ghost use Rattle.rv_asm.specs.Faults.{fault_of_use, fault_of_uses, fault_alone, first_faulty_line};
ghost use Rattle.rv_asm.specs.Labels.{symbols};
ghost use Rattle.rv_asm.specs.Places.{line_statement, end_of_statement, places_of, symbols_of};
ghost use Rattle.rv_asm.specs.Text.{LineHasBytes, IsLaidOut, entry_of};
ghost use Rattle.rv_asm.specs.Writing.{Adds};

use crate::errors::{AsmError, AsmKind};
use crate::labels::Labels;
use crate::program::Program;
use asm_syntax::{parse_line, split_line};
use rv_atomics::Extensions;
use std::alloc::Allocator;

/// Writes a line that has no fault by itself after the program so far.
fn write_line<A: Allocator + Copy>(
    alloc: A,
    extensions: Extensions,
    labels: &Labels<'_, A>,
    text: &[u8],
    program: &mut Program<A>,
) -> Result<(), AsmKind>
    requires { IsOkAnd (line_of extensions text.now) (λ line. end_of_statement (vec_len program.old.bytes) line.statement ≤ 2 ^ 24) }
    ensures bytes { OnOk result (Adds
        (LineHasBytes (symbols labels.now) (vec_len program.old.bytes) (line_statement (line_of extensions text.now)))
        program.old.bytes.items program.new.bytes.items) }
    ensures entry { OnOk result (program.new.entry
        ≡ unwrap_or (entry_of (symbols labels.now) (line_statement (line_of extensions text.now))) program.old.entry) }
    ensures ok { OnOk result
        (option_and_then (fault_of_use (symbols labels.now) (vec_len program.old.bytes)) (line_statement (line_of extensions text.now))
        ≡ None) }
    ensures err { IfErr result (λ kind. kind ≢ AsmKind.NoMemory
        → option_and_then (fault_of_use (symbols labels.now) (vec_len program.old.bytes)) (line_statement (line_of extensions text.now))
        ≡ Some kind) }
{
    let line = parse_line(alloc, extensions, text)?;
    program.push_line(labels, &line)
}

/// The program of a text whose labels these are and that has no fault in the first judging.
pub fn write_lines<A: Allocator + Copy>(
    alloc: A,
    extensions: Extensions,
    labels: &Labels<'_, A>,
    text: &[u8],
) -> Result<Program<A>, AsmError>
    requires small { length text.now ≤ 2 ^ 22 }
    requires judged { first_faulty_line fault_alone (places_of extensions text.now) ≡ None }
    requires known { (q : List ℕ) → symbols labels.now q ≡ symbols_of (places_of extensions text.now) q }
    ensures laid { IfOk result (λ program.
        IsLaidOut extensions (symbols labels.now) (lines_of text.now) program.bytes.items program.entry) }
    ensures limit { IfOk result (λ program. vec_len program.bytes ≤ 2 ^ 24) }
    ensures ok { OnOk result (first_faulty_line (fault_of_uses (symbols labels.now)) (places_of extensions text.now) ≡ None) }
    ensures err { IfErr result (λ e. e.kind ≢ AsmKind.NoMemory
        → first_faulty_line (fault_of_uses (symbols labels.now)) (places_of extensions text.now) ≡ Some (e.line, e.kind)) }
    ensures no_memory { IfErr result (λ e. e.kind ≡ AsmKind.NoMemory → e.line ≡ 0) }
{
    let mut program = Program {
        bytes: Vec::new(alloc),
        entry: 0,
    };
    let mut number = 1;
    let mut rest = Some(text);
    'lines: while let Some(remaining) = rest {
        let (line, after) = split_line(remaining);
        match write_line(alloc, extensions, labels, line, &mut program) {
            Ok(()) => number += 1,
            Err(kind) => return Err(AsmError::at(number, kind)),
        }
        rest = after;
    }
    Ok(program)
}
