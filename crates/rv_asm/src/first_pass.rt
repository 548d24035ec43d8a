//! The first pass: checks each line without the addresses of labels, and finds these addresses.

ghost use Rattle.std.specs.Prelude.{◌≡◌, ◌≢◌, ◌^◌, ◌≤◌, List, ℕ, length, Option, None, Some};
ghost use Rattle.std.specs.Prelude.{is_some, option_map, false, Ok, OnOk, IfOk, IfErr, IfSome};
ghost use Rattle.std.specs.Option.{SomeIff, option_map_or};
ghost use Rattle.asm_syntax.specs.Parse.{line_of};
ghost use Rattle.asm_syntax.specs.Statements.{IsInRange};
ghost use Rattle.asm_syntax.specs.Views.{line_value, statement_value};
ghost use Rattle.rv_asm.specs.Faults.{fault_of_line, fault_alone, first_faulty_line};
ghost use Rattle.rv_asm.specs.Labels.{symbols};
ghost use Rattle.rv_asm.specs.Layout.{size_of};
ghost use Rattle.rv_asm.specs.Places.{line_labels, end_from, end_of_statement, places_of, symbols_of};
ghost use Rattle.rv_asm.specs.Symbols.{no_symbols, with_labels};
ghost use Rattle.rv_asm.specs.Targets as Targets;

use crate::errors::{AsmError, AsmKind};
use crate::labels::Labels;
use crate::layout::end_of;
use crate::targets::is_out_of_reach;
use asm_syntax::{Line, Statement, parse_line, split_line};
use rv_atomics::Extensions;
use std::alloc::Allocator;

/// Whether a line's statement is a jump to a number that its offset does not reach.
fn misses_number<A: Allocator + Copy>(
    alloc: A,
    statement: &Option<Statement<'_, A>>,
    address: u32,
) -> bool
    requires { IfSome statement.now (λ s. IsInRange (statement_value s)) }
    ensures { result ≡ option_map_or (Targets.is_out_of_reach no_symbols address) (option_map statement_value statement.now) false }
{
    match statement {
        Some(statement) => is_out_of_reach(&Labels::new(alloc), statement, address),
        None => false,
    }
}

/// Where a line's statement at `address` ends, or none if that is past the limit.
fn line_end<A: Allocator>(statement: &Option<Statement<'_, A>>, address: u32) -> Option<u32>
    requires at { address ≤ 2 ^ 24 }
    requires in_range { IfSome statement.now (λ s. IsInRange (statement_value s)) }
    ensures { SomeIff result
        (end_of_statement address (option_map statement_value statement.now) ≤ 2 ^ 24)
        (end_of_statement address (option_map statement_value statement.now)) }
{
    match statement {
        Some(statement) => end_of(statement, address),
        None => Some(address),
    }
}

/// Judges what a line at `address` says, and adds its labels; answers where it ends.
fn define<'a, A: Allocator + Copy>(
    alloc: A,
    labels: &mut Labels<'a, A>,
    line: &Line<'a, A>,
    address: u32,
) -> Result<u32, AsmKind>
    requires at { address ≤ 2 ^ 24 }
    requires in_range { IfSome line.now.statement (λ s. IsInRange (statement_value s)) }
    ensures ok { OnOk result (fault_of_line address (λ q. is_some (symbols labels.old q)) (Ok (line_value line.now)) ≡ None) }
    ensures end { IfOk result (λ end. end ≡ end_from address (Ok (line_value line.now))) }
    ensures limit { IfOk result (λ end. end ≤ 2 ^ 24) }
    ensures labels { OnOk result ((q : List ℕ) → symbols labels.new q
        ≡ with_labels (symbols labels.old) (line_value line.now).labels address q) }
    ensures err { IfErr result (λ kind. kind ≢ AsmKind.NoMemory
        → fault_of_line address (λ q. is_some (symbols labels.old q)) (Ok (line_value line.now)) ≡ Some kind) }
{
    if misses_number(alloc, &line.statement, address) {
        return Err(AsmKind::OutOfRange);
    }
    labels.define_all(line.labels.as_slice(), address)?;
    line_end(&line.statement, address).ok_or(AsmKind::TooLarge)
}

/// Judges a line at `address` and adds its labels; answers where it ends.
fn define_line<'a, A: Allocator + Copy>(
    alloc: A,
    extensions: Extensions,
    labels: &mut Labels<'a, A>,
    text: &'a [u8],
    address: u32,
) -> Result<u32, AsmKind>
    requires { address ≤ 2 ^ 24 }
    ensures ok { OnOk result (fault_of_line address (λ q. is_some (symbols labels.old q)) (line_of extensions text.entry.now) ≡ None) }
    ensures end { IfOk result (λ end. end ≡ end_from address (line_of extensions text.entry.now)) }
    ensures limit { IfOk result (λ end. end ≤ 2 ^ 24) }
    ensures labels { OnOk result ((q : List ℕ) → symbols labels.new q
        ≡ with_labels (symbols labels.old) (line_labels (line_of extensions text.entry.now)) address q) }
    ensures err { IfErr result (λ kind. kind ≢ AsmKind.NoMemory
        → fault_of_line address (λ q. is_some (symbols labels.old q)) (line_of extensions text.entry.now) ≡ Some kind) }
{
    let line = parse_line(alloc, extensions, text)?;
    define(alloc, labels, &line, address)
}

/// The labels of a text with their addresses, or the first fault of the first judging.
pub fn define_labels<'a, A: Allocator + Copy>(
    alloc: A,
    extensions: Extensions,
    text: &'a [u8],
) -> Result<Labels<'a, A>, AsmError>
    requires { length text.now ≤ 2 ^ 22 }
    ensures ok { OnOk result (first_faulty_line fault_alone (places_of extensions text.entry.now) ≡ None) }
    ensures labels { IfOk result (λ labels. (q : List ℕ) → symbols labels q ≡ symbols_of (places_of extensions text.entry.now) q) }
    ensures err { IfErr result (λ e. e.kind ≢ AsmKind.NoMemory
        → first_faulty_line fault_alone (places_of extensions text.entry.now) ≡ Some (e.line, e.kind)) }
    ensures no_memory { IfErr result (λ e. e.kind ≡ AsmKind.NoMemory → e.line ≡ 0) }
{
    let mut labels = Labels::new(alloc);
    let mut address = 0;
    let mut number = 1;
    let mut rest = Some(text);
    'lines: while let Some(remaining) = rest {
        let (line, after) = split_line(remaining);
        match define_line(alloc, extensions, &mut labels, line, address) {
            Ok(end) => address = end,
            Err(kind) => return Err(AsmError::at(number, kind)),
        }
        number += 1;
        rest = after;
    }
    Ok(labels)
}
