//! What holds of every line. A law is a function that does nothing, whose contract says it.

ghost use Rattle.std.specs.Prelude.{◌≡◌, ◌≢◌, ℕ, List, Ok, Err, IfSome};
ghost use Rattle.rv_atomics.specs.declared.extensions.Extensions.{Extensions};
ghost use Rattle.asm_syntax.specs.Parse.{line_of};
ghost use Rattle.asm_syntax.specs.Statements.{Line, IsInRange};

use crate::error::LineError;

/// The statement that a line says is in range.
#[tactic(auto, using(crate::proofs::Facts::in_range))]
pub fn a_statement_is_in_range()
    ensures { (extensions : Extensions) (bytes : List ℕ) (line : Line) → line_of extensions bytes ≡ Ok line
        → IfSome line.statement IsInRange }
{}

/// Lack of memory is not a fault of a line.
#[tactic(auto, using(crate::proofs::Facts::never_memory))]
pub fn no_line_wants_memory()
    ensures { (extensions : Extensions) (bytes : List ℕ) → line_of extensions bytes ≢ Err LineError.NoMemory }
{}
