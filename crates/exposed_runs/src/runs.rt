//! A run that reports exposed bytes.

ghost use Rattle.std.specs.Prelude.{◌≡◌, ℕ, IfOk, OnErr, OnOk, string_bytes};
ghost use Rattle.machine_core.specs.Turn.{IsRunToEnd};
ghost use Rattle.machine_core.specs.Walk.{walked};
ghost use Rattle.exposed_runs.specs.Runs.{TellsExposed};

use crate::parts::note_parts;
use crate::turn::write_turn;
use machine_core::Machine;
use std::alloc::{AllocError, Allocator};

/// The names of the columns.
const HEADER: &str =
    "superstep,rank,address,bytes,reader_kind,reader_rank,reader_request,reader_pc,writer_kind,writer_rank,writer_request,writer_pc\n";

/// Runs a machine to its outcome, in one thread and step by step, and answers which bytes are exposed in each superstep.
///
/// # Errors
/// If memory is refused. What was made before it stands, and any run can go on with the machine.
pub fn run<A: Allocator + Copy>(alloc: A, machine: &mut Machine<A>) -> Result<String<A>, AllocError>
    ensures ok { OnOk result (IsRunToEnd machine.old machine.new) }
    ensures told { IfOk result (λ text. TellsExposed machine.old (string_bytes text)) }
    ensures err { OnErr result ((k : ℕ) × (machine.new ≡ walked k machine.old)) }
{
    let mut text = String::from_str(alloc, HEADER)?;
    while machine.outcome().is_none() {
        let notes = note_parts(alloc, machine)?;
        write_turn(alloc, machine, &notes, &mut text)?;
        machine.turn()?;
    }
    Ok(text)
}
