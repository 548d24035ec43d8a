//! A run that counts its steps.

ghost use Rattle.std.specs.Prelude.{◌≡◌, ℕ, IfOk, OnErr, OnOk, string_bytes};
ghost use Rattle.std.specs.Fn.{iterate};
ghost use Rattle.machine_core.specs.Turn.{superstep, IsRunToEnd};
ghost use Rattle.machine_core.specs.Walk.{walked};
ghost use Rattle.step_counts.specs.Counts.{counts_of, AllCountsAreTicks, HasWordPcs};

use crate::parts::count_parts;
use crate::table::Table;
use machine_core::Machine;
use std::alloc::{AllocError, Allocator};

/// The names of the columns.
const HEADER: &str = "superstep,rank,address,count\n";

/// Runs a machine to its outcome, in one thread, and answers how many steps each rank made at each address in each superstep. In each
/// superstep the counts of a rank add up to its ticks.
///
/// # Errors
/// If memory is refused. What was made before it stands, and any run can go on with the machine.
pub fn run<A: Allocator + Copy>(alloc: A, machine: &mut Machine<A>) -> Result<String<A>, AllocError>
    ensures ok { OnOk result (IsRunToEnd machine.old machine.new) }
    ensures counts { IfOk result (λ text. string_bytes text ≡ counts_of machine.old) }
    ensures ticks { (k : ℕ) → AllCountsAreTicks (iterate superstep k machine.old) }
    ensures err { OnErr result ((k : ℕ) × (machine.new ≡ walked k machine.old)) }
{
    recall_word_pcs(machine);
    let mut table = Table::new(alloc, machine.settings().memory);
    let mut text = String::from_str(alloc, HEADER)?;
    while machine.outcome().is_none() {
        count_parts(machine, &mut table, &mut text)?;
        machine.turn()?;
    }
    Ok(text)
}

/// Changes nothing. A proof learns from it that each node's pc is a word: that is a fact of its type, which a contract has only of a pc
/// that is read.
fn recall_word_pcs<A: Allocator + Copy>(machine: &Machine<A>)
    ensures { HasWordPcs machine.now }
{
    for node in machine.nodes() {
        let _ = node.pc();
    }
}
