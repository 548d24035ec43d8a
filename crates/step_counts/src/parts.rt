//! The local parts of a superstep, and the counts of their steps.

ghost use Rattle.std.specs.Prelude.{◌≡◌, ℕ, ◌^◌, ◌++◌, false, replicate, string_bytes, OnErr, OnOk};
ghost use Rattle.machine_core.specs.declared.event.Event.TheVariants.{Step as step_of};
ghost use Rattle.machine_core.specs.Events.{after, is_enabled};
ghost use Rattle.machine_core.specs.Sound.{IsSoundMachine};
ghost use Rattle.machine_core.specs.Turn.{with_phases};
ghost use Rattle.machine_core.specs.Walk.{IsOnPhase};
ghost use Rattle.step_counts.specs.Counts.{count_in, lines_below, superstep_lines};
ghost use Rattle.step_counts.specs.Parts.{addresses_at};
ghost use Rattle.step_counts.specs.Table.{told, IsEmpty};

use crate::table::Table;
use machine_core::Machine;
use std::alloc::{AllocError, Allocator};

/// So many addresses are taken from the machine at a time.
// Their slice lies in the frame.
const MANY: usize = 256;

/// Makes the local part of a rank, and counts its steps.
///
/// # Errors
/// If memory is refused in a step. The steps before it are made.
fn count_steps<A: Allocator + Copy>(
    machine: &mut Machine<A>,
    rank: u32,
    table: &mut Table<A>,
) -> Result<(), AllocError>
    requires sound { IsSoundMachine machine.old }
    requires memory { table.old.memory ≡ machine.old.settings.memory }
    requires empty { IsEmpty table.old }
    ensures made { (k : ℕ) × (machine.new ≡ after machine.old (replicate k (step_of rank))) }
    ensures stopped { OnOk result (is_enabled machine.new (step_of rank) ≡ false) }
    ensures told { OnOk result ((address : ℕ) → told table.new address ≡ count_in (addresses_at machine.old rank) address) }
    ensures memory { table.new.memory ≡ table.old.memory }
{
    let mut pcs = [0; MANY];
    while machine.runs(rank) {
        let made = machine.run_node_traced(rank, &mut pcs)?;
        for place in 0..made {
            table.add(pcs[place])?;
        }
    }
    Ok(())
}

/// Makes the local part of a rank, and appends the lines of its counts.
///
/// # Errors
/// If memory is refused. The steps before that are made.
fn count_part<A: Allocator + Copy>(
    machine: &mut Machine<A>,
    rank: u32,
    table: &mut Table<A>,
    text: &mut String<A>,
) -> Result<(), AllocError>
    requires sound { IsSoundMachine machine.old }
    requires memory { table.old.memory ≡ machine.old.settings.memory }
    ensures made { (k : ℕ) × (machine.new ≡ after machine.old (replicate k (step_of rank))) }
    ensures stopped { OnOk result (is_enabled machine.new (step_of rank) ≡ false) }
    ensures text { OnOk result (string_bytes text.new ≡ string_bytes text.old
        ++ lines_below (2 ^ 32) machine.old.exchanges rank (count_in (addresses_at machine.old rank))) }
    ensures memory { table.new.memory ≡ table.old.memory }
{
    table.clear();
    count_steps(machine, rank, table)?;
    table.write_lines(machine.superstep(), rank, text)
}

/// Makes the local parts of a superstep, rank by rank, and appends the lines of their counts.
///
/// # Errors
/// If memory is refused. The steps before that are made.
pub(crate) fn count_parts<A: Allocator + Copy>(
    machine: &mut Machine<A>,
    table: &mut Table<A>,
    text: &mut String<A>,
) -> Result<(), AllocError>
    requires memory { table.old.memory ≡ machine.old.settings.memory }
    ensures ok { OnOk result (machine.new ≡ with_phases machine.old) }
    ensures text { OnOk result (string_bytes text.new ≡ string_bytes text.old ++ superstep_lines machine.old) }
    ensures err { OnErr result (IsOnPhase machine.old machine.new) }
    ensures memory { table.new.memory ≡ table.old.memory }
{
    for rank in 0..machine.settings().nodes {
        count_part(machine, rank, table, text)?;
    }
    Ok(())
}
