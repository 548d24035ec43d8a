//! The lines of one turn.

ghost use Rattle.std.specs.Prelude.{◌≡◌, ◌++◌, IfOk, OnOk, string_bytes, true};
ghost use Rattle.machine_core.specs.declared.event.Event.TheVariants.{Turn as the_turn};
ghost use Rattle.machine_core.specs.Events.{is_enabled};
ghost use Rattle.machine_core.specs.Sound.{IsSoundMachine};
ghost use Rattle.contested_runs.specs.Lines.{range_lines};
ghost use Rattle.contested_runs.specs.Runs.{AreTurnLines};

use crate::line::write_range;
use contested_bytes::{ContestedRange, contested_ranges};
use machine_core::Machine;
use std::alloc::{AllocError, Allocator};

/// The lines of the contested bytes of the turn that a machine is about to make.
///
/// # Errors
/// If memory is refused.
pub(crate) fn turn_lines<A: Allocator + Copy>(
    alloc: A,
    machine: &Machine<A>,
) -> Result<String<A>, AllocError>
    requires sound { IsSoundMachine machine.now }
    requires enabled { is_enabled machine.now the_turn ≡ true }
    ensures { IfOk result (λ text. AreTurnLines machine.now (string_bytes text)) }
{
    let mut text = String::new(alloc);
    if machine.makes_exchange() {
        let found = contested_ranges(alloc, machine.nodes())?;
        write_ranges(machine.superstep(), &found, &mut text)?;
    }
    Ok(text)
}

/// Appends the lines of ranges of a superstep.
fn write_ranges<A: Allocator>(
    superstep: u64,
    found: &[ContestedRange],
    text: &mut String<A>,
) -> Result<(), AllocError>
    ensures { OnOk result (string_bytes text.new ≡ string_bytes text.old ++ range_lines superstep found.now) }
{
    for range in found {
        write_range(superstep, range, text)?;
    }
    Ok(())
}
