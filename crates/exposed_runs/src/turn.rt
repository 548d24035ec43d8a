//! The lines of one turn.

ghost use Rattle.std.specs.Prelude.{◌≡◌, ◌++◌, ℕ, List, OnOk, string_bytes, true};
ghost use Rattle.machine_core.specs.declared.event.Event.TheVariants.{Turn as the_turn};
ghost use Rattle.machine_core.specs.Events.{is_enabled};
ghost use Rattle.machine_core.specs.Sound.{IsSoundMachine};
ghost use Rattle.exposed_runs.specs.Lines.{exposure_lines};
ghost use Rattle.exposed_runs.specs.Runs.{AreTurnLines};

use crate::calls::calls;
use crate::line::write_exposure;
use crate::note::Note;
use exposed_bytes::{Exposure, exposures};
use machine_core::Machine;
use std::alloc::{AllocError, Allocator};

/// Appends the lines of the exposed bytes of the turn that a machine is about to make, by what was noted of its superstep.
///
/// # Errors
/// If memory is refused.
pub(crate) fn write_turn<A: Allocator + Copy>(
    alloc: A,
    machine: &Machine<A>,
    notes: &[Note],
    text: &mut String<A>,
) -> Result<(), AllocError>
    requires sound { IsSoundMachine machine.now }
    requires enabled { is_enabled machine.now the_turn ≡ true }
    ensures { OnOk result ((lines : List ℕ) × AreTurnLines machine.now notes.now lines
        × (string_bytes text.new ≡ string_bytes text.old ++ lines)) }
{
    if machine.makes_exchange() {
        let calls = calls(alloc, machine.nodes(), notes)?;
        let found = exposures(alloc, &calls)?;
        write_exposures(machine.superstep(), &found, text)?;
    }
    Ok(())
}

/// Appends the lines of ranges of a superstep.
fn write_exposures<A: Allocator>(
    superstep: u64,
    found: &[Exposure],
    text: &mut String<A>,
) -> Result<(), AllocError>
    ensures { OnOk result (string_bytes text.new ≡ string_bytes text.old ++ exposure_lines superstep found.now) }
{
    for range in found {
        write_exposure(superstep, range, text)?;
    }
    Ok(())
}
