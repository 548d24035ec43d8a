//! The local parts of a superstep, with a note of each request.

ghost use Rattle.std.specs.Prelude.{◌≡◌, ◌++◌, ℕ, false, replicate, IfOk, OnErr, OnOk, option_map, slice_get};
ghost use Rattle.std.specs.Option.{option_map_or};
ghost use Rattle.machine_core.specs.declared.event.Event.TheVariants.{Step as step_of};
ghost use Rattle.machine_core.specs.Events.{after, event, is_enabled};
ghost use Rattle.machine_core.specs.Sound.{IsSoundMachine};
ghost use Rattle.machine_core.specs.Turn.{with_phases};
ghost use Rattle.machine_core.specs.Walk.{IsOnPhase};
ghost use Rattle.exposed_runs.specs.Notes.{all_notes, count, note_of};
ghost use Rattle.exposed_runs.specs.Parts.{noted_at, notes_at};

use crate::note::{Note, note_of};
use machine_core::{Event, Machine};
use std::alloc::{AllocError, Allocator};

/// Makes the local parts of a superstep, rank by rank, and notes which calls make its requests.
///
/// # Errors
/// If memory is refused. The steps before that are made.
pub(crate) fn note_parts<A: Allocator + Copy>(
    alloc: A,
    machine: &mut Machine<A>,
) -> Result<Vec<Note, A>, AllocError>
    ensures ok { OnOk result (machine.new ≡ with_phases machine.old) }
    ensures notes { IfOk result (λ notes. notes.items ≡ all_notes machine.old) }
    ensures err { OnErr result (IsOnPhase machine.old machine.new) }
{
    let mut notes = Vec::new(alloc);
    for rank in 0..machine.settings().nodes {
        note_part(machine, rank, &mut notes)?;
    }
    Ok(notes)
}

/// Makes the local part of a rank, and adds what is noted of its requests.
fn note_part<A: Allocator + Copy>(
    machine: &mut Machine<A>,
    rank: u32,
    notes: &mut Vec<Note, A>,
) -> Result<(), AllocError>
    requires sound { IsSoundMachine machine.old }
    ensures made { (k : ℕ) × (machine.new ≡ after machine.old (replicate k (step_of rank))) }
    ensures stopped { OnOk result (is_enabled machine.new (step_of rank) ≡ false) }
    ensures notes { OnOk result (notes.new.items ≡ notes.old.items ++ notes_at machine.old rank) }
{
    while machine.runs(rank) {
        note_step(machine, rank, notes)?;
    }
    Ok(())
}

/// Makes the next step of a rank, and adds what is noted of the request that it makes, if it does.
#[inline(always)]
fn note_step<A: Allocator + Copy>(
    machine: &mut Machine<A>,
    rank: u32,
    notes: &mut Vec<Note, A>,
) -> Result<(), AllocError>
    ensures made { (k : ℕ) × (machine.new ≡ after machine.old (replicate k (step_of rank))) }
    ensures ok { OnOk result (machine.new ≡ event machine.old (step_of rank)) }
    ensures notes { OnOk result (notes.new.items ≡ notes.old.items ++ noted_at machine.old rank) }
{
    let Some(note) = next_note(machine, rank) else {
        return Ok(());
    };
    machine.apply(Event::Step(rank))?;
    if requests_of(machine, rank) > note.issue as usize {
        notes.push(note)?;
    }
    Ok(())
}

/// What is noted of the next request of a rank.
#[inline(always)]
fn next_note<A: Allocator + Copy>(machine: &Machine<A>, rank: u32) -> Option<Note>
    ensures { result ≡ option_map note_of (slice_get machine.now.nodes rank) }
{
    match machine.node(rank) {
        Some(node) => Some(note_of(node)),
        None => None,
    }
}

/// How many requests a rank has made in the superstep.
#[inline(always)]
fn requests_of<A: Allocator + Copy>(machine: &Machine<A>, rank: u32) -> usize
    ensures { result ≡ option_map_or count (slice_get machine.now.nodes rank) 0 }
{
    match machine.node(rank) {
        Some(node) => node.requests().len(),
        None => 0,
    }
}
