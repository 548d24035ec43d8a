//! The lines of one superstep.

ghost use Rattle.std.specs.Prelude.{◌≡◌, ◌<◌, ◌++◌, Some, IfOk, OnOk, length, slice_get, string_bytes};
ghost use Rattle.machine_core.specs.Sound.{IsSoundMachine};
ghost use Rattle.bsp_profile.specs.Lines.{superstep_lines as superstep_lines_of, row_lines, flow_lines, flow_lines_from};
ghost use Rattle.bsp_profile.specs.Moves.{rows};
ghost use Rattle.bsp_profile.specs.Tally.{Tells};

use crate::row::{Flow, Row};
use crate::tally::Tally;
use machine_core::Machine;
use std::alloc::{AllocError, Allocator};

/// The lines of the superstep of a machine none of whose nodes runs any more, before its turn.
pub(crate) fn superstep_lines<A: Allocator + Copy>(
    alloc: A,
    machine: &Machine<A>,
) -> Result<String<A>, AllocError>
    ensures { IfOk result (λ text. string_bytes text ≡ superstep_lines_of machine.now) }
{
    recall_sound(machine);
    let tally = Tally::of(alloc, machine)?;
    let mut text = String::new(alloc);
    write_rows(machine, &tally, &mut text)?;
    write_flows(machine, &tally, &mut text)?;
    Ok(text)
}

/// Does nothing at run time. A proof learns from it that a machine is sound, and so has few nodes, each at the place of its rank.
#[inline(always)]
fn recall_sound<A: Allocator + Copy>(machine: &Machine<A>)
    ensures { IsSoundMachine machine.now }
{
    let _ = machine.settings();
}

/// Appends the lines of the ranks.
fn write_rows<A: Allocator + Copy>(
    machine: &Machine<A>,
    tally: &Tally<A>,
    text: &mut String<A>,
) -> Result<(), AllocError>
    requires sound { IsSoundMachine machine.now }
    requires tally { Tells machine.now.nodes tally.now.count tally.now.cells.items }
    ensures { OnOk result (string_bytes text.new ≡ string_bytes text.old ++ row_lines machine.now) }
{
    for rank in 0..tally.count {
        let row = row_at(machine, tally, rank);
        writeln!(text, "{row}")?;
    }
    Ok(())
}

/// The row of a rank.
fn row_at<A: Allocator + Copy>(machine: &Machine<A>, tally: &Tally<A>, rank: usize) -> Row
    requires sound { IsSoundMachine machine.now }
    requires tally { Tells machine.now.nodes tally.now.count tally.now.cells.items }
    requires rank { rank < tally.now.count }
    ensures { slice_get (rows machine.now) rank ≡ Some result }
{
    let node = &machine.nodes()[rank];
    Row {
        superstep: machine.superstep(),
        rank: node.rank(),
        ticks: node.ticks().saturating_sub(machine.started()[rank]),
        sent: tally.moved_out(rank),
        received: tally.moved_in(rank),
        kept: tally.bytes(rank, rank),
        messages: tally.messages(rank),
        requests: node.requests().len() as u64,
        state: node.state(),
    }
}

/// Appends the lines of the ranks between which bytes go.
fn write_flows<A: Allocator + Copy>(
    machine: &Machine<A>,
    tally: &Tally<A>,
    text: &mut String<A>,
) -> Result<(), AllocError>
    requires { Tells machine.now.nodes tally.now.count tally.now.cells.items }
    ensures { OnOk result (string_bytes text.new ≡ string_bytes text.old ++ flow_lines machine.now) }
{
    for from in 0..tally.count {
        write_flows_from(machine, tally, from, text)?;
    }
    Ok(())
}

/// Appends the lines of the ranks to which bytes go from one rank.
fn write_flows_from<A: Allocator + Copy>(
    machine: &Machine<A>,
    tally: &Tally<A>,
    from: usize,
    text: &mut String<A>,
) -> Result<(), AllocError>
    requires tally { Tells machine.now.nodes tally.now.count tally.now.cells.items }
    requires from { from < tally.now.count }
    ensures { OnOk result
        (string_bytes text.new ≡ string_bytes text.old ++ flow_lines_from machine.now from) }
{
    for to in 0..tally.count {
        let bytes = tally.bytes(from, to);
        if bytes > 0 {
            let flow = Flow {
                superstep: machine.superstep(),
                from: from as u32,
                to: to as u32,
                bytes,
            };
            writeln!(text, "{flow}")?;
        }
    }
    Ok(())
}
