//! Where the nodes of a machine have stopped.

ghost use Rattle.std.specs.Prelude.{◌≡◌, ◌++◌, map, IfOk, string_bytes};
ghost use Rattle.std.specs.List.{flat_map};
ghost use Rattle.node_core.specs.Node.{PreparedNode};
ghost use Rattle.bsp_console.specs.Talk.{first_places, more_text, place_line};

use debug_lines::add_place;
use machine_core::Machine;
use node_core::Node;
use std::alloc::{AllocError, Allocator};

/// Of how many nodes it is told where they are where a run is over (own limit).
const MOST_PLACES: usize = 16;

/// Adds to a text where the nodes of the lowest ranks are, and how many more there are.
pub(crate) fn add_first_places<A: Allocator>(
    text: &mut String<A>,
    machine: &Machine<A>,
) -> Result<(), AllocError>
    ensures { IfOk result (λ _. string_bytes text.new ≡ string_bytes text.old ++ first_places machine.now) }
{
    let nodes = machine.nodes();
    let told = MOST_PLACES.min(nodes.len());
    add_places(text, machine, &nodes[..told])?;
    add_more(text, nodes.len().saturating_sub(MOST_PLACES))
}

/// Adds to a text that there are more nodes, if there are.
fn add_more<A: Allocator>(text: &mut String<A>, count: usize) -> Result<(), AllocError>
    ensures { IfOk result (λ _. string_bytes text.new ≡ string_bytes text.old ++ more_text count) }
{
    if count > 0 {
        writeln!(text, "and {count} more: where shows all")?;
    }
    Ok(())
}

/// Adds to a text where each of some nodes of a machine is.
pub(crate) fn add_places<A: Allocator>(
    text: &mut String<A>,
    machine: &Machine<A>,
    nodes: &[Node<A>],
) -> Result<(), AllocError>
    ensures { IfOk result (λ _. string_bytes text.new
        ≡ string_bytes text.old ++ flat_map (place_line machine.now) (map (λ (p : PreparedNode). p.node) nodes.now)) }
{
    add_each_place(text, machine, nodes)
}

/// Adds to a text where each of some nodes of a machine is, one after another.
fn add_each_place<A: Allocator>(
    text: &mut String<A>,
    machine: &Machine<A>,
    nodes: &[Node<A>],
) -> Result<(), AllocError>
    ensures { IfOk result (λ _. string_bytes text.new
        ≡ string_bytes text.old ++ flat_map (λ (p : PreparedNode). place_line machine.now p.node) nodes.now) }
{
    for node in nodes {
        add_place_of(text, machine, node)?;
    }
    Ok(())
}

/// Adds to a text where a node of a machine is.
pub(crate) fn add_place_of<A: Allocator>(
    text: &mut String<A>,
    machine: &Machine<A>,
    node: &Node<A>,
) -> Result<(), AllocError>
    ensures { IfOk result (λ _. string_bytes text.new
        ≡ string_bytes text.old ++ place_line machine.now node.now.node) }
{
    add_place(
        text,
        node.rank(),
        node.pc(),
        machine.superstep(),
        node.state(),
    )
}
