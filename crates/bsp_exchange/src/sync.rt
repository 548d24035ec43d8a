//! Whether nodes may make an exchange.

ghost use Rattle.std.specs.Prelude.{◌≡◌, ◌↔◌, IsTrue, Some, length, slice_get};
ghost use Rattle.node_core.specs.declared.state.State.TheVariants.{Synced};
ghost use Rattle.node_core.specs.Node.{PreparedNode};
ghost use Rattle.bsp_exchange.specs.Exchange.{AreAtSync, states};

use node_core::{Node, State};
use std::alloc::Allocator;

/// Whether the nodes may make an exchange: each stands at the place of its rank, counts as many nodes as there are, and waits, and
/// they have equally many areas in effect.
pub fn are_at_sync<A: Allocator + Copy>(nodes: &[Node<A>]) -> bool
    ensures { IsTrue result ↔ AreAtSync (states nodes.now) }
{
    let areas = areas_of_first(nodes);
    for (place, node) in nodes.iter().enumerate() {
        if !waits_at(node, place, nodes.len(), areas) {
            return false;
        }
    }
    true
}

/// How many areas the first node has in effect, 0 where there is no node.
fn areas_of_first<A: Allocator + Copy>(nodes: &[Node<A>]) -> usize
    ensures { (p : PreparedNode) → slice_get nodes.now 0 ≡ Some p
        → result ≡ length p.node.hart.communication.registrations.in_effect }
{
    match nodes.first() {
        Some(node) => node.slots().count(),
        None => 0,
    }
}

/// Whether a node waits whose rank is `place`, which counts so many nodes and has so many areas in effect.
fn waits_at<A: Allocator + Copy>(node: &Node<A>, place: usize, count: usize, areas: usize) -> bool
    ensures { IsTrue result ↔ ((node.now.node.hart.rank ≡ place) × (node.now.node.hart.nprocs ≡ count)
        × (node.now.node.state ≡ Synced) × (length node.now.node.hart.communication.registrations.in_effect ≡ areas)) }
{
    node.rank() as usize == place
        && node.nprocs() as usize == count
        && node.state() == State::Synced
        && node.slots().count() == areas
}
