//! Runs of one node until a function returns.

ghost use Rattle.std.specs.Prelude.{◌≡◌, ℕ, OnOk, OnErr};
ghost use Rattle.bsp_debug.specs.Trace.{after_steps};
ghost use Rattle.bsp_debug.specs.Returns.{has_arrived, stands_behind, HasReturned, IsReturning};

use crate::points::Points;
use machine_core::{Event, Machine};
use node_core::Node;
use std::alloc::{AllocError, Allocator};

/// The register sp.
const SP: u8 = 2;

/// Runs the node of a rank until it stops or, after a step at least, stands after a call or at a point.
pub(crate) fn run_node_to_return<A: Allocator + Copy>(
    machine: &mut Machine<A>,
    rank: u32,
    addr: u32,
    sp: u32,
    points: &Points<A>,
) -> Result<(), AllocError>
    ensures ok { OnOk result ((count : ℕ) × (machine.new ≡ after_steps machine.old rank count)
        × HasReturned points.now machine.old rank addr sp count) }
    ensures err { OnErr result ((count : ℕ) × (machine.new ≡ after_steps machine.old rank count)
        × IsReturning points.now machine.old rank addr sp count) }
{
    let limit = machine.settings().limit;
    for _made in 0..limit {
        if !machine.apply(Event::Step(rank))? {
            break;
        }
        if has_arrived(machine, rank, addr, sp, points) {
            break;
        }
    }
    Ok(())
}

/// Whether the node of a rank stands after a call or at a point.
fn has_arrived<A: Allocator + Copy>(
    machine: &Machine<A>,
    rank: u32,
    addr: u32,
    sp: u32,
    points: &Points<A>,
) -> bool
    ensures { result ≡ has_arrived points.now rank addr sp machine.now }
{
    match machine.node(rank) {
        Some(node) => stands_behind(node, addr, sp) || points.has_address(rank, node.pc()),
        None => false,
    }
}

/// Whether a node stands after a call, with no more on its stack than at the call.
fn stands_behind<A: Allocator>(node: &Node<A>, addr: u32, sp: u32) -> bool
    ensures { result ≡ stands_behind addr sp node.now.node }
{
    node.pc() == addr && sp <= node.reg(SP)
}
