//! The row of nodes, each at the place of its rank.

ghost use Rattle.std.specs.Prelude.{◌≡◌, ◌<◌, ◌++◌, length, map, false, slice_get, IfOk, OnOk, OnErr};
ghost use Rattle.std.specs.Option.{option_map_or};
ghost use Rattle.node_core.specs.Addresses.{HoldAddresses};
ghost use Rattle.node_core.specs.Node.{NodeState};
ghost use Rattle.bsp_exchange.specs.Exchange.{states};
ghost use Rattle.machine_core.specs.Events.{next_addresses_at, runs, some_runs as some_runs_of};
ghost use Rattle.machine_core.specs.Inside.{AreRowSteps};
ghost use Rattle.machine_core.specs.Turn.{written, most_ticks};

use node_core::Node;
use std::alloc::{AllocError, Allocator};

/// Whether some node runs.
pub(crate) fn some_runs<A: Allocator>(nodes: &[Node<A>]) -> bool
    ensures { result ≡ some_runs_of (states nodes.now) }
{
    nodes.iter().any(|node| node.state().is_running())
}

/// Makes a step of the node of a rank, if it runs, and answers whether it did.
///
/// # Errors
/// If memory is refused. Nothing has changed then.
pub(crate) fn step_at<A: Allocator + Copy>(
    nodes: &mut [Node<A>],
    rank: usize,
    input: &[u8],
) -> Result<bool, AllocError>
    ensures step { AreRowSteps input.now rank 1 nodes.old nodes.new result }
    ensures made { IfOk result (λ made.
        made ≡ option_map_or runs (slice_get (states nodes.old) rank) false) }
{
    if rank >= nodes.len() {
        return Ok(false);
    }
    if !nodes[rank].state().is_running() {
        return Ok(false);
    }
    nodes[rank].step(input)?;
    Ok(true)
}

/// The same nodes.
///
/// # Errors
/// If memory is refused.
pub(crate) fn try_clone<A: Allocator + Copy>(
    alloc: A,
    nodes: &[Node<A>],
) -> Result<Vec<Node<A>, A>, AllocError>
    ensures { IfOk result (λ row. states row.items ≡ states nodes.now) }
{
    let mut row = Vec::with_capacity(alloc, nodes.len())?;
    for node in nodes {
        row.push(node.try_clone(alloc)?)?;
    }
    Ok(row)
}

/// Makes at most `most` steps of the node of a rank, as long as it runs.
///
/// # Errors
/// If memory is refused in a step. The steps before it are made.
pub(crate) fn run_at<A: Allocator + Copy>(
    nodes: &mut [Node<A>],
    rank: usize,
    most: u64,
    input: &[u8],
) -> Result<(), AllocError>
    requires { rank < length nodes.old }
    ensures { AreRowSteps input.now rank most nodes.old nodes.new result }
{
    nodes[rank].run(input, most)
}

/// Makes at most as many steps of the node of a rank as `pcs` has places, as long as it runs, with their addresses. How many.
///
/// # Errors
/// If memory is refused in a step. The steps before it are made.
pub(crate) fn run_traced_at<A: Allocator + Copy>(
    nodes: &mut [Node<A>],
    rank: usize,
    pcs: &mut [u32],
    input: &[u8],
) -> Result<usize, AllocError>
    requires { rank < length nodes.old }
    ensures steps { AreRowSteps input.now rank (length pcs.old) nodes.old nodes.new result }
    ensures addresses { IfOk result (HoldAddresses (next_addresses_at input.now rank (length pcs.old) (states nodes.old)) pcs.new) }
{
    nodes[rank].run_traced(input, pcs)
}

/// The most ticks that a node has made beyond those in `started`.
pub(crate) fn work<A: Allocator>(nodes: &[Node<A>], started: &[u64]) -> u64
    requires { length started.now ≡ length nodes.now }
    ensures { result ≡ most_ticks (states nodes.now) started.now }
{
    let mut most = 0;
    for (rank, node) in nodes.iter().enumerate() {
        most = most.max(node.ticks().saturating_sub(started[rank]));
    }
    most
}

/// Appends what the nodes wrote in this superstep to `output`, rank by rank.
///
/// # Errors
/// If memory is refused. `output` has then the bytes that it had.
pub(crate) fn append_output<A: Allocator>(
    nodes: &[Node<A>],
    output: &mut Vec<u8, A>,
) -> Result<(), AllocError>
    ensures ok { OnOk result
        (output.new.items ≡ output.old.items ++ written (states nodes.now)) }
    ensures err { OnErr result (output.new.items ≡ output.old.items) }
{
    let before = output.len();
    for node in nodes {
        if let Err(refused) = output.extend_from_slice(node.output()) {
            output.truncate(before);
            return Err(refused);
        }
    }
    Ok(())
}

/// Notes the ticks of the nodes, with which their next superstep begins.
pub(crate) fn note_ticks<A: Allocator>(nodes: &[Node<A>], started: &mut [u64])
    requires { length started.old ≡ length nodes.now }
    ensures { started.new ≡ map (λ (n : NodeState). n.ticks) (states nodes.now) }
{
    for (rank, node) in nodes.iter().enumerate() {
        started[rank] = node.ticks();
    }
}
