//! Work on the nodes of a row: each is taken through its local part of the superstep.

ghost use Rattle.std.specs.Prelude.{◌≡◌, ◌<◌, ℕ, IfOk, OnOk, OnErr, IsTrue, IsFalse, false};
ghost use Rattle.std.specs.Thread.{IsSend, IsSync};
ghost use denote.Param.Send.{Frees};
ghost use Rattle.node_core.specs.Node.{is_running, local_steps};
ghost use Rattle.node_core.specs.declared.state.State.TheVariants.{Running};
ghost use Rattle.machine_core.specs.Events.{HaveStepped};
ghost use Rattle.bsp_exchange.specs.Exchange.{states};
ghost use Rattle.worker_pool.specs.Work.{HasCome, IsWorked};

use crate::error::Refused;
use claim_table::{ClaimTable, Gate, Place, Work};
use node_core::Node;
use std::alloc::{AllocError, Allocator};
use std::sync::Wait;
use std::thread;
use std::thread::Threads;

/// The most steps that a node may make, whatever its limit.
const MOST_STEPS: u64 = 1 << 40;

/// After how many steps of a node the bytes that it has asked for are first looked at, if its share is small; after these, each time that
/// its steps have doubled. If it is large, that is after each call.
const FIRST_LOOK: u64 = 256;

/// From how many steps on a share is large: some more do not matter then, and none of them is counted by itself.
const LARGE: u64 = 16_384;

/// How many steps are allowed beyond a large share. About half of them are made.
const SPARE: u64 = 4_096;

/// How much of a superstep this thread makes by itself before others are started: so many steps, and fewer if the nodes have asked for so
/// many bytes before that.
#[derive(Clone, Copy)]
pub(crate) struct FirstShare {
    /// The most steps, of all nodes together.
    pub(crate) steps: u64,
    /// How many bytes its nodes ask for in the superstep, by requests and output, before it ends.
    pub(crate) bytes: u64,
}

/// Nodes that come back from their work, and what was refused meanwhile.
#[derive(Drop)]
pub(crate) struct Worked<A: Allocator> {
    pub(crate) nodes: Vec<Node<A>, A>,
    pub(crate) refused: Refused,
}

/// Takes nodes through their local parts of the superstep. This thread makes a first share of their steps. Where a node runs then,
/// so many workers share out the nodes, slice by slice. What they leave running, this thread finishes.
///
/// A refusal stops no node that did not need what was refused.
pub(crate) fn work_on<
    R: Threads + Wait + Sync,
    A: Allocator + Copy + Send + Sync,
    G: Gate<A> + Sync,
>(
    rt: &R,
    work: &Work<'_, G>,
    share: FirstShare,
    workers: usize,
    input: &[u8],
    nodes: Vec<Node<A>, A>,
) -> Worked<A>
    ensures work { IsWorked input.now (states nodes.items) (states result.nodes.items) result.refused.memory }
    ensures no_worker { IsTrue result.refused.thread → 1 < workers }
{
    let begun = begin(input, share, nodes);
    let shared = share_out(rt, work, workers, input, begun.nodes);
    let finished = finish(input, shared.nodes);
    Worked {
        nodes: finished.nodes,
        refused: begun.refused.and(shared.refused).and(finished.refused),
    }
}

/// Whether a node runs.
fn some_run<A: Allocator>(nodes: &[Node<A>]) -> bool {
    nodes.iter().any(|node| node.state().is_running())
}

/// Lets so many workers share out the nodes by a table, slice by slice, this thread among them. If no node runs, or there is no room for
/// the table, the nodes stay as they are.
fn share_out<R: Threads + Wait + Sync, A: Allocator + Copy + Send + Sync, G: Gate<A> + Sync>(
    rt: &R,
    work: &Work<'_, G>,
    workers: usize,
    input: &[u8],
    nodes: Vec<Node<A>, A>,
) -> Worked<A>
    ensures stepped { HaveStepped input.now (states nodes.items) (states result.nodes.items) }
    ensures no_worker { IsTrue result.refused.thread → 1 < workers }
{
    if !some_run(&nodes) {
        return Worked {
            nodes,
            refused: Refused::NOTHING,
        };
    }
    match ClaimTable::open(input, nodes) {
        Ok((table, mut keeper)) => {
            let place = table.place(&mut keeper);
            let refused = work_in_threads(rt, work, workers, place);
            Worked {
                nodes: table.close(rt, keeper),
                refused,
            }
        }
        Err(nodes) => Worked {
            nodes,
            refused: Refused::MEMORY,
        },
    }
}

/// Works at the table in so many threads, this one among them, which starts all others. A worker's number says with which rank its passes
/// begin; this one's is 0.
#[cycle(workers)]
fn work_in_threads<R: Threads + Wait + Sync, A: Allocator + Copy + Send + Sync, G: Gate<A> + Sync>(
    rt: &R,
    work: &Work<'_, G>,
    workers: usize,
    mut place: Place<'_, '_, A>,
) -> Refused
    ensures no_worker { IsTrue result.thread → 1 < workers }
{
    if workers < 2 {
        return Refused::by(place.work(work, 0));
    }
    let other = place.another();
    work_beside(rt, work, workers, place, other)
}

/// Works at the table in so many threads, the last of which has a place of its own there. If it cannot be started, there are fewer workers,
/// who take its nodes too.
#[cycle(workers)]
fn work_beside<R: Threads + Wait + Sync, A: Allocator + Copy + Send + Sync, G: Gate<A> + Sync>(
    rt: &R,
    work: &Work<'_, G>,
    workers: usize,
    here: Place<'_, '_, A>,
    mut last: Place<'_, '_, A>,
) -> Refused
    requires { 1 < workers }
{
    thread::scope(
        thread::scope_env(),
        rt,
        |scope| -> Refused
            requires { IsSync R.row × IsSync G.row × IsSend A.row × IsSync A.row × Frees A.Allocator A.dealloc_token
                × (1 < workers) }
        {
            let other = move || -> Refused
                requires { 1 < workers }
            { Refused::by(last.work(work, workers - 1)) };
            let child = scope.spawn(other);
            let refused = work_in_threads(rt, work, workers - 1, here);
            match child {
                Ok(child) => refused.and(child.join(rt)),
                Err(_) => refused.and(Refused::A_THREAD),
            }
        },
    )
}

/// Makes a first share of the nodes' steps, as many of each, one node after another, until the bytes of the share are asked for. A node
/// that is refused memory stops no other.
fn begin<A: Allocator + Copy>(
    input: &[u8],
    share: FirstShare,
    mut nodes: Vec<Node<A>, A>,
) -> Worked<A>
    ensures stepped { HaveStepped input.now (states nodes.items) (states result.nodes.items) }
    ensures no_worker { IsFalse result.refused.thread }
{
    let steps = share.steps / nodes.len().max(1) as u64;
    let mut bytes = share.bytes;
    let mut refused = Refused::NOTHING;
    for place in 0..nodes.len() {
        let begun = begin_node(input, FirstShare { steps, bytes }, &mut nodes[place]);
        refused = refused.and(Refused::by(begun));
        bytes = bytes.saturating_sub(nodes[place].requests().bytes());
    }
    Worked { nodes, refused }
}

/// Makes about a share of a node's steps. How many bytes it has asked for is looked at now and then, so that it ends near those of the
/// share.
///
/// # Errors
/// If memory is refused in a step. The steps before it are made.
fn begin_node<A: Allocator + Copy>(
    input: &[u8],
    share: FirstShare,
    node: &mut Node<A>,
) -> Result<(), AllocError>
    ensures stepped { (k : ℕ) × (node.new.node ≡ local_steps input.now k node.old.node) }
{
    let mut left = share.steps;
    while left > 0 && node.requests().bytes() < share.bytes && node.state().is_running() {
        let made = some_steps(input, share.steps - left, left, node)?;
        left = left.saturating_sub(made);
    }
    Ok(())
}

/// Makes some steps of a node that runs, of a share of which so many are made and so many left. How many.
///
/// # Errors
/// If memory is refused in a step. The steps before it are made.
fn some_steps<A: Allocator + Copy>(
    input: &[u8],
    made: u64,
    left: u64,
    node: &mut Node<A>,
) -> Result<u64, AllocError>
    requires runs { node.old.node.state ≡ Running }
    requires some { 0 < left }
    ensures ok { IfOk result (λ steps. (0 < steps) × (node.new.node ≡ local_steps input.now steps node.old.node)) }
    ensures err { OnErr result ((k : ℕ) × (node.new.node ≡ local_steps input.now k node.old.node)) }
{
    if left < LARGE {
        let more = made.max(FIRST_LOOK).min(left);
        node.run(input, more)?;
        Ok(more)
    } else {
        node.run_on(input, left.saturating_add(SPARE))
    }
}

/// Takes nodes to the end of their local parts one after another, in this thread. One that is refused memory stops no other.
fn finish<A: Allocator + Copy>(input: &[u8], mut nodes: Vec<Node<A>, A>) -> Worked<A>
    ensures work { IsWorked input.now (states nodes.items) (states result.nodes.items) result.refused.memory }
    ensures no_worker { IsFalse result.refused.thread }
{
    let mut refused = Refused::NOTHING;
    for place in 0..nodes.len() {
        refused = refused.and(Refused::by(finish_node(input, &mut nodes[place])));
    }
    Worked { nodes, refused }
}

/// Takes a node to the end of its local part.
///
/// # Errors
/// If memory is refused in a step. The steps before it are made.
fn finish_node<A: Allocator + Copy>(input: &[u8], node: &mut Node<A>) -> Result<(), AllocError>
    ensures ok { OnOk result (is_running node.new.node.state ≡ false) }
    ensures stepped { (k : ℕ) × (node.new.node ≡ local_steps input.now k node.old.node) }
    ensures come { HasCome input.now node.new.node }
{
    if !node.state().is_running() {
        return Ok(());
    }
    prove!(node.ticks() < MOST_STEPS);
    node.run(input, MOST_STEPS)
}
