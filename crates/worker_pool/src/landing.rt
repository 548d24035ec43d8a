//! The exchange of a turn in several threads: the nodes are prepared for their parts, and then the parts land.

ghost use Rattle.std.specs.Prelude.{◌≡◌, ◌+◌, ◌-◌, ◌++◌, ◌<◌, ◌≤◌, ◌&&◌, ◌||◌, IfOk, IfErr, IsTrue, IsFalse, length, vec_len, vec_capacity};
ghost use Rattle.std.specs.Thread.{IsSend, IsSync};
ghost use denote.Param.Send.{Frees};
ghost use Rattle.worker_pool.specs.Landings.{AreApart, IsDone, IsReadyFor};

use crate::error::Refused;
use bsp_exchange::{Part, land_all, prepare_all};
use node_core::Node;
use std::alloc::Allocator;
use std::snapshot::Snapshot;
use std::sync::Wait;
use std::thread;
use std::thread::{Promise, Threads};

/// What is made of nodes and their parts, the one when the other is complete.
#[derive(Clone, Copy)]
pub(crate) enum Stage {
    /// Each node is prepared for its part.
    Prepare,
    /// Each part lands in its node, and is gone.
    Land,
}

/// Some nodes of a row, with the part of each at the same place.
#[derive(Drop)]
pub(crate) struct Share<A: Allocator> {
    pub(crate) nodes: Vec<Node<A>, A>,
    pub(crate) parts: Vec<Part<A>, A>,
}

/// A share of which a stage was made, and what was refused meanwhile.
#[derive(Drop)]
pub(crate) struct Done<A: Allocator> {
    pub(crate) share: Share<A>,
    /// Whether no node was refused the memory for which it was prepared. Landings are always complete.
    pub(crate) complete: bool,
    /// What threads and room were refused. The stage was made all the same.
    pub(crate) refused: Refused,
}

/// The promise of a thread that it makes a stage of the share that it is handed.
#[derive(Drop)]
struct MakeStage<A: Allocator> {
    stage: Stage,
    share: Snapshot<Share<A>>,
}

impl<A: Allocator> Promise<Done<A>> for MakeStage<A> {
    ghost kept_by = { λ promise done. IsDone promise.stage promise.share.value.parts.items
        promise.share.value.nodes.items done.share.parts.items done.share.nodes.items done.complete };
}

/// How many bytes land in all of some parts.
pub(crate) fn bytes_of<A: Allocator + Copy>(parts: &[Part<A>]) -> u64 {
    let mut bytes: u64 = 0;
    for part in parts {
        bytes = bytes.saturating_add(part.bytes());
    }
    bytes
}

/// Makes a stage of each node and the part at its place, in so many threads, this one among them. Each takes a run of the row, and this one
/// starts all others, from the last run on: if two threads start others at once, these may be put on the same processor.
///
/// A run whose thread cannot be started is made here as it is, and so is a share for whose last run there is no room of its own. So the
/// stage is made of each node, whatever threads and room are refused.
#[cycle(threads)]
pub(crate) fn make_in_threads<R: Threads + Wait + Sync, A: Allocator + Copy + Send + Sync>(
    rt: &R,
    threads: usize,
    stage: Stage,
    share: Share<A>,
) -> Done<A>
    requires ready { IsReadyFor stage share.parts.items share.nodes.items }
    requires enough { 1 < threads → threads ≤ vec_len share.nodes }
    ensures done { IsDone stage share.parts.items share.nodes.items result.share.parts.items result.share.nodes.items result.complete }
    ensures no_worker { IsTrue result.refused.thread → 1 < threads }
    ensures node_room { vec_capacity share.nodes ≤ vec_capacity result.share.nodes }
    ensures part_room { vec_capacity share.parts ≤ vec_capacity result.share.parts }
{
    if threads < 2 {
        return make_here(stage, share);
    }
    let start = start_of_last_run(share.nodes.len(), threads);
    match split(share, start) {
        Ok((here, last)) => make_beside(rt, threads, stage, here, last),
        Err(whole) => in_spite_of(make_here(stage, whole), Refused::MEMORY),
    }
}

/// Makes a stage of a share whose last run stands apart, of this run in a thread of its own and of the rest in so many threads together
/// with that. If it cannot be started, the run is made here as it is, when the rest is.
#[cycle(threads)]
fn make_beside<R: Threads + Wait + Sync, A: Allocator + Copy + Send + Sync>(
    rt: &R,
    threads: usize,
    stage: Stage,
    here: Share<A>,
    last: Share<A>,
) -> Done<A>
    requires { AreApart stage threads (vec_capacity here.nodes) (vec_capacity here.parts)
        here.parts.items here.nodes.items last.parts.items last.nodes.items }
    ensures done { IsDone stage (here.parts.items ++ last.parts.items) (here.nodes.items ++ last.nodes.items)
        result.share.parts.items result.share.nodes.items result.complete }
    ensures node_room { vec_capacity here.nodes ≤ vec_capacity result.share.nodes }
    ensures part_room { vec_capacity here.parts ≤ vec_capacity result.share.parts }
{
    thread::scope(
        thread::scope_env(),
        rt,
        |scope| -> Done<A>
            requires { IsSync R.row × IsSend A.row × IsSync A.row × Frees A.Allocator A.dealloc_token
                × AreApart stage threads (vec_capacity here.nodes) (vec_capacity here.parts)
                here.parts.items here.nodes.items last.parts.items last.nodes.items }
            ensures { IsDone stage (here.parts.items ++ last.parts.items) (here.nodes.items ++ last.nodes.items)
                result.share.parts.items result.share.nodes.items result.complete
                × (vec_capacity here.nodes ≤ vec_capacity result.share.nodes)
                × (vec_capacity here.parts ≤ vec_capacity result.share.parts) }
        {
            let promise = MakeStage {
                stage,
                share: Snapshot::of(&last),
            };
            let other = move || -> Done<A>
                requires { IsReadyFor stage last.parts.items last.nodes.items }
                ensures { IsDone stage last.parts.items last.nodes.items
                    result.share.parts.items result.share.nodes.items result.complete }
            { make_here(stage, last) };
            match scope.spawn_with(promise, other) {
                Ok(child) => {
                    let first = make_in_threads(rt, threads - 1, stage, here);
                    put_together(first, child.join(rt))
                }
                Err(not_started) => {
                    let first = make_in_threads(rt, threads - 1, stage, here);
                    let whole = put_together(first, (not_started.value)());
                    in_spite_of(whole, Refused::A_THREAD)
                }
            }
        },
    )
}

/// How many of so many nodes stand before the last of so many runs. Runs differ by one node at most, and none is empty.
fn start_of_last_run(nodes: usize, runs: usize) -> usize
    requires some { 1 < runs }
    requires enough { runs ≤ nodes }
    ensures others { runs - 1 ≤ result }
    ensures within { result ≤ nodes }
{
    nodes - nodes / runs
}

/// Splits a share before the node at a place.
///
/// # Errors
/// If there is no room for what stands from there on. The share is whole then.
fn split<A: Allocator + Copy>(share: Share<A>, end: usize) -> Result<(Share<A>, Share<A>), Share<A>>
    requires nodes { end ≤ vec_len share.nodes }
    requires parts { end ≤ vec_len share.parts }
    ensures nodes { IfOk result (λ both. both.0.nodes.items ++ both.1.nodes.items ≡ share.nodes.items) }
    ensures parts { IfOk result (λ both. both.0.parts.items ++ both.1.parts.items ≡ share.parts.items) }
    ensures end { IfOk result (λ both. (length both.0.nodes.items ≡ end) × (length both.0.parts.items ≡ end)) }
    ensures room { IfOk result (λ both. (vec_capacity both.0.nodes ≡ vec_capacity share.nodes)
        × (vec_capacity both.0.parts ≡ vec_capacity share.parts)) }
    ensures err { IfErr result (λ whole. (whole.nodes.items ≡ share.nodes.items) × (whole.parts.items ≡ share.parts.items)
        × (vec_capacity whole.nodes ≡ vec_capacity share.nodes) × (vec_capacity share.parts ≤ vec_capacity whole.parts)) }
{
    let Share {
        mut nodes,
        mut parts,
    } = share;
    let Ok(other_parts) = parts.split_off(end) else {
        return Err(Share { nodes, parts });
    };
    match nodes.split_off(end) {
        Ok(other_nodes) => Ok((
            Share { nodes, parts },
            Share {
                nodes: other_nodes,
                parts: other_parts,
            },
        )),
        Err(_) => {
            let parts = joined(parts, other_parts);
            Err(Share { nodes, parts })
        }
    }
}

/// Puts elements after others, among which there is room for them.
fn joined<T: Drop, A: Allocator>(mut first: Vec<T, A>, mut second: Vec<T, A>) -> Vec<T, A>
    requires { vec_len first + vec_len second ≤ vec_capacity first }
    ensures items { result.items ≡ first.items ++ second.items }
    ensures room { vec_capacity first ≤ vec_capacity result }
{
    if first.append(&mut second).is_err() {
        unreachable!()
    }
    first
}

/// Puts what was made of the second share after what was made of the first, in which there is room for it.
fn put_together<A: Allocator>(first: Done<A>, second: Done<A>) -> Done<A>
    requires nodes { vec_len first.share.nodes + vec_len second.share.nodes ≤ vec_capacity first.share.nodes }
    requires parts { vec_len first.share.parts + vec_len second.share.parts ≤ vec_capacity first.share.parts }
    ensures nodes { result.share.nodes.items ≡ first.share.nodes.items ++ second.share.nodes.items }
    ensures parts { result.share.parts.items ≡ first.share.parts.items ++ second.share.parts.items }
    ensures complete { result.complete ≡ (first.complete && second.complete) }
    ensures thread { result.refused.thread ≡ (first.refused.thread || second.refused.thread) }
    ensures memory { result.refused.memory ≡ (first.refused.memory || second.refused.memory) }
    ensures node_room { vec_capacity first.share.nodes ≤ vec_capacity result.share.nodes }
    ensures part_room { vec_capacity first.share.parts ≤ vec_capacity result.share.parts }
{
    let Done {
        share: here,
        complete,
        refused,
    } = first;
    let Done {
        share: there,
        complete: other_complete,
        refused: others_refused,
    } = second;
    Done {
        share: Share {
            nodes: joined(here.nodes, there.nodes),
            parts: joined(here.parts, there.parts),
        },
        refused: refused.and(others_refused),
        complete: complete && other_complete,
    }
}

/// What comes of a stage for which more was refused, a thread or room: it was made all the same.
fn in_spite_of<A: Allocator>(done: Done<A>, more: Refused) -> Done<A>
    ensures share { result.share ≡ done.share }
    ensures complete { result.complete ≡ done.complete }
    ensures thread { result.refused.thread ≡ (done.refused.thread || more.thread) }
    ensures memory { result.refused.memory ≡ (done.refused.memory || more.memory) }
{
    let Done {
        share,
        complete,
        refused,
    } = done;
    Done {
        share,
        complete,
        refused: refused.and(more),
    }
}

/// Makes a stage of each node and the part at its place, one after another, in this thread.
fn make_here<A: Allocator + Copy>(stage: Stage, share: Share<A>) -> Done<A>
    requires { IsReadyFor stage share.parts.items share.nodes.items }
    ensures done { IsDone stage share.parts.items share.nodes.items result.share.parts.items result.share.nodes.items result.complete }
    ensures thread { IsFalse result.refused.thread }
    ensures memory { IsFalse result.refused.memory }
    ensures node_room { vec_capacity result.share.nodes ≡ vec_capacity share.nodes }
    ensures part_room { vec_capacity result.share.parts ≡ vec_capacity share.parts }
{
    match stage {
        Stage::Prepare => prepare_here(share),
        Stage::Land => land_here(share),
    }
}

/// Prepares each node for the part at its place, up to the first that is refused memory.
fn prepare_here<A: Allocator + Copy>(share: Share<A>) -> Done<A>
    requires { IsReadyFor Stage.Prepare share.parts.items share.nodes.items }
    ensures done { IsDone Stage.Prepare share.parts.items share.nodes.items
        result.share.parts.items result.share.nodes.items result.complete }
    ensures thread { IsFalse result.refused.thread }
    ensures memory { IsFalse result.refused.memory }
    ensures node_room { vec_capacity result.share.nodes ≡ vec_capacity share.nodes }
    ensures part_room { vec_capacity result.share.parts ≡ vec_capacity share.parts }
{
    let Share { mut nodes, parts } = share;
    let complete = prepare_all(&mut nodes, &parts).is_ok();
    Done {
        share: Share { nodes, parts },
        complete,
        refused: Refused::NOTHING,
    }
}

/// Lands each part in the node at its place. No memory is taken; what the parts hold is let go here, if it is in some thread's share.
fn land_here<A: Allocator + Copy>(share: Share<A>) -> Done<A>
    requires { IsReadyFor Stage.Land share.parts.items share.nodes.items }
    ensures done { IsDone Stage.Land share.parts.items share.nodes.items result.share.parts.items result.share.nodes.items result.complete }
    ensures thread { IsFalse result.refused.thread }
    ensures memory { IsFalse result.refused.memory }
    ensures node_room { vec_capacity result.share.nodes ≡ vec_capacity share.nodes }
    ensures part_room { vec_capacity result.share.parts ≡ vec_capacity share.parts }
{
    let Share {
        mut nodes,
        mut parts,
    } = share;
    land_all(&mut nodes, &mut parts);
    parts.clear();
    Done {
        share: Share { nodes, parts },
        complete: true,
        refused: Refused::NOTHING,
    }
}
