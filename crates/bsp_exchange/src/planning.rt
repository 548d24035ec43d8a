//! The plan of an exchange: everything that takes memory or can be refused, and nothing that changes a node. What of it reads other nodes
//! than the one at hand is a draft.

ghost use Rattle.std.specs.Prelude.{◌≡◌, ◌+◌, ◌^◌, ◌<◌, ◌≤◌, ◌↔◌, All, Some, IfOk, OnOk, OnErr, length, map};
ghost use Rattle.std.specs.List.{AllZip, enumerate_from};
ghost use Rattle.bsp_requests.specs.Inbox.{IsQueue};
ghost use Rattle.node_core.specs.Hart.{max_nodes};
ghost use Rattle.bsp_exchange.specs.declared.fault.ExchangeFault.{ExchangeFault};
ghost use Rattle.bsp_exchange.specs.Arrivals.{Received, part_from};
ghost use Rattle.bsp_exchange.specs.Exchange.{AreAtSync, states};
ghost use Rattle.bsp_exchange.specs.Faults.{NamesFault, exchange_fault};
ghost use Rattle.bsp_exchange.specs.Parts.{CanExchange, CanLand, CanPrepare, EachKeepsPrivate, bytes_in, parts_of};
ghost use Rattle.bsp_exchange.specs.Traffic.{traffic_of};

use crate::arrivals::Arrivals;
use crate::checks::first_fault;
use crate::fault::{ExchangeError, ExchangeFault};
use crate::gather::{Gathered, gather};
use crate::part::{Part, Plan};
use node_core::Node;
use std::alloc::{AllocError, Allocator};

/// Plans the exchange at the end of a superstep among `nodes` (BSPlib's `bsp_sync`), each of which stands at the place of its rank
/// and waits; they have equally many areas in effect. When each part has landed in its node, in whatever order and in whatever
/// threads, the exchange is made.
///
/// Gets read the memories as they are now. No node changes at any answer, but pages become private, and room is made for
/// their turns: all that the landings will want. It is [`draft`], and then [`prepare_all`]. Time grows as the requests and the bytes
/// that they move.
///
/// # Errors
/// Those of [`exchange`](crate::exchange), in the same order.
pub fn plan<A: Allocator + Copy>(alloc: A, nodes: &mut [Node<A>]) -> Result<Plan<A>, ExchangeError>
    requires { AreAtSync (states nodes.old) }
    ensures same { states nodes.new ≡ states nodes.old }
    ensures private { EachKeepsPrivate nodes.old nodes.new }
    ensures parts { IfOk result (λ plan. plan.parts.items ≡ parts_of (states nodes.old)) }
    ensures prepared { IfOk result (λ plan. AllZip CanLand plan.parts.items nodes.new) }
    ensures exchanges { OnOk result (CanExchange (states nodes.old)) }
    ensures traffic { IfOk result (λ plan. plan.traffic ≡ traffic_of (states nodes.old)) }
    ensures bounded { IfOk result (λ plan. (plan.traffic.h ≤ plan.traffic.h_all)
        × (plan.traffic.h_all ≤ 2 ^ 46) × (plan.traffic.messages ≤ 2 ^ 40)) }
    ensures fault { NamesFault result (exchange_fault (states nodes.old)) }
{
    let drafted = draft(alloc, nodes)?;
    prepare_all(nodes, &drafted.parts)?;
    Ok(drafted)
}

/// Drafts the exchange at the end of a superstep among `nodes`, of which [`plan`] says the rest: all of the plan for which one node
/// is read for another. It hands out the parts, for which the nodes have to be prepared yet, by [`Part::prepare`] or [`prepare_all`].
///
/// Gets read the memories as they are now. No node changes.
///
/// # Errors
/// Those of [`exchange`](crate::exchange), in the same order. `NoMemory` only where it is refused for what is gathered.
pub fn draft<A: Allocator + Copy>(alloc: A, nodes: &[Node<A>]) -> Result<Plan<A>, ExchangeError>
    requires { AreAtSync (states nodes.now) }
    ensures parts { IfOk result (λ plan. plan.parts.items ≡ parts_of (states nodes.now)) }
    ensures ready { IfOk result (λ plan. AllZip CanPrepare plan.parts.items (states nodes.now)) }
    ensures exchanges { OnOk result (CanExchange (states nodes.now)) }
    ensures traffic { IfOk result (λ plan. plan.traffic ≡ traffic_of (states nodes.now)) }
    ensures bounded { IfOk result (λ plan. (plan.traffic.h ≤ plan.traffic.h_all)
        × (plan.traffic.h_all ≤ 2 ^ 46) × (plan.traffic.messages ≤ 2 ^ 40)) }
    ensures fault { NamesFault result (exchange_fault (states nodes.now)) }
{
    let Ok(Gathered { arrivals, traffic }) = gather(alloc, nodes) else {
        return Err(refusal(nodes));
    };
    let parts = parts_from(alloc, arrivals)?;
    Ok(Plan { traffic, parts })
}

/// Prepares each node for the part at its place: [`Part::prepare`] for each of them, in this thread. They may be a whole row and its
/// draft, or some nodes and just their parts, in the same order. No node changes at any answer, but pages become private, and
/// room is made for their turns.
///
/// # Errors
/// Where memory is refused, for the first node in the order of the places. The nodes before it are prepared, and all of them can be
/// prepared again.
pub fn prepare_all<A: Allocator + Copy>(
    nodes: &mut [Node<A>],
    parts: &[Part<A>],
) -> Result<(), AllocError>
    requires { AllZip CanPrepare parts.now (states nodes.old) }
    ensures same { states nodes.new ≡ states nodes.old }
    ensures private { EachKeepsPrivate nodes.old nodes.new }
    ensures ok { OnOk result (AllZip CanLand parts.now nodes.new) }
{
    for place in 0..nodes.len() {
        parts[place].prepare(&mut nodes[place])?;
    }
    Ok(())
}

/// Why nothing was gathered: the first fault, or else that memory was refused.
fn refusal<A: Allocator + Copy>(nodes: &[Node<A>]) -> ExchangeError
    ensures { (fault : ExchangeFault)
        → (result ≡ ExchangeError.Fault fault) ↔ (exchange_fault (states nodes.now) ≡ Some fault) }
{
    match first_fault(nodes) {
        Some(fault) => ExchangeError::Fault(fault),
        None => ExchangeError::NoMemory,
    }
}

/// The parts of the nodes, of what arrives at each of them.
fn parts_from<A: Allocator + Copy>(
    alloc: A,
    arrivals: Vec<Arrivals<A>, A>,
) -> Result<Vec<Part<A>, A>, AllocError>
    requires few { length arrivals.items ≤ max_nodes }
    requires queues { All (λ (r : Received). IsQueue r.messages) arrivals.items }
    requires bytes { All (λ (r : Received). bytes_in r.gets + bytes_in r.puts < 2 ^ 63) arrivals.items }
    ensures { IfOk result (λ parts. parts.items ≡ map part_from (enumerate_from 0 arrivals.items)) }
{
    let mut parts = Vec::with_capacity(alloc, arrivals.len())?;
    for received in arrivals {
        parts.push(Part::new(parts.len() as u32, received))?;
    }
    Ok(parts)
}
