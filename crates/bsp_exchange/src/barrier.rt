//! The whole exchange: its plan, and then the landing of each part.

ghost use Rattle.std.specs.Prelude.{◌≡◌, ◌^◌, ◌<◌, ◌≤◌, Some, OnOk, OnErr, IfOk, length, map, slice_get, slice_set};
ghost use Rattle.std.specs.List.{AllZip};
ghost use Rattle.node_core.specs.Node.{PreparedNode};
ghost use Rattle.bsp_exchange.specs.Exchange.{AreAtSync, AreUnready, exchanged, states};
ghost use Rattle.bsp_exchange.specs.Faults.{NamesFault, exchange_fault};
ghost use Rattle.bsp_exchange.specs.Parts.{CanLand, EachKeepsPrivate, PartState, landed, landed_as, spent_part};
ghost use Rattle.bsp_exchange.specs.Traffic.{traffic_of};

use crate::fault::ExchangeError;
use crate::part::{Part, Plan};
use crate::planning::plan;
use crate::traffic::Traffic;
use node_core::Node;
use std::alloc::Allocator;

/// Makes the exchange at the end of a superstep among `nodes` (BSPlib's `bsp_sync`), each of which stands at the place of its rank
/// and waits; they have equally many areas in effect.
///
/// Gets read the memories as they are, and then gets and puts land; each node finds the messages that were sent to it, in the
/// order of their senders' ranks and of issue; areas, tag sizes and requests turn; and each node runs on, or is exhausted where it
/// has no tick left. It is [`plan`], and then the landing of each part in its node. Time grows as the requests and the bytes that
/// they move.
///
/// # Errors
/// The first fault that applies (own order): nodes that do not agree on the next tag size, nodes that did not make the same pushes
/// and pops, a put or a get that does not keep to its area. Then `NoMemory`, where memory was refused: for what is gathered, for turns,
/// or for copies of the pages into which bytes come. Whatever is answered, no node has changed then, though pages may have become
/// private, and the exchange can be made again. What was private stays so in any case.
pub fn exchange<A: Allocator + Copy>(
    alloc: A,
    nodes: &mut [Node<A>],
) -> Result<Traffic, ExchangeError>
    requires { AreAtSync (states nodes.old) }
    ensures ok { OnOk result (states nodes.new ≡ exchanged (states nodes.old)) }
    ensures unready { OnOk result (AreUnready nodes.new) }
    ensures traffic { IfOk result (λ t. t ≡ traffic_of (states nodes.old)) }
    ensures bounded { IfOk result (λ t. (t.h ≤ t.h_all) × (t.h_all ≤ 2 ^ 46) × (t.messages ≤ 2 ^ 40)) }
    ensures fault { NamesFault result (exchange_fault (states nodes.old)) }
    ensures err { OnErr result (states nodes.new ≡ states nodes.old) }
    ensures private { EachKeepsPrivate nodes.old nodes.new }
{
    let Plan { traffic, mut parts } = plan(alloc, nodes)?;
    land_all(nodes, &mut parts);
    Ok(traffic)
}

/// Lands each part in the node at its place, and begins the node's next superstep there: [`Part::land`] for each of them, in this
/// thread. They may be a whole plan and its row, or the parts of some nodes and just these nodes, in the same order.
pub fn land_all<A: Allocator + Copy>(nodes: &mut [Node<A>], parts: &mut [Part<A>])
    requires { AllZip CanLand parts.old nodes.old }
    ensures nodes { states nodes.new ≡ landed parts.old (states nodes.old) }
    ensures unready { AreUnready nodes.new }
    ensures private { EachKeepsPrivate nodes.old nodes.new }
    ensures spent { parts.new ≡ map spent_part parts.old }
{
    for place in 0..nodes.len() {
        land_at(nodes, parts, place);
    }
}

/// Lands the part at a place in the node at that place.
fn land_at<A: Allocator + Copy>(nodes: &mut [Node<A>], parts: &mut [Part<A>], place: usize)
    requires node { place < length nodes.old }
    requires part { place < length parts.old }
    requires lands { (p : PreparedNode) (part : PartState) → slice_get nodes.old place ≡ Some p
        → slice_get parts.old place ≡ Some part → CanLand part p }
    ensures nodes { (p : PreparedNode) (part : PartState) → slice_get nodes.old place ≡ Some p
        → slice_get parts.old place ≡ Some part → nodes.new ≡ slice_set nodes.old place (landed_as part p) }
    ensures parts { (part : PartState) → slice_get parts.old place ≡ Some part
        → parts.new ≡ slice_set parts.old place (spent_part part) }
{
    parts[place].land(&mut nodes[place]);
}
