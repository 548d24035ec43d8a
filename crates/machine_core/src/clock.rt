//! The clocks of a row of nodes.

ghost use Rattle.std.specs.Prelude.{◌≡◌, ◌^◌, ◌<◌, ◌++◌, ◌∷◌, [], length, map, IfSome};
ghost use Rattle.node_core.specs.Node.{with_clock};
ghost use Rattle.bsp_exchange.specs.Exchange.{states};
ghost use Rattle.cost_ledger.specs.CostRow.{IsBounded, total_in};
ghost use Rattle.machine_core.specs.Clock.{closed_by, first_closed};

use crate::settings::Prices;
use cost_ledger::{CostRow, Ledger};
use node_core::Node;
use std::alloc::Allocator;

/// What the supersteps cost at the prices of clocks, if there are any, once one of this cost is over, of which the ledger has no row yet.
/// That of those before it is read off the first clock.
pub(crate) fn closed_with<A: Allocator>(
    prices: Option<Prices>,
    ledger: &Ledger<A>,
    cost: &CostRow,
    nodes: &[Node<A>],
) -> Option<u128>
    requires closed { IfSome prices (λ p. first_closed (states nodes.now) ≡ total_in p.ledger p.g p.l ledger.now.rows) }
    requires bounded { IsBounded cost.now }
    requires few { length ledger.now.rows < 2 ^ 41 }
    ensures { result ≡ closed_by prices (ledger.now.rows ++ cost.now ∷ []) }
{
    match prices {
        Some(prices) => {
            let closed = closed_before(nodes);
            Some(ledger.total_with(prices.ledger, prices.g, prices.l, closed, cost))
        }
        None => None,
    }
}

/// What the first clock of a row counts on from, or 0 if there is none.
fn closed_before<A: Allocator>(nodes: &[Node<A>]) -> u128
    ensures { result ≡ first_closed (states nodes.now) }
{
    if nodes.is_empty() {
        return 0;
    }
    match nodes[0].clock() {
        Some(clock) => clock.closed,
        None => 0,
    }
}

/// Has the clocks of nodes that begin a superstep count on from this cost of those that are over. With none they have no clocks.
pub(crate) fn set_clocks<A: Allocator>(nodes: &mut [Node<A>], closed: Option<u128>)
    ensures { states nodes.new ≡ map (with_clock closed) (states nodes.old) }
{
    for rank in 0..nodes.len() {
        nodes[rank].set_clock(closed);
    }
}
