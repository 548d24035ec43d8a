//! The contested bytes of a superstep.

ghost use Rattle.std.specs.Prelude.{◌≡◌, ◌↔◌, ℕ, None, All, IfOk};
ghost use Rattle.bsp_exchange.specs.Exchange.{AreAtSync, states};
ghost use Rattle.bsp_exchange.specs.Faults.{exchange_fault};
ghost use Rattle.bsp_exchange.specs.Landings.{landings};
ghost use Rattle.contested_bytes.specs.Contested.{IsContested};
ghost use Rattle.contested_bytes.specs.Ranges.{IsIn, IsContestedRange, AreApart, EndsWithin};

use crate::gather::landings;
use crate::landing::sort_landings;
use crate::merge::{merge, sort_ranges};
use crate::range::ContestedRange;
use crate::sweep::sweep;
use node_core::Node;
use std::alloc::{AllocError, Allocator};

/// The contested bytes of the exchange at the end of a superstep among `nodes`: as ranges by rank and then by address, each as long as can
/// be. If there are none, each order that BSPlib allows leaves the same memories; in a contested byte of a memory two such orders differ
/// ([`laws`](crate::laws)).
///
/// The nodes are those before the exchange, each of which is at the place of its rank and waits, and it has no fault
/// ([`first_fault`](bsp_exchange::first_fault)). No node changes. With n requests that move b bytes it takes time as n log n + b log b, and
/// a copy of each byte that a get moves.
///
/// # Errors
/// If memory is refused. It can be asked again.
pub fn contested_ranges<A: Allocator + Copy>(
    alloc: A,
    nodes: &[Node<A>],
) -> Result<Vec<ContestedRange, A>, AllocError>
    requires row { AreAtSync (states nodes.now) }
    requires faultless { exchange_fault (states nodes.now) ≡ None }
    ensures contested { IfOk result (λ found. All (IsContestedRange (landings (states nodes.now))) found.items) }
    ensures exact { IfOk result (λ found. (rank addr : ℕ)
        → IsIn found.items rank addr ↔ IsContested (landings (states nodes.now)) rank addr) }
    ensures apart { IfOk result (λ found. AreApart found.items) }
    ensures within { IfOk result (λ found. All EndsWithin found.items) }
{
    let mut all = landings(alloc, nodes)?;
    sort_landings(&mut all);
    let mut found = sweep(alloc, &all)?;
    sort_ranges(&mut found);
    merge(alloc, &found)
}
