//! What is checked before an exchange changes anything.

ghost use Rattle.std.specs.Prelude.{◌≡◌, ◌+◌, length, find, option_copied, slice_get, not, nat_le};
ghost use Rattle.bsp_requests.specs.Request.{asked};
ghost use Rattle.node_core.specs.Node.{PreparedNode};
ghost use Rattle.bsp_exchange.specs.Areas.{area_at};
ghost use Rattle.bsp_exchange.specs.Exchange.{states};
ghost use Rattle.bsp_exchange.specs.Issued.{issued, issued_by};
ghost use Rattle.bsp_exchange.specs.Faults.{exchange_fault, disagreeing, have_same_tag_size, have_same_shape, first_outside, is_outside};
ghost use Rattle.bsp_exchange.specs.Faults.{leaves_area};

use crate::fault::ExchangeFault;
use bsp_requests::Request;
use bsp_slots::Area;
use node_core::Node;
use std::alloc::Allocator;

/// The first fault for which an exchange among `nodes` would be refused, if there is one. Nothing is changed.
pub fn first_fault<A: Allocator + Copy>(nodes: &[Node<A>]) -> Option<ExchangeFault>
    ensures { result ≡ exchange_fault (states nodes.now) }
{
    if let Some(rank) = tag_mismatch(nodes) {
        return Some(ExchangeFault::TagMismatch { rank });
    }
    if let Some(rank) = slot_mismatch(nodes) {
        return Some(ExchangeFault::SlotMismatch { rank });
    }
    first_outside(nodes)
}

/// The lowest rank with another next tag size than rank 0.
pub(crate) fn tag_mismatch<A: Allocator + Copy>(nodes: &[Node<A>]) -> Option<u32>
    ensures { result ≡ disagreeing have_same_tag_size (states nodes.now) }
{
    let first = node_at(nodes, 0)?;
    let other = first_of_other_tag_size(nodes, first)?;
    Some(other.rank())
}

/// The first node with another next tag size than `first`.
fn first_of_other_tag_size<'a, A: Allocator + Copy>(
    nodes: &'a [Node<A>],
    first: &Node<A>,
) -> Option<&'a Node<A>>
    ensures { option_copied result
        ≡ find (λ (p : PreparedNode). not (have_same_tag_size first.now.node p.node)) nodes.now }
{
    nodes.iter().find(|node| !have_same_tag_size(first, node))
}

/// Whether two nodes have the same next tag size.
fn have_same_tag_size<A: Allocator + Copy>(a: &Node<A>, b: &Node<A>) -> bool
    ensures { result ≡ have_same_tag_size a.now.node b.now.node }
{
    a.next_tag_size() == b.next_tag_size()
}

/// The lowest rank that made other pushes and pops than rank 0.
pub(crate) fn slot_mismatch<A: Allocator + Copy>(nodes: &[Node<A>]) -> Option<u32>
    ensures { result ≡ disagreeing have_same_shape (states nodes.now) }
{
    let first = node_at(nodes, 0)?;
    let other = first_of_other_shape(nodes, first)?;
    Some(other.rank())
}

/// The first node that made other pushes and pops than `first`.
fn first_of_other_shape<'a, A: Allocator + Copy>(
    nodes: &'a [Node<A>],
    first: &Node<A>,
) -> Option<&'a Node<A>>
    ensures { option_copied result
        ≡ find (λ (p : PreparedNode). not (have_same_shape first.now.node p.node)) nodes.now }
{
    nodes.iter().find(|node| !have_same_shape(first, node))
}

/// Whether two nodes made the same pushes and pops.
fn have_same_shape<A: Allocator + Copy>(a: &Node<A>, b: &Node<A>) -> bool
    ensures { result ≡ have_same_shape a.now.node b.now.node }
{
    a.slots().same_shape(b.slots())
}

/// The fault of the first put or get, by rank and issue, that does not keep to its area.
fn first_outside<A: Allocator + Copy>(nodes: &[Node<A>]) -> Option<ExchangeFault>
    ensures { result ≡ first_outside (states nodes.now) (issued (states nodes.now)) }
{
    for node in nodes {
        let fault = first_outside_of(nodes, node);
        if fault.is_some() {
            return fault;
        }
    }
    None
}

/// The fault of a node's first put or get that does not keep to its area.
#[inline(never)]
fn first_outside_of<A: Allocator + Copy>(nodes: &[Node<A>], node: &Node<A>) -> Option<ExchangeFault>
    ensures { result ≡ first_outside (states nodes.now) (issued_by node.now.node) }
{
    let requests = node.requests();
    for issue in 0..requests.len() {
        if let Some(request) = requests.at(issue) {
            if leaves_area(nodes, request) {
                return Some(ExchangeFault::OutsideArea {
                    rank: node.rank(),
                    issue,
                });
            }
        }
    }
    None
}

/// Whether a request is a put or a get that does not keep to its area.
fn leaves_area<A: Allocator + Copy>(nodes: &[Node<A>], request: &Request<A>) -> bool
    ensures { result ≡ leaves_area (states nodes.now) (asked request.now) }
{
    match request {
        Request::Put(put) => {
            is_outside(nodes, put.target, put.slot, put.offset, put.bytes.len())
        }
        Request::Get(get) => {
            is_outside(nodes, get.target, get.slot, get.offset, get.len as usize)
        }
        Request::Send(_) => false,
    }
}

/// Whether `len` bytes at an offset of an area end past it.
fn is_outside<A: Allocator + Copy>(
    nodes: &[Node<A>],
    rank: u16,
    slot: u16,
    offset: u32,
    len: usize,
) -> bool
    ensures { result ≡ is_outside (states nodes.now) rank slot offset len }
{
    match area_at(nodes, rank, slot) {
        Some(area) => ends_past(area.size, offset, len),
        None => true,
    }
}

/// Whether `len` bytes at an offset end past `size` bytes.
pub(crate) fn ends_past(size: u32, offset: u32, len: usize) -> bool
    ensures { result ≡ not (nat_le (offset + len) size) }
{
    offset > size || len > (size - offset) as usize
}

/// The area at a place of the list in effect of a rank's node.
pub(crate) fn area_at<A: Allocator + Copy>(nodes: &[Node<A>], rank: u16, slot: u16) -> Option<Area>
    ensures { result ≡ area_at (states nodes.now) rank slot }
{
    let node = node_at(nodes, rank)?;
    node.slots().area(slot as usize)
}

/// The node of a rank.
fn node_at<A: Allocator + Copy>(nodes: &[Node<A>], rank: u16) -> Option<&Node<A>>
    ensures { option_copied result ≡ slice_get nodes.now rank }
{
    nodes.get(rank as usize)
}
