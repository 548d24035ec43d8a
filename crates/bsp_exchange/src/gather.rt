//! Gathers what each node receives, and counts it, before anything lands.

ghost use Rattle.std.specs.Prelude.{◌≡◌, ◌+◌, ◌<◌, ◌≤◌, ◌^◌, false, None, All, IsTrue, is_none, length, map, replicate, OnOk, IfOk, IfSome};
ghost use Rattle.std.specs.List.{range_with_len};
ghost use Rattle.node_memory.specs.Bytes.{fits};
ghost use Rattle.bsp_requests.specs.Request.{asked, size_of};
ghost use Rattle.node_core.specs.Hart.{IsHart, max_nodes};
ghost use Rattle.node_core.specs.Node.{NodeState};
ghost use Rattle.bsp_exchange.specs.Exchange.{AreAtSync, states};
ghost use Rattle.bsp_exchange.specs.Faults.{exchange_fault, first_outside, is_outside, leaves_area};
ghost use Rattle.bsp_exchange.specs.Issued.{issued, issued_by};
ghost use Rattle.bsp_exchange.specs.Landings.{area_start, memory_of};
ghost use Rattle.bsp_exchange.specs.Arrivals.{nothing, received_at, fetched, message_of, with_get, with_put, with_message, with_asked};
ghost use Rattle.bsp_exchange.specs.Arrivals.{with_issued};
ghost use Rattle.bsp_exchange.specs.Loads.{no_load, with_transfer, with_transfers, transfers_of, IsWithin};
ghost use Rattle.bsp_exchange.specs.Parts.{target_of, changed_at};
ghost use Rattle.bsp_exchange.specs.Traffic.{transfer, transfers, traffic_of};

use crate::arrivals::Arrivals;
use crate::checks::{area_at, ends_past, slot_mismatch, tag_mismatch};
use crate::traffic::{Load, Traffic, add_transfer, greatest, no_loads};
use bsp_requests::{Get, Outgoing, Request};
use node_core::Node;
use shared_bytes::SharedBytes;
use std::alloc::{AllocError, Allocator};

/// Nothing was gathered, since there is a fault or memory was refused.
#[derive(Drop)]
pub(crate) struct NotGathered;

impl From<AllocError> for NotGathered {
    fn from(_: AllocError) -> NotGathered {
        NotGathered
    }
}

/// What the nodes receive in an exchange.
#[derive(Drop)]
pub(crate) struct Gathered<A: Allocator> {
    /// What each node receives, by rank.
    pub(crate) arrivals: Vec<Arrivals<A>, A>,
    /// How much that is.
    pub(crate) traffic: Traffic,
}

/// What each node receives in the exchange among `nodes`, and how much that is. All that the exchange needs of memory for it is taken
/// here. Each request is checked and counted where it is added, so that one pass does all of it.
///
/// # Errors
/// Where the exchange has a fault, or memory is refused. Which of them it is, and which fault, has to be found out then.
pub(crate) fn gather<A: Allocator + Copy>(
    alloc: A,
    nodes: &[Node<A>],
) -> Result<Gathered<A>, NotGathered>
    requires row { AreAtSync (states nodes.now) }
    ensures faultless { OnOk result (exchange_fault (states nodes.now) ≡ None) }
    ensures parts { IfOk result (λ gathered.
        gathered.arrivals.items ≡ map (received_at (states nodes.now)) (range_with_len 0 (length nodes.now))) }
    ensures traffic { IfOk result (λ gathered. gathered.traffic ≡ traffic_of (states nodes.now)) }
    ensures sound { OnOk result (All (λ (n : NodeState). IsHart n.hart) (states nodes.now)) }
{
    if tag_mismatch(nodes).is_some() || slot_mismatch(nodes).is_some() {
        return Err(NotGathered);
    }
    let mut arrivals = empty_parts(alloc, nodes)?;
    let mut loads = no_loads(alloc, nodes.len())?;
    add_all_requests(nodes, &mut arrivals, &mut loads)?;
    let traffic = greatest(&loads);
    Ok(Gathered { arrivals, traffic })
}

/// A part with nothing in it for each node. As many requests are expected to reach it as the node makes itself, which is so where all
/// nodes ask alike.
fn empty_parts<A: Allocator + Copy>(
    alloc: A,
    nodes: &[Node<A>],
) -> Result<Vec<Arrivals<A>, A>, AllocError>
    ensures { IfOk result (λ parts. parts.items ≡ replicate (length nodes.now) nothing) }
{
    let mut parts = Vec::with_capacity(alloc, nodes.len())?;
    for node in nodes {
        parts.push(Arrivals::new(alloc, node.requests().len()))?;
    }
    Ok(parts)
}

/// Adds all nodes' requests to the parts of those that they reach, where each keeps to its area, and what they move to the loads.
fn add_all_requests<A: Allocator + Copy>(
    nodes: &[Node<A>],
    parts: &mut [Arrivals<A>],
    loads: &mut [Load],
) -> Result<(), NotGathered>
    requires row { AreAtSync (states nodes.now) }
    requires parts { length parts.old ≡ length nodes.now }
    requires ranks { length loads.old ≡ length nodes.now }
    requires empty { All (λ l. l ≡ no_load) loads.old }
    ensures inside { OnOk result (first_outside (states nodes.now) (issued (states nodes.now)) ≡ None) }
    ensures ok { OnOk result (parts.new ≡ with_issued (states nodes.now) parts.old (issued (states nodes.now))) }
    ensures sound { OnOk result (All (λ (n : NodeState). IsHart n.hart) (states nodes.now)) }
    ensures loads { OnOk result (loads.new ≡ with_transfers loads.old (transfers (states nodes.now))) }
    ensures bounded { OnOk result (All (IsWithin (2 ^ 47)) loads.new) }
{
    for node in nodes {
        add_requests(nodes, node, parts, loads)?;
    }
    Ok(())
}

/// Adds a node's requests to the parts of those that they reach, where each keeps to its area, and what they move to the loads. It
/// stands by itself, so that its loop has the registers.
#[inline(never)]
fn add_requests<A: Allocator + Copy>(
    nodes: &[Node<A>],
    node: &Node<A>,
    parts: &mut [Arrivals<A>],
    loads: &mut [Load],
) -> Result<(), NotGathered>
    requires count { node.now.node.hart.nprocs ≡ length nodes.now }
    requires parts { length parts.old ≡ length nodes.now }
    requires ranks { length loads.old ≡ length nodes.now }
    requires room { All (IsWithin (2 ^ 47)) loads.old }
    ensures inside { OnOk result (first_outside (states nodes.now) (issued_by node.now.node) ≡ None) }
    ensures ok { OnOk result (parts.new ≡ with_issued (states nodes.now) parts.old (issued_by node.now.node)) }
    ensures sound { IsHart node.now.node.hart }
    ensures loads { OnOk result (loads.new
        ≡ with_transfers loads.old (transfers_of node.now.node.hart.rank node.now.node.hart.communication.requests.requests)) }
{
    let caller = node.rank();
    for request in node.requests().as_slice() {
        add_request(nodes, caller, request, parts, loads)?;
    }
    Ok(())
}

/// Adds a request of the node `caller` to the part of the node that it reaches, where it keeps to its area, and what it moves to the
/// loads.
// For speed: one look at what it asks for does all of it.
fn add_request<A: Allocator + Copy>(
    nodes: &[Node<A>],
    caller: u32,
    request: &Request<A>,
    parts: &mut [Arrivals<A>],
    loads: &mut [Load],
) -> Result<(), NotGathered>
    requires few { length nodes.now ≤ max_nodes }
    requires parts { length parts.old ≡ length nodes.now }
    requires ranks { length loads.old ≡ length nodes.now }
    requires caller { caller < length nodes.now }
    requires target { target_of (asked request.now) < length nodes.now }
    requires limit { size_of (asked request.now) ≤ 2 ^ 32 }
    requires room { All (IsWithin (2 ^ 48)) loads.old }
    ensures inside { OnOk result (leaves_area (states nodes.now) (asked request.now) ≡ false) }
    ensures ok { OnOk result (parts.new ≡ with_asked (states nodes.now) caller parts.old (asked request.now)) }
    ensures loads { OnOk result (loads.new ≡ with_transfer loads.old (transfer caller (asked request.now))) }
{
    match request {
        Request::Put(put) => {
            let (target, len) = (put.target, put.bytes.len());
            let Some(start) = start_inside(nodes, target, put.slot, put.offset, len) else {
                return Err(NotGathered);
            };
            add_put(target, start, &put.bytes, parts)?;
            add_transfer(caller as usize, target as usize, len as u64, 0, loads);
        }
        Request::Get(get) => {
            let (target, len) = (get.target, get.len);
            let Some(start) = start_inside(nodes, target, get.slot, get.offset, len as usize) else {
                return Err(NotGathered);
            };
            add_get(nodes, caller, get, start, parts)?;
            add_transfer(target as usize, caller as usize, u64::from(len), 0, loads);
        }
        Request::Send(message) => {
            let len = message.size() as u64;
            let target = message.target as usize;
            add_message(caller as u16, message, parts)?;
            add_transfer(caller as usize, target, len, 1, loads);
        }
    }
    Ok(())
}

/// Adds a put to its target's part.
fn add_put<A: Allocator + Copy>(
    target: u16,
    start: u32,
    bytes: &SharedBytes<A>,
    parts: &mut [Arrivals<A>],
) -> Result<(), AllocError>
    requires { target < length parts.old }
    ensures { OnOk result (parts.new ≡ changed_at (with_put (record { addr = start; bytes = bytes.now })) target parts.old) }
{
    parts[target as usize].add_put(start, bytes)
}

/// Adds what a get fetches, which begins at `start`, to its caller's part.
fn add_get<A: Allocator + Copy>(
    nodes: &[Node<A>],
    caller: u32,
    get: &Get,
    start: u32,
    parts: &mut [Arrivals<A>],
) -> Result<(), AllocError>
    requires parts { length parts.old ≡ length nodes.now }
    requires caller { caller < length nodes.now }
    requires target { get.now.target < length nodes.now }
    requires start { start ≡ area_start (states nodes.now) get.now.target get.now.slot + get.now.offset }
    requires within { IsTrue (fits (length (memory_of (states nodes.now) get.now.target)) start get.now.len) }
    ensures { OnOk result (parts.new ≡ changed_at (with_get (fetched (states nodes.now) get.now)) caller parts.old) }
{
    let memory = nodes[get.target as usize].memory();
    parts[caller as usize].add_get(get.dst, memory, start, get.len)
}

/// Adds a message to its target's part.
#[inline(never)]
fn add_message<A: Allocator + Copy>(
    sender: u16,
    message: &Outgoing<A>,
    parts: &mut [Arrivals<A>],
) -> Result<(), AllocError>
    requires target { message.now.target < length parts.old }
    ensures { OnOk result (parts.new ≡ changed_at (with_message (message_of sender message.now)) message.now.target parts.old) }
{
    parts[message.target as usize].add_message(sender, message)
}

/// Where a transfer of `len` bytes begins in the memory of its area's node; none where it does not keep to the area.
// For speed: the area is looked up once for both.
fn start_inside<A: Allocator + Copy>(
    nodes: &[Node<A>],
    target: u16,
    slot: u16,
    offset: u32,
    len: usize,
) -> Option<u32>
    ensures inside { is_none result ≡ is_outside (states nodes.now) target slot offset len }
    ensures value { IfSome result (λ start. start ≡ area_start (states nodes.now) target slot + offset) }
    ensures within { IfSome result (λ start. IsTrue (fits (length (memory_of (states nodes.now) target)) start len)) }
    ensures most { IfSome result (λ start. start + len ≤ 2 ^ 31) }
{
    let Some(area) = area_at(nodes, target, slot) else {
        return None;
    };
    if ends_past(area.size, offset, len) {
        return None;
    }
    recall_sound(&nodes[target as usize]);
    Some(area.addr + offset)
}

/// Does nothing at run time. A proof learns from it that a node's hart is sound, and so that its areas lie in its memory.
#[inline(always)]
fn recall_sound<A: Allocator>(node: &Node<A>)
    ensures { IsHart node.now.node.hart }
{
    let _ = node.memory();
}

/// Where a transfer of `len` bytes begins that keeps to its area, in the memory of the area's node.
pub fn start_of<A: Allocator + Copy>(
    nodes: &[Node<A>],
    target: u16,
    slot: u16,
    offset: u32,
    len: usize,
) -> u32
    requires inside { is_outside (states nodes.now) target slot offset len ≡ false }
    ensures value { result ≡ area_start (states nodes.now) target slot + offset }
    ensures within { IsTrue (fits (length (memory_of (states nodes.now) target)) result len) }
    ensures most { result + len ≤ 2 ^ 31 }
{
    start_inside(nodes, target, slot, offset, len).unwrap_or(0)
}
