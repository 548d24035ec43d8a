//! The calls of a superstep, from its requests and their notes.

ghost use Rattle.std.specs.Prelude.{◌≡◌, ◌++◌, false, IfOk, None, Some, OnOk, option_copied, option_map, slice_get};
ghost use Rattle.bsp_requests.specs.Request.{Asked, asked, asks_put, asks_get};
ghost use Rattle.node_core.specs.Node.{PreparedNode};
ghost use Rattle.bsp_exchange.specs.Exchange.{states};
ghost use Rattle.bsp_exchange.specs.Faults.{first_outside, leaves_area};
ghost use Rattle.bsp_exchange.specs.Issued.{issued};
ghost use Rattle.exposed_runs.specs.Calls.{calls, calls_noted, calls_of, calls_of_node, get_call, get_sort, put_call, put_sort, send_call};

use crate::note::Note;
use bsp_exchange::start_of;
use bsp_requests::{Get, Put, Request};
use exposed_bytes::{Call, Sort};
use node_core::{Call as MachineCall, Node};
use std::alloc::{AllocError, Allocator};

/// The calls of all requests of which there are notes.
pub(crate) fn calls<A: Allocator + Copy>(
    alloc: A,
    nodes: &[Node<A>],
    notes: &[Note],
) -> Result<Vec<Call, A>, AllocError>
    requires inside { first_outside (states nodes.now) (issued (states nodes.now)) ≡ None }
    ensures { IfOk result (λ all. all.items ≡ calls (states nodes.now) notes.now) }
{
    let mut all = Vec::new(alloc);
    for note in notes {
        add_calls(nodes, note, &mut all)?;
    }
    Ok(all)
}

/// Adds the calls of the request of which a note is.
fn add_calls<A: Allocator + Copy>(
    nodes: &[Node<A>],
    note: &Note,
    all: &mut Vec<Call, A>,
) -> Result<(), AllocError>
    requires inside { first_outside (states nodes.now) (issued (states nodes.now)) ≡ None }
    ensures { OnOk result (all.new.items ≡ all.old.items ++ calls_noted (states nodes.now) note.now) }
{
    match node_at(nodes, note.caller) {
        Some(node) => add_calls_of_node(nodes, node, note, all),
        None => Ok(()),
    }
}

/// The node of a rank.
fn node_at<A: Allocator + Copy>(nodes: &[Node<A>], rank: u32) -> Option<&Node<A>>
    ensures { option_map (λ (p : PreparedNode). p.node) (option_copied result) ≡ slice_get (states nodes.now) rank }
{
    nodes.get(rank as usize)
}

/// The same, of a note of this node.
fn add_calls_of_node<A: Allocator + Copy>(
    nodes: &[Node<A>],
    node: &Node<A>,
    note: &Note,
    all: &mut Vec<Call, A>,
) -> Result<(), AllocError>
    requires inside { (request : Asked)
        → slice_get node.now.node.hart.communication.requests.requests note.now.issue ≡ Some request
        → leaves_area (states nodes.now) request ≡ false }
    ensures { OnOk result (all.new.items ≡ all.old.items ++ calls_of_node (states nodes.now) note.now node.now.node) }
{
    match node.requests().at(note.issue as usize) {
        Some(request) => add_calls_of(nodes, node, note, request, all),
        None => Ok(()),
    }
}

/// The same, of this request.
fn add_calls_of<A: Allocator + Copy>(
    nodes: &[Node<A>],
    node: &Node<A>,
    note: &Note,
    request: &Request<A>,
    all: &mut Vec<Call, A>,
) -> Result<(), AllocError>
    requires inside { leaves_area (states nodes.now) (asked request.now) ≡ false }
    ensures { OnOk result (all.new.items
        ≡ all.old.items ++ calls_of (states nodes.now) node.now.node note.now (asked request.now)) }
{
    match request {
        Request::Put(put) => all.push(put_call(nodes, note, put))?,
        Request::Get(get) => all.push(get_call(nodes, note, get))?,
        Request::Send(_) => {
            all.push(send_call(note, note.a1, node.tag_size()))?;
            all.push(send_call(note, note.a2, note.a3))?;
        }
    }
    Ok(())
}

/// A put, unbuffered or not.
fn put_call<A: Allocator + Copy>(nodes: &[Node<A>], note: &Note, put: &Put<A>) -> Call
    requires inside { leaves_area (states nodes.now) (asks_put put.now) ≡ false }
    ensures { result ≡ put_call (states nodes.now) note.now put.now }
{
    let len = put.bytes.len();
    let target = start_of(nodes, put.target, put.slot, put.offset, len);
    Call {
        caller: note.caller,
        number: note.issue,
        sort: put_sort(MachineCall::of_number(note.number)),
        place: note.pc,
        len: len as u32,
        source_rank: note.caller,
        source: note.a1,
        target_rank: put.target as u32,
        target,
    }
}

/// A get, unbuffered or not.
fn get_call<A: Allocator + Copy>(nodes: &[Node<A>], note: &Note, get: &Get) -> Call
    requires inside { leaves_area (states nodes.now) (asks_get get.now) ≡ false }
    ensures { result ≡ get_call (states nodes.now) note.now get.now }
{
    Call {
        caller: note.caller,
        number: note.issue,
        sort: get_sort(MachineCall::of_number(note.number)),
        place: note.pc,
        len: get.len,
        source_rank: get.target as u32,
        source: start_of(nodes, get.target, get.slot, get.offset, get.len as usize),
        target_rank: note.caller,
        target: get.dst,
    }
}

/// What a message reads from an address on, which comes into no memory.
fn send_call(note: &Note, from: u32, len: u32) -> Call
    ensures { result ≡ send_call note.now from len }
{
    Call {
        caller: note.caller,
        number: note.issue,
        sort: Sort::Send,
        place: note.pc,
        len,
        source_rank: note.caller,
        source: from,
        target_rank: 0,
        target: 0,
    }
}

fn put_sort(call: Option<MachineCall>) -> Sort
    ensures { result ≡ put_sort call }
{
    match call {
        Some(MachineCall::Hpput) => Sort::HpPut,
        _ => Sort::Put,
    }
}

fn get_sort(call: Option<MachineCall>) -> Sort
    ensures { result ≡ get_sort call }
{
    match call {
        Some(MachineCall::Hpget) => Sort::HpGet,
        _ => Sort::Get,
    }
}
