//! Gathers what the requests of a superstep will land.

ghost use Rattle.std.specs.Prelude.{◌≡◌, ◌++◌, false, None, IfOk, OnOk};
ghost use Rattle.bsp_requests.specs.Request.{asked, asks_put, asks_get};
ghost use Rattle.bsp_exchange.specs.Exchange.{states};
ghost use Rattle.bsp_exchange.specs.Faults.{first_outside, leaves_area};
ghost use Rattle.bsp_exchange.specs.Issued.{issued, issued_by};
ghost use Rattle.bsp_exchange.specs.Landings.{get_landing, put_landing};
ghost use Rattle.contested_bytes.specs.Gathered.{landing_of, landings_of, HasRoom};

use crate::landing::Landing;
use crate::range::Kind;
use bsp_exchange::start_of;
use bsp_requests::{Get, Put, Request};
use node_core::Node;
use std::alloc::{AllocError, Allocator};

/// What all requests of the nodes land, node by node and in the order of the calls.
pub(crate) fn landings<A: Allocator + Copy>(
    alloc: A,
    nodes: &[Node<A>],
) -> Result<Vec<Landing<A>, A>, AllocError>
    requires inside { first_outside (states nodes.now) (issued (states nodes.now)) ≡ None }
    ensures { IfOk result (λ all. all.items ≡ landings_of (states nodes.now) (issued (states nodes.now))) }
{
    let mut all = Vec::new(alloc);
    for node in nodes {
        add_landings(nodes, node, &mut all)?;
    }
    Ok(all)
}

/// Adds what the requests of a node land.
fn add_landings<A: Allocator + Copy>(
    nodes: &[Node<A>],
    node: &Node<A>,
    all: &mut Vec<Landing<A>, A>,
) -> Result<(), AllocError>
    requires inside { first_outside (states nodes.now) (issued_by node.now.node) ≡ None }
    ensures { OnOk result (all.new.items ≡ all.old.items ++ landings_of (states nodes.now) (issued_by node.now.node)) }
{
    let requests = node.requests().as_slice();
    for issue in 0..requests.len() {
        if let Some(landing) = landing_of(nodes, node.rank(), issue, &requests[issue])? {
            all.push(landing)?;
        }
    }
    Ok(())
}

/// What a request lands, if it is a put or a get.
fn landing_of<A: Allocator + Copy>(
    nodes: &[Node<A>],
    caller: u32,
    issue: usize,
    request: &Request<A>,
) -> Result<Option<Landing<A>>, AllocError>
    requires inside { leaves_area (states nodes.now) (asked request.now) ≡ false }
    requires room { HasRoom (asked request.now) }
    ensures { IfOk result (λ landing. landing ≡ landing_of (states nodes.now) caller issue (asked request.now)) }
{
    match request {
        Request::Put(put) => Ok(Some(put_landing(nodes, caller, issue, put)?)),
        Request::Get(get) => Ok(Some(get_landing(nodes, caller, issue, get)?)),
        Request::Send(_) => Ok(None),
    }
}

/// What a put lands at its target.
fn put_landing<A: Allocator + Copy>(
    nodes: &[Node<A>],
    caller: u32,
    issue: usize,
    put: &Put<A>,
) -> Result<Landing<A>, AllocError>
    requires inside { leaves_area (states nodes.now) (asks_put put.now) ≡ false }
    ensures { IfOk result (λ landing. landing ≡ put_landing (states nodes.now) caller issue put.now) }
{
    let addr = start_of(nodes, put.target, put.slot, put.offset, put.bytes.len());
    let bytes = put.bytes.try_clone()?;
    Ok(Landing {
        rank: put.target as u32,
        addr,
        bytes,
        kind: Kind::Put,
        caller,
        issue,
    })
}

/// What a get lands at its caller: the bytes that its target has now.
fn get_landing<A: Allocator + Copy>(
    nodes: &[Node<A>],
    caller: u32,
    issue: usize,
    get: &Get,
) -> Result<Landing<A>, AllocError>
    requires inside { leaves_area (states nodes.now) (asks_get get.now) ≡ false }
    requires room { HasRoom (asks_get get.now) }
    ensures { IfOk result (λ landing. landing ≡ get_landing (states nodes.now) caller issue get.now) }
{
    let from = start_of(nodes, get.target, get.slot, get.offset, get.len as usize);
    let memory = nodes[get.target as usize].memory();
    let Ok(bytes) = memory.read_range(from, get.len) else {
        return Err(AllocError);
    };
    Ok(Landing {
        rank: caller,
        addr: get.dst,
        bytes,
        kind: Kind::Get,
        caller,
        issue,
    })
}
