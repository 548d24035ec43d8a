//! Compares the records of two nodes, for tests, by what their readers return, byte by byte.
//!
//! If the answer is that they are equal, the records are equal except for the limit of ticks, and the addresses and sizes of this
//! superstep's pushes and pops. The kinds and the order of these are compared, and their areas once they are in effect. It does not compare
//! which pages are private, or whether room is made.
#![tactic(auto)]

ghost use Rattle.std.specs.Prelude.{◌≡◌, length, slice_get, slice_index, IfOk, IsTrue, option_map};
ghost use Rattle.bsp_requests.specs.Request.{asked};
ghost use Rattle.bsp_slots.specs.Registrations.{HasSameShape};
ghost use Rattle.node_core.specs.Hart.{IsHart};
ghost use Rattle.same_nodes.specs.Same.{CommunicationLooksAlike, HartsLookAlike, LookAlike, OptionalUnitsLookAlike, RowsLookAlike, UnitsLookAlike};

use bsp_requests::{Inbox, Message, Request, Requests};
use bsp_slots::Slots;
use float_unit::FloatUnit;
use node_core::Node;
use node_memory::{Memory, ReadError};
use rv_float_tables::FloatCsr;
use std::alloc::Allocator;

/// Whether two nodes have equal records, as far as the crate's page says.
///
/// # Errors
/// If there is no memory for a copy of the nodes' bytes.
pub fn are_same<A: Allocator + Copy>(node: &Node<A>, other: &Node<A>) -> Result<bool, ReadError>
    ensures { IfOk result (λ same. IsTrue same → LookAlike node.now.node other.now.node) }
{
    let (memory, other_memory) = (node.memory(), other.memory());
    if !have_come_as_far(node, other)
        || !have_same_harts(node, other)
        || !have_same_communication(node, other)
    {
        return Ok(false);
    }
    have_same_bytes(memory, other_memory)
}

/// Whether two rows have equally many nodes, and those at one place equal records, as far as the crate's page says.
///
/// # Errors
/// As [`are_same`].
pub fn are_same_rows<A: Allocator + Copy>(
    nodes: &[Node<A>],
    others: &[Node<A>],
) -> Result<bool, ReadError>
    ensures { IfOk result (λ same. IsTrue same → RowsLookAlike nodes.now others.now) }
{
    if nodes.len() != others.len() {
        return Ok(false);
    }
    for place in 0..nodes.len() {
        if !are_same(&nodes[place], &others[place])? {
            return Ok(false);
        }
    }
    Ok(true)
}

/// Whether two nodes have the same state, ticks and clock.
fn have_come_as_far<A: Allocator>(node: &Node<A>, other: &Node<A>) -> bool
    ensures state { IsTrue result → node.now.node.state ≡ other.now.node.state }
    ensures ticks { IsTrue result → node.now.node.ticks ≡ other.now.node.ticks }
    ensures clock { IsTrue result → node.now.node.clock ≡ other.now.node.clock }
{
    node.state() == other.state() && node.ticks() == other.ticks() && node.clock() == other.clock()
}

/// Whether two nodes have the same rank, number of nodes, registers, pc, place in the input, unit of floating point and reservation.
fn have_same_harts<A: Allocator>(node: &Node<A>, other: &Node<A>) -> bool
    requires sound { IsHart node.now.node.hart }
    requires other_sound { IsHart other.now.node.hart }
    ensures { IsTrue result → HartsLookAlike node.now.node.hart other.now.node.hart }
{
    node.rank() == other.rank()
        && node.nprocs() == other.nprocs()
        && node.pc() == other.pc()
        && node.cursor() == other.cursor()
        && node.reservation() == other.reservation()
        && have_same_registers(node, other)
        && have_same_optional_units(node.unit(), other.unit())
}

fn have_same_registers<A: Allocator>(node: &Node<A>, other: &Node<A>) -> bool
    requires sound { IsHart node.now.node.hart }
    requires other_sound { IsHart other.now.node.hart }
    ensures { IsTrue result → node.now.node.hart.registers ≡ other.now.node.hart.registers }
{
    for n in 0..32u8 {
        if node.reg(n) != other.reg(n) {
            return false;
        }
    }
    true
}

fn have_same_optional_units(unit: Option<&FloatUnit>, other: Option<&FloatUnit>) -> bool
    ensures { IsTrue result
        → OptionalUnitsLookAlike (option_map (λ u. u.now) unit.entry) (option_map (λ u. u.now) other.entry) }
{
    match (unit, other) {
        (None, None) => true,
        (Some(unit), Some(other)) => have_same_units(unit, other),
        _ => false,
    }
}

fn have_same_units(unit: &FloatUnit, other: &FloatUnit) -> bool
    ensures { IsTrue result → UnitsLookAlike unit.now other.now }
{
    for r in 0..32u8 {
        if unit.register(r) != other.register(r) {
            return false;
        }
    }
    unit.csr(FloatCsr::Frm) == other.csr(FloatCsr::Frm)
        && unit.csr(FloatCsr::Fflags) == other.csr(FloatCsr::Fflags)
}

/// Whether two nodes have the same areas, requests, output, messages and tag sizes.
fn have_same_communication<A: Allocator + Copy>(node: &Node<A>, other: &Node<A>) -> bool
    ensures { IsTrue result → CommunicationLooksAlike node.now.node.hart other.now.node.hart }
{
    node.tag_size() == other.tag_size()
        && node.next_tag_size() == other.next_tag_size()
        && have_same_areas(node.slots(), other.slots())
        && node.slots().same_shape(other.slots())
        && node.slots().is_large() == other.slots().is_large()
        && have_same_requests(node.requests(), other.requests())
        && have_same_messages(node.inbox(), other.inbox())
}

/// Whether two nodes have the same areas in effect.
fn have_same_areas<A: Allocator + Copy>(slots: &Slots<A>, others: &Slots<A>) -> bool
    ensures { IsTrue result → slots.now.registrations.in_effect ≡ others.now.registrations.in_effect }
{
    if slots.count() != others.count() {
        return false;
    }
    for slot in 0..slots.count() {
        if slots.area(slot) != others.area(slot) {
            return false;
        }
    }
    true
}

/// Whether two nodes ask the same of the exchange, and have the same output.
fn have_same_requests<A: Allocator>(requests: &Requests<A>, others: &Requests<A>) -> bool
    ensures { IsTrue result → requests.now ≡ others.now }
{
    if requests.len() != others.len() || requests.is_large() != others.is_large() {
        return false;
    }
    for place in 0..requests.len() {
        if !have_same_request_at(requests, others, place) {
            return false;
        }
    }
    requests.output() == others.output()
}

fn have_same_request_at<A: Allocator>(
    requests: &Requests<A>,
    others: &Requests<A>,
    place: usize,
) -> bool
    ensures { IsTrue result → slice_get requests.now.requests place ≡ slice_get others.now.requests place }
{
    match (requests.at(place), others.at(place)) {
        (Some(request), Some(other)) => are_same_requests(request, other),
        _ => false,
    }
}

fn are_same_requests<A: Allocator>(request: &Request<A>, other: &Request<A>) -> bool
    ensures { IsTrue result → asked request.now ≡ asked other.now }
{
    match (request, other) {
        (Request::Put(put), Request::Put(other)) => {
            put.target == other.target
                && put.slot == other.slot
                && put.offset == other.offset
                && put.bytes.as_slice() == other.bytes.as_slice()
        }
        (Request::Get(get), Request::Get(other)) => {
            get.target == other.target
                && get.slot == other.slot
                && get.offset == other.offset
                && get.dst == other.dst
                && get.len == other.len
        }
        (Request::Send(message), Request::Send(other)) => {
            message.target == other.target
                && message.tag() == other.tag()
                && message.payload() == other.payload()
        }
        _ => false,
    }
}

/// Whether two nodes have the same messages to read.
fn have_same_messages<A: Allocator>(inbox: &Inbox<A>, other: &Inbox<A>) -> bool
    ensures { IsTrue result → inbox.now ≡ other.now }
{
    if inbox.count() != other.count() {
        return false;
    }
    for place in 0..inbox.count() {
        if !have_same_message_at(inbox, other, place) {
            return false;
        }
    }
    true
}

fn have_same_message_at<A: Allocator>(inbox: &Inbox<A>, other: &Inbox<A>, place: usize) -> bool
    ensures { IsTrue result → slice_get inbox.now place ≡ slice_get other.now place }
{
    match (inbox.at(place), other.at(place)) {
        (Some(message), Some(other)) => are_same_messages(message, other),
        _ => false,
    }
}

fn are_same_messages<A: Allocator>(message: &Message<A>, other: &Message<A>) -> bool
    ensures { IsTrue result → message.now ≡ other.now }
{
    message.sender == other.sender
        && message.tag() == other.tag()
        && message.payload() == other.payload()
}

/// Whether two memories have the same bytes.
///
/// # Errors
/// If there is no memory for a copy of the bytes.
fn have_same_bytes<A: Allocator + Copy>(
    memory: &Memory<A>,
    other: &Memory<A>,
) -> Result<bool, ReadError>
    ensures { IfOk result (λ same. IsTrue same → memory.now.bytes ≡ other.now.bytes) }
{
    let bytes = memory.read_range(0, memory.size())?;
    let others = other.read_range(0, other.size())?;
    Ok(bytes.as_slice() == others.as_slice())
}
