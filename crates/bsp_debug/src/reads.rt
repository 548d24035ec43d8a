//! What a debugger reads from a machine and its nodes.

ghost use Rattle.std.specs.Prelude.{◌≡◌, length, IfOk, IsTrue};
ghost use Rattle.node_memory.specs.Bytes.{fits, bytes_at};
ghost use Rattle.node_core.specs.Hart.{IsHart};
ghost use Rattle.bsp_debug.specs.Debugger.{floats_of as floats_of_unit, registers_of as registers_of_node};
ghost use Rattle.bsp_debug.specs.Reply.{answer, bytes as bytes_answer, queue as queue_answer, costs as costs_answer};

use crate::reply::Reply;
use float_unit::FloatUnit;
use list_vec::ListVec;
use machine_core::Machine;
use node_core::Node;
use rv_float_tables::FloatCsr;
use std::alloc::{AllocError, Allocator};

/// The registers of a node, its pc, its ticks and its state.
pub(crate) fn registers_of<A: Allocator>(node: &Node<A>) -> Reply<A>
    ensures { answer result ≡ registers_of_node node.now.node }
{
    recall_sound(node);
    let mut x = [0; 32];
    for n in 0..32u8 {
        x[usize::from(n)] = node.reg(n);
    }
    Reply::Regs {
        rank: node.rank(),
        pc: node.pc(),
        ticks: node.ticks(),
        state: node.state(),
        x,
    }
}

/// Does nothing at run time. A proof learns from it that a node's hart is sound, and so has 32 registers.
#[inline(always)]
fn recall_sound<A: Allocator>(node: &Node<A>)
    ensures { IsHart node.now.node.hart }
{
    let _ = node.memory();
}

/// The registers of floating point and fcsr of the unit of the node of a rank.
pub(crate) fn floats_of<A: Allocator>(rank: u32, unit: &FloatUnit) -> Reply<A>
    ensures { answer result ≡ floats_of_unit rank unit.now }
{
    let mut f = [0; 32];
    for n in 0..32u8 {
        f[usize::from(n)] = unit.register(n);
    }
    let fcsr = unit.csr(FloatCsr::Fcsr);
    Reply::Fregs { rank, fcsr, f }
}

/// A range of the memory of a node.
pub(crate) fn bytes_of<A: Allocator>(
    alloc: A,
    node: &Node<A>,
    addr: u32,
    len: u32,
) -> Result<Reply<A>, AllocError>
    requires { IsTrue (fits (length node.now.node.hart.memory) addr len) }
    ensures { IfOk result (λ reply.
        answer reply ≡ bytes_answer (bytes_at node.now.node.hart.memory addr len)) }
{
    let mut bytes = Vec::new(alloc);
    node.memory().append_range(addr, len, &mut bytes)?;
    Ok(Reply::Bytes(ListVec::from_vec(bytes)))
}

/// The messages that a node has not moved yet.
pub(crate) fn queue_of<A: Allocator + Copy>(
    alloc: A,
    node: &Node<A>,
) -> Result<Reply<A>, AllocError>
    ensures { IfOk result (λ reply.
        answer reply ≡ queue_answer node.now.node.hart.communication.queue) }
{
    let inbox = node.inbox();
    let mut messages = Vec::with_capacity(alloc, inbox.count())?;
    for i in 0..inbox.count() {
        if let Some(message) = inbox.at(i) {
            messages.push(message.try_clone()?)?;
        }
    }
    Ok(Reply::Queue(ListVec::from_vec(messages)))
}

/// The costs of the supersteps that are over.
pub(crate) fn costs_of<A: Allocator>(alloc: A, machine: &Machine<A>) -> Result<Reply<A>, AllocError>
    ensures { IfOk result (λ reply. answer reply ≡ costs_answer machine.now.ledger) }
{
    let rows = Vec::from_slice(alloc, machine.ledger().rows())?;
    Ok(Reply::Costs(ListVec::from_vec(rows)))
}
