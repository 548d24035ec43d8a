//! How to step over an instruction, and which rank makes the next step.

ghost use Rattle.std.specs.Prelude.{◌≡◌, find, option_copied};
ghost use Rattle.rv_tables.specs.Codes.{code_at};
ghost use Rattle.node_core.specs.Node.{PreparedNode, is_running};
ghost use Rattle.bsp_debug.specs.Returns.{call_length, is_call, next_rank, over, over_node, return_address};

use crate::command::Command;
use machine_core::Machine;
use node_core::Node;
use node_memory::Memory;
use rv_tables::{Code, Instr};
use std::alloc::Allocator;

/// The register ra, in which calls leave their return addresses, and sp.
const RA: u8 = 1;

const SP: u8 = 2;

/// What steps over the instruction at which the node of a rank stands.
pub(crate) fn over<A: Allocator>(machine: &Machine<A>, rank: u32) -> Command
    ensures { result ≡ over machine.now rank }
{
    match machine.node(rank) {
        Some(node) => over_node(rank, node),
        None => Command::Step { rank, count: 1 },
    }
}

/// What steps over the instruction at which a node stands, which is that of a rank.
fn over_node<A: Allocator>(rank: u32, node: &Node<A>) -> Command
    ensures { result ≡ over_node rank node.now.node }
{
    match return_address(node) {
        Some(addr) => Command::Return {
            rank,
            addr,
            sp: node.reg(SP),
        },
        None => Command::Step { rank, count: 1 },
    }
}

/// Where the call returns at which a node stands, if it stands at one.
fn return_address<A: Allocator>(node: &Node<A>) -> Option<u32>
    ensures { result ≡ return_address node.now.node.hart }
{
    let code = code_at(node.memory(), node.pc())?;
    let length = call_length(code)?;
    Some(node.pc().wrapping_add(length))
}

/// How long a code is, if it is a call.
fn call_length(code: Code) -> Option<u32>
    ensures { result ≡ call_length code }
{
    match code.decode() {
        Some(instr) if is_call(instr) => Some(code.length()),
        _ => None,
    }
}

/// Whether an instruction calls a function.
fn is_call(instr: Instr) -> bool
    ensures { result ≡ is_call instr }
{
    match instr {
        Instr::Jal { rd, .. } => rd == RA,
        Instr::Jalr { rd, .. } => rd == RA,
        Instr::R { .. }
        | Instr::I { .. }
        | Instr::Shift { .. }
        | Instr::Load { .. }
        | Instr::Store { .. }
        | Instr::Branch { .. }
        | Instr::Upper { .. }
        | Instr::Plain { .. } => false,
    }
}

/// The code at an address, or none if the memory ends before it does.
fn code_at<A: Allocator>(memory: &Memory<A>, addr: u32) -> Option<Code>
    ensures { result ≡ code_at memory.now.bytes addr }
{
    match Code::first_in(u32::from(memory.load16(addr)?)) {
        Code::Half(half) => Some(Code::Half(half)),
        Code::Word(_) => Some(Code::Word(memory.load32(addr)?)),
    }
}

/// The rank that makes the next step of all.
pub(crate) fn next_rank<A: Allocator>(machine: &Machine<A>) -> u32
    ensures { result ≡ next_rank machine.now }
{
    match lowest_running(machine.nodes()) {
        Some(node) => node.rank(),
        None => 0,
    }
}

/// The node of the lowest rank that runs.
fn lowest_running<A: Allocator>(nodes: &[Node<A>]) -> Option<&Node<A>>
    ensures { option_copied result ≡ find (λ (p : PreparedNode). is_running p.node.state) nodes.now }
{
    nodes.iter().find(|node| node.state().is_running())
}
