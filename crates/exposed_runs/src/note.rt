//! A note of a request: what the registers of the node show when it makes the request.

ghost use Rattle.std.specs.Prelude.{◌≡◌};
ghost use Rattle.exposed_runs.specs.Notes.{note_of};

use node_core::Node;
use std::alloc::Allocator;

/// Which request a node makes, and what its registers say as it does.
#[derive(Clone, Copy, Debug, PartialEq, Eq)]
pub struct Note {
    /// The rank of the node.
    pub caller: u32,
    /// The number of the request among those of the node in the superstep.
    pub issue: u32,
    /// The number of the call, in a7.
    pub number: u32,
    /// Operands of the call.
    pub a1: u32,
    pub a2: u32,
    pub a3: u32,
    /// Where in the code the call is made.
    pub pc: u32,
}

/// What is noted of the next request of a node, if its next step makes one.
pub(crate) fn note_of<A: Allocator + Copy>(node: &Node<A>) -> Note
    ensures { result ≡ note_of node.now.node }
{
    Note {
        caller: node.rank(),
        issue: node.requests().len() as u32,
        number: node.reg(17),
        a1: node.reg(11),
        a2: node.reg(12),
        a3: node.reg(13),
        pc: node.pc(),
    }
}
