//! A gate: what the pool calls before and after the steps of each node.

use node_core::Node;
use std::alloc::Allocator;

/// Calls of the pool round the steps of each node that runs, in the thread that makes these steps. Tests see by them in which
/// order nodes are run, or hold nodes back. A gate changes nothing of a node, and no contract says anything of its calls.
pub trait Gate<A: Allocator> {
    /// Called before the steps of the node of a rank.
    fn enter(&self, rank: u32);

    /// Called after these steps, at whose end the node is as given, also if memory was refused in one.
    fn leave(&self, rank: u32, node: &Node<A>);
}

/// The gate that does nothing.
#[derive(Clone, Copy, Debug, PartialEq, Eq)]
pub struct OpenGate;

impl<A: Allocator> Gate<A> for OpenGate {
    fn enter(&self, _rank: u32) {}

    fn leave(&self, _rank: u32, _node: &Node<A>) {}
}
