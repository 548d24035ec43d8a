//! What a debugger answers.

use crate::point::Point;
use bsp_requests::Message;
use cost_ledger::CostRow;
use list_vec::ListVec;
use machine_core::Outcome;
use node_core::State;
use std::alloc::Allocator;

/// A debugger's answer to a [`Command`](crate::Command).
#[derive(Drop)]
pub enum Reply<A: Allocator> {
    /// How many steps were made.
    Moved(u64),
    /// Whether the turn was made. It was not if some node runs.
    Turned(bool),
    /// A point was met.
    Stopped(Point),
    /// The machine has its outcome.
    Finished(Outcome),
    /// The rank of a node, its pc, the steps that it has made, its state, and its registers x0 to x31 without sign.
    Regs {
        rank: u32,
        pc: u32,
        ticks: u64,
        state: State,
        x: [u32; 32],
    },
    /// The rank of a node, its fcsr, and the patterns of 64 bits in its registers f0 to f31.
    Fregs {
        rank: u32,
        fcsr: u32,
        f: [u64; 32],
    },
    /// Bytes of a node's memory, that of the lowest address first.
    Bytes(ListVec<u8, A>),
    /// The messages that a node has not moved yet, the next one first.
    Queue(ListVec<Message<A>, A>),
    /// What the supersteps that are over cost, the first one first.
    Costs(ListVec<CostRow, A>),
}
