//! The traffic of an exchange: how many bytes and messages it moves.

ghost use Rattle.std.specs.Prelude.{◌≡◌, ◌^◌, ◌<◌, ◌≤◌, length, replicate, All, IfOk};
ghost use Rattle.bsp_exchange.specs.Loads.{no_load, with_transfer, IsWithin, greatest};

use std::alloc::{AllocError, Allocator};

/// What an exchange moved.
#[derive(Clone, Copy, Debug, PartialEq, Eq)]
pub struct Traffic {
    /// The h of the h-relation (BSP): the most bytes that one node sent to others or received from others.
    pub h: u64,
    /// The same with what a node moved to itself.
    pub h_all: u64,
    /// The most messages that one node received from others.
    pub messages: u64,
}

/// What a node sends and receives in an exchange.
#[derive(Clone, Copy)]
pub(crate) struct Load {
    /// Bytes to other nodes.
    sent: u64,
    /// Bytes from other nodes.
    received: u64,
    /// Bytes from the node to itself.
    kept: u64,
    /// Messages from other nodes.
    messages: u64,
}

/// Nothing sent or received, for each rank.
pub(crate) fn no_loads<A: Allocator + Copy>(
    alloc: A,
    count: usize,
) -> Result<Vec<Load, A>, AllocError>
    ensures { IfOk result (λ loads. loads.items ≡ replicate count no_load) }
{
    let nothing = Load {
        sent: 0,
        received: 0,
        kept: 0,
        messages: 0,
    };
    vec![in alloc; nothing; count]
}

/// Adds so many bytes, which go from one rank to another, or to itself, and so many messages with them, to the loads.
pub(crate) fn add_transfer(from: usize, to: usize, bytes: u64, messages: u64, loads: &mut [Load])
    requires from { from < length loads.old }
    requires to { to < length loads.old }
    requires limit { bytes ≤ 2 ^ 32 }
    requires one { messages ≤ 1 }
    requires room { All (IsWithin (2 ^ 48)) loads.old }
    ensures { loads.new ≡ with_transfer loads.old (record { from = from; to = to; bytes = bytes; messages = messages }) }
{
    if from == to {
        loads[from].kept += bytes;
    } else {
        loads[from].sent += bytes;
        loads[to].received += bytes;
        loads[to].messages += messages;
    }
}

/// The greatest that the loads have of each.
pub(crate) fn greatest(loads: &[Load]) -> Traffic
    requires { All (IsWithin (2 ^ 47)) loads.now }
    ensures { result ≡ greatest loads.now }
{
    let mut most = Traffic {
        h: 0,
        h_all: 0,
        messages: 0,
    };
    for load in loads {
        let larger = load.sent.max(load.received);
        most.h = most.h.max(larger);
        most.h_all = most.h_all.max(larger + load.kept);
        most.messages = most.messages.max(load.messages);
    }
    most
}
