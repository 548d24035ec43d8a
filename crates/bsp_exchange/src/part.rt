//! The part of an exchange that one node receives.

ghost use Rattle.std.specs.Prelude.{◌≡◌, ◌+◌, ◌<◌, ◌^◌, OnOk};
ghost use Rattle.node_memory.specs.Pages.{KeepsPrivate};
ghost use Rattle.bsp_requests.specs.Inbox.{IsQueue};
ghost use Rattle.bsp_exchange.specs.Arrivals.{Received, part_from};
ghost use Rattle.bsp_exchange.specs.Parts.{CanLand, CanPrepare, bytes_in, landed_as, spent_part};

use crate::arrivals::Arrivals;
use crate::traffic::Traffic;
use node_core::Node;
use std::alloc::{AllocError, Allocator};
use std::marker::Model;

/// What one node receives in an exchange: the bytes that come into its memory, in the order of their landing, and its queue for the
/// next superstep.
///
/// It borrows nothing, neither from its node nor from another, so that it may be handed to any thread together with its node, and
/// land there whenever that thread comes to it. It lands once, and is spent then.
#[derive(Drop)]
pub struct Part<A: Allocator> {
    rank: u32,
    spent: bool,
    arrivals: Arrivals<A>,
}

/// An exchange that is planned or drafted: what it moves, and the parts of all nodes, each at the place of its rank.
#[derive(Drop)]
pub struct Plan<A: Allocator> {
    pub traffic: Traffic,
    pub parts: Vec<Part<A>, A>,
}

impl<A: Allocator> Model for Part<A> {
    ghost use Rattle.std.specs.Prelude.{◌++◌, ◌+◌, ◌<◌, ◌^◌};
    ghost use Rattle.bsp_requests.specs.Inbox.{IsQueue};
    ghost use Rattle.bsp_exchange.specs.Parts.{PartState, bytes_in};

    ghost Value = { PartState };

    ghost view = { λ p. record {
      rank = p.rank;
      spent = p.spent;
      patches = p.arrivals.gets ++ p.arrivals.puts;
      queue = p.arrivals.messages;
    } };

    ghost invariant = { λ p. IsQueue p.arrivals.messages × (bytes_in p.arrivals.gets + bytes_in p.arrivals.puts < 2 ^ 63) };
}

impl<A: Allocator + Copy> Part<A> {
    /// The part of the node of a rank, at which this arrives.
    pub(crate) fn new(rank: u32, arrivals: Arrivals<A>) -> Part<A>
        requires queue { IsQueue arrivals.messages }
        requires few { bytes_in arrivals.gets + bytes_in arrivals.puts < 2 ^ 63 }
        ensures { result ≡ part_from (rank, arrivals) }
    {
        Part {
            rank,
            spent: false,
            arrivals,
        }
    }

    /// How many bytes it takes into its node's memory, and its landing copies. Its messages are not among them, which go over as they
    /// are. It takes time in the number of its puts.
    pub fn bytes(&self) -> u64
        ensures { result ≡ bytes_in self.now.patches }
    {
        self.arrivals.bytes()
    }

    /// Makes its node ready for it: makes the pages into which it receives bytes private, and room for the node's turn. The
    /// node waits, and the part has not landed. The node's state stays as it is, and what was private stays so.
    ///
    /// No other node is looked at, so that each node can be prepared by whichever thread has it with its part.
    ///
    /// # Errors
    /// Where memory is refused. It can be prepared again.
    pub fn prepare(&self, node: &mut Node<A>) -> Result<(), AllocError>
        requires { CanPrepare self.now node.old.node }
        ensures same { node.new.node ≡ node.old.node }
        ensures private { KeepsPrivate node.old.private node.new.private }
        ensures ok { OnOk result (CanLand self.now node.new) }
    {
        self.arrivals.prepare(node)
    }

    /// Lands all of it in its node, and begins the node's next superstep there (BSPlib's `bsp_sync`). The node waits, and was made
    /// ready for this by [`Part::prepare`]; the part has not landed before. Its messages go over to the node, and it is spent.
    ///
    /// No memory is taken, and nothing can be refused. It takes time in the number of the bytes that land.
    pub fn land(&mut self, node: &mut Node<A>)
        requires { CanLand self.old node.old }
        ensures node { node.new ≡ landed_as self.old node.old }
        ensures spent { self.new ≡ spent_part self.old }
    {
        self.arrivals.land(node);
        self.spent = true;
    }
}

impl<A: Allocator> Part<A> {
    /// The rank of the node in which it lands.
    pub fn rank(&self) -> u32
        ensures { result ≡ self.now.rank }
    {
        self.rank
    }

    /// Whether it has landed.
    pub fn spent(&self) -> bool
        ensures { result ≡ self.now.spent }
    {
        self.spent
    }
}
