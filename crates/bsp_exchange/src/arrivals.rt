//! What arrives at one node in an exchange.

ghost use Rattle.std.specs.Prelude.{◌≡◌, ◌+◌, ◌<◌, ◌^◌, false, length, IsTrue, OnOk, OnErr};
ghost use Rattle.node_memory.specs.Bytes.{fits, bytes_at};
ghost use Rattle.node_memory.specs.Pages.{KeepsPrivate};
ghost use Rattle.bsp_exchange.specs.Arrivals.{nothing, message_of, FitsIn, IsPrepared, CanTake, with_arrivals};
ghost use Rattle.bsp_exchange.specs.Parts.{bytes_in};

use crate::landings::Landings;
use crate::patch_list::{land, prepare};
use crate::puts::Puts;
use crate::smalls::Smalls;
use bsp_requests::{Inbox, Message, Outgoing};
use node_core::Node;
use node_memory::Memory;
use shared_bytes::SharedBytes;
use std::alloc::{AllocError, Allocator};
use std::marker::Model;
use std::mem;

/// What one node receives in an exchange, gathered before anything lands: the bytes that its gets fetch, those that are put into its
/// areas, and the messages that are sent to it.
#[derive(Drop)]
pub(crate) struct Arrivals<A: Allocator> {
    alloc: A,
    // The first gets, up to one that is not small, and those from that one on. For speed, and for the memory that many of them take.
    small_gets: Smalls<A>,
    gets: Landings<A>,
    // The same of puts.
    small_puts: Smalls<A>,
    puts: Puts<A>,
    messages: Vec<Message<A>, A>,
}

impl<A: Allocator> Model for Arrivals<A> {
    ghost use Rattle.bsp_exchange.specs.Arrivals.{Received};

    ghost Value = { Received };

    ghost use Rattle.std.specs.Prelude.{◌++◌};

    ghost view = { λ p. record { gets = p.small_gets ++ p.gets; puts = p.small_puts ++ p.puts; messages = p.messages.items } };
}

impl<A: Allocator + Copy> Arrivals<A> {
    ghost use Rattle.std.specs.Prelude.{◌++◌, ◌∷◌, []};

    /// Nothing yet, where about so many gets and puts are expected. No memory is taken.
    pub(crate) fn new(alloc: A, expected: usize) -> Arrivals<A>
        ensures { result ≡ nothing }
    {
        Arrivals {
            alloc,
            small_gets: Smalls::new(alloc, expected),
            gets: Landings::new(alloc, expected),
            small_puts: Smalls::new(alloc, expected),
            puts: Puts::new(alloc, expected),
            messages: Vec::new(alloc),
        }
    }

    /// Adds what a get fetches: the `len` bytes from `from` on of a memory, which land from `addr` on.
    pub(crate) fn add_get(
        &mut self,
        addr: u32,
        memory: &Memory<A>,
        from: u32,
        len: u32,
    ) -> Result<(), AllocError>
        requires { IsTrue (fits (length memory.now.bytes) from len) }
        ensures ok { OnOk result (self.new ≡ record self.old {
          gets = self.old.gets ++ record { addr = addr; bytes = bytes_at memory.now.bytes from len } ∷ [];
        }) }
    {
        if self.gets.is_empty() {
            if let Some(room) = memory.read_16(from, len) {
                return self.small_gets.push(addr, room, len);
            }
        }
        self.gets.push_copy_of(addr, memory, from, len)
    }

    /// Adds bytes that are put, from `addr` on.
    pub(crate) fn add_put(&mut self, addr: u32, bytes: &SharedBytes<A>) -> Result<(), AllocError>
        ensures ok { OnOk result (self.new ≡ record self.old {
          puts = self.old.puts ++ record { addr = addr; bytes = bytes.now } ∷ [];
        }) }
    {
        if self.puts.is_empty() {
            if let Some(few) = bytes.within_16() {
                return self.small_puts.push(addr, few.0, few.1);
            }
        }
        self.puts.push(addr, bytes)
    }

    /// Adds a message.
    pub(crate) fn add_message(
        &mut self,
        sender: u16,
        message: &Outgoing<A>,
    ) -> Result<(), AllocError>
        ensures ok { OnOk result (self.new ≡ record self.old {
          messages = self.old.messages ++ message_of sender message.now ∷ [];
        }) }
    {
        self.messages.push(message.arrived(sender)?)?;
        Ok(())
    }

    /// Makes all the room that its landing wants: for the node's turn, and for copies of the pages into which it receives bytes.
    /// The node itself stays as it is.
    ///
    /// # Errors
    /// Where memory is refused.
    pub(crate) fn prepare(&self, node: &mut Node<A>) -> Result<(), AllocError>
        requires within { FitsIn (length node.old.node.hart.memory) self.now }
        ensures node { node.new.node ≡ node.old.node }
        ensures private { KeepsPrivate node.old.private node.new.private }
        ensures ok { OnOk result (IsPrepared self.now node.new) }
    {
        prepare(&self.small_gets, node)?;
        prepare(&self.gets, node)?;
        prepare(&self.small_puts, node)?;
        prepare(&self.puts, node)?;
        node.prepare_turn()
    }

    /// How many bytes come into the node's memory.
    pub(crate) fn bytes(&self) -> u64
        requires { bytes_in self.now.gets + bytes_in self.now.puts < 2 ^ 63 }
        ensures { result ≡ bytes_in self.now.gets + bytes_in self.now.puts }
    {
        let gets = self.small_gets.bytes() + self.gets.len() as u64;
        let puts = self.small_puts.bytes() + self.puts.bytes();
        gets + puts
    }

    /// Lands all of it in its node, which waits and is prepared for it, and begins the node's next superstep. The messages go
    /// over to the node, and the bytes stay.
    pub(crate) fn land(&mut self, node: &mut Node<A>)
        requires { CanTake self.old node.old }
        ensures node { node.new ≡ with_arrivals self.old node.old }
        ensures rest { self.new ≡ record self.old { messages = [] } }
    {
        land(&self.small_gets, node);
        land(&self.gets, node);
        land(&self.small_puts, node);
        land(&self.puts, node);
        let messages = mem::replace(&mut self.messages, Vec::new(self.alloc));
        node.finish_turn(Inbox::of(messages));
    }
}
