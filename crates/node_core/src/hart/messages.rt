//! The calls that read what was received (BSPlib, Hill and others 1998: `bsp_qsize`, `bsp_get_tag`, `bsp_move`). They store, and so take
//! memory if a page that they write is shared.

ghost use Rattle.std.specs.Prelude.{◌≡◌, ◌^◌, ◌<◌, ◌&&◌, ◌↔◌, false, [], length, drop, OnOk, OnErr, IfOk, IsErrOf};
ghost use Rattle.node_memory.specs.Bytes.{fits, with_bytes};
ghost use Rattle.node_memory.specs.Pages.{KeepsPrivate};
ghost use Rattle.node_core.specs.declared.call.Call.{Call};
ghost use Rattle.node_core.specs.Hart.{room_after};
ghost use Rattle.node_core.specs.Calls.{call_effect, with_word, MayRefuseCall};

use super::Hart;
use super::calls::{A0, A1, not_written};
use crate::state::State;
use bsp_requests::Inbox;
use decode_cache::CodeMemory;
use node_memory::WriteError;
use std::alloc::{AllocError, Allocator};

/// Writes a word, and then bytes over it. All pages are made private before a byte changes, so that it is both or neither.
fn write_word_and_bytes<A: Allocator + Copy>(
    memory: &mut CodeMemory<A>,
    word_addr: u32,
    word: u32,
    addr: u32,
    bytes: &[u8],
) -> Result<(), WriteError>
    requires { length bytes.now < 2 ^ 32 }
    ensures ok { OnOk result
        (memory.new.bytes ≡ with_bytes (with_word memory.old.bytes word_addr word) addr bytes.now) }
    ensures outside { IsErrOf result WriteError.Outside
        ↔ ((fits (length memory.old.bytes) word_addr 4 && fits (length memory.old.bytes) addr (length bytes.now)) ≡ false) }
    ensures private { KeepsPrivate memory.old.private memory.new.private }
    ensures err { OnErr result (memory.new.bytes ≡ memory.old.bytes) }
    ensures same_size { length memory.new.bytes ≡ length memory.old.bytes }
{
    let len = bytes.len() as u32;
    if !memory.plain().fits(word_addr, 4) || !memory.plain().fits(addr, len) {
        return Err(WriteError::Outside);
    }
    memory.make_private(word_addr, 4)?;
    memory.make_private(addr, len)?;
    memory.store32(word_addr, word)?;
    memory.write_range(addr, bytes)
}

/// Removes the first message of a queue, if there is one.
fn drop_first<A: Allocator>(queue: &mut Inbox<A>)
    ensures { queue.new ≡ drop 1 queue.old }
{
    queue.take_first();
}

impl<A: Allocator + Copy> Hart<A> {
    /// Stores the number of messages at a0, and the sum of their payloads' lengths at a1.
    pub(super) fn qsize(&mut self) -> Result<State, AllocError>
        ensures ok { IfOk result (λ state. call_effect Call.Qsize [] self.old.hart
            ≡ record { hart = self.new.hart; state = state }) }
        ensures ready { self.new.ready ≡ room_after self.old.ready self.old.hart self.new.hart }
        ensures private { KeepsPrivate self.old.private self.new.private }
        ensures err { OnErr result (self.new.hart ≡ self.old.hart) }
        ensures refuses { OnErr result (MayRefuseCall Call.Qsize [] self.old.hart) }
    {
        let (packets_addr, bytes_addr) = (self.reg(A0), self.reg(A1));
        let packets = (self.communication.inbox.count() as u64).min(u64::from(u32::MAX)) as u32;
        let bytes = self.communication.inbox.bytes().min(u64::from(u32::MAX)) as u32;
        let stored = write_word_and_bytes(
            &mut self.memory,
            packets_addr,
            packets,
            bytes_addr,
            &bytes.to_le_bytes(),
        );
        match stored {
            Ok(()) => Ok(self.advance()),
            Err(error) => not_written(error),
        }
    }

    /// Stores the length of the first message's payload at a0, and its tag at a1; where there is none, all ones at a0.
    pub(super) fn get_tag(&mut self) -> Result<State, AllocError>
        ensures ok { IfOk result (λ state. call_effect Call.GetTag [] self.old.hart
            ≡ record { hart = self.new.hart; state = state }) }
        ensures ready { self.new.ready ≡ room_after self.old.ready self.old.hart self.new.hart }
        ensures private { KeepsPrivate self.old.private self.new.private }
        ensures err { OnErr result (self.new.hart ≡ self.old.hart) }
        ensures refuses { OnErr result (MayRefuseCall Call.GetTag [] self.old.hart) }
    {
        let (status, tag) = (self.reg(A0), self.reg(A1));
        let stored = match self.communication.inbox.first() {
            Some(message) => write_word_and_bytes(
                &mut self.memory,
                status,
                message.payload().len() as u32,
                tag,
                message.tag(),
            ),
            None => self.memory.store32(status, u32::MAX),
        };
        match stored {
            Ok(()) => Ok(self.advance()),
            Err(error) => not_written(error),
        }
    }

    /// Copies up to a1 bytes of the first message's payload to a0, and removes the message, if there is one.
    pub(super) fn move_payload(&mut self) -> Result<State, AllocError>
        ensures ok { IfOk result (λ state. call_effect Call.Move [] self.old.hart
            ≡ record { hart = self.new.hart; state = state }) }
        ensures ready { self.new.ready ≡ room_after self.old.ready self.old.hart self.new.hart }
        ensures private { KeepsPrivate self.old.private self.new.private }
        ensures err { OnErr result (self.new.hart ≡ self.old.hart) }
        ensures refuses { OnErr result (MayRefuseCall Call.Move [] self.old.hart) }
    {
        let (addr, most) = (self.reg(A0), self.reg(A1) as usize);
        let Some(message) = self.communication.inbox.first() else {
            return Ok(self.advance());
        };
        let payload = message.payload();
        let count = payload.len().min(most);
        match self.memory.write_range(addr, &payload[..count]) {
            Ok(()) => {}
            Err(error) => return not_written(error),
        }
        drop_first(&mut self.communication.inbox);
        Ok(self.advance())
    }
}
