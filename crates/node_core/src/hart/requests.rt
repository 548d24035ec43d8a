//! The calls that register areas and make requests (BSPlib, Hill and others 1998: `bsp_push_reg`, `bsp_pop_reg`,
//! `bsp_put`, `bsp_get`, `bsp_send`, `bsp_set_tagsize`). Each makes all the room that it needs before it changes anything.

ghost use Rattle.std.specs.Prelude.{◌≡◌, [], IfOk, OnErr};
ghost use Rattle.node_memory.specs.Pages.{KeepsPrivate};
ghost use Rattle.node_core.specs.declared.call.Call.{Call};

use super::Hart;
use super::calls::{A0, A1, A2, A3, A4, not_written};
use crate::state::{Fault, State};
use bsp_requests::{Get, Outgoing, Put};
use bsp_slots::{Area, PopError, PushError};
use std::alloc::{AllocError, Allocator};

/// The most bytes of a tag (own limit).
pub const MAX_TAG_SIZE: u32 = 4_096;

// Registrations, and the size of tags.
impl<A: Allocator + Copy> Hart<A> {
    ghost use Rattle.node_core.specs.Hart.{room_after};
    ghost use Rattle.node_core.specs.Calls.{call_effect, MayRefuseCall};

    /// Registers the a1 bytes at a0, from the next superstep on.
    pub(super) fn push_reg(&mut self) -> Result<State, AllocError>
        ensures ok { IfOk result (λ state. call_effect Call.PushReg [] self.old.hart
            ≡ record { hart = self.new.hart; state = state }) }
        ensures ready { self.new.ready ≡ room_after self.old.ready self.old.hart self.new.hart }
        ensures private { KeepsPrivate self.old.private self.new.private }
        ensures err { OnErr result (self.new.hart ≡ self.old.hart) }
        ensures refuses { OnErr result (MayRefuseCall Call.PushReg [] self.old.hart) }
    {
        let area = Area {
            addr: self.reg(A0),
            size: self.reg(A1),
        };
        if !self.memory.plain().fits(area.addr, area.size) {
            return Ok(State::Faulted(Fault::RangeOutside));
        }
        match self.communication.slots.push(area) {
            Ok(()) => Ok(self.advance()),
            Err(PushError::TooMany) => Ok(State::Faulted(Fault::TooMuch)),
            Err(PushError::NoMemory) => Err(AllocError),
        }
    }

    /// Ends the last registration of a0, from the next superstep on.
    pub(super) fn pop_reg(&mut self) -> Result<State, AllocError>
        ensures ok { IfOk result (λ state. call_effect Call.PopReg [] self.old.hart
            ≡ record { hart = self.new.hart; state = state }) }
        ensures ready { self.new.ready ≡ room_after self.old.ready self.old.hart self.new.hart }
        ensures private { KeepsPrivate self.old.private self.new.private }
        ensures err { OnErr result (self.new.hart ≡ self.old.hart) }
        ensures refuses { OnErr result (MayRefuseCall Call.PopReg [] self.old.hart) }
    {
        let addr = self.reg(A0);
        match self.communication.slots.pop(addr) {
            Ok(()) => Ok(self.advance()),
            Err(PopError::NotRegistered) => Ok(State::Faulted(Fault::NotRegistered)),
            Err(PopError::NoMemory) => Err(AllocError),
        }
    }

    /// Takes the word at a0 for the next size of tags, and puts the size in effect into its place.
    pub(super) fn set_tagsize(&mut self) -> Result<State, AllocError>
        ensures ok { IfOk result (λ state. call_effect Call.SetTagsize [] self.old.hart
            ≡ record { hart = self.new.hart; state = state }) }
        ensures ready { self.new.ready ≡ room_after self.old.ready self.old.hart self.new.hart }
        ensures private { KeepsPrivate self.old.private self.new.private }
        ensures err { OnErr result (self.new.hart ≡ self.old.hart) }
        ensures refuses { OnErr result (MayRefuseCall Call.SetTagsize [] self.old.hart) }
    {
        let addr = self.reg(A0);
        let Some(size) = self.memory.plain().load32(addr) else {
            return Ok(State::Faulted(Fault::RangeOutside));
        };
        if size > MAX_TAG_SIZE {
            return Ok(State::Faulted(Fault::BadSize));
        }
        match self.memory.store32(addr, self.communication.tag_size) {
            Ok(()) => {}
            Err(error) => return not_written(error),
        }
        self.communication.next_tag_size = size;
        Ok(self.advance())
    }
}

// Puts, gets and sends.
impl<A: Allocator + Copy> Hart<A> {
    ghost use Rattle.node_core.specs.Hart.{room_after};
    ghost use Rattle.node_core.specs.Calls.{call_effect, MayRefuseCall};

    /// A put of the a4 bytes at a1, which are copied now, into rank a0's area that a2 names, from its byte a3 on.
    pub(super) fn issue_put(&mut self) -> Result<State, AllocError>
        ensures ok { IfOk result (λ state. call_effect Call.Put [] self.old.hart
            ≡ record { hart = self.new.hart; state = state }) }
        ensures ready { self.new.ready ≡ room_after self.old.ready self.old.hart self.new.hart }
        ensures private { KeepsPrivate self.old.private self.new.private }
        ensures err { OnErr result (self.new.hart ≡ self.old.hart) }
        ensures refuses { OnErr result (MayRefuseCall Call.Put [] self.old.hart) }
    {
        let (target, src, dst) = (self.reg(A0), self.reg(A1), self.reg(A2));
        let (offset, len) = (self.reg(A3), self.reg(A4));
        if target >= self.nprocs {
            return Ok(State::Faulted(Fault::BadRank));
        }
        if !self.memory.plain().fits(src, len) {
            return Ok(State::Faulted(Fault::RangeOutside));
        }
        let Some(slot) = self.communication.slots.find(dst) else {
            return Ok(State::Faulted(Fault::NotRegistered));
        };
        if self.communication.requests.is_full_for(u64::from(len)) {
            return Ok(State::Faulted(Fault::TooMuch));
        }
        let Ok(bytes) = self.memory.plain().read_range(src, len) else {
            return Err(AllocError);
        };
        let put = Put {
            target: target as u16,
            slot,
            offset,
            bytes,
        };
        match self.communication.requests.add_put(put) {
            Ok(()) => Ok(self.advance()),
            Err(_) => Err(AllocError),
        }
    }

    /// A get of a4 bytes of rank a0's area that a1 names, from its byte a2 on, to a3.
    pub(super) fn issue_get(&mut self) -> Result<State, AllocError>
        ensures ok { IfOk result (λ state. call_effect Call.Get [] self.old.hart
            ≡ record { hart = self.new.hart; state = state }) }
        ensures ready { self.new.ready ≡ room_after self.old.ready self.old.hart self.new.hart }
        ensures private { KeepsPrivate self.old.private self.new.private }
        ensures err { OnErr result (self.new.hart ≡ self.old.hart) }
        ensures refuses { OnErr result (MayRefuseCall Call.Get [] self.old.hart) }
    {
        let (target, src, offset) = (self.reg(A0), self.reg(A1), self.reg(A2));
        let (dst, len) = (self.reg(A3), self.reg(A4));
        if target >= self.nprocs {
            return Ok(State::Faulted(Fault::BadRank));
        }
        if !self.memory.plain().fits(dst, len) {
            return Ok(State::Faulted(Fault::RangeOutside));
        }
        let Some(slot) = self.communication.slots.find(src) else {
            return Ok(State::Faulted(Fault::NotRegistered));
        };
        if self.communication.requests.is_full_for(u64::from(len)) {
            return Ok(State::Faulted(Fault::TooMuch));
        }
        let get = Get {
            target: target as u16,
            slot,
            offset,
            dst,
            len,
        };
        match self.communication.requests.add_get(get) {
            Ok(()) => Ok(self.advance()),
            Err(_) => Err(AllocError),
        }
    }

    /// A message to rank a0, of the tag at a1, which has the size in effect, and the a3 bytes at a2, all copied now.
    pub(super) fn issue_send(&mut self) -> Result<State, AllocError>
        ensures ok { IfOk result (λ state. call_effect Call.Send [] self.old.hart
            ≡ record { hart = self.new.hart; state = state }) }
        ensures ready { self.new.ready ≡ room_after self.old.ready self.old.hart self.new.hart }
        ensures private { KeepsPrivate self.old.private self.new.private }
        ensures err { OnErr result (self.new.hart ≡ self.old.hart) }
        ensures refuses { OnErr result (MayRefuseCall Call.Send [] self.old.hart) }
    {
        let (target, tag) = (self.reg(A0), self.reg(A1));
        let (payload, len) = (self.reg(A2), self.reg(A3));
        let tag_len = self.communication.tag_size;
        if target >= self.nprocs {
            return Ok(State::Faulted(Fault::BadRank));
        }
        if !self.memory.plain().fits(tag, tag_len) || !self.memory.plain().fits(payload, len) {
            return Ok(State::Faulted(Fault::RangeOutside));
        }
        let size = u64::from(tag_len) + u64::from(len);
        if self.communication.requests.is_full_for(size) {
            return Ok(State::Faulted(Fault::TooMuch));
        }
        let Ok(bytes) = self.memory.plain().read_two(tag, tag_len, payload, len) else {
            return Err(AllocError);
        };
        let message = Outgoing::new(target as u16, tag_len, bytes);
        match self.communication.requests.add_send(message) {
            Ok(()) => Ok(self.advance()),
            Err(_) => Err(AllocError),
        }
    }
}
