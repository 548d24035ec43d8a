//! The environment calls: an ECALL makes the one whose number is in a7 (x17), with operands from a0 (x10) on.
//!
//! Here are the calls that concern the node alone. Each checks its operands in order before it changes anything, and requests memory only
//! if all checks pass.

ghost use Rattle.std.specs.Prelude.{◌≡◌, [], IfOk, OnErr};
ghost use Rattle.node_memory.specs.Pages.{KeepsPrivate};

use super::Hart;
use crate::call::{CLOCK, Call};
use crate::state::{Fault, State};
use node_memory::WriteError;
use rv_atomics::Reservation;
use std::alloc::{AllocError, Allocator};

/// The registers of a call: its operands, the first of which takes its answer, and its number.
pub(super) const A0: u8 = 10;

pub(super) const A1: u8 = 11;

pub(super) const A2: u8 = 12;

pub(super) const A3: u8 = 13;

pub(super) const A4: u8 = 14;

pub(super) const A7: u8 = 17;

/// The bytes of an ECALL.
const ECALL_BYTES: u32 = 4;

impl<A: Allocator + Copy> Hart<A> {
    ghost use Rattle.node_core.specs.Hart.{advanced, goes_on, room_after};
    ghost use Rattle.node_core.specs.Calls.{named_call, call_effect, ecall_effect, answers, output_checks, output_effect, checked};
    ghost use Rattle.node_core.specs.Clock.{clocked, tells};
    ghost use Rattle.node_core.specs.Calls.{MayRefuseCall, MayRefuseEcall, HaveNoFault};

    /// The call whose number is in a7.
    #[inline(never)]
    pub(super) fn call(&mut self, input: &[u8]) -> Result<State, AllocError>
        ensures ok { IfOk result (λ state. ecall_effect (named_call self.old.hart) input.now self.old.hart
            ≡ record { hart = self.new.hart; state = state }) }
        ensures ready { self.new.ready ≡ room_after self.old.ready self.old.hart self.new.hart }
        ensures private { KeepsPrivate self.old.private self.new.private }
        ensures err { OnErr result (self.new.hart ≡ self.old.hart) }
        ensures refuses { OnErr result (MayRefuseEcall (named_call self.old.hart) input.now self.old.hart) }
    {
        match Call::of_number(self.reg(A7)) {
            Some(call) => self.make(call, input),
            None => Ok(State::Faulted(Fault::UnknownCall)),
        }
    }

    fn make(&mut self, call: Call, input: &[u8]) -> Result<State, AllocError>
        ensures ok { IfOk result (λ state. call_effect call input.now self.old.hart
            ≡ record { hart = self.new.hart; state = state }) }
        ensures ready { self.new.ready ≡ room_after self.old.ready self.old.hart self.new.hart }
        ensures private { KeepsPrivate self.old.private self.new.private }
        ensures err { OnErr result (self.new.hart ≡ self.old.hart) }
        ensures refuses { OnErr result (MayRefuseCall call input.now self.old.hart) }
    {
        match call {
            Call::End => Ok(self.leave(State::Ended)),
            Call::Nprocs => Ok(self.answer(self.nprocs)),
            Call::Pid => Ok(self.answer(self.rank)),
            Call::Sync => Ok(self.leave(State::Synced)),
            Call::PushReg => self.push_reg(),
            Call::PopReg => self.pop_reg(),
            Call::Put | Call::Hpput => self.issue_put(),
            Call::Get | Call::Hpget => self.issue_get(),
            Call::SetTagsize => self.set_tagsize(),
            Call::Send => self.issue_send(),
            Call::Qsize => self.qsize(),
            Call::GetTag => self.get_tag(),
            Call::Move => self.move_payload(),
            Call::Abort => self.write(State::Aborted),
            Call::Write => self.write(State::Running),
            Call::Read => self.read(input),
        }
    }

    /// Goes on after the ECALL, with nothing reserved.
    pub(super) fn advance(&mut self) -> State
        ensures hart { goes_on (advanced self.old.hart) ≡ record { hart = self.new.hart; state = result } }
        ensures rest { self.new ≡ record self.old { hart = self.new.hart } }
    {
        if let Some(reservation) = &mut self.reservation {
            *reservation = Reservation::Nothing;
        }
        self.pass(ECALL_BYTES)
    }

    /// Goes on after the ECALL, with `value` in a0.
    fn answer(&mut self, value: u32) -> State
        ensures hart { answers value self.old.hart ≡ record { hart = self.new.hart; state = result } }
        ensures rest { self.new ≡ record self.old { hart = self.new.hart } }
    {
        self.set_reg(A0, value);
        self.advance()
    }

    /// Goes on after the ECALL, in the state `after`.
    fn leave(&mut self, after: State) -> State
        ensures state { result ≡ after }
        ensures hart { self.new ≡ record self.old { hart = advanced self.old.hart } }
    {
        self.advance();
        after
    }

    /// What the instruction at pc comes to that has left the hart in the state `after`, where the node's clock shows this time, if it
    /// has one: the call that reads the clock is answered, by the low word of the time in a0 and the high one in a1.
    // For speed: out of line, since few instructions stop a node.
    #[cold]
    #[inline(never)]
    pub(crate) fn clocked(&mut self, after: State, time: Option<u64>) -> State
        ensures hart { clocked time (record { hart = self.old.hart; state = after })
            ≡ record { hart = self.new.hart; state = result } }
        ensures communication { self.new.hart.communication ≡ self.old.hart.communication }
        ensures rest { self.new ≡ record self.old { hart = self.new.hart } }
    {
        match time {
            Some(time) if after == State::Faulted(Fault::UnknownCall) && self.reg(A7) == CLOCK => {
                self.tell(time)
            }
            _ => after,
        }
    }

    /// Goes on after the ECALL, with the low word of `time` in a0 and the high one in a1.
    fn tell(&mut self, time: u64) -> State
        ensures hart { tells time self.old.hart ≡ record { hart = self.new.hart; state = result } }
        ensures communication { self.new.hart.communication ≡ self.old.hart.communication }
        ensures rest { self.new ≡ record self.old { hart = self.new.hart } }
    {
        self.set_reg(A0, (time % 0x1_0000_0000) as u32);
        self.set_reg(A1, (time / 0x1_0000_0000) as u32);
        self.advance()
    }

    /// The calls that append a1 bytes at a0 to the output, and leave the node in the state `after`.
    fn write(&mut self, after: State) -> Result<State, AllocError>
        ensures ok { IfOk result (λ state.
            checked (output_checks self.old.hart) self.old.hart (output_effect after self.old.hart)
            ≡ record { hart = self.new.hart; state = state }) }
        ensures ready { self.new.ready ≡ self.old.ready }
        ensures registrations { self.new.hart.communication.registrations
            ≡ self.old.hart.communication.registrations }
        ensures private { KeepsPrivate self.old.private self.new.private }
        ensures err { OnErr result (self.new.hart ≡ self.old.hart) }
        ensures refuses { OnErr result (HaveNoFault (output_checks self.old.hart)) }
    {
        let addr = self.reg(A0);
        let len = self.reg(A1);
        if !self.memory.plain().fits(addr, len) {
            return Ok(State::Faulted(Fault::RangeOutside));
        }
        if self.communication.requests.are_too_many(u64::from(len)) {
            return Ok(State::Faulted(Fault::TooMuch));
        }
        let Ok(bytes) = self.memory.plain().read_range(addr, len) else {
            return Err(AllocError);
        };
        match self.communication.requests.add_output(bytes.as_slice()) {
            Ok(()) => Ok(self.leave(after)),
            Err(_) => Err(AllocError),
        }
    }

    /// The call that reads up to a1 bytes of the input to a0.
    fn read(&mut self, input: &[u8]) -> Result<State, AllocError>
        ensures ok { IfOk result (λ state. call_effect Call.Read input.now self.old.hart
            ≡ record { hart = self.new.hart; state = state }) }
        ensures ready { self.new.ready ≡ self.old.ready }
        ensures registrations { self.new.hart.communication ≡ self.old.hart.communication }
        ensures private { KeepsPrivate self.old.private self.new.private }
        ensures err { OnErr result (self.new.hart ≡ self.old.hart) }
        ensures refuses { OnErr result (MayRefuseCall Call.Read input.now self.old.hart) }
    {
        let addr = self.reg(A0);
        let left = input.len().saturating_sub(self.cursor);
        let count = left.min(self.reg(A1) as usize);
        let start = self.cursor.min(input.len());
        match self.memory.write_range(addr, &input[start..start + count]) {
            Ok(()) => {}
            Err(error) => return not_written(error),
        }
        self.cursor += count;
        Ok(self.answer(count as u32))
    }
}

/// The answer of a call that could not write into the memory.
pub(super) fn not_written(error: WriteError) -> Result<State, AllocError>
    ensures ok { IfOk result (λ state. (error ≡ WriteError.Outside) × (state ≡ State.Faulted Fault.RangeOutside)) }
    ensures err { OnErr result (error ≡ WriteError.NoMemory) }
{
    match error {
        WriteError::Outside => Ok(State::Faulted(Fault::RangeOutside)),
        WriteError::NoMemory => Err(AllocError),
    }
}
