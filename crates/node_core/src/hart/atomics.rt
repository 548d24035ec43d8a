//! The effects of the instructions of A (RISC-V Unprivileged ISA 20191213, chapter 8), on a hart that has them.

ghost use Rattle.std.specs.Prelude.{◌≡◌, ◌<◌, IsTrue, IfOk, OnErr};
ghost use Rattle.rv_atomics.specs.Operands.{IsEncodable};
ghost use Rattle.node_core.specs.Atomics as Atomics;

use super::Hart;
use crate::state::{Fault, State};
use node_memory::WriteError;
use rv_atomics::{AmoOp, AtomicInstr, Reservation, amo_value, decode_code};
use rv_tables::Code;
use std::alloc::{AllocError, Allocator};

impl<A: Allocator + Copy> Hart<A> {
    ghost use Rattle.node_memory.specs.Pages.{KeepsPrivate, Owns};
    ghost use Rattle.rv_tables.specs.Codes.{length_of};
    ghost use Rattle.rv_atomics.specs.Codes.{atomic_decoded};
    ghost use Rattle.node_core.specs.Executed.{atomic_effect_if_any, MayRefuseAtomicIfAny, AtomicStoresInPrivateIfAny};
    ghost use Rattle.node_core.specs.Executed.{MayRefuseOnReservation, StoresInPrivateOnReservation};

    /// Executes a code that is that of no instruction on whole numbers or of floating point, and answers the state of the node then.
    #[inline(never)]
    pub(super) fn execute_atomic(&mut self, code: Code) -> Result<State, AllocError>
        ensures ok { IfOk result (λ state. atomic_effect_if_any (atomic_decoded code) (length_of code) self.old.hart
            ≡ record { hart = self.new.hart; state = state }) }
        ensures ready { self.new.ready ≡ self.old.ready }
        ensures private { KeepsPrivate self.old.private self.new.private }
        ensures communication { self.new.hart.communication ≡ self.old.hart.communication }
        ensures err { OnErr result (self.new.hart ≡ self.old.hart) }
        ensures refuses { OnErr result (MayRefuseAtomicIfAny (atomic_decoded code) self.old.hart) }
        ensures shared { OnErr result (AtomicStoresInPrivateIfAny (atomic_decoded code) self.new.private self.old.hart → ⊥) }
    {
        match decode_code(code) {
            Some(instr) => self.execute_on_reservation(instr, code.length()),
            None => Ok(State::Faulted(Fault::IllegalInstruction)),
        }
    }

    /// Executes an instruction of `size` bytes, where the hart has the instructions of A.
    fn execute_on_reservation(&mut self, instr: AtomicInstr, size: u32) -> Result<State, AllocError>
        requires { IsEncodable instr }
        ensures ok { IfOk result (λ state.
            Atomics.on_reservation self.old.hart.reservation (λ r. Atomics.atomic_effect_of instr r size self.old.hart) self.old.hart
            ≡ record { hart = self.new.hart; state = state }) }
        ensures ready { self.new.ready ≡ self.old.ready }
        ensures private { KeepsPrivate self.old.private self.new.private }
        ensures communication { self.new.hart.communication ≡ self.old.hart.communication }
        ensures err { OnErr result (self.new.hart ≡ self.old.hart) }
        ensures refuses { OnErr result (MayRefuseOnReservation self.old.hart.reservation instr self.old.hart) }
        ensures shared { OnErr result
            (StoresInPrivateOnReservation self.old.hart.reservation instr self.new.private self.old.hart → ⊥) }
    {
        let Some(reservation) = self.reservation else {
            return Ok(State::Faulted(Fault::IllegalInstruction));
        };
        match instr {
            AtomicInstr::LoadReserved { rd, rs1, .. } => {
                let addr = self.reg(rs1);
                Ok(self.load_reserved(rd, addr, size))
            }
            AtomicInstr::StoreConditional { rd, rs1, rs2, .. } => {
                let (addr, value) = (self.reg(rs1), self.reg(rs2));
                self.store_conditional(rd, value, addr, reservation, size)
            }
            AtomicInstr::Amo {
                op,
                rd,
                rs1,
                rs2,
                ..
            } => {
                let (addr, operand) = (self.reg(rs1), self.reg(rs2));
                self.amo(op, rd, operand, addr, size)
            }
        }
    }

    /// LR.W.
    fn load_reserved(&mut self, rd: u8, addr: u32, size: u32) -> State
        requires { rd < 32 }
        ensures hart { Atomics.load_reserved_effect rd addr size self.old.hart
            ≡ record { hart = self.new.hart; state = result } }
        ensures rest { self.new ≡ record self.old { hart = self.new.hart } }
        ensures communication { self.new.hart.communication ≡ self.old.hart.communication }
    {
        if !is_aligned(addr) {
            return State::Faulted(Fault::Misaligned);
        }
        match self.memory.plain().load32(addr) {
            Some(value) => {
                self.reservation = Some(Reservation::Word(addr));
                self.put(rd, value, size)
            }
            None => State::Faulted(Fault::LoadOutside),
        }
    }

    /// SC.W. Whether it succeeds or not, nothing is reserved afterwards.
    fn store_conditional(
        &mut self,
        rd: u8,
        value: u32,
        addr: u32,
        reservation: Reservation,
        size: u32,
    ) -> Result<State, AllocError>
        requires { rd < 32 }
        ensures ok { IfOk result (λ state. Atomics.store_conditional_effect rd value addr reservation size self.old.hart
            ≡ record { hart = self.new.hart; state = state }) }
        ensures ready { self.new.ready ≡ self.old.ready }
        ensures private { KeepsPrivate self.old.private self.new.private }
        ensures communication { self.new.hart.communication ≡ self.old.hart.communication }
        ensures err { OnErr result (self.new.hart ≡ self.old.hart) }
        ensures refuses { OnErr result
            (IsTrue (Atomics.is_reserved reservation addr) × Atomics.IsStorable addr self.old.hart) }
        ensures shared { OnErr result (Owns self.new.private addr 4 → ⊥) }
    {
        if !is_aligned(addr) {
            return Ok(State::Faulted(Fault::Misaligned));
        }
        if !self.memory.plain().fits(addr, 4) {
            return Ok(State::Faulted(Fault::StoreOutside));
        }
        let failed = if is_reserved(reservation, addr) {
            match self.memory.store32(addr, value) {
                Ok(()) => 0,
                Err(WriteError::Outside) => return Ok(State::Faulted(Fault::StoreOutside)),
                Err(WriteError::NoMemory) => return Err(AllocError),
            }
        } else {
            1
        };
        self.reservation = Some(Reservation::Nothing);
        Ok(self.put(rd, failed, size))
    }

    /// AMOSWAP.W and its kin.
    fn amo(
        &mut self,
        op: AmoOp,
        rd: u8,
        operand: u32,
        addr: u32,
        size: u32,
    ) -> Result<State, AllocError>
        requires { rd < 32 }
        ensures ok { IfOk result (λ state. Atomics.amo_effect op rd operand addr size self.old.hart
            ≡ record { hart = self.new.hart; state = state }) }
        ensures ready { self.new.ready ≡ self.old.ready }
        ensures private { KeepsPrivate self.old.private self.new.private }
        ensures communication { self.new.hart.communication ≡ self.old.hart.communication }
        ensures err { OnErr result (self.new.hart ≡ self.old.hart) }
        ensures refuses { OnErr result (Atomics.IsStorable addr self.old.hart) }
        ensures shared { OnErr result (Owns self.new.private addr 4 → ⊥) }
    {
        if !is_aligned(addr) {
            return Ok(State::Faulted(Fault::Misaligned));
        }
        let Some(loaded) = self.memory.plain().load32(addr) else {
            return Ok(State::Faulted(Fault::StoreOutside));
        };
        let stored = amo_value(op, loaded, operand);
        match self.memory.store32(addr, stored) {
            Ok(()) => Ok(self.put(rd, loaded, size)),
            Err(WriteError::Outside) => Ok(State::Faulted(Fault::StoreOutside)),
            Err(WriteError::NoMemory) => Err(AllocError),
        }
    }
}

/// Whether an address is naturally aligned, of a word.
fn is_aligned(addr: u32) -> bool
    ensures { result ≡ Atomics.is_aligned addr }
{
    addr % 4 == 0
}

/// Whether the word at an address is reserved.
fn is_reserved(reservation: Reservation, addr: u32) -> bool
    ensures { result ≡ Atomics.is_reserved reservation addr }
{
    reservation == Reservation::Word(addr)
}
