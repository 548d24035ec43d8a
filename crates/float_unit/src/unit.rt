//! The floating-point registers and fcsr.

ghost use Rattle.std.specs.Prelude.{◌≡◌, ◌*◌, ◌<◌};
ghost use Rattle.std.specs.Prelude as Prelude;
ghost use Rattle.rv_tables.specs.Operands.{IsRegister};
ghost use Rattle.float_unit.specs.State as State;
ghost use Rattle.float_unit.specs.Effects as Effects;
ghost use lib.Ieee.{top};

use crate::width::Width;
use rv_float_flags::Flags;
use rv_float_modes::Rounded;
use rv_float_tables::{FloatCsr, Format, RoundingField};
use rv_floats::Rounding;
use std::marker::Model;

/// What instructions of floating point act on, beside the integer registers and memory: f0 to f31, of 64 bits, the dynamic rounding mode
/// and the accrued exceptions.
#[derive(Clone, Copy)]
pub struct FloatUnit {
    registers: [u64; 32],
    frm: u8,
    flags: Flags,
}

impl Model for FloatUnit {
    ghost use Rattle.float_unit.specs.State.{FloatState, IsState};

    ghost Value = { FloatState };

    ghost view = { λ u. record { registers = u.registers; frm = u.frm; flags = u.flags } };

    ghost inverse = { λ u. record { registers = u.registers; frm = u.frm; flags = u.flags } };

    ghost invariant = { λ u. IsState (record { registers = u.registers; frm = u.frm; flags = u.flags }) };
}

impl FloatUnit {
    /// A unit at its start: all is zero.
    pub fn new() -> FloatUnit
        ensures { result ≡ State.start }
    {
        FloatUnit {
            registers: [0; 32],
            frm: 0,
            flags: Flags::none(),
        }
    }

    /// The pattern of 64 bits in a register.
    pub fn register(&self, r: u8) -> u64
        requires { IsRegister r }
        ensures { result ≡ Prelude.slice_index self.now.registers r }
    {
        self.registers[r as usize]
    }

    /// What a store of a format writes: of a single the lower half of the register, boxed or not.
    pub fn stored(&self, format: Format, r: u8) -> u64
        requires { IsRegister r }
        ensures { result ≡ Effects.stored format self.now r }
    {
        narrowed(format, self.registers[r as usize])
    }

    /// The value of a control and status register.
    pub fn csr(&self, csr: FloatCsr) -> u32
        ensures { result ≡ State.csr_value csr self.now }
    {
        match csr {
            FloatCsr::Fflags => self.flags.bits(),
            FloatCsr::Frm => u32::from(self.frm),
            FloatCsr::Fcsr => u32::from(self.frm) * 32 + self.flags.bits(),
        }
    }

    /// Writes a control and status register: of the word the bits that it has.
    pub fn set_csr(&mut self, csr: FloatCsr, word: u32)
        ensures { self.new ≡ State.with_csr csr self.old word }
    {
        match csr {
            FloatCsr::Fflags => self.flags = Flags::from_bits(word),
            FloatCsr::Frm => self.frm = (word % 8) as u8,
            FloatCsr::Fcsr => {
                self.frm = (word / 32 % 8) as u8;
                self.flags = Flags::from_bits(word);
            }
        }
    }

    /// The operand of a format in a register: the canonical NaN if that is a single which is not boxed.
    #[inline(always)]
    pub(crate) fn operand<W: Width>(&self, r: u8) -> W
        requires { IsRegister r }
        ensures { W.bits result ≡ State.operand W.width self.now r }
    {
        W::of_register(self.registers[r as usize])
    }

    /// Writes a pattern and what it raised.
    #[inline(always)]
    pub(crate) fn put<W: Width>(&mut self, rd: u8, a: W, flags: Flags)
        requires { IsRegister rd }
        ensures { self.new ≡ (Effects.into_float W.width self.old rd (W.bits a) flags).state }
    {
        self.registers[rd as usize] = a.in_register();
        self.flags = self.flags | flags;
    }

    /// Writes what was rounded, and what that raised.
    #[inline]
    pub(crate) fn round<W: Width>(&mut self, rd: u8, rounded: Rounded)
        requires rd { IsRegister rd }
        requires narrow { rounded.bits < 2 * top W.format }
        ensures { self.new ≡ (Effects.rounded_into W.width self.old rd rounded).state }
    {
        self.put(rd, W::of_u64(rounded.bits), rounded.flags);
    }

    /// Writes a double and all of the flags.
    #[inline(always)]
    pub(crate) fn set_double(&mut self, rd: u8, a: u64, flags: Flags)
        requires { IsRegister rd }
        ensures { self.new ≡ record self.old { registers = Prelude.slice_set self.old.registers rd a; flags = flags } }
    {
        self.registers[rd as usize] = a;
        self.flags = flags;
    }

    /// Writes a pattern that raised nothing new.
    #[inline(always)]
    pub(crate) fn write<W: Width>(&mut self, rd: u8, a: W)
        requires { IsRegister rd }
        ensures { self.new ≡ State.with_register self.old rd (State.held W.width (W.bits a)) }
    {
        self.registers[rd as usize] = a.in_register();
    }

    /// The accrued exceptions.
    #[inline(always)]
    pub(crate) fn flags(&self) -> Flags
        ensures { result ≡ self.now.flags }
    {
        self.flags
    }

    /// Whether the dynamic rounding mode is to the nearest, ties to even.
    #[inline(always)]
    pub(crate) fn rounds_to_nearest(&self) -> bool
        ensures { result ≡ (Prelude.◌==◌ self.now.frm 0) }
    {
        self.frm == 0
    }

    /// Accrues flags.
    pub(crate) fn raise(&mut self, flags: Flags)
        ensures { self.new ≡ State.with_flags self.old flags }
    {
        self.flags = self.flags | flags;
    }

    /// The rounding mode that an instruction asks for, or none if it asks for that of `frm`, and there is none.
    pub(crate) fn mode(&self, rm: RoundingField) -> Option<Rounding>
        ensures { result ≡ Effects.mode_of rm self.now }
    {
        match rm {
            RoundingField::Rne => Some(Rounding::NearestEven),
            RoundingField::Rtz => Some(Rounding::TowardZero),
            RoundingField::Rdn => Some(Rounding::Down),
            RoundingField::Rup => Some(Rounding::Up),
            RoundingField::Rmm => Some(Rounding::NearestAway),
            RoundingField::Dyn => mode_of_code(self.frm),
        }
    }
}

/// The rounding mode of a code, or none.
fn mode_of_code(code: u8) -> Option<Rounding>
    ensures { result ≡ Effects.mode_of_code code }
{
    match code {
        0 => Some(Rounding::NearestEven),
        1 => Some(Rounding::TowardZero),
        2 => Some(Rounding::Down),
        3 => Some(Rounding::Up),
        4 => Some(Rounding::NearestAway),
        _ => None,
    }
}

/// The pattern of a format among 64 bits.
pub(crate) fn narrowed(format: Format, a: u64) -> u64
    ensures { result ≡ State.narrowed format a }
{
    match format {
        Format::Single => a % 0x1_0000_0000,
        Format::Double => a,
    }
}
