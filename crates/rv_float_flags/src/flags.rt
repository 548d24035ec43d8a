//! The five flags.

ghost use Rattle.std.specs.Prelude.{◌≡◌, ◌<◌};
ghost use Rattle.rv_float_flags.specs.Flags as Defined;

use std::ops::BitOr;

/// The exceptions that an operation raised, by the manual's names.
#[derive(Clone, Copy, Debug, PartialEq, Eq)]
pub struct Flags {
    /// Invalid operation.
    pub nv: bool,
    /// Divide by zero.
    pub dz: bool,
    /// Overflow.
    pub of: bool,
    /// Underflow.
    pub uf: bool,
    /// Inexact.
    pub nx: bool,
}

pub(crate) const NONE: Flags = Flags {
    nv: false,
    dz: false,
    of: false,
    uf: false,
    nx: false,
};

pub(crate) const INVALID: Flags = Flags {
    nv: true,
    dz: false,
    of: false,
    uf: false,
    nx: false,
};

pub(crate) const DIVIDED_BY_ZERO: Flags = Flags {
    nv: false,
    dz: true,
    of: false,
    uf: false,
    nx: false,
};

impl Flags {
    /// No flag.
    #[inline]
    pub fn none() -> Flags
        ensures { result ≡ Defined.no_flags }
    {
        NONE
    }

    /// The flags that a word of fflags has in its five lowest bits.
    pub fn from_bits(word: u32) -> Flags
        ensures { result ≡ Defined.flags_of_bits word }
    {
        Flags {
            nv: word / 16 % 2 == 1,
            dz: word / 8 % 2 == 1,
            of: word / 4 % 2 == 1,
            uf: word / 2 % 2 == 1,
            nx: word % 2 == 1,
        }
    }

    /// The word of fflags.
    pub fn bits(self) -> u32
        ensures value { result ≡ Defined.flag_bits self }
        ensures narrow { result < 32 }
    {
        self.nx as u32
            + 2 * self.uf as u32
            + 4 * self.of as u32
            + 8 * self.dz as u32
            + 16 * self.nv as u32
    }
}

impl BitOr for Flags {
    type Output = Flags;

    ghost bitor_gives = { λ a b both. both ≡ Defined.accrued a b };

    /// Both together: a flag that is set stays.
    #[inline]
    fn bitor(self, other: Flags) -> Flags {
        Flags {
            nv: self.nv || other.nv,
            dz: self.dz || other.dz,
            of: self.of || other.of,
            uf: self.uf || other.uf,
            nx: self.nx || other.nx,
        }
    }
}

pub(crate) fn invalid_if(invalid: bool) -> Flags
    ensures { result ≡ Defined.invalid_if invalid }
{
    if invalid { INVALID } else { NONE }
}

pub(crate) fn inexact_if(inexact: bool) -> Flags
    ensures { result ≡ Defined.inexact_if inexact }
{
    Flags {
        nv: false,
        dz: false,
        of: false,
        uf: false,
        nx: inexact,
    }
}

#[inline(always)]
pub(crate) fn overflow_if(overflow: bool) -> Flags
    ensures { result ≡ Defined.overflow_if overflow }
{
    Flags {
        nv: false,
        dz: false,
        of: overflow,
        uf: false,
        nx: false,
    }
}
