//! The two formats, single and double, in instructions and in registers of 64 bits.

ghost use Rattle.std.specs.Prelude.{◌≡◌, ◌*◌, ◌+◌, false, IsTrue};
ghost use Rattle.rv_floats.specs.Conversions.{in_register, of_register};
ghost use Rattle.rv_floats.specs.Nan.{canonical_nan};
ghost use Rattle.float_unit.specs.NoNewFlags as NoNewFlags;
ghost use Rattle.float_unit.specs.Values.{ieee};
ghost use Rattle.rv_float_tables.specs.declared.instr.Format.{Format};
ghost use Rattle.rv_float_tables.specs.declared.instr.Format.TheVariants.{Double, Single};
ghost use lib.Ieee.{emax};

use rv_float_flags::Quick;
use rv_float_tables::WordKind;
use rv_floats::Pattern;

/// A format by its patterns: a `u32` of singles, a `u64` of doubles.
pub trait Width: Quick {
    /// The name that instructions have for it.
    ghost width: { Format };

    /// Whether a register has a pattern of the format. If not, it is the canonical NaN.
    fn is_boxed(register: u64) -> bool
        ensures boxed { IsTrue result → register ≡ in_register Self.format (of_register Self.format register) }
        ensures nan { result ≡ false → of_register Self.format register ≡ canonical_nan Self.format };

    /// The exponent field of 1.
    fn bias() -> u64
        ensures { result ≡ emax Self.format };

    /// The exponent field from which on a size is past a word: of singles from 2^24, from which on they have not all whole numbers.
    fn limit(kind: WordKind) -> u64
        ensures { result ≡ NoNewFlags.limit kind Self.format };

    ghost is_format: { ieee width ≡ Self.format };
}

impl Width for u32 {
    ghost use Rattle.std.specs.Prelude.{refl};

    ghost width = { Single };

    #[inline(always)]
    fn is_boxed(register: u64) -> bool {
        0xffff_ffff_0000_0000 <= register
    }

    #[inline(always)]
    fn bias() -> u64 {
        127
    }

    #[inline(always)]
    fn limit(_kind: WordKind) -> u64 {
        151
    }

    ghost is_format = { refl };
}

impl Width for u64 {
    ghost use Rattle.std.specs.Prelude.{refl};

    ghost width = { Double };

    #[inline(always)]
    fn is_boxed(_register: u64) -> bool {
        true
    }

    #[inline(always)]
    fn bias() -> u64 {
        1023
    }

    #[inline(always)]
    fn limit(kind: WordKind) -> u64 {
        match kind {
            WordKind::Signed => 1054,
            WordKind::Unsigned => 1055,
        }
    }

    ghost is_format = { refl };
}

/// The exponent field of a pattern.
#[inline(always)]
pub fn exponent<P: Pattern>(a: P) -> u64
    ensures { result ≡ NoNewFlags.exponent P.format (P.bits a) }
{
    a.to_u64() % P::top() / P::hidden()
}

/// The digits of the pattern of a normal number.
#[inline(always)]
pub fn digits<P: Pattern>(a: P) -> u64
    ensures { result ≡ NoNewFlags.digits P.format (P.bits a) }
{
    P::hidden() + a.to_u64() % P::hidden()
}
