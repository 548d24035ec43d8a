//! Quick tests whether a sum, product, quotient or root raises no new flag.

ghost use Rattle.std.specs.Prelude.{◌≡◌, is_some, IfSome};
ghost use Rattle.rv_float_flags.specs.Flags.{accrued};
ghost use Rattle.rv_float_flags.specs.NoNewFlags as NoNewFlags;
ghost use Rattle.rv_float_flags.specs.Operations as Operations;
ghost use lib.Ieee as Ieee;
ghost use lib.Ieee.{of_bits, to_bits};

use crate::flags::Flags;
use rv_floats::Pattern;

/// Patterns of which a few comparisons find out whether an operation raises no flags but those that are there.
pub trait Quick: Pattern {
    /// Of a sum or a difference.
    fn sum_raises_no_new_flags(flags: Flags, a: Self, b: Self) -> bool
        ensures { result ≡ NoNewFlags.sum_raises_no_new_flags Self.format flags (Self.bits a) (Self.bits b) };

    fn product_raises_no_new_flags(flags: Flags, a: Self, b: Self) -> bool
        ensures { result ≡ NoNewFlags.product_raises_no_new_flags Self.format flags (Self.bits a) (Self.bits b) };

    fn quotient_raises_no_new_flags(flags: Flags, a: Self, b: Self) -> bool
        ensures { result ≡ NoNewFlags.quotient_raises_no_new_flags Self.format flags (Self.bits a) (Self.bits b) };

    fn root_raises_no_new_flags(flags: Flags, a: Self) -> bool
        ensures { result ≡ NoNewFlags.root_raises_no_new_flags Self.format flags (Self.bits a) };
}

/// FADD, if it raises no new flags, and that is found out at once.
// For speed: a finite sum of finite operands raises nothing but NX, and not even that where it has few digits. Nothing asks whether one of
// them is a NaN.
#[inline(always)]
pub fn add_without_new_flags<P: Quick>(flags: Flags, a: P, b: P) -> Option<P>
    ensures when { is_some result ≡ NoNewFlags.sum_raises_no_new_flags P.format flags (P.bits a) (P.bits b) }
    ensures value { IfSome result
        (λ z. P.bits z ≡ to_bits P.format (Ieee.add P.format (of_bits P.format (P.bits a)) (of_bits P.format (P.bits b)))) }
    ensures flags { IfSome result (λ z. accrued flags (Operations.add_flags P.format (P.bits a) (P.bits b)) ≡ flags) }
{
    if P::sum_raises_no_new_flags(flags, a, b) {
        Some(a.add_numbers(b))
    } else {
        None
    }
}

/// FSUB, if it raises no new flags, and that is found out at once.
#[inline(always)]
pub fn sub_without_new_flags<P: Quick>(flags: Flags, a: P, b: P) -> Option<P>
    ensures when { is_some result ≡ NoNewFlags.sum_raises_no_new_flags P.format flags (P.bits a) (P.bits b) }
    ensures value { IfSome result
        (λ z. P.bits z ≡ to_bits P.format (Ieee.sub P.format (of_bits P.format (P.bits a)) (of_bits P.format (P.bits b)))) }
    ensures flags { IfSome result (λ z. accrued flags (Operations.sub_flags P.format (P.bits a) (P.bits b)) ≡ flags) }
{
    if P::sum_raises_no_new_flags(flags, a, b) {
        Some(a.sub_numbers(b))
    } else {
        None
    }
}

/// FMUL, if it raises no new flags, and that is found out at once.
#[inline(always)]
pub fn mul_without_new_flags<P: Quick>(flags: Flags, a: P, b: P) -> Option<P>
    ensures when { is_some result ≡ NoNewFlags.product_raises_no_new_flags P.format flags (P.bits a) (P.bits b) }
    ensures value { IfSome result
        (λ z. P.bits z ≡ to_bits P.format (Ieee.mul P.format (of_bits P.format (P.bits a)) (of_bits P.format (P.bits b)))) }
    ensures flags { IfSome result (λ z. accrued flags (Operations.mul_flags P.format (P.bits a) (P.bits b)) ≡ flags) }
{
    if P::product_raises_no_new_flags(flags, a, b) {
        Some(a.mul_numbers(b))
    } else {
        None
    }
}

/// FDIV, if it raises no new flags, and that is found out at once.
// For speed: by its exponents a quotient of normal numbers is neither tiny nor too large.
#[inline(always)]
pub fn div_without_new_flags<P: Quick>(flags: Flags, a: P, b: P) -> Option<P>
    ensures when { is_some result ≡ NoNewFlags.quotient_raises_no_new_flags P.format flags (P.bits a) (P.bits b) }
    ensures value { IfSome result
        (λ z. P.bits z ≡ to_bits P.format (Ieee.div P.format (of_bits P.format (P.bits a)) (of_bits P.format (P.bits b)))) }
    ensures flags { IfSome result (λ z. accrued flags (Operations.div_flags P.format (P.bits a) (P.bits b)) ≡ flags) }
{
    if P::quotient_raises_no_new_flags(flags, a, b) {
        Some(a.div_numbers(b))
    } else {
        None
    }
}

/// FSQRT, if it raises no new flags, and that is found out at once.
// For speed: a root of what is not below zero raises nothing but NX.
#[inline(always)]
pub fn sqrt_without_new_flags<P: Quick>(flags: Flags, a: P) -> Option<P>
    ensures when { is_some result ≡ NoNewFlags.root_raises_no_new_flags P.format flags (P.bits a) }
    ensures value { IfSome result (λ z. P.bits z ≡ to_bits P.format (Ieee.sqrt P.format (of_bits P.format (P.bits a)))) }
    ensures flags { IfSome result (λ z. accrued flags (Operations.sqrt_flags P.format (P.bits a)) ≡ flags) }
{
    if P::root_raises_no_new_flags(flags, a) {
        Some(a.sqrt())
    } else {
        None
    }
}
