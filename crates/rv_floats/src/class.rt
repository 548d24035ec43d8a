//! Signaling NaNs, and FCLASS.

ghost use Rattle.std.specs.Prelude.{◌≡◌};
ghost use Rattle.rv_floats.specs.Classes as Classes;
ghost use lib.Ieee.{of_bits};

use crate::pattern::Pattern;
use crate::sign::has_sign_bit;

/// Whether it is a signaling NaN.
#[inline]
pub fn is_signaling<P: Pattern>(a: P) -> bool
    ensures { result ≡ Classes.is_signaling P.format (P.bits a) }
{
    a.is_nan() && a.to_u64() % P::hidden() < P::hidden() / 2
}

/// FCLASS: a mask of one bit.
#[inline]
pub fn class_mask<P: Pattern>(a: P) -> u32
    ensures { result ≡ Classes.class_mask P.format (P.bits a) }
{
    if is_signaling(a) {
        0x100
    } else if a.is_nan() {
        0x200
    } else if has_sign_bit(a) {
        negative_class(a)
    } else {
        positive_class(a)
    }
}

#[inline]
fn negative_class<P: Pattern>(a: P) -> u32
    ensures { result ≡ Classes.negative_class P.format (of_bits P.format (P.bits a)) }
{
    if a.is_infinite() {
        0x1
    } else if a.is_normal() {
        0x2
    } else if a.is_subnormal() {
        0x4
    } else {
        0x8
    }
}

#[inline]
fn positive_class<P: Pattern>(a: P) -> u32
    ensures { result ≡ Classes.positive_class P.format (of_bits P.format (P.bits a)) }
{
    if a.is_infinite() {
        0x80
    } else if a.is_normal() {
        0x40
    } else if a.is_subnormal() {
        0x20
    } else {
        0x10
    }
}
