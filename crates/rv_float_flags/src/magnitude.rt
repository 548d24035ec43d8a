//! The magnitudes of finite values, as multiples of 2^-1074, the smallest positive double.

ghost use Rattle.rv_float_flags.specs.Scaled.{IsMagnitudeOf};
ghost use lib.Ieee.{of_bits};

use crate::scaled::Scaled;
use rv_floats::Pattern;

/// The magnitude of a value, if it is finite. The smallest positive single is 2^925 times that of doubles.
#[inline(always)]
pub fn magnitude_of<P: Pattern>(a: P) -> Option<Scaled>
    ensures { IsMagnitudeOf P.format (of_bits P.format (P.bits a)) result }
{
    let exponent = a.to_u64() % P::top() / P::hidden();
    let digits = a.to_u64() % P::hidden();
    let least = 1074 - P::low();
    if exponent == P::top() / P::hidden() - 1 {
        None
    } else if exponent == 0 {
        Some(Scaled {
            digits: digits as u128,
            place: least,
        })
    } else {
        Some(Scaled {
            digits: (P::hidden() + digits) as u128,
            place: exponent as u32 - 1 + least,
        })
    }
}
