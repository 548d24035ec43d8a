//! Comparisons, minimum and maximum of numbers that are not NaNs. Nothing asks whether an operand is a NaN.

ghost use Rattle.std.specs.Prelude.{◌≡◌, ◌*◌, ◌%◌, ◌<◌, ◌≤◌, if◌then◌else◌};
ghost use Rattle.float_unit.specs.NoNewFlags as NoNewFlags;
ghost use Rattle.float_unit.specs.Values as Values;
ghost use lib.Ieee.{hid, ones, top};

use rv_float_tables::{CompareOp, MinMaxOp};
use rv_floats::{Pattern, is_before};

/// FEQ, FLT, FLE.
#[inline(always)]
pub fn compares<P: Pattern>(op: CompareOp, a: P, b: P) -> bool
    requires first { P.bits a % top P.format ≤ ones P.format * hid P.format }
    requires second { P.bits b % top P.format ≤ ones P.format * hid P.format }
    ensures { result ≡ Values.compares op P.format (P.bits a) (P.bits b) }
{
    match op {
        CompareOp::Feq => a.is_number_equal(b),
        CompareOp::Flt => a.is_number_less(b),
        CompareOp::Fle => a.is_number_at_most(b),
    }
}

/// Whether FMIN or FMAX is the second operand.
#[inline(always)]
pub fn is_second<P: Pattern>(op: MinMaxOp, a: P, b: P) -> bool
    requires first_fits { P.bits a < 2 * top P.format }
    requires second_fits { P.bits b < 2 * top P.format }
    requires first { P.bits a % top P.format ≤ ones P.format * hid P.format }
    requires second { P.bits b % top P.format ≤ ones P.format * hid P.format }
    ensures { (if result then P.bits b else P.bits a) ≡ Values.min_max op P.format (P.bits a) (P.bits b) }
{
    match op {
        MinMaxOp::Min => is_before(b, a),
        MinMaxOp::Max => is_before(a, b),
    }
}

/// Whether it is a number, by its pattern.
#[inline(always)]
pub fn is_number<P: Pattern>(a: P) -> bool
    ensures { result ≡ NoNewFlags.is_number P.format (P.bits a) }
{
    a.to_u64() % P::top() <= P::top() - P::hidden()
}
