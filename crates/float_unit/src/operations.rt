//! The operations that instructions name, on patterns of either format.

ghost use Rattle.std.specs.Prelude.{◌≡◌, ◌*◌, ◌<◌, is_some, IfSome};
ghost use Rattle.rv_float_flags.specs.Flags.{accrued};
ghost use Rattle.rv_float_flags.specs.Operations.{quiet_flags};
ghost use Rattle.float_unit.specs.NoNewFlags.{patterns_raise_no_new_flags};
ghost use Rattle.float_unit.specs.Values as Values;
ghost use lib.Ieee.{top};

use rv_float_flags::{
    Flags, Quick, accrued_add_flags, accrued_div_flags, accrued_mul_flags, accrued_sub_flags,
    add_flags, add_without_new_flags, div_flags, div_without_new_flags, mul_flags,
    mul_without_new_flags, multiply_add_flags, multiply_subtract_flags, negated_multiply_add_flags,
    negated_multiply_subtract_flags, ordered_flags, quiet_flags, sqrt_flags, sub_flags,
    sub_without_new_flags, to_unsigned_word_flags, to_word_flags,
};
use rv_float_modes::{
    Rounded, add_in, div_in, mul_in, multiply_add_in, multiply_subtract_in,
    negated_multiply_add_in, negated_multiply_subtract_in, sqrt_in, sub_in,
};
use rv_float_tables::{ArithmeticOp, CompareOp, FusedOp, MinMaxOp, SignOp, WordKind};
use rv_floats::{
    Pattern, Rounding, is_at_most, is_equal, is_less, maximum, minimum, multiply_subtract,
    negated_multiply_add, negated_multiply_subtract, sign_injected, sign_negated, sign_xored,
    to_unsigned_word, to_word,
};

#[inline(always)]
pub fn arithmetic<P: Quick>(op: ArithmeticOp, a: P, b: P) -> P
    ensures { P.bits result ≡ Values.arithmetic op P.format (P.bits a) (P.bits b) }
{
    match op {
        ArithmeticOp::Add => a.add(b),
        ArithmeticOp::Sub => a.sub(b),
        ArithmeticOp::Mul => a.mul(b),
        ArithmeticOp::Div => a.div(b),
    }
}

pub fn arithmetic_flags<P: Quick>(op: ArithmeticOp, a: P, b: P) -> Flags
    ensures { result ≡ Values.arithmetic_flags op P.format (P.bits a) (P.bits b) }
{
    match op {
        ArithmeticOp::Add => add_flags(a, b),
        ArithmeticOp::Sub => sub_flags(a, b),
        ArithmeticOp::Mul => mul_flags(a, b),
        ArithmeticOp::Div => div_flags(a, b),
    }
}

/// The flags that are there with those that `arithmetic` raises.
#[inline(always)]
pub fn accrued_flags<P: Quick>(op: ArithmeticOp, flags: Flags, a: P, b: P) -> Flags
    ensures { result ≡ accrued flags (Values.arithmetic_flags op P.format (P.bits a) (P.bits b)) }
{
    match op {
        ArithmeticOp::Add => accrued_add_flags(flags, a, b),
        ArithmeticOp::Sub => accrued_sub_flags(flags, a, b),
        ArithmeticOp::Mul => accrued_mul_flags(flags, a, b),
        ArithmeticOp::Div => accrued_div_flags(flags, a, b),
    }
}

/// What `arithmetic` gives, if it raises no new flags, and that is found out at once.
#[inline(always)]
pub fn without_new_flags<P: Quick>(op: ArithmeticOp, flags: Flags, a: P, b: P) -> Option<P>
    ensures when { is_some result ≡ patterns_raise_no_new_flags op P.format flags (P.bits a) (P.bits b) }
    ensures value { IfSome result (λ z. P.bits z ≡ Values.arithmetic op P.format (P.bits a) (P.bits b)) }
    ensures flags { IfSome result (λ z. accrued flags (Values.arithmetic_flags op P.format (P.bits a) (P.bits b)) ≡ flags) }
{
    match op {
        ArithmeticOp::Add => add_without_new_flags(flags, a, b),
        ArithmeticOp::Sub => sub_without_new_flags(flags, a, b),
        ArithmeticOp::Mul => mul_without_new_flags(flags, a, b),
        ArithmeticOp::Div => div_without_new_flags(flags, a, b),
    }
}

/// FADD, FSUB, FMUL, FDIV, in a rounding mode.
pub fn arithmetic_in<P: Quick>(op: ArithmeticOp, mode: Rounding, a: P, b: P) -> Rounded
    ensures value { result ≡ Values.arithmetic_in op mode P.format (P.bits a) (P.bits b) }
    ensures narrow { result.bits < 2 * top P.format }
{
    match mode {
        Rounding::NearestEven => Rounded {
            bits: arithmetic(op, a, b).to_u64(),
            flags: arithmetic_flags(op, a, b),
        },
        _ => arithmetic_otherwise(op, mode, a, b),
    }
}

/// The same if the mode is another than to the nearest, ties to even.
#[cold]
#[inline(never)]
fn arithmetic_otherwise<P: Quick>(op: ArithmeticOp, mode: Rounding, a: P, b: P) -> Rounded
    ensures value { result ≡ Values.arithmetic_otherwise op mode P.format (P.bits a) (P.bits b) }
    ensures narrow { result.bits < 2 * top P.format }
{
    match op {
        ArithmeticOp::Add => add_in(mode, a, b),
        ArithmeticOp::Sub => sub_in(mode, a, b),
        ArithmeticOp::Mul => mul_in(mode, a, b),
        ArithmeticOp::Div => div_in(mode, a, b),
    }
}

pub fn fused<P: Quick>(op: FusedOp, a: P, b: P, c: P) -> P
    ensures { P.bits result ≡ Values.fused op P.format (P.bits a) (P.bits b) (P.bits c) }
{
    match op {
        FusedOp::Madd => a.multiply_add(b, c),
        FusedOp::Msub => multiply_subtract(a, b, c),
        FusedOp::Nmsub => negated_multiply_subtract(a, b, c),
        FusedOp::Nmadd => negated_multiply_add(a, b, c),
    }
}

pub fn fused_flags<P: Quick>(op: FusedOp, a: P, b: P, c: P) -> Flags
    ensures { result ≡ Values.fused_flags op P.format (P.bits a) (P.bits b) (P.bits c) }
{
    match op {
        FusedOp::Madd => multiply_add_flags(a, b, c),
        FusedOp::Msub => multiply_subtract_flags(a, b, c),
        FusedOp::Nmsub => negated_multiply_subtract_flags(a, b, c),
        FusedOp::Nmadd => negated_multiply_add_flags(a, b, c),
    }
}

/// FMADD, FMSUB, FNMSUB, FNMADD, in a rounding mode.
pub fn fused_in<P: Quick>(op: FusedOp, mode: Rounding, a: P, b: P, c: P) -> Rounded
    ensures value { result ≡ Values.fused_in op mode P.format (P.bits a) (P.bits b) (P.bits c) }
    ensures narrow { result.bits < 2 * top P.format }
{
    match mode {
        Rounding::NearestEven => Rounded {
            bits: fused(op, a, b, c).to_u64(),
            flags: fused_flags(op, a, b, c),
        },
        _ => fused_otherwise(op, mode, a, b, c),
    }
}

/// The same if the mode is another than to the nearest, ties to even.
#[cold]
#[inline(never)]
fn fused_otherwise<P: Quick>(op: FusedOp, mode: Rounding, a: P, b: P, c: P) -> Rounded
    ensures value { result ≡ Values.fused_otherwise op mode P.format (P.bits a) (P.bits b) (P.bits c) }
    ensures narrow { result.bits < 2 * top P.format }
{
    match op {
        FusedOp::Madd => multiply_add_in(mode, a, b, c),
        FusedOp::Msub => multiply_subtract_in(mode, a, b, c),
        FusedOp::Nmsub => negated_multiply_subtract_in(mode, a, b, c),
        FusedOp::Nmadd => negated_multiply_add_in(mode, a, b, c),
    }
}

/// FSQRT, in a rounding mode.
#[tactic(auto, unfolding(crate::specs::Values::square_root_in))]
pub fn square_root_in<P: Quick>(mode: Rounding, a: P) -> Rounded
    ensures value { result ≡ Values.square_root_in mode P.format (P.bits a) }
    ensures narrow { result.bits < 2 * top P.format }
{
    match mode {
        Rounding::NearestEven => Rounded {
            bits: a.sqrt().to_u64(),
            flags: sqrt_flags(a),
        },
        _ => sqrt_in(mode, a),
    }
}

#[inline(always)]
pub fn signed_as<P: Quick>(op: SignOp, a: P, b: P) -> P
    ensures { P.bits result ≡ Values.signed_as op P.format (P.bits a) (P.bits b) }
{
    match op {
        SignOp::Sgnj => sign_injected(a, b),
        SignOp::Sgnjn => sign_negated(a, b),
        SignOp::Sgnjx => sign_xored(a, b),
    }
}

pub fn min_max<P: Quick>(op: MinMaxOp, a: P, b: P) -> P
    ensures { P.bits result ≡ Values.min_max op P.format (P.bits a) (P.bits b) }
{
    match op {
        MinMaxOp::Min => minimum(a, b),
        MinMaxOp::Max => maximum(a, b),
    }
}

pub fn min_max_flags<P: Quick>(a: P, b: P) -> Flags
    ensures { result ≡ quiet_flags P.format (P.bits a) (P.bits b) }
{
    quiet_flags(a, b)
}

#[inline(always)]
pub fn compares<P: Quick>(op: CompareOp, a: P, b: P) -> bool
    ensures { result ≡ Values.compares op P.format (P.bits a) (P.bits b) }
{
    match op {
        CompareOp::Feq => is_equal(a, b),
        CompareOp::Flt => is_less(a, b),
        CompareOp::Fle => is_at_most(a, b),
    }
}

#[inline(always)]
pub fn compare_flags<P: Quick>(op: CompareOp, a: P, b: P) -> Flags
    ensures { result ≡ Values.compare_flags op P.format (P.bits a) (P.bits b) }
{
    match op {
        CompareOp::Feq => quiet_flags(a, b),
        CompareOp::Flt => ordered_flags(a, b),
        CompareOp::Fle => ordered_flags(a, b),
    }
}

pub fn word<P: Quick>(kind: WordKind, mode: Rounding, a: P) -> u32
    ensures { result ≡ Values.word kind mode P.format (P.bits a) }
{
    match kind {
        WordKind::Signed => to_word(a, mode).cast_unsigned(),
        WordKind::Unsigned => to_unsigned_word(a, mode),
    }
}

pub fn flags_of_word<P: Quick>(kind: WordKind, mode: Rounding, a: P) -> Flags
    ensures { result ≡ Values.flags_of_word kind mode P.format (P.bits a) }
{
    match kind {
        WordKind::Signed => to_word_flags(a, mode),
        WordKind::Unsigned => to_unsigned_word_flags(a, mode),
    }
}
