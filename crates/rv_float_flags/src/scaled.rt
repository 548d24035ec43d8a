//! Comparisons of numbers that are far apart in size.

ghost use Rattle.std.specs.Prelude.{◌≡◌, ◌+◌, ◌*◌, ◌/◌, ◌%◌, ◌^◌, ◌<◌, ◌≤◌, ◌==◌, nat_lt, MatchOption};
ghost use Rattle.rv_float_flags.specs.Exact.{combined};
ghost use Rattle.rv_float_flags.specs.Scaled.{amount};

/// The number `digits * 2^place`.
#[derive(Clone, Copy)]
pub struct Scaled {
    pub digits: u128,
    pub place: u32,
}

pub(crate) const ZERO: Scaled = Scaled {
    digits: 0,
    place: 2148,
};

impl Scaled {
    /// The same times 2^1074.
    pub fn raised(self) -> Scaled
        requires { self.place < 2 ^ 16 }
        ensures { result ≡ record self { place = self.place + 1074 } }
    {
        Scaled {
            digits: self.digits,
            place: self.place + 1074,
        }
    }

    /// The product.
    pub fn times(self, other: Scaled) -> Scaled
        requires narrow { self.digits < 2 ^ 53 }
        requires other_narrow { other.digits < 2 ^ 53 }
        requires low { self.place < 2 ^ 16 }
        requires other_low { other.place < 2 ^ 16 }
        ensures { result ≡ record { digits = self.digits * other.digits; place = self.place + other.place } }
    {
        Scaled {
            digits: self.digits * other.digits,
            place: self.place + other.place,
        }
    }
}

/// `x * 2^n`, if that is below 2^120.
pub fn times_power(x: u128, n: u32) -> Option<u128>
    ensures { MatchOption result (2 ^ 120 ≤ x * 2 ^ n) (λ v. (v ≡ x * 2 ^ n) × (v < 2 ^ 120)) }
{
    if x == 0 {
        Some(0)
    } else if n < 120 && x >> (120 - n) == 0 {
        Some(x << n)
    } else {
        None
    }
}

/// Whether `x` is `y * 2^n`.
pub(crate) fn is_shifted(x: u128, y: u128, n: u32) -> bool
    ensures { result ≡ (x == y * 2 ^ n) }
{
    if n < 128 {
        x % (1 << n) == 0 && x >> n == y
    } else {
        x == 0 && y == 0
    }
}

/// Whether two numbers are the same.
pub(crate) fn is_same(a: Scaled, b: Scaled) -> bool
    ensures { result ≡ (amount a == amount b) }
{
    if a.place <= b.place {
        is_shifted(a.digits, b.digits, b.place - a.place)
    } else {
        is_shifted(b.digits, a.digits, a.place - b.place)
    }
}

/// Whether `a` is below `b`.
pub fn is_below(a: Scaled, b: Scaled) -> bool
    requires a_narrow { a.digits < 2 ^ 120 }
    requires b_narrow { b.digits < 2 ^ 120 }
    ensures { result ≡ nat_lt (amount a) (amount b) }
{
    if a.place <= b.place {
        match times_power(b.digits, b.place - a.place) {
            Some(digits) => a.digits < digits,
            None => true,
        }
    } else {
        match times_power(a.digits, a.place - b.place) {
            Some(digits) => digits < b.digits,
            None => false,
        }
    }
}

/// The same number with digits that are odd.
pub(crate) fn odd_part(a: Scaled) -> Scaled
    requires nonzero { 0 < a.digits }
    requires low { a.place < 2 ^ 16 }
    ensures value { amount result ≡ amount a }
    ensures odd { result.digits % 2 ≡ 1 }
    ensures narrow { result.digits ≤ a.digits }
    ensures low { result.place < a.place + 128 }
{
    let zeros = a.digits.trailing_zeros();
    Scaled {
        digits: a.digits >> zeros,
        place: a.place + zeros,
    }
}

/// Whether `c` is the sum of `a` and `b` in size, or their difference if they are `opposite`.
pub(crate) fn is_sum(a: Scaled, b: Scaled, opposite: bool, c: Scaled) -> bool
    requires a_narrow { a.digits < 2 ^ 106 }
    requires b_narrow { b.digits < 2 ^ 106 }
    requires c_narrow { c.digits < 2 ^ 53 }
    requires a_low { a.place < 2 ^ 16 }
    requires b_low { b.place < 2 ^ 16 }
    ensures { result ≡ (combined opposite (amount a) (amount b) == amount c) }
{
    if a.place <= b.place {
        is_ordered_sum(a, b, opposite, c)
    } else {
        is_ordered_sum(b, a, opposite, c)
    }
}

/// `is_sum` if `a` has the lower place.
// For speed: most terms are so near to one another that nothing has to be known of their digits.
fn is_ordered_sum(a: Scaled, b: Scaled, opposite: bool, c: Scaled) -> bool
    requires ordered { a.place ≤ b.place }
    requires a_narrow { a.digits < 2 ^ 106 }
    requires b_narrow { b.digits < 2 ^ 106 }
    requires c_narrow { c.digits < 2 ^ 53 }
    requires a_low { a.place < 2 ^ 16 }
    requires b_low { b.place < 2 ^ 16 }
    ensures { result ≡ (combined opposite (amount a) (amount b) == amount c) }
{
    match times_power(b.digits, b.place - a.place) {
        Some(digits) => is_aligned_sum(a, digits, opposite, c),
        None => is_far_sum(a, b, opposite, c),
    }
}

/// `is_sum` of `a` and of `digits` at its place.
fn is_aligned_sum(a: Scaled, digits: u128, opposite: bool, c: Scaled) -> bool
    requires narrow { a.digits < 2 ^ 106 }
    requires digits_narrow { digits < 2 ^ 120 }
    ensures { result ≡ (combined opposite (amount a) (digits * 2 ^ a.place) == amount c) }
{
    let sum = if opposite {
        a.digits.abs_diff(digits)
    } else {
        a.digits + digits
    };
    is_same(
        Scaled {
            digits: sum,
            place: a.place,
        },
        c,
    )
}

/// `is_sum`, by the digits of the terms without the zeros at their ends.
#[cold]
#[inline(never)]
fn is_far_sum(a: Scaled, b: Scaled, opposite: bool, c: Scaled) -> bool
    requires a_narrow { a.digits < 2 ^ 106 }
    requires b_narrow { b.digits < 2 ^ 106 }
    requires c_narrow { c.digits < 2 ^ 53 }
    requires a_low { a.place < 2 ^ 16 }
    requires b_low { b.place < 2 ^ 16 }
    ensures { result ≡ (combined opposite (amount a) (amount b) == amount c) }
{
    if a.digits == 0 {
        return is_same(b, c);
    }
    if b.digits == 0 {
        return is_same(a, c);
    }
    let (a, b) = (odd_part(a), odd_part(b));
    if a.place <= b.place {
        is_odd_sum(a, b, opposite, c)
    } else {
        is_odd_sum(b, a, opposite, c)
    }
}

/// `is_sum` of odd digits. If `b` is far above `a`, the sum is too long a number for the digits of `c`.
fn is_odd_sum(a: Scaled, b: Scaled, opposite: bool, c: Scaled) -> bool
    requires a_odd { a.digits % 2 ≡ 1 }
    requires ordered { a.place ≤ b.place }
    requires a_narrow { a.digits < 2 ^ 106 }
    requires b_narrow { b.digits < 2 ^ 106 }
    requires c_narrow { c.digits < 2 ^ 53 }
    ensures { result ≡ (combined opposite (amount a) (amount b) == amount c) }
{
    match times_power(b.digits, b.place - a.place) {
        Some(digits) => is_aligned_sum(a, digits, opposite, c),
        None => false,
    }
}

/// Whether the sum of `a` and `b` is below `limit`, or their difference if they are `opposite`. `b` is a multiple of `2^limit.place`.
pub(crate) fn sum_is_below(a: Scaled, b: Scaled, opposite: bool, limit: Scaled) -> bool
    requires a_narrow { a.digits < 2 ^ 106 }
    requires a_low { a.place < limit.place + 2 }
    requires b_high { limit.place ≤ b.place }
    requires limit_narrow { limit.digits < 2 ^ 60 }
    requires limit_low { limit.place < 2 ^ 16 }
    ensures { result ≡ nat_lt (combined opposite (amount a) (amount b)) (amount limit) }
{
    let (whole, goes_on) = cut_at(a, limit.place);
    match times_power(b.digits, b.place - limit.place) {
        Some(digits) => {
            if !opposite {
                whole + digits < limit.digits
            } else if digits <= whole {
                whole - digits < limit.digits
            } else {
                digits - whole < limit.digits || (goes_on && digits - whole == limit.digits)
            }
        }
        None => false,
    }
}

/// How many times `2^place` goes into the number, and whether that leaves a rest.
pub fn cut_at(a: Scaled, place: u32) -> (u128, bool)
    requires narrow { a.digits < 2 ^ 106 }
    requires low { a.place < place + 2 }
    requires low_place { place < 2 ^ 16 }
    ensures whole { result.0 ≡ amount a / 2 ^ place }
    ensures rest { result.1 ≡ nat_lt 0 (amount a % 2 ^ place) }
    ensures bound { result.0 < 2 ^ 108 }
{
    if place <= a.place {
        (a.digits << (a.place - place), false)
    } else if place - a.place < 128 {
        let n = place - a.place;
        (a.digits >> n, a.digits % (1 << n) != 0)
    } else {
        (0, a.digits != 0)
    }
}
