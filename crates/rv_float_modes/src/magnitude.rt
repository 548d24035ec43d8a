//! Exact magnitudes that are not zero, as the code rounds them.

ghost use Rattle.std.specs.Prelude.{◌≡◌, ◌+◌, ◌*◌, ◌^◌, ◌<◌, ◌≤◌, false};
ghost use Rattle.rv_float_modes.specs.Enclosed.{IsWide};

/// `(digits + rest) * 2^(place - 4096)`, with a rest below 1, which is there if it `goes_on`.
#[derive(Clone, Copy)]
pub(crate) struct Magnitude {
    pub(crate) digits: u128,
    pub(crate) place: u32,
    pub(crate) goes_on: bool,
}

/// `digits * 2^(place - 4096)`, with all its digits.
pub(crate) fn exactly(digits: u128, place: u32) -> Magnitude
    requires nonzero { 0 < digits }
    requires narrow { digits < 2 ^ 127 }
    requires high { 128 ≤ place }
    ensures full { 2 ^ 126 ≤ result.digits }
    ensures wide { IsWide result }
    ensures value { result.digits * 2 ^ result.place ≡ digits * 2 ^ place }
    ensures low { result.place ≤ place }
    ensures high { place ≤ result.place + 126 }
    ensures whole { result.goes_on ≡ false }
{
    let shift = digits.leading_zeros() - 1;
    Magnitude {
        digits: digits << shift,
        place: place - shift,
        goes_on: false,
    }
}
