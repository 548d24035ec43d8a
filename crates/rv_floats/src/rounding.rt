//! The rounding modes.

/// A rounding mode of the manual's table 11.1.
#[derive(Clone, Copy, Debug, PartialEq, Eq)]
pub enum Rounding {
    /// RNE: to the nearest, and of two to the even one.
    NearestEven,
    /// RTZ.
    TowardZero,
    /// RDN.
    Down,
    /// RUP.
    Up,
    /// RMM: to the nearest, and of two to the one of larger magnitude.
    NearestAway,
}
