//! The result of an operation: a pattern and its flags.

use rv_float_flags::Flags;

/// A result and the exceptions that were raised.
#[derive(Clone, Copy, Debug, PartialEq, Eq)]
pub struct Rounded {
    /// The pattern, of a single in the lower half.
    pub bits: u64,
    pub flags: Flags,
}
