//! The faults for which a line is refused.

use std::alloc::{AllocError, AllocFailed};

/// A fault of a line, in the order in which faults count: a line with several has the first of them here.
#[derive(Clone, Copy, Debug, PartialEq, Eq)]
pub enum LineError {
    /// Its bytes are no tokens.
    BadToken,
    /// Its statement does not begin with a mnemonic.
    UnknownMnemonic,
    /// The number or the kind of its operands is not that of its statement.
    BadOperand,
    /// A number is not in the range that its statement asks for.
    OutOfRange,
    /// No fault of the line: memory was refused.
    NoMemory,
}

impl From<AllocError> for LineError {
    ghost use Rattle.std.specs.Prelude.{◌≡◌};
    ghost use Rattle.asm_syntax.specs.declared.error.LineError.TheVariants.{NoMemory};

    ghost from_gives = { λ _ e. e ≡ NoMemory };

    fn from(_: AllocError) -> LineError {
        LineError::NoMemory
    }
}

impl<T: Drop> From<AllocFailed<T>> for LineError {
    ghost use Rattle.std.specs.Prelude.{◌≡◌};
    ghost use Rattle.asm_syntax.specs.declared.error.LineError.TheVariants.{NoMemory};

    ghost from_gives = { λ _ e. e ≡ NoMemory };

    fn from(_: AllocFailed<T>) -> LineError {
        LineError::NoMemory
    }
}
