//! Why a debugger refuses a command.

use std::alloc::AllocError;
use std::fmt;

/// Why a debugger refused what it was asked for. If several apply the first in this order is answered.
#[derive(Clone, Copy, Debug)]
pub enum DebugError {
    /// There is no node of this rank.
    BadRank,
    /// The range does not lie in the node's memory.
    BadRange,
    /// The node has no unit of floating point.
    NoFloatUnit,
    /// As many points are set as can be, 1,024.
    TooMany,
    /// The point is not set.
    NoSuchBreak,
    /// No state is kept under the number.
    NoSuchKept,
    /// The machine has its outcome.
    Over,
    /// A request for memory was refused.
    NoMemory,
}

impl fmt::Display for DebugError {
    ghost use Rattle.std.specs.Prelude.{Some};
    ghost use Rattle.bsp_debug.specs.Errors.{name_of};

    ghost output = { λ error. Some (name_of error) };

    fn fmt<W: fmt::Write>(&self, f: &mut fmt::Formatter<W>) -> fmt::Result {
        f.write_str(match self {
            DebugError::BadRank => "BadRank",
            DebugError::BadRange => "BadRange",
            DebugError::NoFloatUnit => "NoFloatUnit",
            DebugError::TooMany => "TooMany",
            DebugError::NoSuchBreak => "NoSuchBreak",
            DebugError::NoSuchKept => "NoSuchKept",
            DebugError::Over => "Over",
            DebugError::NoMemory => "NoMemory",
        })
    }
}

impl From<AllocError> for DebugError {
    ghost use Rattle.std.specs.Prelude.{◌≡◌};
    ghost use Rattle.bsp_debug.specs.declared.error.DebugError.TheVariants.{NoMemory};

    ghost from_gives = { λ _ e. e ≡ NoMemory };

    fn from(_refused: AllocError) -> DebugError {
        DebugError::NoMemory
    }
}
