//! Why a machine cannot be made.

use std::alloc::AllocError;

/// Why no machine was made, in the order in which the causes are tried (own rules).
#[derive(Clone, Copy, Debug, PartialEq, Eq)]
pub enum MachineError {
    /// The number of nodes is not 1 to 1,024.
    BadNodes,
    /// The bytes of a node's memory are not 4,096 to 16,777,216, or no multiple of 4,096.
    BadMemory,
    /// The limit of ticks is not 1 to 2^40.
    BadLimit,
    /// A part of the image lies past the memory of a node.
    SegmentOutside,
    /// A request for memory was refused.
    NoMemory,
}

impl From<AllocError> for MachineError {
    ghost use Rattle.std.specs.Prelude.{◌≡◌};
    ghost use Rattle.machine_core.specs.declared.error.MachineError.TheVariants.{NoMemory};

    ghost from_gives = { λ _ e. e ≡ NoMemory };

    fn from(_: AllocError) -> MachineError {
        MachineError::NoMemory
    }
}
