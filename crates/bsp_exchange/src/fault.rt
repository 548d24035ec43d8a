//! Why an exchange is refused.

use std::alloc::AllocError;
use std::fmt;

/// Why an exchange is refused: the first that applies (own rules).
#[derive(Clone, Copy, Debug, PartialEq, Eq)]
pub enum ExchangeFault {
    /// The next tag size of the node `rank` is not that of rank 0; it is the lowest such rank.
    TagMismatch { rank: u32 },
    /// The node `rank` did not make the pushes and pops of rank 0; it is the lowest such rank.
    SlotMismatch { rank: u32 },
    /// The request with the number `issue` of the node `rank`, a put or a get, does not keep to its area; it is the first such request
    /// by rank and issue.
    OutsideArea { rank: u32, issue: usize },
}

impl fmt::Display for ExchangeFault {
    ghost use Rattle.std.specs.Prelude.{Some};
    ghost use Rattle.bsp_exchange.specs.Faults.{fault_text};

    ghost output = { λ fault. Some (fault_text fault) };

    fn fmt<W: fmt::Write>(&self, f: &mut fmt::Formatter<W>) -> fmt::Result {
        match self {
            ExchangeFault::TagMismatch { rank } => write!(f, "TagMismatch rank {rank}"),
            ExchangeFault::SlotMismatch { rank } => write!(f, "SlotMismatch rank {rank}"),
            ExchangeFault::OutsideArea { rank, issue } => {
                write!(f, "OutsideArea rank {rank} request {issue}")
            }
        }
    }
}

/// Why no exchange was made.
#[derive(Clone, Copy, Debug, PartialEq, Eq)]
pub enum ExchangeError {
    Fault(ExchangeFault),
    NoMemory,
}

impl From<AllocError> for ExchangeError {
    ghost use Rattle.std.specs.Prelude.{◌≡◌};
    ghost use Rattle.bsp_exchange.specs.declared.fault.ExchangeError.TheVariants.{NoMemory};

    ghost from_gives = { λ _ e. e ≡ NoMemory };

    fn from(_: AllocError) -> ExchangeError {
        ExchangeError::NoMemory
    }
}
