//! How a machine ends.

use bsp_exchange::ExchangeFault;
use node_core::State;
use std::fmt;

/// How a machine ended (own rules).
#[derive(Clone, Copy, Debug, PartialEq, Eq)]
pub enum Outcome {
    /// Each node called `end`.
    Ended,
    /// Some node was stopped, by a fault, by its own `abort` or by the limit of ticks: the lowest rank of these nodes, and
    /// its state.
    NodeStopped { rank: u32, state: State },
    /// Some nodes ended while others waited for the end of the superstep: the lowest rank of each kind.
    Desync { ended: u32, synced: u32 },
    /// Each node waited for the end of the superstep, and the exchange was refused.
    Refused(ExchangeFault),
}

impl fmt::Display for Outcome {
    ghost use Rattle.std.specs.Prelude.{Some};
    ghost use Rattle.machine_core.specs.Outcome.{outcome_text};

    ghost output = { λ outcome. Some (outcome_text outcome) };

    fn fmt<W: fmt::Write>(&self, f: &mut fmt::Formatter<W>) -> fmt::Result {
        match self {
            Outcome::Ended => write!(f, "ended"),
            Outcome::NodeStopped { rank, state } => write!(f, "rank {rank} stopped: {state}"),
            Outcome::Desync { ended, synced } => {
                write!(f, "desync: rank {ended} ended, rank {synced} synced")
            }
            Outcome::Refused(fault) => write!(f, "refused: {fault}"),
        }
    }
}
