//! The events of a machine: a step of a node, or the turn.

/// An event of a machine. One that is not enabled changes nothing.
#[derive(Clone, Copy, Debug, PartialEq, Eq)]
pub enum Event {
    /// One step of the node of a rank; enabled if that node runs.
    Step(u32),
    /// The turn, which ends a superstep; enabled if no node runs and there is no outcome.
    Turn,
}
