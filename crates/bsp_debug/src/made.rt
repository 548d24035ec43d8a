//! The events that a command has made.

/// Some events of a machine, one after another.
#[derive(Clone, Copy)]
pub enum Made {
    /// So many steps of the node of a rank, at least one.
    Steps { rank: u32, count: u64 },
    /// The turn, which ended a superstep.
    Turn,
}
