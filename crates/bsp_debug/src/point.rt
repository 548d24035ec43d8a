//! The points at which a debugger stops.

/// A point at which [`Command::Go`](crate::Command::Go) stops.
#[derive(Clone, Copy, Debug, PartialEq, Eq, PartialOrd, Ord)]
pub enum Point {
    /// Before a step of the node of a rank at an address.
    Address { rank: u32, addr: u32 },
    /// After the turn that begins the superstep of a number, from 0.
    Superstep(u64),
}
