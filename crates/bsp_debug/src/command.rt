//! The commands of a debugger.

/// What a debugger does with its machine, or reads of it.
#[derive(Clone, Copy)]
pub enum Command {
    /// At most `count` steps of the node of a rank, while it runs. Points are not looked at.
    Step { rank: u32, count: u64 },
    /// At most `count` steps of the node of a rank, while it runs, up to a point. A point at which it stands before the first of them does
    /// not count.
    Run { rank: u32, count: u64 },
    /// Steps of the node of a rank, one at least if it runs, until it stops, or stands at the address `addr` with a stack pointer that is
    /// `sp` or above, or at a point. [`Debugger::over`](crate::Debugger::over) says of a call to where it returns.
    Return { rank: u32, addr: u32, sp: u32 },
    /// Each running node in rank order until it stops. Points are not looked at.
    Phase,
    /// The turn, if no node runs.
    Turn,
    /// Each running node in rank order until it stops, then the turn, and again, until a point or the outcome is met. A point
    /// that stands before the command's first event does not count.
    Go,
    /// The registers of the node of a rank, its pc, its ticks and its state.
    Regs { rank: u32 },
    /// The registers of floating point of the node of a rank, and its fcsr.
    Fregs { rank: u32 },
    /// `len` bytes of the memory of the node of a rank, from the address `addr` on.
    Bytes { rank: u32, addr: u32, len: u32 },
    /// The messages that the node of a rank has received and not moved yet.
    Queue { rank: u32 },
    /// What the supersteps that are over cost.
    Costs,
}
