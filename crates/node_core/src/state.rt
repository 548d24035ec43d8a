//! The states of a node, and the faults that stop it. Each displays as its name.

use std::fmt;

/// Why a node was stopped by its own program (own rules).
#[derive(Clone, Copy, Debug, PartialEq, Eq)]
pub enum Fault {
    /// The code at pc is that of no instruction, or of one of floating point and the node has no unit for it, or of one of A and the node
    /// has none of these; or an instruction asks for the rounding mode in frm, and that is none.
    IllegalInstruction,
    /// The two bytes at pc, or the four where their low bits are 11, are not all in memory.
    FetchOutside,
    /// pc is odd, or the address of an instruction of A is no multiple of 4.
    Misaligned,
    /// A load reaches past the memory, also one into x0.
    LoadOutside,
    /// A store reaches past the memory.
    StoreOutside,
    /// An EBREAK.
    Break,
    /// An ECALL with a number of no call.
    UnknownCall,
    /// A rank of no node.
    BadRank,
    /// An operand of a call names a range that reaches past the memory.
    RangeOutside,
    /// An address of no registered area.
    NotRegistered,
    /// More bytes, requests or registrations than a node may have in a superstep.
    TooMuch,
    /// A tag size above the greatest.
    BadSize,
}

impl Fault {
    ghost use Rattle.std.specs.Prelude.{◌≡◌};
    ghost use Rattle.node_core.specs.Names.{fault_name};

    /// Its name in texts for users.
    fn name(self) -> &'static str
        ensures { result.now ≡ fault_name self }
    {
        match self {
            Fault::IllegalInstruction => "IllegalInstruction",
            Fault::FetchOutside => "FetchOutside",
            Fault::Misaligned => "Misaligned",
            Fault::LoadOutside => "LoadOutside",
            Fault::StoreOutside => "StoreOutside",
            Fault::Break => "Break",
            Fault::UnknownCall => "UnknownCall",
            Fault::BadRank => "BadRank",
            Fault::RangeOutside => "RangeOutside",
            Fault::NotRegistered => "NotRegistered",
            Fault::TooMuch => "TooMuch",
            Fault::BadSize => "BadSize",
        }
    }
}

impl fmt::Display for Fault {
    ghost use Rattle.std.specs.Prelude.{Some};
    ghost use Rattle.node_core.specs.Names.{fault_name};

    ghost output = { λ fault. Some (fault_name fault) };

    fn fmt<W: fmt::Write>(&self, f: &mut fmt::Formatter<W>) -> fmt::Result {
        f.write_str(self.name())
    }
}

/// What a node is doing.
#[derive(Clone, Copy, Debug, PartialEq, Eq)]
pub enum State {
    /// Its next step executes the instruction at pc. A node in any other state makes no step.
    Running,
    /// It called `sync`, and waits for the end of the superstep.
    Synced,
    /// It called `end`.
    Ended,
    /// It called `abort`.
    Aborted,
    /// It still ran when its ticks reached the limit.
    Exhausted,
    /// An instruction or a call of its program was at fault. pc is at that instruction.
    Faulted(Fault),
}

impl State {
    ghost use Rattle.std.specs.Prelude.{◌≡◌};
    ghost use Rattle.node_core.specs.Node.{is_running, state_at};

    /// Whether a node in this state steps.
    #[inline]
    pub fn is_running(self) -> bool
        ensures { result ≡ is_running self }
    {
        matches!(self, State::Running)
    }

    /// This state, or `Exhausted` where the node would still run and its ticks have reached their limit.
    #[inline]
    pub(crate) fn at(self, ticks: u64, limit: u64) -> State
        ensures { result ≡ state_at self ticks limit }
    {
        if self.is_running() && ticks == limit {
            State::Exhausted
        } else {
            self
        }
    }
}

impl fmt::Display for State {
    ghost use Rattle.std.specs.Prelude.{Some};
    ghost use Rattle.node_core.specs.Names.{state_name};

    ghost output = { λ state. Some (state_name state) };

    fn fmt<W: fmt::Write>(&self, f: &mut fmt::Formatter<W>) -> fmt::Result {
        match self {
            State::Running => f.write_str("running"),
            State::Synced => f.write_str("synced"),
            State::Ended => f.write_str("ended"),
            State::Aborted => f.write_str("aborted"),
            State::Exhausted => f.write_str("exhausted"),
            State::Faulted(fault) => write!(f, "fault {fault}"),
        }
    }
}
