//! The environment calls and their numbers.

ghost use Rattle.std.specs.Prelude.{◌≡◌};
ghost use Rattle.node_core.specs.Calls.{call_of};

/// An environment call, after BSPlib's function of that name (Hill and others, 1998). `Write` and `Read`, output and
/// input, are this machine's own.
#[derive(Clone, Copy)]
pub enum Call {
    End,
    Nprocs,
    Pid,
    Sync,
    PushReg,
    PopReg,
    Put,
    Get,
    Hpput,
    Hpget,
    SetTagsize,
    Send,
    Qsize,
    GetTag,
    Move,
    Abort,
    Write,
    Read,
}

/// The number of the call that reads the clock. A node that has one answers it, and no hart knows it: ticks are its node's.
pub(crate) const CLOCK: u32 = 19;

impl Call {
    /// The call of a number (own rule), which an ECALL finds in a7.
    pub fn of_number(number: u32) -> Option<Call>
        ensures { result ≡ call_of number }
    {
        match number {
            1 => Some(Call::End),
            2 => Some(Call::Nprocs),
            3 => Some(Call::Pid),
            4 => Some(Call::Sync),
            5 => Some(Call::PushReg),
            6 => Some(Call::PopReg),
            7 => Some(Call::Put),
            8 => Some(Call::Get),
            9 => Some(Call::Hpput),
            10 => Some(Call::Hpget),
            11 => Some(Call::SetTagsize),
            12 => Some(Call::Send),
            13 => Some(Call::Qsize),
            14 => Some(Call::GetTag),
            15 => Some(Call::Move),
            16 => Some(Call::Abort),
            17 => Some(Call::Write),
            18 => Some(Call::Read),
            _ => None,
        }
    }
}
