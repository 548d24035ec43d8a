//! The answers to lines that have no reply, such as refusals.

ghost use Rattle.std.specs.Prelude.{◌≡◌};
ghost use Rattle.debug_lines.specs.Verdicts.{advice};

use crate::help::Usage;
use crate::topic::Topic;
use bsp_debug::DebugError;
use std::fmt;

/// What a line is answered that no [`Reply`](bsp_debug::Reply) answers. It displays as a line, with the line feed that ends it.
#[derive(Clone, Copy)]
pub enum Verdict {
    /// It was done, as a point was set or the machine brought back: `ok`.
    Done,
    /// The state of the machine is kept under this number: `kept 0`.
    Kept(u64),
    /// The debugger refused it: `refused: BadRank`.
    Refused(DebugError),
    /// It asks for nothing that there is: `refused: BadCommand`.
    BadCommand,
    /// It has the first word of these lines, and is none of them: `refused: BadCommand: the line is over RANK`.
    Misused(Topic),
    /// It has the first word of no line: `refused: BadCommand: there is no such line; help lists the lines`.
    NoLine,
}

impl fmt::Display for Verdict {
    ghost use Rattle.std.specs.Prelude.{Some};
    ghost use Rattle.debug_lines.specs.Verdicts.{verdict_text};

    ghost output = { λ verdict. Some (verdict_text verdict) };

    fn fmt<W: fmt::Write>(&self, f: &mut fmt::Formatter<W>) -> fmt::Result {
        match self {
            Verdict::Done => write!(f, "ok\n"),
            Verdict::Kept(number) => write!(f, "kept {number}\n"),
            Verdict::Refused(error) => {
                let advice = advice_on(*error);
                write!(f, "refused: {error}{advice}\n")
            }
            Verdict::BadCommand => write!(f, "refused: BadCommand\n"),
            Verdict::Misused(topic) => {
                write!(f, "refused: BadCommand: the line is {}\n", Usage(*topic))
            }
            Verdict::NoLine => write!(
                f,
                "refused: BadCommand: there is no such line; help lists the lines\n"
            ),
        }
    }
}

/// What is told after the name of a refusal.
fn advice_on(error: DebugError) -> &'static str
    ensures { result.now ≡ advice error }
{
    match error {
        DebugError::NoFloatUnit => ": nodes have one with --float",
        DebugError::BadRank
        | DebugError::BadRange
        | DebugError::TooMany
        | DebugError::NoSuchBreak
        | DebugError::NoSuchKept
        | DebugError::Over
        | DebugError::NoMemory => "",
    }
}
