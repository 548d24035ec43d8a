//! How a session takes lines and writes replies.

ghost use Rattle.std.specs.Prelude.{◌≡◌};
ghost use Rattle.bsp_console.specs.Dialogue.{line_in};

use debug_lines::{Line, parse_dialogue_line, parse_framed_line, parse_line};

/// How a session takes lines and writes replies.
#[derive(Clone, Copy, Debug, PartialEq, Eq)]
pub(crate) enum Manner {
    /// Each reply comes without a header.
    Script,
    /// There are some lines more.
    Dialogue,
    /// There are more lines than in a dialogue, and each reply comes after a header.
    Framed,
}

/// What a line asks for.
pub(crate) fn parse_in(manner: Manner, line: &[u8]) -> Line
    ensures { result ≡ line_in manner line.now }
{
    match manner {
        Manner::Script => parse_line(line),
        Manner::Dialogue => parse_dialogue_line(line),
        Manner::Framed => parse_framed_line(line),
    }
}
