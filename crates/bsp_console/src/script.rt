//! The session that reads its whole script first.

ghost use Rattle.std.specs.Prelude.{◌≡◌, ◌≢◌, ◌<◌, ◌↔◌, ◌∷◌, [], length, Some, None, IfErr, IfSome, OnOk, IsErrOf};
ghost use Rattle.std.specs.Option.{option_map_or};
ghost use Rattle.bsp_session.specs.declared.errors.BadSetting.{BadSetting as BadSettingCause};
ghost use Rattle.bsp_session.specs.Streams.{stream};
ghost use Rattle.bsp_console.specs.Talk.{answered_lines, lines_of, plain};
ghost use Rattle.bsp_console.specs.Console.{WritesReplies, console_fault, console_of};
ghost use Rattle.bsp_console.specs.Script.{AnswersScript, IsErrorOfReplies, IsErrorOfScript};

use crate::answer::{answer_to, is_quit};
use crate::manner::Manner;
use crate::start::{debugger_of, read_files};
use bsp_debug::Debugger;
use bsp_session::{Job, SessionError};
use counted_io::{Counted, read_at_most};
use debug_lines::parse_line;
use std::alloc::Allocator;
use std::io::{Read, Write};

/// The most bytes of a script (own rule).
pub(crate) const SCRIPT_BYTES: usize = 1 << 20;

/// Makes a machine of the program that `image` gives and of the bytes of `input`, and answers the lines of the script `commands` with a
/// debugger of it, up to the first line that is `quit`, or to the last: each reply is written to `out` as it is given. All three are read
/// to their ends first. Of the job the workers, the slice and the report are not looked at.
///
/// # Errors
/// That of the first stage that failed:
///
/// 1. [`SessionError::BadSettings`], for the first bad setting of nodes, memory and limit. Nothing was read.
/// 2. [`SessionError::TooLong`] or [`SessionError::ReadFault`] of the image. Nothing of the input and of the script was read.
/// 3. The same two of the input. Nothing of the script was read.
/// 4. The same two of the script, of which at most 2^20 bytes are taken, also if a `quit` stands early in it.
/// 5. [`SessionError::Text`], [`SessionError::BadImage`] or [`SessionError::SegmentOutside`], if there is no machine.
/// 6. [`SessionError::WriteFault`]: the replies to some first lines were written, and of the next one some first bytes, and not all.
///
/// [`SessionError::NoMemory`] is answered if a request for memory was refused, also by a command. The replies before that stand written,
/// whole; the line at which it was refused has none.
pub fn debug_session<A: Allocator + Copy, I: Read, R: Read, C: Read, W: Write>(
    alloc: A,
    image: &mut Counted<I>,
    input: &mut Counted<R>,
    job: &Job,
    commands: &mut Counted<C>,
    out: &mut Counted<W>,
) -> Result<(), SessionError>
    ensures ok { OnOk result (AnswersScript (console_of (stream I.remaining image.old image.new)
        (stream R.remaining input.old input.new) (stream C.remaining commands.old commands.new)
        (stream W.contents out.old out.new) job.now)) }
    ensures err { IfErr result (IsErrorOfScript (console_of (stream I.remaining image.old image.new)
        (stream R.remaining input.old input.new) (stream C.remaining commands.old commands.new)
        (stream W.contents out.old out.new) job.now)) }
    ensures bad_settings { (cause : BadSettingCause)
        → IsErrOf result (SessionError.BadSettings cause)
        ↔ (console_fault job.now ≡ Some (SessionError.BadSettings cause)) }
    // Where nothing was read or written by the clauses above, the whole reader or writer is as it was.
    ensures settings_first { console_fault job.now ≢ None → (image.new ≡ image.old)
        × (input.new ≡ input.old) × (commands.new ≡ commands.old) × (out.new ≡ out.old) }
    ensures nothing_written { IfErr result (λ e. e ≢ SessionError.WriteFault
        → e ≢ SessionError.NoMemory → out.new ≡ out.old) }
{
    let (file, input) = read_files(alloc, image, input, job)?;
    let script = read_at_most(alloc, commands, SCRIPT_BYTES)?;
    let mut debugger = debugger_of(alloc, job, file.as_slice(), input)?;
    answer_script(alloc, &mut debugger, job, script.as_slice(), out)
}

/// Answers the lines of a script one after another, up to the first that is `quit`, or to the last.
fn answer_script<A: Allocator + Copy, W: Write>(
    alloc: A,
    debugger: &mut Debugger<A>,
    job: &Job,
    script: &[u8],
    out: &mut Counted<W>,
) -> Result<(), SessionError>
    ensures ok { OnOk result (WritesReplies (plain job.now) (answered_lines script.now)
        debugger.old (stream W.contents out.old out.new)) }
    ensures err { IfErr result (IsErrorOfReplies (plain job.now) (answered_lines script.now)
        debugger.old (stream W.contents out.old out.new)) }
{
    let mut rest = Some(script);
    'lines: while let Some(text) = rest {
        let (line, after) = split_line(text);
        let line = parse_line(line);
        if is_quit(line) {
            return Ok(());
        }
        answer_to(alloc, debugger, line, job, Manner::Script, out)?;
        rest = after;
    }
    Ok(())
}

/// The first line of a text, and what is after its line feed, if it has one.
fn split_line(text: &[u8]) -> (&[u8], Option<&[u8]>)
    ensures lines { lines_of text.now
        ≡ result.0.now ∷ option_map_or (λ rest. lines_of rest.now) result.1 [] }
    ensures shorter { IfSome result.1 (λ rest. length rest.now < length text.now) }
{
    for (at, byte) in text.iter().enumerate() {
        if *byte == b'\n' {
            return (&text[..at], Some(&text[at + 1..]));
        }
    }
    (text, None)
}
