//! The sessions that read each line when they need it: the dialogue and the framed session.

ghost use Rattle.std.specs.Prelude.{◌≡◌, ◌≢◌, ◌≤◌, ◌⊎◌, ◌↔◌, ℕ, List, length, take, Some, None, IfErr, OnOk, IsErrOf};
ghost use Rattle.std.specs.Io.KnownBytes.{Appends};
ghost use Rattle.counted_io.specs.Counted.{HasRisen};
ghost use Rattle.bsp_session.specs.declared.errors.BadSetting.{BadSetting as BadSettingCause};
ghost use Rattle.bsp_session.specs.Streams.{stream};
ghost use Rattle.bsp_console.specs.Console.{RefusesImage, console_fault, console_of};
ghost use Rattle.bsp_console.specs.Dialogue.{AnsweredIn, AnswersDialogue, AnswersFramed, AnswersTalk, HasTalked};
ghost use Rattle.bsp_console.specs.Dialogue.{IsErrorOfDialogue, IsErrorOfFramed, IsErrorOfTalk, IsErrorOfTalking, says_in};

use crate::answer::{answer_to, is_quit};
use crate::manner::{Manner, parse_in};
use crate::script::SCRIPT_BYTES;
use crate::start::{debugger_of, read_files};
use bsp_debug::Debugger;
use bsp_session::{Job, SessionError};
use counted_io::{Counted, LineReader, flush_whole};
use debug_lines::Line;
use std::alloc::Allocator;
use std::io::{Read, Write};

/// Makes a machine of the program that `image` gives and of the bytes of `input`, and answers the lines of `commands` with a debugger of
/// it: each is read when it is wanted, done, and answered to `out`, which is flushed, before the next one is read. It ends at a line
/// `quit`, or at the end of the lines. The image and the input are read to their ends first. Of the job the workers, the slice and the
/// report are not looked at. It has some lines more than a script: those that keep states and go back to them, and more that show where the
/// machine is and what its nodes have. If words are those of no line, the refusal tells what would be.
///
/// # Errors
/// That of the first stage that failed:
///
/// 1. [`SessionError::BadSettings`], for the first bad setting of nodes, memory and limit. Nothing was read.
/// 2. [`SessionError::TooLong`] or [`SessionError::ReadFault`] of the image. Nothing of the input and of the lines was read.
/// 3. The same two of the input. Nothing of the lines was read.
/// 4. [`SessionError::Text`], [`SessionError::BadImage`] or [`SessionError::SegmentOutside`], if there is no machine. Nothing of the lines
///   was read.
/// 5. [`SessionError::TooLong`] or [`SessionError::ReadFault`] of the lines, of which at most 2^20 bytes are taken, once all lines that
///   were read whole are answered. [`SessionError::WriteFault`]: the replies to some first lines were written, and of the next one some
///   first bytes, or all, if it could not be flushed.
///
/// [`SessionError::NoMemory`] is answered if a request for memory was refused, also by a command. The replies before that stand written,
/// whole; a line at which it was refused has none.
pub fn debug_dialogue<A: Allocator + Copy, I: Read, R: Read, C: Read, W: Write>(
    alloc: A,
    image: &mut Counted<I>,
    input: &mut Counted<R>,
    job: &Job,
    commands: &mut Counted<C>,
    out: &mut Counted<W>,
) -> Result<(), SessionError>
    ensures ok { OnOk result (AnswersDialogue (console_of (stream I.remaining image.old image.new)
        (stream R.remaining input.old input.new) (stream C.remaining commands.old commands.new)
        (stream W.contents out.old out.new) job.now)) }
    ensures err { IfErr result (IsErrorOfDialogue (console_of (stream I.remaining image.old image.new)
        (stream R.remaining input.old input.new) (stream C.remaining commands.old commands.new)
        (stream W.contents out.old out.new) job.now)) }
    ensures bad_settings { (cause : BadSettingCause)
        → IsErrOf result (SessionError.BadSettings cause)
        ↔ (console_fault job.now ≡ Some (SessionError.BadSettings cause)) }
    // Where nothing was read or written by the clauses above, the whole reader or writer is as it was.
    ensures settings_first { console_fault job.now ≢ None → (image.new ≡ image.old)
        × (input.new ≡ input.old) × (commands.new ≡ commands.old) × (out.new ≡ out.old) }
    ensures no_lines { IfErr result (λ e. RefusesImage e
        → (commands.new ≡ commands.old) × (out.new ≡ out.old)) }
{
    talk(alloc, image, input, job, Manner::Dialogue, commands, out)
}

/// Does what [`debug_dialogue`] does, in frames: a header comes before each reply, and says whether the line was refused and how many
/// lines the reply has. It has some lines more: `nodes`, `output FROM` and `costs FROM`.
///
/// # Errors
/// Those of [`debug_dialogue`], in the same order. The header is part of the reply.
pub fn debug_framed<A: Allocator + Copy, I: Read, R: Read, C: Read, W: Write>(
    alloc: A,
    image: &mut Counted<I>,
    input: &mut Counted<R>,
    job: &Job,
    commands: &mut Counted<C>,
    out: &mut Counted<W>,
) -> Result<(), SessionError>
    ensures ok { OnOk result (AnswersFramed (console_of (stream I.remaining image.old image.new)
        (stream R.remaining input.old input.new) (stream C.remaining commands.old commands.new)
        (stream W.contents out.old out.new) job.now)) }
    ensures err { IfErr result (IsErrorOfFramed (console_of (stream I.remaining image.old image.new)
        (stream R.remaining input.old input.new) (stream C.remaining commands.old commands.new)
        (stream W.contents out.old out.new) job.now)) }
    ensures bad_settings { (cause : BadSettingCause)
        → IsErrOf result (SessionError.BadSettings cause)
        ↔ (console_fault job.now ≡ Some (SessionError.BadSettings cause)) }
    // Where nothing was read or written by the clauses above, the whole reader or writer is as it was.
    ensures settings_first { console_fault job.now ≢ None → (image.new ≡ image.old)
        × (input.new ≡ input.old) × (commands.new ≡ commands.old) × (out.new ≡ out.old) }
    ensures no_lines { IfErr result (λ e. RefusesImage e
        → (commands.new ≡ commands.old) × (out.new ≡ out.old)) }
{
    talk(alloc, image, input, job, Manner::Framed, commands, out)
}

/// Makes the debugger of an image and an input, and answers lines with it one by one.
fn talk<A: Allocator + Copy, I: Read, R: Read, C: Read, W: Write>(
    alloc: A,
    image: &mut Counted<I>,
    input: &mut Counted<R>,
    job: &Job,
    manner: Manner,
    commands: &mut Counted<C>,
    out: &mut Counted<W>,
) -> Result<(), SessionError>
    ensures ok { OnOk result (AnswersTalk (says_in manner) (console_of (stream I.remaining image.old image.new)
        (stream R.remaining input.old input.new) (stream C.remaining commands.old commands.new)
        (stream W.contents out.old out.new) job.now)) }
    ensures err { IfErr result (IsErrorOfTalking (says_in manner) (console_of (stream I.remaining image.old image.new)
        (stream R.remaining input.old input.new) (stream C.remaining commands.old commands.new)
        (stream W.contents out.old out.new) job.now)) }
    ensures bad_settings { (cause : BadSettingCause)
        → IsErrOf result (SessionError.BadSettings cause)
        ↔ (console_fault job.now ≡ Some (SessionError.BadSettings cause)) }
    ensures settings_first { console_fault job.now ≢ None → (image.new ≡ image.old)
        × (input.new ≡ input.old) × (commands.new ≡ commands.old) × (out.new ≡ out.old) }
    ensures no_lines { IfErr result (λ e. RefusesImage e
        → (commands.new ≡ commands.old) × (out.new ≡ out.old)) }
{
    let (file, input) = read_files(alloc, image, input, job)?;
    let mut debugger = debugger_of(alloc, job, file.as_slice(), input)?;
    answer_lines(alloc, &mut debugger, job, manner, commands, out)
}

/// Answers lines one by one as they are read, up to the first that is `quit`, or to the last.
fn answer_lines<A: Allocator + Copy, C: Read, W: Write>(
    alloc: A,
    debugger: &mut Debugger<A>,
    job: &Job,
    manner: Manner,
    commands: &mut Counted<C>,
    out: &mut Counted<W>,
) -> Result<(), SessionError>
    ensures ok { OnOk result (HasTalked (says_in manner job.now)
        (stream C.remaining commands.old commands.new) (stream W.contents out.old out.new) debugger.old) }
    ensures err { IfErr result (IsErrorOfTalk (says_in manner job.now)
        (stream C.remaining commands.old commands.new) (stream W.contents out.old out.new) debugger.old) }
{
    let mut lines = LineReader::new(alloc, SCRIPT_BYTES);
    while lines.next_line(commands)? {
        let line = parse_in(manner, lines.line());
        if is_quit(line) {
            return Ok(());
        }
        answer_at_once(alloc, debugger, line, job, manner, out)?;
    }
    Ok(())
}

/// Answers a line, and sees to it that the reply arrives before the next line is read.
fn answer_at_once<A: Allocator + Copy, W: Write>(
    alloc: A,
    debugger: &mut Debugger<A>,
    line: Line,
    job: &Job,
    manner: Manner,
    out: &mut Counted<W>,
) -> Result<(), SessionError>
    ensures ok { OnOk result ((text : List ℕ)
        × AnsweredIn manner job.now line debugger.old text debugger.new
        × Appends (W.contents out.old.inner) (W.contents out.new.inner) text) }
    ensures err { IfErr result (λ e. ((e ≡ SessionError.NoMemory) × (out.new ≡ out.old))
        ⊎ ((e ≡ SessionError.WriteFault) × HasRisen out.old.failures out.new.failures
        × (text : List ℕ) × (count : ℕ) × (count ≤ length text)
        × AnsweredIn manner job.now line debugger.old text debugger.new
        × Appends (W.contents out.old.inner) (W.contents out.new.inner) (take count text))) }
    ensures never_falls { out.old.failures ≤ out.new.failures }
{
    answer_to(alloc, debugger, line, job, manner, out)?;
    flush_whole(out)?;
    Ok(())
}
