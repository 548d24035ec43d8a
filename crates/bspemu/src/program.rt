//! The whole program: from the command line to the exit status.

ghost use Rattle.std.specs.Prelude.{◌≡◌, ◌⊎◌, IfErr, OnOk, map};
ghost use Rattle.clap.specs.Words.{kind_of};
ghost use Rattle.bspemu.specs.Program.{AnswersLines, Ends, EndsOnItsWords, IsAnswer, IsAnswerOfAsm};
ghost use Rattle.bspemu.specs.Program.{IsAnswerOfDebug, IsAnswerOfList, IsDebugError};
ghost use Rattle.bspemu.specs.Program.{IsAnswerOfRun, IsStatusOfKind, NamesFile, answer_of_end, answer_of_session, status_of_answer};

use crate::files::{
    CannotOpen, Source, create, create_beside, open_file, open_image, open_input, open_lines,
};
use crate::options::{
    Action, AsmOptions, DebugOptions, ListOptions, MachineOptions, OutputMode, RunOptions,
    action_of, refusal,
};
use bsp_console::{debug_dialogue, debug_framed, debug_session};
use bsp_session::{
    Outcome, SessionError, asm_session, contested_session, counts_session, exposed_session,
    has_too_many_nodes, list_session, live_session, profile_session, session, status,
};
use clap::Error;
use clap::error::ErrorKind;
use counted_io::Counted;
use std::alloc::{AllocError, Global};
use std::convert::AsStr;
use std::io::{IsTerminal, Read, Write};
use std::rt::{Env, Files};
use std::sync::Wait;
use std::thread::Threads;
use std::{env, fmt, io};

/// The status if the command line is refused.
const REFUSED: u8 = 1;

/// The status if a file can't be opened.
const NOT_OPENED: u8 = 6;

/// Why what was asked for was not done.
#[derive(Clone, Copy)]
pub enum RunError<'a> {
    /// The file at this path can't be opened.
    CannotOpen(&'a str),
    Session(SessionError),
}

impl fmt::Display for RunError<'_> {
    ghost use Rattle.bspemu.specs.Program.{text_of_error};

    ghost output = { text_of_error };

    fn fmt<W: fmt::Write>(&self, f: &mut fmt::Formatter<W>) -> fmt::Result {
        match self {
            RunError::CannotOpen(path) => write!(f, "cannot open {path}"),
            RunError::Session(error) => write!(f, "{error}"),
        }
    }
}

impl<'a> From<CannotOpen<'a>> for RunError<'a> {
    ghost use Rattle.bspemu.specs.declared.program.RunError.TheVariants.{CannotOpen};

    ghost from_gives = { λ e r. r ≡ CannotOpen e.0 };

    fn from(error: CannotOpen<'a>) -> RunError<'a> {
        RunError::CannotOpen(error.0)
    }
}

/// Does what the command line asks for, and gives the exit status.
pub fn program<
    R: AllocGlobal
        + Env
        + Files
        + Input<Reader: IsTerminal>
        + Print
        + Eprint
        + Threads
        + Wait
        + Sync,
>(rt: &R) -> u8
    ensures { EndsOnItsWords result }
{
    match words(rt) {
        Ok(words) => program_on(rt, words.as_slice()),
        Err(error) => refuse(rt, &error),
    }
}

/// The words of the command line, the program's name first.
fn words<R: AllocGlobal + Env>(rt: &R) -> Result<Vec<String>, Error>
    ensures { IfErr result (λ e. (kind_of e ≡ ErrorKind.OutOfMemory) ⊎ (kind_of e ≡ ErrorKind.ValueValidation)) }
{
    match env::args(rt) {
        Ok(words) => Ok(words.collect(rt.alloc())?),
        Err(error) if error.kind() == io::ErrorKind::OutOfMemory => Err(Error::from(AllocError)),
        Err(_) => Err(refusal(
            rt.alloc(),
            ErrorKind::ValueValidation,
            "an argument is not valid UTF-8",
        )?),
    }
}

/// Does what these words ask for, and gives the exit status.
pub fn program_on<
    R: AllocGlobal + Files + Input<Reader: IsTerminal> + Print + Eprint + Threads + Wait + Sync,
    S: AsStr,
>(rt: &R, words: &[S]) -> u8
    ensures { Ends (map S.text words.now) result }
{
    match action_of(rt.alloc(), words) {
        Ok(action) => finish(rt, perform(rt, &action)),
        Err(error) => refuse(rt, &error),
    }
}

/// Does what was asked for. A listing, a saved image and lines that were answered count as ended.
fn perform<'a, R: AllocGlobal + Files + Input<Reader: IsTerminal> + Print + Threads + Wait + Sync>(
    rt: &R,
    action: &Action<'a>,
) -> Result<Outcome, RunError<'a>>
    ensures { IsAnswer action.now result }
{
    match action {
        Action::Run(options) => run(rt, options),
        Action::Debug(options) => debug(rt, options),
        Action::List(options) => list(rt, options),
        Action::Asm(options) => assemble(rt, options),
    }
}

/// What a machine is run on, opened.
#[derive(Drop)]
struct Streams<F, I> {
    image: Counted<Source<F, I>>,
    input: Counted<Source<F, I>>,
}

/// Opens what the options name, first the image.
#[inline(never)]
fn open_streams<'a, R: Files + Input>(
    rt: &R,
    options: &MachineOptions<'a>,
) -> Result<Streams<R::File, R::Reader>, CannotOpen<'a>>
    ensures { IfErr result (λ e. NamesFile options.now e.0) }
{
    let image = Counted::new(open_image(rt, options.image)?);
    let input = Counted::new(open_input(rt, options.input)?);
    Ok(Streams { image, input })
}

/// Opens what the options name, and runs the session that tells of the run as they say.
#[inline(never)]
fn run<'a, R: AllocGlobal + Files + Input + Print + Threads + Wait + Sync>(
    rt: &R,
    options: &RunOptions<'a>,
) -> Result<Outcome, RunError<'a>>
    ensures { IsAnswerOfRun options.now.machine options.now.output_mode result }
{
    let mut streams = open_streams(rt, &options.machine)?;
    run_on(rt, options, &mut streams)
}

/// Runs the session that tells of the run as the options say, on what they name.
fn run_on<'a, R: AllocGlobal + Files + Input + Print + Threads + Wait + Sync>(
    rt: &R,
    options: &RunOptions<'a>,
    streams: &mut Streams<R::File, R::Reader>,
) -> Result<Outcome, RunError<'a>>
    ensures { IsAnswerOfRun options.now.machine options.now.output_mode result }
{
    let machine = &options.machine;
    match options.output_mode {
        OutputMode::AtEnd => run_to_end(rt, machine, streams),
        OutputMode::Live => run_live(rt, machine, streams),
        OutputMode::WithProfile(path) => run_profiled(rt, machine, path, streams),
        OutputMode::WithCounts(path) => run_counted(rt, machine, path, streams),
        OutputMode::WithContested(path) => run_contested(rt, machine, path, streams),
        OutputMode::WithExposed(path) => run_exposed(rt, machine, path, streams),
    }
}

/// Runs the session that writes at its end.
#[inline(never)]
fn run_to_end<'a, R: AllocGlobal + Files + Input + Print + Threads + Wait + Sync>(
    rt: &R,
    options: &MachineOptions<'a>,
    streams: &mut Streams<R::File, R::Reader>,
) -> Result<Outcome, RunError<'a>>
    ensures { IsAnswerOfRun options.now OutputMode.AtEnd result }
{
    let mut out = Counted::new(io::writer(rt));
    answer_of(session(
        rt,
        rt.alloc(),
        &mut streams.image,
        &mut streams.input,
        &options.job,
        &mut out,
    ))
}

/// The same with the session that writes while the run goes on.
#[inline(never)]
fn run_live<'a, R: AllocGlobal + Files + Input + Print + Threads + Wait + Sync>(
    rt: &R,
    options: &MachineOptions<'a>,
    streams: &mut Streams<R::File, R::Reader>,
) -> Result<Outcome, RunError<'a>>
    ensures { IsAnswerOfRun options.now OutputMode.Live result }
{
    let mut out = Counted::new(io::writer(rt));
    answer_of(live_session(
        rt,
        rt.alloc(),
        &mut streams.image,
        &mut streams.input,
        &options.job,
        &mut out,
    ))
}

/// Creates the file of the profile, or empties it, and runs the session. That file may be neither the image nor the input. If the machine
/// has too many nodes for a profile, the file is left as it is.
#[inline(never)]
fn run_profiled<'a, R: AllocGlobal + Files + Input + Print + Threads + Wait + Sync>(
    rt: &R,
    options: &MachineOptions<'a>,
    path: &'a str,
    streams: &mut Streams<R::File, R::Reader>,
) -> Result<Outcome, RunError<'a>>
    ensures { IsAnswerOfRun options.now (OutputMode.WithProfile path.entry) result }
{
    if has_too_many_nodes(&options.job) {
        return Err(RunError::Session(SessionError::TooManyNodes));
    }
    let mut profile = Counted::new(create_beside(
        rt,
        path,
        streams.image.inner(),
        streams.input.inner(),
    )?);
    let mut out = Counted::new(io::writer(rt));
    answer_of(profile_session(
        rt,
        rt.alloc(),
        &mut streams.image,
        &mut streams.input,
        &options.job,
        &mut out,
        &mut profile,
    ))
}

/// The same with the counts of the run, which is made in this thread alone.
#[inline(never)]
fn run_counted<'a, R: AllocGlobal + Files + Input + Print>(
    rt: &R,
    options: &MachineOptions<'a>,
    path: &'a str,
    streams: &mut Streams<R::File, R::Reader>,
) -> Result<Outcome, RunError<'a>>
    ensures { IsAnswerOfRun options.now (OutputMode.WithCounts path.entry) result }
{
    let mut counts = Counted::new(create_beside(
        rt,
        path,
        streams.image.inner(),
        streams.input.inner(),
    )?);
    let mut out = Counted::new(io::writer(rt));
    answer_of(counts_session(
        rt.alloc(),
        &mut streams.image,
        &mut streams.input,
        &options.job,
        &mut out,
        &mut counts,
    ))
}

/// The same with what is contested in the run.
#[inline(never)]
fn run_contested<'a, R: AllocGlobal + Files + Input + Print + Threads + Wait + Sync>(
    rt: &R,
    options: &MachineOptions<'a>,
    path: &'a str,
    streams: &mut Streams<R::File, R::Reader>,
) -> Result<Outcome, RunError<'a>>
    ensures { IsAnswerOfRun options.now (OutputMode.WithContested path.entry) result }
{
    let mut contested = Counted::new(create_beside(
        rt,
        path,
        streams.image.inner(),
        streams.input.inner(),
    )?);
    let mut out = Counted::new(io::writer(rt));
    answer_of(contested_session(
        rt,
        rt.alloc(),
        &mut streams.image,
        &mut streams.input,
        &options.job,
        &mut out,
        &mut contested,
    ))
}

/// The same with what the calls of the run expose, which is made in this thread alone.
#[inline(never)]
fn run_exposed<'a, R: AllocGlobal + Files + Input + Print>(
    rt: &R,
    options: &MachineOptions<'a>,
    path: &'a str,
    streams: &mut Streams<R::File, R::Reader>,
) -> Result<Outcome, RunError<'a>>
    ensures { IsAnswerOfRun options.now (OutputMode.WithExposed path.entry) result }
{
    let mut exposed = Counted::new(create_beside(
        rt,
        path,
        streams.image.inner(),
        streams.input.inner(),
    )?);
    let mut out = Counted::new(io::writer(rt));
    answer_of(exposed_session(
        rt.alloc(),
        &mut streams.image,
        &mut streams.input,
        &options.job,
        &mut out,
        &mut exposed,
    ))
}

/// The answer of a session.
fn answer_of<'a>(answer: Result<Outcome, SessionError>) -> Result<Outcome, RunError<'a>>
    ensures { result ≡ answer_of_session answer }
{
    match answer {
        Ok(outcome) => Ok(outcome),
        Err(error) => Err(RunError::Session(error)),
    }
}

/// The answer of a session that has no outcome: it counts as ended.
fn ended<'a>(answer: Result<(), SessionError>) -> Result<Outcome, RunError<'a>>
    ensures { result ≡ answer_of_end answer }
{
    match answer {
        Ok(()) => Ok(Outcome::Ended),
        Err(error) => Err(RunError::Session(error)),
    }
}

/// Opens what the options name, first the image, and answers the lines of standard input: as they come if they are typed at a terminal, or
/// the options say so. Whether there is a standard input shows only before a file is open.
#[inline(never)]
fn debug<'a, R: AllocGlobal + Files + Input<Reader: IsTerminal> + Print>(
    rt: &R,
    options: &DebugOptions<'a>,
) -> Result<Outcome, RunError<'a>>
    ensures { IsAnswerOfDebug options.now result }
{
    let machine = &options.machine;
    let mut lines = Counted::new(open_lines(rt, machine.image));
    let at_terminal = lines.inner().is_terminal();
    let mut streams = open_streams(rt, machine)?;
    let mut out = Counted::new(io::writer(rt));
    ended(answer_lines(
        rt.alloc(),
        &mut streams.image,
        &mut streams.input,
        options,
        &mut lines,
        &mut out,
        at_terminal,
    ))
}

/// Answers lines with a debugger: in frames, as they come, or as a script.
fn answer_lines<I: Read, R: Read, C: Read, W: Write>(
    alloc: Global,
    image: &mut Counted<I>,
    input: &mut Counted<R>,
    options: &DebugOptions<'_>,
    lines: &mut Counted<C>,
    out: &mut Counted<W>,
    at_terminal: bool,
) -> Result<(), SessionError>
    ensures ok { OnOk result (AnswersLines options.now.framed options.now.machine.job) }
    ensures err { IfErr result (IsDebugError options.now.framed options.now.machine.job) }
{
    let job = &options.machine.job;
    let is_framed = options.framed;
    let is_dialogue = options.interactive || at_terminal;
    if is_framed {
        debug_framed(alloc, image, input, job, lines, out)
    } else if is_dialogue {
        debug_dialogue(alloc, image, input, job, lines, out)
    } else {
        debug_session(alloc, image, input, job, lines, out)
    }
}

/// Opens the image, and writes its listing.
#[inline(never)]
fn list<'a, R: AllocGlobal + Files + Input + Print>(
    rt: &R,
    options: &ListOptions<'a>,
) -> Result<Outcome, RunError<'a>>
    ensures { IsAnswerOfList options.now result }
{
    let mut image = Counted::new(open_image(rt, options.image)?);
    let mut out = Counted::new(io::writer(rt));
    ended(list_session(
        rt.alloc(),
        options.format,
        options.extensions,
        &mut image,
        &mut out,
    ))
}

/// Opens the text, creates the file of the image, or empties it, and saves the text's image there. The two may not be one file.
#[inline(never)]
fn assemble<'a, R: AllocGlobal + Files + Input>(
    rt: &R,
    options: &AsmOptions<'a>,
) -> Result<Outcome, RunError<'a>>
    ensures { IsAnswerOfAsm options.now result }
{
    let text = open_file(rt, options.text)?;
    let mut image = Counted::new(create(rt, options.image, &text)?);
    let mut text = Counted::new(text);
    ended(asm_session(rt.alloc(), options.extensions, &mut text, &mut image))
}

/// The status of an answer, after a line on standard error if it has no outcome.
fn finish<R: Eprint>(rt: &R, answer: Result<Outcome, RunError<'_>>) -> u8
    ensures { result ≡ status_of_answer answer.entry }
{
    match answer {
        Ok(outcome) => status(&Ok(outcome)),
        Err(error) => {
            let _ = eprintln!(rt; "bspemu: {error}");
            match error {
                RunError::CannotOpen(_) => NOT_OPENED,
                RunError::Session(error) => status(&Err(error)),
            }
        }
    }
}

/// The status if the words ask for no run, after clap's text: on standard output if it is help or the version that was asked for, and
/// otherwise on standard error.
fn refuse<R: Print + Eprint>(rt: &R, error: &Error) -> u8
    ensures { IsStatusOfKind (kind_of error.now) result }
{
    match error.kind() {
        ErrorKind::OutOfMemory => finish(rt, Err(RunError::Session(SessionError::NoMemory))),
        ErrorKind::DisplayHelp | ErrorKind::DisplayVersion => match rt.print(error) {
            Ok(()) => 0,
            Err(_) => finish(rt, Err(RunError::Session(SessionError::WriteFault))),
        },
        _ => {
            let _ = rt.eprint(error);
            REFUSED
        }
    }
}
