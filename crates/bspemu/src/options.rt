//! What the words of the command line ask for.

ghost use Rattle.std.specs.Prelude.{◌≡◌, IfOk, IfErr, IfNone, IfSome, false, is_some, map, true};
ghost use Rattle.clap.specs.Words.{found_of, kind_of, rows_of, subcommand_rows_of};
ghost use Rattle.bspemu.specs.Options.{AsksFor, AsksForSeveral, Gives, GivesAction, GivesAsmOptions};
ghost use Rattle.bspemu.specs.Options.{GivesClock, GivesDebugOptions, GivesExtensions, GivesLedger, GivesListOptions};
ghost use Rattle.bspemu.specs.Options.{GivesMachineOptions, GivesPrices, GivesRunOptions, GivesSettings};
ghost use Rattle.bspemu.specs.Options.{GivesOutputMode, HasConflict, IsFaultOf, IsLack, IsNeverMet, Tells};
ghost use Rattle.bspemu.specs.Options.{IsFormatFor, are_several, name_of_format, number_of_ledger, text_of};

use crate::command_line::command;
use bsp_session::{Format, Job, LedgerText, Prices, Settings};
use clap::error::ErrorKind;
use clap::{ArgMatches, Error};
use rv_atomics::Extensions;
use std::alloc::{AllocError, Global};
use std::convert::AsStr;

/// How many steps a node makes before it may go to another thread, if there is no other.
const SLICE: u64 = 1 << 16;

const LIVE_AND_PROFILE: &str = "the argument '--live' cannot be used with '--profile <FILE>'";

const LIVE_AND_COUNTS: &str = "the argument '--live' cannot be used with '--counts <FILE>'";

const LIVE_AND_CONTESTED: &str = "the argument '--live' cannot be used with '--contested <FILE>'";

const LIVE_AND_EXPOSED: &str = "the argument '--live' cannot be used with '--exposed <FILE>'";

const PROFILE_AND_COUNTS: &str =
    "the argument '--profile <FILE>' cannot be used with '--counts <FILE>'";

const PROFILE_AND_CONTESTED: &str =
    "the argument '--profile <FILE>' cannot be used with '--contested <FILE>'";

const PROFILE_AND_EXPOSED: &str =
    "the argument '--profile <FILE>' cannot be used with '--exposed <FILE>'";

const COUNTS_AND_CONTESTED: &str =
    "the argument '--counts <FILE>' cannot be used with '--contested <FILE>'";

const COUNTS_AND_EXPOSED: &str =
    "the argument '--counts <FILE>' cannot be used with '--exposed <FILE>'";

const CONTESTED_AND_EXPOSED: &str =
    "the argument '--contested <FILE>' cannot be used with '--exposed <FILE>'";

/// What `bspemu run` and `bspemu debug` have in common.
#[derive(Drop)]
pub struct MachineOptions<'a> {
    /// The file of the program; `-` is standard input.
    pub image: &'a str,
    /// The file of the nodes' input; with none the input is empty.
    pub input: Option<&'a str>,
    pub job: Job,
}

/// What `bspemu run` was asked to do.
#[derive(Drop)]
pub struct RunOptions<'a> {
    pub machine: MachineOptions<'a>,
    pub output_mode: OutputMode<'a>,
}

/// When a run writes its output, and what it writes beside it.
#[derive(Clone, Copy)]
pub enum OutputMode<'a> {
    /// All of the output, once the run has ended.
    AtEnd,
    /// The output of each superstep, once that is over.
    Live,
    /// As at the end, and the profile of the run to this file.
    WithProfile(&'a str),
    /// As at the end, and the counts of the run to this file.
    WithCounts(&'a str),
    /// As at the end, and what is contested in the run to this file.
    WithContested(&'a str),
    /// As at the end, and what the calls of the run expose to this file.
    WithExposed(&'a str),
}

/// What `bspemu debug` was asked to do.
#[derive(Drop)]
pub struct DebugOptions<'a> {
    pub machine: MachineOptions<'a>,
    /// Whether each line is answered before the next one is read, wherever the lines come from.
    pub interactive: bool,
    /// Whether each reply comes after a header.
    pub framed: bool,
}

/// What `bspemu list` was asked to do.
#[derive(Drop)]
pub struct ListOptions<'a> {
    /// The file of the program; `-` is standard input.
    pub image: &'a str,
    pub format: Format,
    /// The extensions whose instructions have their names.
    pub extensions: Extensions,
    /// Whether the file may be as long as one for a large machine.
    pub large: bool,
}

/// What `bspemu asm` was asked to do.
#[derive(Drop)]
pub struct AsmOptions<'a> {
    /// The file of the text.
    pub text: &'a str,
    /// The file to save the image in.
    pub image: &'a str,
    /// The extensions whose statements the text may have.
    pub extensions: Extensions,
}

/// What the command line asks for.
#[derive(Drop)]
pub enum Action<'a> {
    /// Run a program.
    Run(RunOptions<'a>),
    /// Run a program as lines say, and answer them.
    Debug(DebugOptions<'a>),
    /// Write the listing of a program.
    List(ListOptions<'a>),
    /// Assemble a text, and save it.
    Asm(AsmOptions<'a>),
}

/// What the words ask for; the first is the program's name.
///
/// # Errors
/// The text for the user: help if it was asked for, and otherwise what is wrong with the words.
pub fn action_of<'a, S: AsStr>(alloc: Global, words: &'a [S]) -> Result<Action<'a>, Error>
    ensures ok { IfOk result (AsksFor (map S.text words.entry.now)) }
    ensures err { IfErr result (IsFaultOf (map S.text words.entry.now)) }
{
    let matches = command(alloc)?.try_get_matches_from(words)?;
    match action_of_matches(&matches) {
        Some(action) => Ok(action),
        None => {
            let (kind, message) = lack_of_matches(&matches);
            Err(refusal(alloc, kind, message)?)
        }
    }
}

/// Why matches of [`command`] give no action: two ways of telling a run are asked for, or a value is missing.
fn lack_of_matches(matches: &ArgMatches<'_>) -> (ErrorKind, &'static str)
    ensures { IsLack (subcommand_rows_of matches.now) result.0 }
{
    match conflict_of_matches(matches) {
        Some(message) => (ErrorKind::ArgumentConflict, message),
        None => (ErrorKind::MissingSubcommand, "a value is missing"),
    }
}

/// A refusal of the words with this kind and message, in the form of clap's own.
pub fn refusal(alloc: Global, kind: ErrorKind, message: &str) -> Result<Error, AllocError>
    ensures { IfOk result (λ e. kind_of e ≡ kind) }
{
    command(alloc)?.error(kind, message)
}

/// The action among the matches of [`command`], if each of its options has a value.
fn action_of_matches<'a>(matches: &ArgMatches<'a>) -> Option<Action<'a>>
    ensures some { IfSome result (Gives (subcommand_rows_of matches.now)) }
    ensures none { IfNone result (IsNeverMet (Gives (subcommand_rows_of matches.now))) }
{
    let (name, found) = matches.subcommand()?;
    action_named(name, found)
}

/// The action of the subcommand of this name.
fn action_named<'a>(name: &str, found: &ArgMatches<'a>) -> Option<Action<'a>>
    ensures some { IfSome result (GivesAction name.now (rows_of (found_of found.now))) }
    ensures none { IfNone result (IsNeverMet (GivesAction name.now (rows_of (found_of found.now)))) }
{
    match name {
        "run" => Some(Action::Run(options_of_run(found)?)),
        "debug" => Some(Action::Debug(options_of_debug(found)?)),
        "list" => Some(Action::List(options_of_list(found)?)),
        "asm" => Some(Action::Asm(options_of_asm(found)?)),
        _ => None,
    }
}

fn options_of_run<'a>(run: &ArgMatches<'a>) -> Option<RunOptions<'a>>
    ensures some { IfSome result (GivesRunOptions (rows_of (found_of run.now))) }
    ensures none { IfNone result (IsNeverMet (GivesRunOptions (rows_of (found_of run.now)))) }
{
    let workers = run.get_one("workers")?;
    let slice = run.get_one("slice")?;
    let report = run.get_one("report")?;
    Some(RunOptions {
        machine: options_of_machine(run, workers, slice, report)?,
        output_mode: output_mode_of_run(run)?,
    })
}

/// How a run is told, if no more than one way is asked for.
fn output_mode_of_run<'a>(run: &ArgMatches<'a>) -> Option<OutputMode<'a>>
    ensures some { IfSome result (GivesOutputMode (rows_of (found_of run.now))) }
    ensures none { IfNone result (IsNeverMet (GivesOutputMode (rows_of (found_of run.now)))) }
{
    let is_live = run.get_one("live")?;
    output_mode_of(
        is_live,
        run.get_str("profile"),
        run.get_str("counts"),
        run.get_str("contested"),
        run.get_str("exposed"),
    )
}

fn output_mode_of<'a>(
    is_live: bool,
    profile: Option<&'a str>,
    counts: Option<&'a str>,
    contested: Option<&'a str>,
    exposed: Option<&'a str>,
) -> Option<OutputMode<'a>>
    ensures some { IfSome result (Tells is_live (text_of profile.entry) (text_of counts.entry) (text_of contested.entry)
        (text_of exposed.entry)) }
    ensures none { IfNone result (IsNeverMet (Tells is_live (text_of profile.entry) (text_of counts.entry) (text_of contested.entry)
        (text_of exposed.entry))) }
{
    match (is_live, profile, counts, contested, exposed) {
        (false, None, None, None, None) => Some(OutputMode::AtEnd),
        (true, None, None, None, None) => Some(OutputMode::Live),
        (false, Some(path), None, None, None) => Some(OutputMode::WithProfile(path)),
        (false, None, Some(path), None, None) => Some(OutputMode::WithCounts(path)),
        (false, None, None, Some(path), None) => Some(OutputMode::WithContested(path)),
        (false, None, None, None, Some(path)) => Some(OutputMode::WithExposed(path)),
        _ => None,
    }
}

/// What is said of two ways of telling a run that the matches ask for.
fn conflict_of_matches(matches: &ArgMatches<'_>) -> Option<&'static str>
    ensures some { IfSome result (λ message. HasConflict (subcommand_rows_of matches.now)) }
    ensures none { IfNone result (HasConflict (subcommand_rows_of matches.now) → ⊥) }
{
    let (name, found) = matches.subcommand()?;
    match name {
        "run" => conflict_of_run(found),
        _ => None,
    }
}

fn conflict_of_run(run: &ArgMatches<'_>) -> Option<&'static str>
    ensures some { IfSome result (λ message. AsksForSeveral (rows_of (found_of run.now))) }
    ensures none { IfNone result (AsksForSeveral (rows_of (found_of run.now)) → ⊥) }
{
    let is_live = run.get_one("live")?;
    conflict_of(
        is_live,
        run.get_str("profile"),
        run.get_str("counts"),
        run.get_str("contested"),
        run.get_str("exposed"),
    )
}

fn conflict_of(
    is_live: bool,
    profile: Option<&str>,
    counts: Option<&str>,
    contested: Option<&str>,
    exposed: Option<&str>,
) -> Option<&'static str>
    ensures some { IfSome result (λ message. are_several is_live (is_some (text_of profile.entry))
        (is_some (text_of counts.entry)) (is_some (text_of contested.entry)) (is_some (text_of exposed.entry)) ≡ true) }
    ensures none { IfNone result (are_several is_live (is_some (text_of profile.entry))
        (is_some (text_of counts.entry)) (is_some (text_of contested.entry)) (is_some (text_of exposed.entry)) ≡ false) }
{
    match (is_live, profile, counts, contested, exposed) {
        (true, Some(_), _, _, _) => Some(LIVE_AND_PROFILE),
        (true, None, Some(_), _, _) => Some(LIVE_AND_COUNTS),
        (true, None, None, Some(_), _) => Some(LIVE_AND_CONTESTED),
        (true, None, None, None, Some(_)) => Some(LIVE_AND_EXPOSED),
        (false, Some(_), Some(_), _, _) => Some(PROFILE_AND_COUNTS),
        (false, Some(_), None, Some(_), _) => Some(PROFILE_AND_CONTESTED),
        (false, Some(_), None, None, Some(_)) => Some(PROFILE_AND_EXPOSED),
        (false, None, Some(_), Some(_), _) => Some(COUNTS_AND_CONTESTED),
        (false, None, Some(_), None, Some(_)) => Some(COUNTS_AND_EXPOSED),
        (false, None, None, Some(_), Some(_)) => Some(CONTESTED_AND_EXPOSED),
        _ => None,
    }
}

/// A debugger has no other thread, and tells costs if a line asks for them.
fn options_of_debug<'a>(debug: &ArgMatches<'a>) -> Option<DebugOptions<'a>>
    ensures some { IfSome result (GivesDebugOptions (rows_of (found_of debug.now))) }
    ensures none { IfNone result (IsNeverMet (GivesDebugOptions (rows_of (found_of debug.now)))) }
{
    let interactive = debug.get_one("interactive")?;
    let framed = debug.get_one("framed")?;
    Some(DebugOptions {
        machine: options_of_machine(debug, 1, SLICE, false)?,
        interactive,
        framed,
    })
}

/// What `run` and `debug` share, with the rest as it is given.
fn options_of_machine<'a>(
    found: &ArgMatches<'a>,
    workers: u32,
    slice: u64,
    report: bool,
) -> Option<MachineOptions<'a>>
    ensures some { IfSome result (GivesMachineOptions (rows_of (found_of found.now))) }
    ensures rest { IfSome result (λ o. (o.job.workers ≡ workers) × (o.job.slice ≡ slice) × (o.job.report ≡ report)) }
    ensures none { IfNone result (IsNeverMet (GivesMachineOptions (rows_of (found_of found.now)))) }
{
    let settings = settings_of_machine(found)?;
    let extensions = Extensions {
        float: settings.float,
        atomic: settings.atomic,
    };
    Some(MachineOptions {
        image: found.get_str("image")?,
        input: found.get_str("input"),
        job: Job {
            format: format_named(found.get_str("format")?, extensions, settings.large)?,
            settings,
            workers,
            slice,
            report,
            ledger: ledger_of(found)?,
            g: found.get_one("g")?,
            l: found.get_one("l")?,
        },
    })
}

fn options_of_list<'a>(list: &ArgMatches<'a>) -> Option<ListOptions<'a>>
    ensures some { IfSome result (GivesListOptions (rows_of (found_of list.now))) }
    ensures none { IfNone result (IsNeverMet (GivesListOptions (rows_of (found_of list.now)))) }
{
    let extensions = extensions_of(list)?;
    let large = list.get_one("large")?;
    Some(ListOptions {
        image: list.get_str("image")?,
        format: format_named(list.get_str("format")?, extensions, large)?,
        extensions,
        large,
    })
}

fn options_of_asm<'a>(asm: &ArgMatches<'a>) -> Option<AsmOptions<'a>>
    ensures some { IfSome result (GivesAsmOptions (rows_of (found_of asm.now))) }
    ensures none { IfNone result (IsNeverMet (GivesAsmOptions (rows_of (found_of asm.now)))) }
{
    Some(AsmOptions {
        text: asm.get_str("text")?,
        image: asm.get_str("image")?,
        extensions: extensions_of(asm)?,
    })
}

/// The extensions that a subcommand without a machine is asked for.
fn extensions_of(found: &ArgMatches<'_>) -> Option<Extensions>
    ensures some { IfSome result (GivesExtensions (rows_of (found_of found.now))) }
    ensures none { IfNone result (IsNeverMet (GivesExtensions (rows_of (found_of found.now)))) }
{
    Some(Extensions {
        float: found.get_one("float")?,
        atomic: found.get_one("atomic")?,
    })
}

fn settings_of_machine(found: &ArgMatches<'_>) -> Option<Settings>
    ensures some { IfSome result (GivesSettings (rows_of (found_of found.now))) }
    ensures none { IfNone result (IsNeverMet (GivesSettings (rows_of (found_of found.now)))) }
{
    Some(Settings {
        nodes: found.get_one("nodes")?,
        memory: found.get_one("memory")?,
        limit: found.get_one("limit")?,
        clock: clock_of(found)?,
        float: found.get_one("float")?,
        atomic: found.get_one("atomic")?,
        large: found.get_one("large")?,
    })
}

/// The prices at which clocks count, which are those of the costs, or none if no clocks are asked for.
fn clock_of(found: &ArgMatches<'_>) -> Option<Option<Prices>>
    ensures some { IfSome result (GivesClock (rows_of (found_of found.now))) }
    ensures none { IfNone result (IsNeverMet (GivesClock (rows_of (found_of found.now)))) }
{
    let is_on: bool = found.get_one("clock")?;
    if is_on {
        Some(Some(prices_of(found)?))
    } else {
        Some(None)
    }
}

fn prices_of(found: &ArgMatches<'_>) -> Option<Prices>
    ensures some { IfSome result (GivesPrices (rows_of (found_of found.now))) }
    ensures none { IfNone result (IsNeverMet (GivesPrices (rows_of (found_of found.now)))) }
{
    Some(Prices {
        ledger: ledger_of(found)?,
        g: found.get_one("g")?,
        l: found.get_one("l")?,
    })
}

fn ledger_of(found: &ArgMatches<'_>) -> Option<LedgerText>
    ensures some { IfSome result (GivesLedger (rows_of (found_of found.now))) }
    ensures none { IfNone result (IsNeverMet (GivesLedger (rows_of (found_of found.now)))) }
{
    ledger_numbered(found.get_one("ledger")?)
}

fn ledger_numbered(number: u32) -> Option<LedgerText>
    ensures some { IfSome result (λ version. number ≡ number_of_ledger version) }
    ensures none { IfNone result (IsNeverMet (λ version. number ≡ number_of_ledger version)) }
{
    match number {
        1 => Some(LedgerText::V1),
        2 => Some(LedgerText::V2),
        _ => None,
    }
}

/// The format with a name; a text may have the statements of these extensions, and another file has the limits of a large machine if
/// `large` says so.
fn format_named(name: &str, extensions: Extensions, large: bool) -> Option<Format>
    ensures some { IfSome result (λ format. (name.now ≡ name_of_format format) × IsFormatFor extensions large format) }
    ensures none { IfNone result (IsNeverMet (λ format. name.now ≡ name_of_format format)) }
{
    match name {
        "elf" => Some(Format::Elf { large }),
        "raw" => Some(Format::Raw { large }),
        "asm" => Some(Format::Asm { extensions }),
        _ => None,
    }
}
