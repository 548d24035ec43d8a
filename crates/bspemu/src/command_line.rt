//! The rules of the command line: subcommands, their arguments and options, and their help.

ghost use Rattle.std.specs.Prelude.{IfOk, IsOkAnd};
ghost use Rattle.clap.specs.Words.{AddsSubcommand};
ghost use Rattle.bspemu.specs.CommandLine.{HasApp, HasAppOfFormats, HasRule, asm_app, bspemu_app};
ghost use Rattle.bspemu.specs.CommandLine.{checked_rule, debug_app, file_rule, flag_rule, format_rule};
ghost use Rattle.bspemu.specs.CommandLine.{in_32_bits, in_64_bits, ledger_rule, list_app, machine_app, option_rule, run_app};

use clap::builder::ValueParser;
use clap::{Arg, ArgAction, Command};
use std::alloc::{AllocError, Global};

/// The names of the formats.
static FORMATS: [&str; 3] = ["elf", "raw", "asm"];

const VERSION: &str = "0.1.0";

const ABOUT: &str =
    "Emulator of a bulk synchronous parallel (BSP) machine whose nodes run RISC-V programs";

const FORMAT: &str =
    "Format of IMAGE: elf, an ELF executable; raw, the bytes of memory from address 0; asm, an assembly text";

const IMAGE: &str = "Program file, or - for standard input";

const TEXT: &str = "Assembly text, at most 4194304 bytes";

const SAVED_IMAGE: &str = "ELF file to write; it is created, or emptied, as soon as TEXT is open";

const NODES: &str = "Number of nodes, 1 to 1024, or to 65536 with --large";

const MEMORY: &str =
    "Bytes of memory of each node: a multiple of 4096, from 4096 to 16777216, or to 2147483648 with --large";

const LIMIT: &str = "Most ticks of each node, 1 to 1099511627776; an instruction takes one tick";

const INPUT: &str =
    "File that each node reads as its input, at most 16777216 bytes, or 1073741824 with --large [default: no input]";

const REPORT: &str =
    "Write the costs of the supersteps, their total and the outcome after the output";

const LIVE: &str = "Write each superstep's output as soon as the superstep is over";

const PROFILE: &str =
    "Write to FILE, as CSV, what each rank did in each superstep; FILE is created, or emptied, before the run";

const COUNTS: &str =
    "Write to FILE, as CSV, how often the instruction at each address was executed; uses one thread, whatever --workers says";

const CONTESTED: &str =
    "Write to FILE, as CSV, the bytes to which puts or gets of one superstep bring different values; BSPlib leaves open which value stays";

const EXPOSED: &str =
    "Write to FILE, as CSV, the bytes that one call of a superstep reads and another one writes, if BSPlib leaves open which comes first; uses one thread, whatever --workers says";

const INTERACTIVE: &str = "Answer each command before the next one is read, as at a terminal";

const FRAMED: &str =
    "For programs: write a header before each reply, with its number of lines and whether the command was refused";

const BYTE_PRICE: &str = "Price g: ticks that each byte of an h-relation adds to the cost";

const SUPERSTEP_PRICE: &str = "Price l: ticks that the end of each superstep adds to the cost";

const LEDGER: &str =
    "How costs are counted; 2: h excludes bytes that a rank moves to itself, and m counts messages; 1: h includes these bytes";

const CLOCK: &str =
    "Give each node a clock, which call 19 reads: the cost of all finished supersteps plus the node's ticks in this one";

const FLOAT: &str = "Give each node a floating-point unit, for the instructions of F and D";

const ATOMIC: &str = "Give each node the atomic instructions of A";

const LARGE: &str =
    "Allow a large machine: up to 65536 nodes, 2147483648 bytes of memory a node, 1073741824 bytes of input, and more requests in a superstep";

const LARGE_FILE: &str = "Accept a file of up to 268435456 bytes, as a large machine does";

const FLOAT_NAMES: &str =
    "Show floating-point instructions by name; without this option they are data";

const ATOMIC_NAMES: &str = "Show instructions of A by name; without this option they are data";

const FLOAT_STATEMENTS: &str = "Accept floating-point instructions, those of F and D";

const ATOMIC_STATEMENTS: &str = "Accept atomic instructions, those of A";

const WORKERS: &str = "Most threads that run the nodes, 1 to 64; the output does not depend on it";

const SLICE: &str =
    "Most instructions that a node executes before its thread may switch to another node, 1 to 1048576; the output does not depend on it";

const STATUSES: &str = "Exit status:
  0  success; for `run`: every node ended
  1  the command line, a setting or the program was refused
  2  a node was stopped by a fault, or stopped itself with an abort
  3  a node reached its limit before it ended
  4  nodes waited for one that had already ended, or an exchange was refused
  5  memory ran out, or a thread could not be started
  6  a file could not be opened, read or written";

const ASM_AFTER_HELP: &str = "If the text is refused, standard error has a line `line N: NAME`:
  BadToken         not a name, number, string or operator
  UnknownMnemonic  the statement does not begin with an instruction or a directive
  BadOperand       too few or too many operands, or one of the wrong kind
  OutOfRange       a number or the offset of a jump is out of range, or an offset is odd
  DuplicateLabel   the label is already defined, in this line or an earlier one
  UndefinedLabel   a label is used but not defined
  TooLarge         the statement ends past 16777216 bytes
docs/manual/assembly.md describes the whole language.";

const DEBUG_AFTER_HELP: &str =
    "Commands, one a line, on standard input. In a pipe, all lines are read first, and then answered in order. At a terminal,
and with --interactive or --framed, each command is answered before the next one is read:
  break RANK ADDR      set a breakpoint: go stops before this rank executes the instruction at this address
  break superstep K    set a breakpoint: go stops at the start of superstep K
  clear RANK ADDR      remove the breakpoint at this address
  clear superstep K    remove the breakpoint at this superstep
  step RANK N          execute N instructions of this rank, or fewer if it stops; ignores breakpoints
  phase                run each rank until it stops, in rank order; ignores breakpoints
  turn                 end the superstep, if no rank is running
  go                   run to the next breakpoint, or to the end
  regs RANK            show where this rank is, its ticks, its state and its registers
  fregs RANK           show the fcsr and the floating-point registers of this rank, with --float
  bytes RANK ADDR LEN  show LEN bytes of the memory of this rank
  queue RANK           show the messages that wait in the queue of this rank
  costs                show the costs of the supersteps so far, and their total
  output               show what was written in the supersteps so far
  quit                 end
There are more commands at a terminal, and with --interactive or --framed:
  help [LINE]          show all commands, or those that begin with the word LINE
  points               show the breakpoints
  step [RANK]          execute one instruction of this rank, or of the lowest rank that runs
  over RANK            execute one instruction of this rank; if it calls a function, run until the function returns
  words RANK ADDR N    show N words of the memory of this rank
  text RANK ADDR N     show N bytes of it as text, or those before the first zero byte
  list RANK ADDR N     show N instructions of it; those of F, D and A by name if the nodes have them
  areas RANK           show the areas that this rank has registered
  requests RANK        show the requests that this rank has made in this superstep
  where [RANK]         show the address, superstep and state of this rank, or of each rank
  keep                 keep the state of the machine, under the next number from 0
  back N               bring the machine back to state N, or forward; breakpoints stay as they are
  kept                 show the states that are kept, and where their ranks are
  forget N             discard state N; its number is not used again
With --framed, each reply begins with a header: `done N`, or `refused N` if the command is refused. N is the number of
lines of the reply. There are still more commands:
  nodes                show the number of ranks, and the other settings
  go RANK N            execute N instructions of this rank, or fewer if it stops or reaches a breakpoint of its own
  output FROM          show what was written, from byte FROM on
  costs FROM           show the costs from superstep FROM on, and the total of all
Numbers are decimal, or hexadecimal as in 0x1f. All lines together may have 1048576 bytes. If IMAGE is -, standard input
is the program, so there are no commands.

A command that is refused changes nothing, and its reply is `refused: NAME`:
  BadCommand   the command is unknown, or a number in it is too large
  BadRank      there is no such rank
  BadRange     some of these bytes are outside the memory
  NoFloatUnit  the nodes have no floating-point registers; with --float they have them
  TooMany      there are 1024 other breakpoints
  NoSuchBreak  there is no such breakpoint
  NoSuchKept   no state is kept under this number
  Over         the run has ended
The exit status is 0, even if commands were refused or the run failed. Only an error of the debugger itself gives 1, 5 or 6.
docs/manual/debugger.md has an example of each command.";

/// The command line of the program.
pub fn command<'a>(alloc: Global) -> Result<Command<'a>, AllocError>
    ensures { IfOk result (λ command. HasAppOfFormats command bspemu_app) }
{
    let formats = FORMATS.as_slice();
    let command = Command::new(alloc, "bspemu")
        .bin_name("bspemu")?
        .version(VERSION)
        .about(ABOUT)
        .after_help(STATUSES)
        .subcommand_required(true)
        .arg_required_else_help(true);
    let command = with_subcommand(command, run_command(alloc, formats))?;
    let command = with_subcommand(command, debug_command(alloc, formats))?;
    let command = with_subcommand(command, list_command(alloc, formats))?;
    with_subcommand(command, asm_command(alloc))
}

/// A command with one more subcommand, if there was memory for that.
fn with_subcommand<'a>(
    command: Command<'a>,
    subcommand: Result<Command<'a>, AllocError>,
) -> Result<Command<'a>, AllocError>
    ensures { IfOk result (λ r. IsOkAnd subcommand.entry (λ s. AddsSubcommand command.entry s r)) }
{
    command.subcommand(subcommand?)
}

fn run_command<'a>(alloc: Global, formats: &'a [&'a str]) -> Result<Command<'a>, AllocError>
    ensures { IfOk result (λ command. HasApp command (run_app formats.entry)) }
{
    let arguments = vec![in alloc;
        flag(alloc, "report", REPORT),
        flag(alloc, "live", LIVE),
        number(alloc, "workers", "N", "1", WORKERS),
        long_number(alloc, "slice", "STEPS", "65536", SLICE),
        file_option(alloc, "profile", PROFILE),
        file_option(alloc, "counts", COUNTS),
        file_option(alloc, "contested", CONTESTED),
        file_option(alloc, "exposed", EXPOSED),
    ]?;
    machine_command(alloc, "run", formats)?
        .about(
            "Run a program on every node, superstep by superstep, and write the output of the nodes",
        )
        .after_help(STATUSES)
        .args(arguments)
}

fn debug_command<'a>(alloc: Global, formats: &'a [&'a str]) -> Result<Command<'a>, AllocError>
    ensures { IfOk result (λ command. HasApp command (debug_app formats.entry)) }
{
    machine_command(alloc, "debug", formats)?
        .about("Debug a program: execute the commands on standard input, and write a reply to each")
        .after_help(DEBUG_AFTER_HELP)
        .arg(flag(alloc, "interactive", INTERACTIVE))?
        .arg(flag(alloc, "framed", FRAMED))
}

/// A subcommand over a machine: the program, what the machine is made of, and the prices of its costs.
fn machine_command<'a>(
    alloc: Global,
    name: &'a str,
    formats: &'a [&'a str],
) -> Result<Command<'a>, AllocError>
    ensures { IfOk result (λ command. HasApp command (machine_app name.entry.now formats.entry)) }
{
    let arguments = vec![in alloc;
        file(alloc, "image", "IMAGE", IMAGE),
        format(alloc, formats),
        number(alloc, "nodes", "N", "1", NODES),
        number(alloc, "memory", "BYTES", "1048576", MEMORY),
        long_number(alloc, "limit", "TICKS", "1000000", LIMIT),
        file_option(alloc, "input", INPUT),
        number(alloc, "g", "TICKS", "1", BYTE_PRICE),
        number(alloc, "l", "TICKS", "0", SUPERSTEP_PRICE),
        ledger(alloc),
        flag(alloc, "clock", CLOCK),
        flag(alloc, "float", FLOAT),
        flag(alloc, "atomic", ATOMIC),
        flag(alloc, "large", LARGE),
    ]?;
    Command::new(alloc, name).args(arguments)
}

fn list_command<'a>(alloc: Global, formats: &'a [&'a str]) -> Result<Command<'a>, AllocError>
    ensures { IfOk result (λ command. HasApp command (list_app formats.entry)) }
{
    Command::new(alloc, "list")
        .about("List a program: each word with its address and its instruction")
        .arg(file(alloc, "image", "IMAGE", IMAGE))?
        .arg(format(alloc, formats))?
        .arg(flag(alloc, "float", FLOAT_NAMES))?
        .arg(flag(alloc, "atomic", ATOMIC_NAMES))?
        .arg(flag(alloc, "large", LARGE_FILE))
}

fn asm_command<'a>(alloc: Global) -> Result<Command<'a>, AllocError>
    ensures { IfOk result (λ command. HasApp command asm_app) }
{
    Command::new(alloc, "asm")
        .about("Assemble a text into an ELF file")
        .after_help(ASM_AFTER_HELP)
        .arg(file(alloc, "text", "TEXT", TEXT))?
        .arg(file(alloc, "image", "IMAGE", SAVED_IMAGE))?
        .arg(flag(alloc, "float", FLOAT_STATEMENTS))?
        .arg(flag(alloc, "atomic", ATOMIC_STATEMENTS))
}

/// A file that has to be there, by its place.
fn file<'a>(alloc: Global, name: &'a str, value_name: &'a str, help: &'a str) -> Arg<'a>
    ensures { HasRule result (file_rule name.entry.now) }
{
    Arg::new(alloc, name)
        .value_name(value_name)
        .required(true)
        .help(help)
}

/// An option with a file.
fn file_option<'a>(alloc: Global, name: &'a str, help: &'a str) -> Arg<'a>
    ensures { HasRule result (option_rule name.entry.now) }
{
    Arg::new(alloc, name)
        .long(name)
        .value_name("FILE")
        .help(help)
}

/// An option without a value.
fn flag<'a>(alloc: Global, name: &'a str, help: &'a str) -> Arg<'a>
    ensures { HasRule result (flag_rule name.entry.now) }
{
    Arg::new(alloc, name)
        .long(name)
        .action(ArgAction::SetTrue)
        .help(help)
}

/// An option whose value is a number of 32 bits.
fn number<'a>(
    alloc: Global,
    name: &'a str,
    value_name: &'a str,
    default: &'a str,
    help: &'a str,
) -> Arg<'a>
    ensures { HasRule result (checked_rule name.entry.now in_32_bits default.entry.now) }
{
    let parser = ValueParser::Signed(0, u32::MAX as i64);
    checked_option(alloc, name, value_name, parser, default, help)
}

/// An option whose value is a number of 64 bits.
fn long_number<'a>(
    alloc: Global,
    name: &'a str,
    value_name: &'a str,
    default: &'a str,
    help: &'a str,
) -> Arg<'a>
    ensures { HasRule result (checked_rule name.entry.now in_64_bits default.entry.now) }
{
    let parser = ValueParser::Unsigned(0, u64::MAX);
    checked_option(alloc, name, value_name, parser, default, help)
}

fn format<'a>(alloc: Global, formats: &'a [&'a str]) -> Arg<'a>
    ensures { HasRule result (format_rule formats.entry) }
{
    let parser = ValueParser::from(formats);
    checked_option(alloc, "format", "FORMAT", parser, "elf", FORMAT).hide_possible_values(true)
}

fn ledger<'a>(alloc: Global) -> Arg<'a>
    ensures { HasRule result ledger_rule }
{
    let parser = ValueParser::Signed(1, 2);
    checked_option(alloc, "ledger", "VERSION", parser, "2", LEDGER)
}

/// An option whose values are checked, and that has a default.
fn checked_option<'a>(
    alloc: Global,
    name: &'a str,
    value_name: &'a str,
    parser: ValueParser<'a>,
    default: &'a str,
    help: &'a str,
) -> Arg<'a>
    ensures { HasRule result (checked_rule name.entry.now parser.entry default.entry.now) }
{
    Arg::new(alloc, name)
        .long(name)
        .value_name(value_name)
        .value_parser(parser)
        .default_value(default)
        .help(help)
}
