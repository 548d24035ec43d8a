//! What a session writes about a machine at its end.

ghost use Rattle.std.specs.Prelude.{◌≡◌, ◌≢◌, ◌≤◌, IfOk, IfErr, OnOk, OnErr, IsSome, Some, string_bytes, true};
ghost use Rattle.std.specs.Io.KnownBytes.{Appends};
ghost use Rattle.bsp_session.specs.Report.{costs_and_outcome as costs_and_outcome_of, report_lines as report_lines_of, report_of};
ghost use Rattle.bsp_session.specs.Session.{IsErrorOfReport};
ghost use Rattle.bsp_session.specs.Streams.{stream};
ghost use Rattle.bsp_session.specs.Told.{IsErrorOfBoth, WritesBoth};

use crate::errors::SessionError;
use crate::job::Job;
use cost_ledger::LedgerText;
use counted_io::{Counted, write_whole};
use machine_core::{Machine, Outcome};
use std::alloc::{AllocError, Allocator};
use std::io::Write;

/// The lines that follow the output of a machine in its report.
pub(crate) fn report_lines<A: Allocator + Copy>(
    alloc: A,
    machine: &Machine<A>,
    job: &Job,
) -> Result<String<A>, AllocError>
    ensures text { IfOk result (λ text. string_bytes text ≡ report_lines_of job.now machine.now) }
    ensures asked { OnErr result (job.now.report ≡ true) }
{
    if job.report {
        costs_and_outcome(alloc, machine, job.ledger, job.g, job.l)
    } else {
        Ok(String::new(alloc))
    }
}

/// The lines of the ledger in a version, and one for the outcome.
fn costs_and_outcome<A: Allocator + Copy>(
    alloc: A,
    machine: &Machine<A>,
    version: LedgerText,
    g: u32,
    l: u32,
) -> Result<String<A>, AllocError>
    ensures { IfOk result (λ text. string_bytes text ≡ costs_and_outcome_of version g l machine.now) }
{
    let mut text = machine.ledger().lines(alloc, version, g, l)?;
    if let Some(outcome) = machine.outcome() {
        writeln!(text, "{outcome}")?;
    }
    Ok(text)
}

/// How a machine that is over ended.
pub(crate) fn outcome_of<A: Allocator>(machine: &Machine<A>) -> Outcome
    requires { IsSome machine.now.outcome }
    ensures { machine.now.outcome ≡ Some result }
{
    match machine.outcome() {
        Some(outcome) => outcome,
        None => unreachable!(),
    }
}

/// Writes the report of a machine at its end, which is whole before its first byte is written.
pub(crate) fn write_report<A: Allocator + Copy, W: Write>(
    alloc: A,
    machine: &Machine<A>,
    job: &Job,
    out: &mut Counted<W>,
) -> Result<(), SessionError>
    ensures ok { OnOk result (Appends
        (W.contents out.old.inner) (W.contents out.new.inner) (report_of job.now machine.now)) }
    ensures err { IfErr result (IsErrorOfReport job.now machine.now (stream W.contents out.old out.new)) }
    ensures nothing_written { IfErr result (λ e. e ≢ SessionError.WriteFault → out.new ≡ out.old) }
{
    let lines = report_lines(alloc, machine, job)?;
    write_whole(out, machine.output())?;
    write_whole(out, lines.as_bytes())?;
    Ok(())
}

/// Writes the report of a machine that is over, and then a text on its run to a writer of its own. How it ended.
pub(crate) fn write_both<A: Allocator + Copy, W: Write, T: Write>(
    alloc: A,
    machine: &Machine<A>,
    job: &Job,
    text: &[u8],
    out: &mut Counted<W>,
    told: &mut Counted<T>,
) -> Result<Outcome, SessionError>
    requires { IsSome machine.now.outcome }
    ensures ok { IfOk result (WritesBoth job.now machine.now text.now
        (stream W.contents out.old out.new) (stream T.contents told.old told.new)) }
    ensures err { IfErr result (IsErrorOfBoth job.now machine.now text.now
        (stream W.contents out.old out.new) (stream T.contents told.old told.new)) }
    ensures nothing_written { IfErr result (λ e. e ≢ SessionError.WriteFault
        → (out.new ≡ out.old) × (told.new ≡ told.old)) }
{
    write_report(alloc, machine, job, out)?;
    write_whole(told, text)?;
    Ok(outcome_of(machine))
}
