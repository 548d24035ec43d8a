//! The session that writes output during the run.

ghost use Rattle.std.specs.Prelude.{◌≡◌, ◌≢◌, ◌↔◌, ◌⊎◌, ◌≤◌, ℕ, [], length, take, Some, None};
ghost use Rattle.std.specs.Prelude.{Ok, IfOk, IfErr, IsErrOf, IsSome, OnErr, OnOk, true};
ghost use Rattle.std.specs.Io.KnownBytes.{Appends};
ghost use Rattle.counted_io.specs.Counted.{HasRisen};
ghost use Rattle.machine_core.specs.Sound.{IsSoundMachine};
ghost use Rattle.machine_core.specs.Turn.{IsRunToEnd, superstep as superstep_of, with_phases, written as written_by};
ghost use Rattle.worker_pool.specs.Numbers.{numbers_fault};
ghost use Rattle.bsp_session.specs.declared.errors.BadSetting.{BadSetting as BadSettingCause};
ghost use Rattle.bsp_session.specs.Live.{AppendsSome, FailsAt, IsErrorOfLive, IsErrorOfLiveRun, IsErrorOfSuperstep, MayComeLate};
ghost use Rattle.bsp_session.specs.Streams.{IsUntouched, stream};
ghost use Rattle.bsp_session.specs.Report.{report_lines as report_lines_of};
ghost use Rattle.bsp_session.specs.Session.{Reports, job_fault, session_of};

use crate::errors::SessionError;
use crate::job::Job;
use crate::report::{outcome_of, report_lines};
use crate::sessions::start;
use counted_io::{Counted, WriteFault, flush_whole, write_whole};
use machine_core::{Machine, Outcome};
use std::alloc::Allocator;
use std::io::{Read, Write};
use std::sync::Wait;
use std::thread::Threads;
use worker_pool::run_phase_sparing;

/// Runs a program as [`session`](crate::session) does, and writes the same report to `out`, but while the run goes on: what the nodes
/// wrote in a superstep is written, and `out` flushed, once the superstep is over, before the next one begins. The lines that the job
/// asks for follow after the last one. Where there is nothing to write, the writer is not called.
///
/// # Errors
/// As [`session`](crate::session), in the same order. What stands written then is the output of some first supersteps of the run, whole:
///
/// - At [`SessionError::BadSettings`] to [`SessionError::SegmentOutside`], and wherever there is no machine, nothing is written.
/// - At [`SessionError::NoWorker`] it is that of the supersteps that were over, and the run was not. So it is at
///   [`SessionError::NoMemory`], at which it may also be that of all of them, where the memory was refused for the lines after it.
/// - At [`SessionError::WriteFault`] some first bytes of the report were written, and perhaps all of them, where they could not be
///   flushed.
pub fn live_session<
    T: Threads + Wait + Sync,
    A: Allocator + Copy + Send + Sync,
    I: Read,
    R: Read,
    W: Write,
>(
    rt: &T,
    alloc: A,
    image: &mut Counted<I>,
    input: &mut Counted<R>,
    job: &Job,
    out: &mut Counted<W>,
) -> Result<Outcome, SessionError>
    ensures ok { IfOk result (λ outcome. Reports (session_of (stream I.remaining image.old image.new)
        (stream R.remaining input.old input.new) (stream W.contents out.old out.new) job.now) outcome) }
    ensures err { IfErr result (λ e. IsErrorOfLive (session_of (stream I.remaining image.old image.new)
        (stream R.remaining input.old input.new) (stream W.contents out.old out.new) job.now) e) }

    ensures bad_settings { (cause : BadSettingCause)
        → IsErrOf result (SessionError.BadSettings cause)
        ↔ (job_fault job.now ≡ Some (SessionError.BadSettings cause)) }
    // What is not touched stays as it was, also where its bytes are not known.
    ensures settings_first { job_fault job.now ≢ None
        → (image.new ≡ image.old) × (input.new ≡ input.old) }
    ensures nothing_written { IfErr result (λ e. (out.new ≡ out.old) ⊎ MayComeLate e) }
{
    let mut machine = start(alloc, image, input, job)?;
    run_live(rt, &mut machine, job, out)?;
    write_lines(alloc, &machine, job, out)?;
    Ok(outcome_of(&machine))
}

/// Runs a machine that has written nothing to its outcome, and writes its output superstep by superstep.
fn run_live<T: Threads + Wait + Sync, A: Allocator + Copy + Send + Sync, W: Write>(
    rt: &T,
    machine: &mut Machine<A>,
    job: &Job,
    out: &mut Counted<W>,
) -> Result<(), SessionError>
    requires numbers { numbers_fault job.now.workers job.now.slice ≡ None }
    requires silent { machine.old.output ≡ [] }
    ensures ended { OnOk result (IsRunToEnd machine.old machine.new) }
    ensures written { OnOk result (Appends
        (W.contents out.old.inner) (W.contents out.new.inner) machine.new.output) }
    ensures err { IfErr result
        (IsErrorOfLiveRun job.now machine.old (stream W.contents out.old out.new)) }
    ensures never_falls { out.old.failures ≤ out.new.failures }
{
    while machine.outcome().is_none() {
        make_superstep(rt, machine, job, out)?;
    }
    Ok(())
}

/// Makes a superstep of a machine that has no outcome, and writes what the nodes wrote in it once its turn is made.
fn make_superstep<T: Threads + Wait + Sync, A: Allocator + Copy + Send + Sync, W: Write>(
    rt: &T,
    machine: &mut Machine<A>,
    job: &Job,
    out: &mut Counted<W>,
) -> Result<(), SessionError>
    requires numbers { numbers_fault job.now.workers job.now.slice ≡ None }
    requires sound { IsSoundMachine machine.old }
    requires going { machine.old.outcome ≡ None }
    ensures made { OnOk result (machine.new ≡ superstep_of machine.old) }
    ensures written { OnOk result (Appends (W.contents out.old.inner) (W.contents out.new.inner)
        (written_by (with_phases machine.old).nodes)) }
    ensures err { IfErr result
        (IsErrorOfSuperstep job.now machine.old (stream W.contents out.old out.new)) }
    ensures never_falls { out.old.failures ≤ out.new.failures }
{
    let before = machine.output().len();
    run_phase_sparing(rt, machine, job.workers, job.slice)?;
    machine.turn()?;
    write_at_once(&machine.output()[before..], out)?;
    Ok(())
}

/// Writes the lines that follow the output of a machine in its report.
pub(crate) fn write_lines<A: Allocator + Copy, W: Write>(
    alloc: A,
    machine: &Machine<A>,
    job: &Job,
    out: &mut Counted<W>,
) -> Result<(), SessionError>
    ensures ok { OnOk result (Appends (W.contents out.old.inner) (W.contents out.new.inner)
        (report_lines_of job.now machine.now)) }
    ensures err { IfErr result (λ e.
        ((e ≡ SessionError.NoMemory) × (job.now.report ≡ true)
        × IsUntouched (stream W.contents out.old out.new))
        ⊎ ((e ≡ SessionError.WriteFault)
        × FailsAt (stream W.contents out.old out.new) (report_lines_of job.now machine.now))) }
{
    let lines = report_lines(alloc, machine, job)?;
    write_at_once(lines.as_bytes(), out)?;
    Ok(())
}

/// Writes bytes, and sees to it that they arrive. Nothing is called where there are none.
pub(crate) fn write_at_once<W: Write>(bytes: &[u8], out: &mut Counted<W>) -> Result<(), WriteFault>
    ensures ok { OnOk result
        (Appends (W.contents out.old.inner) (W.contents out.new.inner) bytes.now) }
    ensures none { length bytes.now ≡ 0 → (result ≡ Ok tt) × (out.new ≡ out.old) }
    ensures err { OnErr result
        (AppendsSome (W.contents out.old.inner) (W.contents out.new.inner) bytes.now) }
    ensures fault { OnErr result (HasRisen out.old.failures out.new.failures) }
    ensures never_falls { out.old.failures ≤ out.new.failures }
{
    if bytes.is_empty() {
        return Ok(());
    }
    write_whole(out, bytes)?;
    flush_whole(out)?;
    Ok(())
}
