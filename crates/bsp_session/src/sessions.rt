//! The session that runs a program.

ghost use Rattle.std.specs.Prelude.{◌≡◌, ◌≢◌, ◌↔◌, Some, None, IfOk, IfErr, IsErrOf};
ghost use Rattle.std.specs.Result.{result_err};
ghost use Rattle.worker_pool.specs.Numbers.{numbers_fault};
ghost use Rattle.bsp_session.specs.declared.errors.BadSetting.{BadSetting as BadSettingCause};
ghost use Rattle.bsp_session.specs.Streams.{IsUntouched, Stream, stream};
ghost use Rattle.bsp_session.specs.Session.{ComesToEnd, IsErrorOf, IsErrorOfFiles, ReadsFiles, Reports, StartsAt, job_fault, most_input, session_of};

use crate::errors::SessionError;
use crate::images::image_of;
use crate::job::Job;
use crate::report::{outcome_of, write_report};
use counted_io::{Counted, read_at_most};
use machine_core::{Machine, Outcome};
use std::alloc::Allocator;
use std::io::{Read, Write};
use std::sync::Wait;
use std::thread::Threads;
use worker_pool::{check_numbers, run_sparing};

/// The most bytes of an input (own rule).
const INPUT_BYTES: usize = 1 << 24;

/// The most bytes of an input of a large machine (own rule).
const LARGE_INPUT_BYTES: usize = 1 << 30;

/// The most bytes of an input, of a large machine or of another.
pub fn most_input(large: bool) -> usize
    ensures { result ≡ most_input large }
{
    if large {
        LARGE_INPUT_BYTES
    } else {
        INPUT_BYTES
    }
}

/// Runs the program that `image` gives on every node of the machine, each with the bytes of `input` as its input, superstep
/// by superstep to the outcome, and writes the report to `out`: what the nodes wrote, superstep by superstep and in rank order
/// in each, and where the job asks for it the costs and the outcome. Both readers are read to their ends.
///
/// # Errors
/// That of the first stage that failed:
///
/// 1. [`SessionError::BadSettings`], for the first bad setting of nodes, memory, limit, workers and slice. Nothing was read.
/// 2. [`SessionError::TooLong`] or [`SessionError::ReadFault`] of the image. Nothing of the input was read.
/// 3. The same two of the input.
/// 4. [`SessionError::Text`] or [`SessionError::BadImage`], where the bytes of the image give none.
/// 5. [`SessionError::SegmentOutside`], where the image reaches past the memory of a node.
/// 6. [`SessionError::WriteFault`], after some first bytes of the report, and not all, were written.
///
/// [`SessionError::NoWorker`] is answered where a thread could not be started, be memory refused in the run besides or not, and else
/// [`SessionError::NoMemory`] where a request for memory was refused. Nothing is written then.
pub fn session<
    T: Threads + Wait + Sync,
    A: Allocator + Copy + Send + Sync,
    I: Read,
    R: Read,
    W: Write,
>(
    rt: &T,
    alloc: A,
    image: &mut Counted<I>,
    input: &mut Counted<R>,
    job: &Job,
    out: &mut Counted<W>,
) -> Result<Outcome, SessionError>
    ensures ok { IfOk result (λ outcome. Reports (session_of (stream I.remaining image.old image.new)
        (stream R.remaining input.old input.new) (stream W.contents out.old out.new) job.now) outcome) }
    ensures err { IfErr result (λ e. IsErrorOf (session_of (stream I.remaining image.old image.new)
        (stream R.remaining input.old input.new) (stream W.contents out.old out.new) job.now) e) }

    ensures bad_settings { (cause : BadSettingCause)
        → IsErrOf result (SessionError.BadSettings cause)
        ↔ (job_fault job.now ≡ Some (SessionError.BadSettings cause)) }
    // What is not touched stays as it was, also where its bytes are not known.
    ensures settings_first { job_fault job.now ≢ None
        → (image.new ≡ image.old) × (input.new ≡ input.old) }
    ensures nothing_written { IfErr result (λ e.
        e ≢ SessionError.WriteFault → out.new ≡ out.old) }
{
    let mut machine = start(alloc, image, input, job)?;
    run_to_end(rt, &mut machine, job)?;
    write_report(alloc, &machine, job, out)?;
    Ok(outcome_of(&machine))
}

/// The machine of a job at its start, by what the readers give: the file of its image and its input, each read to its end.
pub(crate) fn start<A: Allocator + Copy, I: Read, R: Read>(
    alloc: A,
    image: &mut Counted<I>,
    input: &mut Counted<R>,
    job: &Job,
) -> Result<Machine<A>, SessionError>
    // For a session with this writer, its machine and its errors.
    ensures ok { IfOk result (λ machine. (out : Stream) → StartsAt (session_of
        (stream I.remaining image.old image.new) (stream R.remaining input.old input.new) out job.now) machine) }
    ensures err { IfErr result (λ e. (out : Stream) → IsUntouched out → IsErrorOf (session_of
        (stream I.remaining image.old image.new) (stream R.remaining input.old input.new) out job.now) e) }
    ensures no_worker { IfErr result (λ e. e ≢ SessionError.NoWorker) }
    ensures settings_first { job_fault job.now ≢ None
        → (image.new ≡ image.old) × (input.new ≡ input.old) }
{
    let (file, input) = read_both(alloc, image, input, job)?;
    let image = image_of(alloc, job.format, file.as_slice())?;
    Ok(Machine::new(alloc, &image, input, job.settings)?)
}

/// Reads the file of an image and an input, where the settings of the job are within their ranges.
fn read_both<A: Allocator + Copy, I: Read, R: Read>(
    alloc: A,
    image: &mut Counted<I>,
    input: &mut Counted<R>,
    job: &Job,
) -> Result<(Vec<u8, A>, Vec<u8, A>), SessionError>
    ensures ok { IfOk result (λ read. ReadsFiles job_fault job.now (stream I.remaining image.old image.new)
        (stream R.remaining input.old input.new) read.0.items read.1.items) }
    ensures err { IfErr result (IsErrorOfFiles job_fault job.now (stream I.remaining image.old image.new)
        (stream R.remaining input.old input.new)) }
    ensures settings_first { job_fault job.now ≢ None
        → (image.new ≡ image.old) × (input.new ≡ input.old) }
{
    check_job(job)?;
    let file = read_at_most(alloc, image, job.format.most_bytes())?;
    let input = read_at_most(alloc, input, most_input(job.settings.large))?;
    Ok((file, input))
}

/// Whether the settings of a job are within their ranges; else the first that is not.
fn check_job(job: &Job) -> Result<(), SessionError>
    ensures { result_err result ≡ job_fault job.now }
{
    job.settings.check()?;
    check_numbers(job.workers, job.slice)?;
    Ok(())
}

/// Runs a machine to its outcome, in no more threads than the job has workers, and only where the work pays for them.
fn run_to_end<T: Threads + Wait + Sync, A: Allocator + Copy + Send + Sync>(
    rt: &T,
    machine: &mut Machine<A>,
    job: &Job,
) -> Result<(), SessionError>
    requires { numbers_fault job.now.workers job.now.slice ≡ None }
    ensures { ComesToEnd job.now machine.old machine.new result }
{
    Ok(run_sparing(rt, machine, job.workers, job.slice)?)
}
