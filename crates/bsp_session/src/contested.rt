//! The session that runs a program and writes the contested bytes of its run.

ghost use Rattle.std.specs.Prelude.{◌≡◌, ◌≢◌, None, IfOk, IfErr};
ghost use Rattle.contested_runs.specs.Runs.{TellsContested};
ghost use Rattle.worker_pool.specs.Numbers.{numbers_fault};
ghost use Rattle.bsp_session.specs.Contested.{Contests, IsErrorOfContested};
ghost use Rattle.bsp_session.specs.Streams.{stream};
ghost use Rattle.bsp_session.specs.Session.{ComesToEnd, job_fault, session_of};

use crate::errors::SessionError;
use crate::job::Job;
use crate::report::write_both;
use crate::sessions::start;
use contested_runs::{Told, run};
use counted_io::Counted;
use machine_core::{Machine, Outcome};
use std::alloc::Allocator;
use std::io::{Read, Write};
use std::sync::Wait;
use std::thread::Threads;

/// Runs a program as [`session`](crate::session) does, writes its report to `out`, and then which bytes were contested in each superstep
/// to `contested`.
///
/// # Errors
/// As [`session`](crate::session), with [`SessionError::WriteFault`] also where the writer of what is contested failed, after some first
/// bytes of it, and not all, were written; the report was written whole then. The text is made whole before anything is written.
pub fn contested_session<
    T: Threads + Wait + Sync,
    A: Allocator + Copy + Send + Sync,
    I: Read,
    R: Read,
    W: Write,
    C: Write,
>(
    rt: &T,
    alloc: A,
    image: &mut Counted<I>,
    input: &mut Counted<R>,
    job: &Job,
    out: &mut Counted<W>,
    contested: &mut Counted<C>,
) -> Result<Outcome, SessionError>
    ensures ok { IfOk result (λ outcome. Contests (session_of (stream I.remaining image.old image.new)
        (stream R.remaining input.old input.new) (stream W.contents out.old out.new) job.now)
        (stream C.contents contested.old contested.new) outcome) }
    ensures err { IfErr result (λ e. IsErrorOfContested (session_of (stream I.remaining image.old image.new)
        (stream R.remaining input.old input.new) (stream W.contents out.old out.new) job.now)
        (stream C.contents contested.old contested.new) e) }
    // What is not touched stays as it was, also where its bytes are not known.
    ensures settings_first { job_fault job.now ≢ None
        → (image.new ≡ image.old) × (input.new ≡ input.old) }
    ensures nothing_written { IfErr result (λ e. e ≢ SessionError.WriteFault
        → (out.new ≡ out.old) × (contested.new ≡ contested.old)) }
{
    let mut machine = start(alloc, image, input, job)?;
    let told = run_told(rt, alloc, &mut machine, job)?;
    write_both(alloc, &machine, job, told.as_bytes(), out, contested)
}

/// Runs a machine to its outcome, in as many threads as the job has workers, and tells what is contested.
fn run_told<T: Threads + Wait + Sync, A: Allocator + Copy + Send + Sync>(
    rt: &T,
    alloc: A,
    machine: &mut Machine<A>,
    job: &Job,
) -> Result<Told<A>, SessionError>
    requires { numbers_fault job.now.workers job.now.slice ≡ None }
    ensures end { ComesToEnd job.now machine.old machine.new result }
    ensures told { IfOk result (λ told. TellsContested machine.old told) }
{
    let mut told = Told::new(alloc)?;
    run(rt, machine, job.workers, job.slice, &mut told)?;
    Ok(told)
}
