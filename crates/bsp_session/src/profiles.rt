//! The session that runs a program and writes the profile of its run.

ghost use Rattle.std.specs.Prelude.{◌≡◌, ◌≢◌, ◌↔◌, None, IfOk, IfErr, IsErrOf, IsTrue};
ghost use Rattle.bsp_profile.specs.Lines.{profile_of};
ghost use Rattle.worker_pool.specs.Numbers.{numbers_fault};
ghost use Rattle.bsp_session.specs.Profiles.{HasTooManyNodes, IsErrorOfProfiled, Profiles};
ghost use Rattle.bsp_session.specs.Streams.{stream};
ghost use Rattle.bsp_session.specs.Session.{ComesToEnd, job_fault, session_of};

use crate::errors::SessionError;
use crate::job::Job;
use crate::report::write_both;
use crate::sessions::start;
use bsp_profile::{Profile, run};
use counted_io::Counted;
use machine_core::{Machine, Outcome};
use std::alloc::Allocator;
use std::io::{Read, Write};
use std::sync::Wait;
use std::thread::Threads;

/// The most nodes of a run with a profile, whose table has a row and a column for each (own limit).
const PROFILED_NODES: u32 = 1_024;

/// Whether a job has a large machine with more nodes than a run with a profile may have.
pub fn has_too_many_nodes(job: &Job) -> bool
    ensures { IsTrue result ↔ HasTooManyNodes job.now }
{
    job.settings.large && job.settings.nodes > PROFILED_NODES
}

/// Runs a program as [`session`](crate::session) does, writes its report to `out`, and then the profile of the run to `profile`.
///
/// # Errors
/// [`SessionError::TooManyNodes`] before all others, if [`has_too_many_nodes`] says so. Else as [`session`](crate::session), with
/// [`SessionError::WriteFault`] also where the writer of the profile failed, after some first bytes of it, and not all, were written;
/// the report was written whole then. The profile is made whole before anything is written.
pub fn profile_session<
    T: Threads + Wait + Sync,
    A: Allocator + Copy + Send + Sync,
    I: Read,
    R: Read,
    W: Write,
    P: Write,
>(
    rt: &T,
    alloc: A,
    image: &mut Counted<I>,
    input: &mut Counted<R>,
    job: &Job,
    out: &mut Counted<W>,
    profile: &mut Counted<P>,
) -> Result<Outcome, SessionError>
    ensures ok { IfOk result (λ outcome. Profiles (session_of (stream I.remaining image.old image.new)
        (stream R.remaining input.old input.new) (stream W.contents out.old out.new) job.now)
        (stream P.contents profile.old profile.new) outcome) }
    ensures err { IfErr result (λ e. IsErrorOfProfiled (session_of (stream I.remaining image.old image.new)
        (stream R.remaining input.old input.new) (stream W.contents out.old out.new) job.now)
        (stream P.contents profile.old profile.new) e) }
    ensures too_many_nodes { IsErrOf result SessionError.TooManyNodes ↔ HasTooManyNodes job.now }
    // What is not touched stays as it was, also where its bytes are not known.
    ensures settings_first { job_fault job.now ≢ None
        → (image.new ≡ image.old) × (input.new ≡ input.old) }
    ensures nodes_first { HasTooManyNodes job.now
        → (image.new ≡ image.old) × (input.new ≡ input.old) }
    ensures nothing_written { IfErr result (λ e. e ≢ SessionError.WriteFault
        → (out.new ≡ out.old) × (profile.new ≡ profile.old)) }
{
    if has_too_many_nodes(job) {
        return Err(SessionError::TooManyNodes);
    }
    let mut machine = start(alloc, image, input, job)?;
    let told = run_profiled(rt, alloc, &mut machine, job)?;
    write_both(alloc, &machine, job, told.as_bytes(), out, profile)
}

/// Runs a machine to its outcome, in as many threads as the job has workers, and takes its profile.
fn run_profiled<T: Threads + Wait + Sync, A: Allocator + Copy + Send + Sync>(
    rt: &T,
    alloc: A,
    machine: &mut Machine<A>,
    job: &Job,
) -> Result<Profile<A>, SessionError>
    requires { numbers_fault job.now.workers job.now.slice ≡ None }
    ensures end { ComesToEnd job.now machine.old machine.new result }
    ensures profile { IfOk result (λ profile. profile ≡ profile_of machine.old) }
{
    let mut profile = Profile::new(alloc)?;
    run(rt, machine, job.workers, job.slice, &mut profile)?;
    Ok(profile)
}
