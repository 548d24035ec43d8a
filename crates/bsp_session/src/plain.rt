//! The sessions that run in one thread, for hosts that cannot start another.

ghost use Rattle.std.specs.Prelude.{◌≡◌, ◌≢◌, ◌↔◌, Some, None, IfOk, IfErr, IsErrOf};
ghost use Rattle.bsp_session.specs.declared.errors.BadSetting.{BadSetting as BadSettingCause};
ghost use Rattle.bsp_session.specs.Profiles.{HasTooManyNodes, IsErrorOfProfiled, Profiles};
ghost use Rattle.bsp_session.specs.Streams.{stream};
ghost use Rattle.bsp_session.specs.Session.{IsErrorOf, Reports, job_fault, session_of};

use crate::errors::SessionError;
use crate::job::Job;
use crate::profiles::has_too_many_nodes;
use crate::report::{outcome_of, write_both, write_report};
use crate::sessions::start;
use bsp_profile::{Profile, run_plain};
use counted_io::Counted;
use machine_core::Outcome;
use std::alloc::Allocator;
use std::io::{Read, Write};

/// Runs a program as [`session`](crate::session) does, but in one thread.
///
/// # Errors
/// As [`session`](crate::session), without [`SessionError::NoWorker`].
pub fn plain_session<A: Allocator + Copy, I: Read, R: Read, W: Write>(
    alloc: A,
    image: &mut Counted<I>,
    input: &mut Counted<R>,
    job: &Job,
    out: &mut Counted<W>,
) -> Result<Outcome, SessionError>
    ensures ok { IfOk result (λ outcome. Reports (session_of (stream I.remaining image.old image.new)
        (stream R.remaining input.old input.new) (stream W.contents out.old out.new) job.now) outcome) }
    ensures err { IfErr result (λ e. IsErrorOf (session_of (stream I.remaining image.old image.new)
        (stream R.remaining input.old input.new) (stream W.contents out.old out.new) job.now) e) }
    ensures no_worker { IfErr result (λ e. e ≢ SessionError.NoWorker) }

    ensures bad_settings { (cause : BadSettingCause)
        → IsErrOf result (SessionError.BadSettings cause)
        ↔ (job_fault job.now ≡ Some (SessionError.BadSettings cause)) }
    // What is not touched stays as it was, also where its bytes are not known.
    ensures settings_first { job_fault job.now ≢ None
        → (image.new ≡ image.old) × (input.new ≡ input.old) }
    ensures nothing_written { IfErr result (λ e.
        e ≢ SessionError.WriteFault → out.new ≡ out.old) }
{
    let mut machine = start(alloc, image, input, job)?;
    machine.run_plain()?;
    write_report(alloc, &machine, job, out)?;
    Ok(outcome_of(&machine))
}

/// Runs a program as [`profile_session`](crate::profile_session) does, but in one thread.
///
/// # Errors
/// As [`profile_session`](crate::profile_session), without [`SessionError::NoWorker`].
pub fn plain_profile_session<A: Allocator + Copy, I: Read, R: Read, W: Write, P: Write>(
    alloc: A,
    image: &mut Counted<I>,
    input: &mut Counted<R>,
    job: &Job,
    out: &mut Counted<W>,
    profile: &mut Counted<P>,
) -> Result<Outcome, SessionError>
    ensures ok { IfOk result (λ outcome. Profiles (session_of (stream I.remaining image.old image.new)
        (stream R.remaining input.old input.new) (stream W.contents out.old out.new) job.now)
        (stream P.contents profile.old profile.new) outcome) }
    ensures err { IfErr result (λ e. IsErrorOfProfiled (session_of (stream I.remaining image.old image.new)
        (stream R.remaining input.old input.new) (stream W.contents out.old out.new) job.now)
        (stream P.contents profile.old profile.new) e) }
    ensures no_worker { IfErr result (λ e. e ≢ SessionError.NoWorker) }
    ensures too_many_nodes { IsErrOf result SessionError.TooManyNodes ↔ HasTooManyNodes job.now }
    // What is not touched stays as it was, also where its bytes are not known.
    ensures settings_first { job_fault job.now ≢ None
        → (image.new ≡ image.old) × (input.new ≡ input.old) }
    ensures nodes_first { HasTooManyNodes job.now
        → (image.new ≡ image.old) × (input.new ≡ input.old) }
    ensures nothing_written { IfErr result (λ e. e ≢ SessionError.WriteFault
        → (out.new ≡ out.old) × (profile.new ≡ profile.old)) }
{
    if has_too_many_nodes(job) {
        return Err(SessionError::TooManyNodes);
    }
    let mut machine = start(alloc, image, input, job)?;
    let mut told = Profile::new(alloc)?;
    run_plain(&mut machine, &mut told)?;
    write_both(alloc, &machine, job, told.as_bytes(), out, profile)
}
