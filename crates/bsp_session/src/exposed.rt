//! The session that runs a program and writes what its calls expose.

ghost use Rattle.std.specs.Prelude.{◌≡◌, ◌≢◌, None, IfOk, IfErr};
ghost use Rattle.bsp_session.specs.Exposed.{Exposes, IsErrorOfExposed};
ghost use Rattle.bsp_session.specs.Streams.{stream};
ghost use Rattle.bsp_session.specs.Session.{job_fault, session_of};

use crate::errors::SessionError;
use crate::job::Job;
use crate::report::write_both;
use crate::sessions::start;
use counted_io::Counted;
use exposed_runs::run;
use machine_core::Outcome;
use std::alloc::Allocator;
use std::io::{Read, Write};

/// Runs a program as [`session`](crate::session) does, but in one thread, writes its report to `out`, and then which bytes its calls expose
/// in each superstep to `exposed`.
///
/// # Errors
/// As [`session`](crate::session), with [`SessionError::WriteFault`] also where the writer of what is exposed failed, after some first
/// bytes of it, and not all, were written; the report was written whole then. The text is made whole before anything is written.
pub fn exposed_session<A: Allocator + Copy, I: Read, R: Read, W: Write, E: Write>(
    alloc: A,
    image: &mut Counted<I>,
    input: &mut Counted<R>,
    job: &Job,
    out: &mut Counted<W>,
    exposed: &mut Counted<E>,
) -> Result<Outcome, SessionError>
    ensures ok { IfOk result (λ outcome. Exposes (session_of (stream I.remaining image.old image.new)
        (stream R.remaining input.old input.new) (stream W.contents out.old out.new) job.now)
        (stream E.contents exposed.old exposed.new) outcome) }
    ensures err { IfErr result (λ e. IsErrorOfExposed (session_of (stream I.remaining image.old image.new)
        (stream R.remaining input.old input.new) (stream W.contents out.old out.new) job.now)
        (stream E.contents exposed.old exposed.new) e) }
    // What is not touched stays as it was, also where its bytes are not known.
    ensures settings_first { job_fault job.now ≢ None
        → (image.new ≡ image.old) × (input.new ≡ input.old) }
    ensures nothing_written { IfErr result (λ e. e ≢ SessionError.WriteFault
        → (out.new ≡ out.old) × (exposed.new ≡ exposed.old)) }
{
    let mut machine = start(alloc, image, input, job)?;
    let told = run(alloc, &mut machine)?;
    write_both(alloc, &machine, job, told.as_bytes(), out, exposed)
}
