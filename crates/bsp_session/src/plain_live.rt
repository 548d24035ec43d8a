//! The session that writes output during the run, in one thread.

ghost use Rattle.std.specs.Prelude.{◌≡◌, ◌≢◌, ◌↔◌, ◌⊎◌, ◌≤◌, [], Some, None};
ghost use Rattle.std.specs.Prelude.{IfOk, IfErr, IsErrOf, OnOk};
ghost use Rattle.std.specs.Io.KnownBytes.{Appends};
ghost use Rattle.machine_core.specs.Sound.{IsSoundMachine};
ghost use Rattle.machine_core.specs.Turn.{IsRunToEnd, superstep as superstep_of, with_phases, written as written_by};
ghost use Rattle.bsp_session.specs.declared.errors.BadSetting.{BadSetting as BadSettingCause};
ghost use Rattle.bsp_session.specs.Live.{IsErrorOfLive, IsErrorOfPlainRun, IsErrorOfPlainSuperstep, MayComeLate};
ghost use Rattle.bsp_session.specs.Streams.{stream};
ghost use Rattle.bsp_session.specs.Session.{Reports, job_fault, session_of};

use crate::errors::SessionError;
use crate::job::Job;
use crate::live::{write_at_once, write_lines};
use crate::report::outcome_of;
use crate::sessions::start;
use counted_io::Counted;
use machine_core::{Machine, Outcome};
use std::alloc::Allocator;
use std::io::{Read, Write};

/// Runs a program as [`live_session`](crate::live_session) does, but in one thread.
///
/// # Errors
/// As [`live_session`](crate::live_session), without [`SessionError::NoWorker`].
pub fn plain_live_session<A: Allocator + Copy, I: Read, R: Read, W: Write>(
    alloc: A,
    image: &mut Counted<I>,
    input: &mut Counted<R>,
    job: &Job,
    out: &mut Counted<W>,
) -> Result<Outcome, SessionError>
    ensures ok { IfOk result (λ outcome. Reports (session_of (stream I.remaining image.old image.new)
        (stream R.remaining input.old input.new) (stream W.contents out.old out.new) job.now) outcome) }
    ensures err { IfErr result (λ e. IsErrorOfLive (session_of (stream I.remaining image.old image.new)
        (stream R.remaining input.old input.new) (stream W.contents out.old out.new) job.now) e) }
    ensures no_worker { IfErr result (λ e. e ≢ SessionError.NoWorker) }

    ensures bad_settings { (cause : BadSettingCause)
        → IsErrOf result (SessionError.BadSettings cause)
        ↔ (job_fault job.now ≡ Some (SessionError.BadSettings cause)) }
    // What is not touched stays as it was, also where its bytes are not known.
    ensures settings_first { job_fault job.now ≢ None
        → (image.new ≡ image.old) × (input.new ≡ input.old) }
    ensures nothing_written { IfErr result (λ e. (out.new ≡ out.old) ⊎ MayComeLate e) }
{
    let mut machine = start(alloc, image, input, job)?;
    run_plain_live(&mut machine, out)?;
    write_lines(alloc, &machine, job, out)?;
    Ok(outcome_of(&machine))
}

/// Runs a machine that has written nothing to its outcome, and writes its output superstep by superstep.
fn run_plain_live<A: Allocator + Copy, W: Write>(
    machine: &mut Machine<A>,
    out: &mut Counted<W>,
) -> Result<(), SessionError>
    requires { machine.old.output ≡ [] }
    ensures ended { OnOk result (IsRunToEnd machine.old machine.new) }
    ensures written { OnOk result (Appends
        (W.contents out.old.inner) (W.contents out.new.inner) machine.new.output) }
    ensures err { IfErr result (IsErrorOfPlainRun machine.old (stream W.contents out.old out.new)) }
    ensures never_falls { out.old.failures ≤ out.new.failures }
{
    while machine.outcome().is_none() {
        make_plain_superstep(machine, out)?;
    }
    Ok(())
}

/// Makes a superstep of a machine that has no outcome, and writes what the nodes wrote in it once its turn is made.
fn make_plain_superstep<A: Allocator + Copy, W: Write>(
    machine: &mut Machine<A>,
    out: &mut Counted<W>,
) -> Result<(), SessionError>
    requires sound { IsSoundMachine machine.old }
    requires going { machine.old.outcome ≡ None }
    ensures made { OnOk result (machine.new ≡ superstep_of machine.old) }
    ensures written { OnOk result (Appends (W.contents out.old.inner) (W.contents out.new.inner)
        (written_by (with_phases machine.old).nodes)) }
    ensures err { IfErr result
        (IsErrorOfPlainSuperstep machine.old (stream W.contents out.old out.new)) }
    ensures never_falls { out.old.failures ≤ out.new.failures }
{
    let before = machine.output().len();
    machine.run_phase_plain()?;
    machine.turn()?;
    write_at_once(&machine.output()[before..], out)?;
    Ok(())
}
