//! What comes before the lines: settings, image, input, and the debugger of their machine.

ghost use Rattle.std.specs.Prelude.{◌≡◌, ◌≢◌, ◌≤◌, length, None, IfOk, IfErr};
ghost use Rattle.std.specs.Result.{result_err};
ghost use Rattle.bsp_session.specs.Images.{most_bytes};
ghost use Rattle.bsp_session.specs.Streams.{stream};
ghost use Rattle.bsp_session.specs.Session.{IsErrorOfFiles, IsErrorOfImage, ReadsFiles};
ghost use Rattle.bsp_console.specs.Console.{IsDebuggerOf, console_fault};

use bsp_debug::Debugger;
use bsp_session::{Job, SessionError, image_of, most_input};
use counted_io::{Counted, read_at_most};
use machine_core::Machine;
use std::alloc::Allocator;
use std::io::Read;

/// Reads the file of an image and an input, if the settings of the machine are within their ranges.
pub(crate) fn read_files<A: Allocator + Copy, I: Read, R: Read>(
    alloc: A,
    image: &mut Counted<I>,
    input: &mut Counted<R>,
    job: &Job,
) -> Result<(Vec<u8, A>, Vec<u8, A>), SessionError>
    ensures ok { IfOk result (λ read. ReadsFiles console_fault job.now (stream I.remaining image.old image.new)
        (stream R.remaining input.old input.new) read.0.items read.1.items) }
    ensures err { IfErr result (IsErrorOfFiles console_fault job.now (stream I.remaining image.old image.new)
        (stream R.remaining input.old input.new)) }
    ensures settings_first { console_fault job.now ≢ None
        → (image.new ≡ image.old) × (input.new ≡ input.old) }
{
    check_settings(job)?;
    let file = read_at_most(alloc, image, job.format.most_bytes())?;
    let input = read_at_most(alloc, input, most_input(job.settings.large))?;
    Ok((file, input))
}

/// Whether the settings of a machine are within their ranges; else the first that is not.
fn check_settings(job: &Job) -> Result<(), SessionError>
    ensures { result_err result ≡ console_fault job.now }
{
    job.settings.check()?;
    Ok(())
}

/// The debugger with which the lines begin.
pub(crate) fn debugger_of<A: Allocator + Copy>(
    alloc: A,
    job: &Job,
    file: &[u8],
    input: Vec<u8, A>,
) -> Result<Debugger<A>, SessionError>
    requires settings { console_fault job.now ≡ None }
    requires limit { length file.now ≤ most_bytes job.now.format }
    ensures ok { IfOk result (λ d. IsDebuggerOf job.now file.now input.items d) }
    ensures err { IfErr result (λ e. IsErrorOfImage job.now file.now e) }
{
    let image = image_of(alloc, job.format, file)?;
    let machine = Machine::new(alloc, &image, input, job.settings)?;
    Ok(Debugger::new(alloc, machine))
}
