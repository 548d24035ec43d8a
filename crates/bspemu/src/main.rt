//! The program `bspemu`: it runs RISC-V programs on an emulated bulk synchronous parallel machine, or debugs them by lines.
//!
//! A thin shell over [`bsp_session`] and [`bsp_console`]: [`command_line`] has the rules of the command line, [`options`] says what the
//! words ask for by them, [`files`] opens what they name, and [`program`] runs the session on it and reports how that went, by a line on
//! standard error and by the exit status.
//!
//! What is known of it: the options are those that clap's rules give for the words, each fault of the words is one of
//! clap's, and the exit status is that of an answer which a session with these options can have. What the system gives
//! as files, and what it takes as output, no contract can say.
#![tactic(auto)]

mod command_line;
mod files;
mod options;
mod program;

use std::process::ExitCode;

fn main(rt: HostRuntime) -> ExitCode {
    ExitCode::from(program::program(&rt))
}
