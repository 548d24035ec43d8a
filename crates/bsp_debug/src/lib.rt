//! A debugger: the machine, stepped by commands.
//!
//! A [`Debugger`] has a machine, states of it that it keeps, and a set of [`Point`]s at which [`Command::Go`] stops. Its model has these,
//! the machine at its beginning, and the events that the last command made. A command makes events of the machine (steps of single nodes,
//! and turns) or only reads. [`Debugger::back`] returns the machine to an earlier state. So the debugger is one more scheduler of the
//! machine. Since the order of events does not matter, nothing that it does changes how a run ends.
//!
//! Callers may rely on this:
//!
//! - After a command the machine is what the events that [`Debugger::events_of_last`] reports lead to. They are reported whole and in
//!   order, those of one rank in a row as one entry.
//! - `Step`, `Run`, `Return`, `Phase` and `Turn` make exactly the events that they name. `Go` makes at least one event of the machine's
//!   walk, and ends with the first that leads to a stop: the outcome, or else a superstep with a point, or else a next step with a point.
//!   Its events are determined ([`laws::go_has_one_way`]).
//! - [`Debugger::back`] restores the whole machine that [`Debugger::keep`] kept under a number, and nothing else, so points stay. A number
//!   belongs to one state: after [`Debugger::forget`], no other state gets it.
//! - At all times, events lead from the machine with which the debugger began to its machine ([`Debugger::machine`]) and to each kept
//!   state. So each of them has the same end ([`laws::going_back_changes_no_end`]).
//! - A reply is what the definitions give for the machine before and after the command.
//! - Each refusal except [`DebugError::NoMemory`] is answered exactly if its condition holds, and then no event was made.
//! - If memory is refused, the first events of the command were made; `Return`, `Turn` and `Go` did not make all of theirs. The same
//!   command can be given again, and continues ([`laws::a_refused_command_goes_on`]).
//!
//! If no point is set, `Go` runs at the speed of the machine's own run. If points are set, each step looks up its address among them, in
//! logarithmic time.
//!
//! No contract counts refusals of memory; the tests refuse each request in turn.
#![tactic(auto)]

mod command;
mod debugger;
mod error;
mod go;
pub mod laws;
mod made;
mod over;
mod point;
mod points;
mod reads;
mod reply;
mod returns;
mod trace;

pub use command::Command;
pub use debugger::Debugger;
pub use error::DebugError;
pub use made::Made;
pub use point::Point;
pub use reply::Reply;
