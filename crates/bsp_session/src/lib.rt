//! Sessions: each reads a program, runs it on every node, and writes their output.
//!
//! A [`session`] reads an image and an input to their ends, makes a machine of them, and runs it superstep by superstep to its outcome.
//! Then it writes the report: the output of the nodes and, if the [`Job`] asks for them, the costs of the supersteps, their total and the
//! outcome. Its model is a function of bytes: those of the image and of the input determine the machine at its end, and this the bytes
//! written and the [`Outcome`]. It is generic over its readers, its writer and its allocator. Files, options and the process's exit belong
//! to the program above it, which uses [`status`] and the texts of [`SessionError`].
//!
//! Callers may rely on this, as far as contracts know the bytes of the readers and of the writer:
//!
//! - At `Ok` the settings were within their ranges, the image and the input were read whole and within their limits,
//!   and the image fitted every node's memory. The whole report of the machine at its end was written, and nothing else.
//! - An error is that of the first stage that failed: settings, image, input, machine, run, report. Bad settings are answered exactly if a
//!   setting is out of its range, and then nothing was read. If the image could not be read, nothing of the input was. At `TooLong` more
//!   than the limit was read, at `ReadFault` no more than that.
//! - The report is whole before its first byte is written: every error except a fault of the writer leaves the writer as it was. After such
//!   a fault the first bytes of the report are written, but not all of them.
//! - A fault of a reader or of the writer is answered only if one of its calls failed in this session.
//! - [`SessionError::NoMemory`] is answered only if a request for memory was refused, [`SessionError::NoWorker`] only if a thread could not
//!   be started, and neither for bad settings. No clause counts refusals: the tests refuse each request in turn. `NoMemory` says nothing
//!   about later stages.
//! - A listing ([`list_session`]) and a saved image ([`asm_session`]) have the same rules, for the stages that they have. Only a
//!   listing may be refused memory after something was written: it ends after a whole line then.
//! - A run with a profile ([`profile_session`]) has the same report and the same errors. The profile covers the run from its start. It is
//!   complete before anything is written, and it is written after the report. Only a fault of its own writer leaves a part of it. A large
//!   machine with more than 1,024 nodes has no profile: [`SessionError::TooManyNodes`] is answered before all other errors.
//! - So has a run with counts ([`counts_session`]), which makes all steps in one thread.
//! - So has a run that reports contested bytes ([`contested_session`]), and one that reports what its calls expose ([`exposed_session`]),
//!   in one thread.
//! - A live run ([`live_session`]) has the same report, and writes it as it proceeds: once a superstep is over, it writes the output of
//!   that superstep. Errors that come before its run leave the writer as it was. If the run is refused memory or a thread, the whole output
//!   of the finished supersteps has been written; [`laws`] tie it to the output at the end. After a fault of the writer some first bytes of
//!   the report are written, and perhaps all of them.
//! - [`plain_session`], [`plain_live_session`] and [`plain_profile_session`] make the same runs in one thread and start no other. They
//!   have the same clauses, and never answer [`SessionError::NoWorker`].
//! - The number of workers does not affect what is written: the report is that of the definitions, which have no workers.
//!
//! A session waits for its own threads alone. It ends if these and the calls of its readers and its writer do: a node makes at
//! most as many steps as its limit of ticks, there is at most one superstep more than that, and an interrupted call is tried
//! again for a bounded number of times. It takes the memory of the image once for all nodes, of a table of pages for each, and
//! of each page that a node writes; and beside it that of the input, of the output, of a row of costs for each superstep, and where a
//! report is asked for of a line for each of these; and for each further worker that of a thread's stack and of a list of its nodes.
//! Up to the start of the run it takes that of the image's file and of the image too.
#![tactic(auto)]

mod contested;
mod counts;
mod errors;
mod exposed;
mod images;
mod job;
pub mod laws;
mod listing;
mod live;
mod plain;
mod plain_live;
mod profiles;
mod report;
mod sessions;

pub use contested::contested_session;
pub use cost_ledger::LedgerText;
pub use counts::counts_session;
pub use errors::{BadSetting, SessionError, status};
pub use exposed::exposed_session;
pub use images::image_of;
pub use job::{Format, Job};
pub use listing::{asm_session, list_session};
pub use live::live_session;
pub use machine_core::{Outcome, Prices, Settings};
pub use plain::{plain_profile_session, plain_session};
pub use plain_live::plain_live_session;
pub use profiles::{has_too_many_nodes, profile_session};
pub use sessions::{most_input, session};
