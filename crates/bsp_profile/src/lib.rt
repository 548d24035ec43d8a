//! Profiles of runs: what each rank did in each superstep, and what went from rank to rank.
//!
//! A [`Profile`] is the lines of a table of comma-separated values. Contracts see it as their bytes. Each superstep has a row for each
//! rank, and then one for each two ranks between which bytes went. Work is in ticks and traffic in bytes, as in the costs of a bulk
//! synchronous run (BSP, Valiant 1990). The profile shows these costs in finer detail, and [`laws`] tie the two together.
//!
//! What callers may rely on:
//!
//! - [`run`] leaves the machine as [`worker_pool::run_sparing`] does, and the profile has the lines of the supersteps that were made, and
//!   no others, whatever the number of workers.
//! - At every answer of either, the lines that the profile got and those of the supersteps that are left are those of the whole run. So the
//!   same call continues a run that was refused memory or a thread.
//! - [`run_plain`] does the same in one thread, and starts no other.
//! - [`Profile::turn`] changes neither machine nor profile if memory is refused.
//! - A profile takes memory for its text, superstep by superstep, and beside it for the lines of one superstep and a table of the
//!   bytes between its ranks.
#![tactic(auto)]

pub mod laws;
mod lines;
mod profile;
mod row;
mod runs;
mod tally;

pub use profile::Profile;
pub use row::{Flow, Row};
pub use runs::{run, run_plain};
