//! Reports the contested bytes of a run, superstep by superstep.
//!
//! [`run`] is one more scheduler over public calls: before each turn that makes an exchange it asks
//! [`contested_ranges`](contested_bytes::contested_ranges) which bytes of the memories depend on an order that BSPlib leaves open. A
//! [`Told`] is the lines of a table of comma-separated values, one for each range of such bytes. Contracts see it as their bytes. No other
//! run computes them.
//!
//! What callers may rely on:
//!
//! - [`run`] leaves the machine as [`worker_pool::run_sparing`] does, and the report has the lines of the contested bytes of each superstep
//!   that was made, and no others, with any number of workers.
//! - At every answer of `run` the lines that were appended and those of the supersteps that are left are those of the whole run. So the
//!   same call continues a run that was refused memory or a thread.
//! - [`laws`]: if the only line is the names of the columns, the run is the same for every choice of the orders in which puts and gets
//!   land. If there are more lines, two choices lead to two machines after some superstep, and either byte that a line names may be there.
//! - If more than two requests bring a byte, it is not promised which two a line names.
//! - A superstep takes memory for the text, for a list of what its requests land, and for its lines.
#![tactic(auto)]

pub mod laws;
mod line;
mod runs;
mod told;
mod turn;

pub use runs::run;
pub use told::Told;
