//! What unbuffered calls expose in a run, superstep by superstep.
//!
//! [`run`] is one more scheduler over the events of a machine: it makes the steps of a rank one by one, and notes of each request which
//! call makes it. At the end of the superstep it asks [`exposures`](exposed_bytes::exposures) which bytes the calls expose. The text that
//! it answers is the lines of a table of comma-separated values, one for each range of such bytes. No other run computes them.
//!
//! What callers may rely on:
//!
//! - [`run`] leaves the machine as [`Machine::run_plain`](machine_core::Machine::run_plain) does, at its end, and the text has the lines of
//!   the exposed bytes of each superstep whose exchange was made, and no others.
//! - If memory is refused, there is no text, and events lead to the machine: any run can continue with it.
//! - [`laws`]: if the only line is the names of the columns, no call of the run exposes a byte.
//! - A superstep takes memory for the text, for a note of each of its requests, and for its lines.
#![tactic(auto)]

mod calls;
pub mod laws;
mod line;
mod note;
mod parts;
mod runs;
mod turn;

pub use runs::run;
