//! Where the work of a run is: how many instructions each rank made at each address in each superstep.
//!
//! [`run`] is one more scheduler over the events of a machine: it makes steps of a rank, and counts each step at its address. The text that
//! it answers is the lines of a table of comma-separated values. No other run knows of counts.
//!
//! What callers may rely on:
//!
//! - [`run`] leaves the machine as [`Machine::run_plain`](machine_core::Machine::run_plain) does, at its end, and the text has the lines of
//!   the supersteps that were made, and no others.
//! - If memory is refused, there is no text, and events lead to the machine: any run can continue with it.
//! - The counts of a rank in a superstep add up to its ticks in that superstep ([`laws`]).
//! - A run takes eight bytes for each address up to the highest page in which a step is made, once for all nodes, beside the text.
#![tactic(auto)]

pub mod laws;
mod line;
mod parts;
mod runs;
mod table;

pub use runs::run;
