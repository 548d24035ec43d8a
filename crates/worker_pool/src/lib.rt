//! Worker threads over the nodes of a machine.
//!
//! Between two turns the nodes of a machine do not meet (BSP, Valiant 1990), so each thread can take some of them through their local parts
//! of the superstep. [`run_phase`] does so for one superstep, and [`run`] up to the machine's outcome. The machine lends its row of nodes
//! meanwhile, and the nodes come to a table (`claim_table`), from which each worker takes one that runs, makes a slice of its steps and
//! gives it back. When no worker is left, this thread takes the row out of the table and finishes each node that still runs. In a turn the
//! nodes are prepared for the parts of the exchange, and then the parts land, in as many threads; each thread has a run of the row.
//! [`run_phase_sparing`] and [`run_sparing`] are the same, but start no thread if its start would cost more than the work that it does.
//!
//! What callers may rely on:
//!
//! - At `Ok` the machine is as one thread leaves it, whatever the number of workers: [`run_phase`] leaves each node at the end of its
//!   local part and all else as it was, and [`run`] leaves the machine at its end.
//! - Every thread that was started is joined before a call answers.
//! - A refusal stops no node that did not need what was refused: afterwards each node has stopped, or its next step may be refused memory,
//!   as a store into a page that is shared may. If a thread cannot be started, the others take its nodes. If there is no room for the
//!   table, this thread takes all nodes. A node whose thread cannot be started is prepared all the same, and its part lands. If a node is
//!   refused memory while it is prepared, the turn is called off before a part has landed. So no turn is left half made. No turn is made
//!   after a refusal. Then the machine is one that events lead to, and the call made again leaves what it would have left: see [`laws`].
//! - If both a thread and memory were refused, [`PoolError::NoWorker`] is answered, whichever came first.
//! - After the outcome these calls answer `Ok` and change nothing, as long as the numbers are within their ranges.
//! - These calls may wait, for their own threads alone; a gate that waits is its writer's affair. No thread of the pool waits for
//!   another but to join it, and until no worker is counted.
//!
//! No clause says that a thread runs, which thread runs which node, or that two run at once; tests show the last, by a [`Gate`]. It is not
//! proved either that memory or a thread is refused only if the host has none.
#![tactic(auto)]

mod error;
mod landing;
pub mod laws;
mod numbers;
mod part;
mod pool;

pub use claim_table::{Gate, OpenGate};
pub use error::PoolError;
pub use numbers::check_numbers;
pub use pool::{run, run_phase, run_phase_sparing, run_sparing};
