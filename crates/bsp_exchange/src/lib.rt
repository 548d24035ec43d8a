//! The exchange at the end of a superstep: once all nodes wait, their puts, gets and messages are carried out (BSPlib's `bsp_sync`; Hill
//! and others, 1998).
//!
//! [`exchange`] takes the nodes of a machine, each at the place of its rank, all of them waiting; [`are_at_sync`] is the test of that. The
//! model is their list of `NodeState`s, and `exchanged` is the list after the exchange: a function of the list before it alone, so that the
//! order in which the nodes came there does not matter.
//!
//! [`plan`] does everything in an exchange that takes memory or can be refused. It hands out a [`Part`] for each node. Any thread can land
//! a part, once, and the nodes can come in any order; the exchange is made when all parts have landed. [`draft`] is the step of a plan that
//! reads other nodes than its own. The other step prepares each node for its part: [`prepare_all`], or [`Part::prepare`] by any thread.
//!
//! What callers may rely on:
//!
//! - An exchange is refused for the first of its faults (own order): a next tag size or a sequence of pushes and pops that is not rank 0's,
//!   by the lowest such rank; then a put or a get that does not keep to its area, by the lowest rank and number. Transfers of 0 bytes are
//!   checked too.
//! - All gets read the memories as they were. Then gets land, and then puts, each by the caller's rank and in issue order; of two
//!   that write the same byte the later one counts (own order).
//! - A node's queue has just the messages that were sent to it, by the sender's rank and in issue order (own order), each with
//!   the tag that it was sent with.
//! - Areas and tag sizes turn, requests and output are empty, and a node runs on, or is exhausted at its limit. Registers, pc,
//!   ticks and the place in the input stay.
//! - `h` is the most bytes that one node sent to others or received from others, with tags; `h_all` counts what it moved to itself
//!   too, and `messages` is the most messages that one received from others (own rules).
//! - If the answer is not Ok, every node is as it was, even if memory was refused: the exchange takes all its memory before the first byte
//!   lands, including that for copies of shared pages that receive bytes. Pages that were already copied stay private; no byte shows this.
//!   An exchange that was refused memory can be tried again.
//! - [`laws`]: the greatest key counts, and no order of landing but that of the keys matters; `h` is at most `h_all`.
//!
//! Time grows as the requests and the bytes that they move. A byte of a get is copied into a buffer first, and then lands. A byte of a put
//! lands directly, except the few that a put holds itself. Messages move without a copy. A shared page that receives bytes is copied once.
#![tactic(auto)]

mod arrivals;
mod barrier;
mod checks;
mod fault;
mod gather;
mod landings;
pub mod laws;
mod part;
mod patch_list;
mod planning;
mod puts;
mod room;
mod smalls;
mod span;
mod sync;
mod traffic;

pub use barrier::{exchange, land_all};
pub use checks::first_fault;
pub use fault::{ExchangeError, ExchangeFault};
pub use gather::start_of;
pub use part::{Part, Plan};
pub use planning::{draft, plan, prepare_all};
pub use sync::are_at_sync;
pub use traffic::Traffic;
