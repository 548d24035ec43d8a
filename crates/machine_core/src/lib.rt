//! The machine: nodes that step, each by itself, and the turn that ends a superstep once no node runs (BSP, Valiant 1990;
//! BSPlib, Hill and others 1998).
//!
//! Contracts see a [`Machine`] as one record, a `MachineState`: its settings and input, the nodes with the ticks at which they
//! began the superstep, what was written, the costs, the number of exchanges, and the outcome, if it has one. An [`Event`] is a
//! step of one node or the turn. The definitions say what each does to the record, and know neither who chooses the events nor in
//! which order nodes step.
//!
//! What callers may rely on:
//!
//! - A machine is always sound, as `IsSoundMachine` says.
//! - [`Machine::apply`] makes an event, or changes nothing if the event is not enabled. [`Machine::run_plain`] leaves the machine at its
//!   end, and [`Machine::run_phase_plain`] at the end of its nodes' local parts.
//! - Only these three, [`Machine::run_node`], [`Machine::run_node_traced`], [`Machine::turn`], [`Machine::begin_turn`], [`Machine::new`]
//!   and [`Machine::try_clone`] take memory, and after the outcome none of them but the last two does. An event that is refused memory has
//!   changed nothing in the record. A run that is refused memory keeps the events that it made; if you make the call again, it leaves what
//!   the first call would have left.
//! - [`Machine::new`] lays out the image once, in the memory of rank 0. The memories of the other ranks begin by sharing its pages, and a
//!   node gets a copy of a page when it first writes there. No clause says that pages are shared: the record has only bytes.
//! - [`Machine::try_clone`] copies the machine. Their nodes share pages, but a change to one of the two does not show in the other. So you
//!   can keep a state and return to it.
//! - [`Machine::lend`] hands out the nodes by value, for threads to step. The [`ComputingMachine`] that stays takes them back after each
//!   has made some steps of its own. Nothing else in the machine has changed then. Neither takes memory, and a row that was lent cannot be
//!   lost: a `ComputingMachine` has no other end.
//! - [`Machine::begin_turn`] is the first half of a turn. If it makes the exchange, it hands out the row with the part that each node
//!   receives, for threads to prepare the nodes and then to land the parts. The [`ExchangingMachine`] that stays takes the row back once
//!   each part has landed, and the machine is as [`Machine::turn`] leaves it. If a node is refused memory while it is prepared, the
//!   `ExchangingMachine` calls the turn off, and the machine is as it was. It has no other end.
//! - If its settings have prices for clocks, each node has a clock. It continues from the cost of the ledger's rows at these prices and
//!   from the node's ticks when the superstep began. Clocks are set when a superstep begins, so nodes do not depend on each other between
//!   turns.
//! - Only one thing no clause says: whether memory was refused. The tests refuse each request in turn.
//!
//! [`laws`] has what holds of every machine, and first that order does not matter: whatever events are made, a machine has the
//! same end, which is that of the run superstep by superstep.
#![tactic(auto)]

mod clock;
mod closing;
mod error;
mod event;
pub mod laws;
mod machine;
mod outcome;
mod row;
mod settings;
mod start;

pub use error::MachineError;
pub use event::Event;
pub use machine::{Begun, ComputingMachine, ExchangingMachine, Landing, Machine};
pub use outcome::Outcome;
pub use settings::{Prices, Settings};
