//! The table over which threads share out the nodes of a phase.
//!
//! Between two turns the nodes of a machine do not meet (BSP, Valiant 1990), so any thread may work on any of them. The [`ClaimTable`] has
//! a word and a slot for each rank, and one more word that counts the workers. The [`Keeper`] takes the row of nodes to the slots, in the
//! order of ranks. Each worker has a [`Place`]: it enrols, takes a node that is at home and runs, gives it back after a slice of its steps,
//! takes another, and retires. When all workers have retired, the keeper seals the table and takes the row out of it.
//!
//! What callers may rely on: [`ClaimTable::close`] gives back each node of the row, in its place, after zero or more steps of its own,
//! whatever the workers did and in whatever order. Each step is proved to keep a rule: what the workers know of the table
//! (`specs/ClaimSteps.antt`), and what holds for the table between any two steps (`specs/Claims.antt`).
//!
//! Nothing is promised about progress: a worker may never get a node.
#![tactic(auto)]

mod gate;
mod keeper;
mod place;
mod rule;
mod steps;
mod view;
mod worker;

pub use gate::{Gate, OpenGate};
pub use keeper::{ClaimTable, Keeper};
pub use place::Place;
pub use rule::{ClaimRule, PhaseStart};
pub use view::View;
pub use worker::Work;
