//! The areas of memory that a node of a bulk synchronous machine has registered.
//!
//! A node registers areas so that others can name them in puts and gets (BSPlib, Hill and others, 1998: `bsp_push_reg`, `bsp_pop_reg`).
//! [`Slots`] keeps its list in effect, the next list, and the pushes and pops of this superstep. Contracts see the list in effect, those
//! pushes and pops in issue order, and whether there is room for the turn. The next list is the list in effect after these pushes and pops.
//!
//! Callers may rely on this:
//!
//! - A push appends an area to the next list, and a pop removes the last entry of its address from it, in the order in which they are made
//!   (a rule of this project). Neither changes what [`Slots::find`], [`Slots::area`] and [`Slots::count`] read before [`Slots::turn`].
//! - An area is found by its address. If several entries have that address, the last one counts. All nodes make the same sequence of pushes
//!   and pops ([`Slots::same_shape`]), each with its own addresses and sizes. So an area has the same position in the list in effect of
//!   every node.
//! - A refused call changes nothing, and a refusal for any other reason than a lack of memory comes before any memory is requested.
//! - Only [`Slots::push`], [`Slots::pop`], [`Slots::prepare_turn`] and [`Slots::try_clone`] take memory. [`Slots::turn`] uses
//!   the room that [`Slots::prepare_turn`] made.
//!
//! A push takes amortised constant time. A pop and a search scan a list of at most [`MAX_ENTRIES`] entries, or [`LARGE_ENTRIES`]
//! in a large machine.
#![tactic(auto)]

mod area;
mod change;
pub mod laws;
mod slots;

pub use area::Area;
pub use slots::{LARGE_ENTRIES, LARGE_PUSHES, MAX_ENTRIES, MAX_PUSHES, PopError, PushError, Slots};
