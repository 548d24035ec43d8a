//! Which bytes a superstep leaves to an order that BSPlib does not define.
//!
//! In BSPlib (Hill and others, 1998) all gets of a superstep read before anything is written. If puts or gets overlap, BSPlib does not
//! define in which order they write. A byte is *contested* if two of them bring it different bytes, and otherwise *settled*. An exchange
//! here has one order of its own (`bsp_exchange`); a program that should run the same elsewhere must not have contested bytes.
//!
//! [`contested_ranges`] finds the contested bytes of the exchange that is about to be made. Call it before the turn of each superstep that
//! makes an exchange.
//!
//! What callers may rely on:
//!
//! - The bytes of the ranges are exactly the contested ones, each once. Ranges are ordered by rank and then by address, and there is a
//!   settled byte between any two ranges in one memory.
//! - Each names two requests that bring its first byte, by their kind, their callers and their numbers, and the two different bytes that
//!   they bring.
//! - [`laws`]: if no byte is contested, each order that BSPlib allows leaves the same nodes. If a byte is contested, it lies in the memory
//!   of a node, and two of these orders differ in it: after the exchange either of the two bytes that a range names may be there.
//! - BSPlib also leaves the order of messages in a queue open. This crate does not look at it.
//!
//! Of two requests of one caller that overlap, BSPlib does not say which one is later either, so they count like any others.
#![tactic(auto)]

mod gather;
mod landing;
pub mod laws;
mod merge;
mod range;
mod superstep;
mod sweep;

pub use range::{Contender, ContestedRange, Kind};
pub use superstep::contested_ranges;
