//! What a node of a bulk synchronous machine asks of the next exchange, and the messages that it got from the last.
//!
//! Requests are [`Put`]s, [`Get`]s and sends ([`Outgoing`]); [`Requests`] holds those of one node in one superstep,
//! beside the node's output. Contracts see it as a list of requests in issue order and a list of bytes. An [`Inbox`]
//! holds the messages that a node has not read yet, and is seen as their list.
//!
//! Callers may rely on this:
//!
//! - Requests are kept in the order in which they were added, whatever their kind: a request's place is its issue
//!   number in the superstep.
//! - A request or an output that would exceed [`MAX_REQUESTS`] or [`MAX_BYTES`] is refused as [`AddError::TooMuch`], before any memory is
//!   requested. A large machine has its own limits, [`LARGE_REQUESTS`] and [`LARGE_BYTES`]. A refused call changes nothing.
//! - Only the four calls that add and those that copy take memory. Everything else, also an inbox, works on the memory that it was given.
//!
//! An add takes amortised constant time, plus the time to copy its bytes. Taking the first message of an inbox takes constant time.
#![tactic(auto)]

mod inbox;
pub mod laws;
mod request;
mod requests;

pub use inbox::{Inbox, Message, payload_bytes};
pub use request::{Get, Outgoing, Put, Request};
pub use requests::{AddError, LARGE_BYTES, LARGE_REQUESTS, MAX_BYTES, MAX_REQUESTS, Requests};
