//! Which bytes of a superstep unbuffered calls expose.
//!
//! BSPlib (Hill and others, 1998) says of each call when it reads its source and writes its target. A put is buffered: it reads at the
//! call, and writes at the end of the superstep. A get reads at the end of the superstep, before anything buffered is written. An unbuffered put
//! or get may read and write at any time from the call to the end of the superstep. A byte is *exposed* if one call reads it, one call
//! writes it, and BSPlib leaves open which of the two comes first: then another library may give the program another value.
//!
//! [`exposures`] finds the exposed bytes of a superstep, by the ranges that its calls name.
//!
//! What callers may rely on:
//!
//! - Each range is exactly what its two calls expose.
//! - Any two places in the code whose calls expose bytes have exactly one range. If each call has its own place, every exposed byte is in a
//!   range. If there is no range, no byte is exposed.
//! - [`laws`]: it is open which of two calls comes first exactly if BSPlib allows both orders. The order in which calls are listed does not
//!   matter, and without an unbuffered call nothing is exposed.
//!
//! Only ranges count, not values. A rank's own loads and stores are not calls. This crate does not look for two calls that write the same
//! byte: `contested_bytes` does.
#![tactic(auto)]

mod call;
mod exposure;
pub mod laws;
mod search;

pub use call::{Call, Sort};
pub use exposure::Exposure;
pub use search::exposures;
