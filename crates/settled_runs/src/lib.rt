//! Runs whose result does not depend on the order in which puts and gets land.
//!
//! BSPlib (Hill and others, 1998) does not define in which order puts and gets land if they overlap; a machine has one order of its own.
//! The crate has only [`laws`]: every choice of orders leads to the same machine after each superstep exactly if no superstep has a
//! contested byte. Everything else that BSPlib leaves open is as in the machine's own runs: the order of messages in a queue, and when
//! unbuffered calls take effect.
#![tactic(auto)]

pub mod laws;
