//! Tests for `failing_allocator`, `counted_io` and `exposed_bytes`: what neither a contract nor a run of the program can show. They are
//! outside of the crates that they test, as users of their exports, because a crate with tests is proved twice.
#![tactic(auto)]

#[cfg(test)]
mod allocator;
#[cfg(test)]
mod counted;
#[cfg(test)]
mod exposed;
