//! Tests for the crates above `node_core`: what neither a contract nor a run of the program can show about exchanges, pools and sessions.
//! They are outside of the crates that they test, as users of their exports, because a crate with tests is proved twice.
#![tactic(auto)]

#[cfg(test)]
mod gates;
#[cfg(test)]
mod machines;
#[cfg(test)]
mod program;
#[cfg(test)]
mod readers;
#[cfg(test)]
mod sessions;
