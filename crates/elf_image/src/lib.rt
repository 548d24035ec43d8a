//! ELF executables for RISC-V of 32 bits, little-endian and linked statically, as images, and images as such files.
//!
//! The program headers of an ELF file say which of its bytes go where in memory. That part of it is a [`node_memory::Image`]. This crate
//! ignores the rest, such as sections and symbols. An image has one spelling as a file.
//!
//! What callers may rely on:
//!
//! - [`load`] gives the image that a file presents, or the first of the file's faults. It looks at all headers before it takes memory.
//!   Apart from the headers it looks only at the bytes of the segments, which it copies. Its time is linear in the headers and these bytes.
//! - [`save`] gives the spelling of an image. Loaded, it is that image again (module [`laws`]).
//! - [`raw`] gives the image of bytes that have no headers.
//! - If the allocator refuses, each answers that it had no memory.
//!
//! Sources: System V ABI, chapters 4 "Object Files" and 5 "Program Loading and Dynamic Linking"; RISC-V ELF psABI
//! specification for the machine's number. The order of faults, the limits and the spelling are this crate's own rules.
#![tactic(auto)]

mod error;
mod file;
mod headers;
pub mod laws;
mod loader;
mod writer;

pub use error::ElfError;
pub use loader::{load, raw};
pub use writer::save;
