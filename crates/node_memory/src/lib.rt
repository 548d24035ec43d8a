//! The memory of a node, and the images that it starts from.
//!
//! A [`Memory`] is the list of its bytes, and beside it which of its pages of 4,096 bytes are private. A caller may rely on
//! this: a memory made from an [`Image`] has the byte of its last segment at each address; a load or a range read gives what
//! the list has there; a store replaces its own range and nothing else; what does not lie in the memory is refused and
//! changes nothing; and the size never changes.
//!
//! A page that is not private is shared: other memories may read the same page, and nobody writes it. A new memory has no private page, and
//! all pages in which no segment has bytes are one page of zeros; [`Memory::share`] gives another memory of the same bytes. Who writes to a
//! shared page first takes a copy, which is private from then on and stays so. So a store may be refused for lack of memory, but only if a
//! page of its range is shared. [`Memory::make_private`] makes the copies beforehand, and [`Memory::owns`] says whether that is done. A
//! store that spans two pages owns both before a byte changes. That memories of the same bytes share the same pages in the host's memory is
//! not proved.
#![tactic(auto)]

mod image;
mod memory;
mod page;

pub use image::{Image, Segment};
pub use memory::{Memory, MemoryError, ReadError, WriteError, is_memory_size};
