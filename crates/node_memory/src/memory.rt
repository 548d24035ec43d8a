//! The bytes of a node, by address.

ghost use Rattle.std.specs.Prelude.{◌≡◌, ◌+◌, ◌*◌, ◌/◌, ◌%◌, ◌^◌, ◌<◌, ◌≤◌, ◌↔◌, true, false, IsTrue, length, if◌then◌else◌, OnOk, OnErr};
ghost use Rattle.std.specs.Prelude.{IfOk, IsErrOf, slice_set, slice_get, Some};
ghost use Rattle.node_memory.specs.Bytes.{is_memory_size, fits, bytes_at, with_bytes, byte_at, half_at, word_at};
ghost use Rattle.node_memory.specs.Image.{image_bytes, is_segment_outside};
ghost use Rattle.node_memory.specs.Pages.{PagedMemory, none_private, Owns, OwnsMore, IsPrivate, IsShared};

mod loads;
mod ranges;
mod start;
mod stores;

use crate::page::{PAGE, Page};
use std::alloc::{AllocError, Allocator};
use std::marker::Model;

/// Why no memory was made, in the order in which the causes are tried.
#[derive(Clone, Copy, Debug, PartialEq, Eq)]
pub enum MemoryError {
    /// The size is not 4,096 to 2^31 bytes in whole pages of 4,096.
    BadSize,
    /// A segment of some size ends past the memory.
    SegmentOutside,
    NoMemory,
}

impl From<AllocError> for MemoryError {
    ghost use Rattle.std.specs.Prelude.{◌≡◌};
    ghost use Rattle.node_memory.specs.declared.memory.MemoryError.TheVariants.{NoMemory};

    ghost from_gives = { λ _ e. e ≡ NoMemory };

    fn from(_: AllocError) -> MemoryError {
        MemoryError::NoMemory
    }
}

/// Why a range was not written.
#[derive(Clone, Copy, Debug, PartialEq, Eq)]
pub enum WriteError {
    /// The range does not fit the memory.
    Outside,
    /// No memory for a copy of a page that is shared.
    NoMemory,
}

impl From<AllocError> for WriteError {
    ghost use Rattle.std.specs.Prelude.{◌≡◌};
    ghost use Rattle.node_memory.specs.declared.memory.WriteError.TheVariants.{NoMemory};

    ghost from_gives = { λ _ e. e ≡ NoMemory };

    fn from(_: AllocError) -> WriteError {
        WriteError::NoMemory
    }
}

/// Why a range was not read.
#[derive(Clone, Copy, Debug, PartialEq, Eq)]
pub enum ReadError {
    /// The range does not fit the memory.
    Outside,
    NoMemory,
}

impl From<AllocError> for ReadError {
    ghost use Rattle.std.specs.Prelude.{◌≡◌};
    ghost use Rattle.node_memory.specs.declared.memory.ReadError.TheVariants.{NoMemory};

    ghost from_gives = { λ _ e. e ≡ NoMemory };

    fn from(_: AllocError) -> ReadError {
        ReadError::NoMemory
    }
}

/// The most bytes that a memory has.
const LARGEST: u32 = 0x8000_0000;

/// Whether a memory may have `size` bytes: 4,096 to 2^31, in whole pages of 4,096 (own rule).
pub fn is_memory_size(size: u32) -> bool
    ensures { result ≡ is_memory_size size }
{
    PAGE as u32 <= size && size <= LARGEST && size % PAGE as u32 == 0
}

/// The memory of a node: 4,096 to 2^31 bytes, in whole pages of 4,096, each private or shared with other memories.
///
/// Numbers stand in it with their least significant byte first, at any address (RISC-V Unprivileged ISA 20191213,
/// section 2.6 "Load and Store Instructions").
#[derive(Drop)]
pub struct Memory<A: Allocator> {
    alloc: A,
    pages: Vec<Page<A>, A>,
}

impl<A: Allocator> Model for Memory<A> {
    ghost use Rattle.node_memory.specs.Pages.{PagedMemory};

    ghost Value = { PagedMemory };

    ghost use Rattle.node_memory.specs.Table.{table_view, IsTable};

    ghost view = { λ m. table_view m.pages.items };

    ghost invariant = { λ m. IsTable m.pages.items };
}

impl<A: Allocator> Memory<A> {
    /// The number of bytes.
    #[inline]
    pub fn size(&self) -> u32
        ensures value { result ≡ length self.now.bytes }
        ensures valid { IsTrue (is_memory_size result) }
        ensures least { 4096 ≤ result }
        ensures most { result ≤ 2 ^ 31 }
    {
        (self.pages.len() * PAGE) as u32
    }

    /// Whether `len` bytes from `addr` on lie in the memory. A range that passes the last address does not wrap.
    #[inline]
    pub fn fits(&self, addr: u32, len: u32) -> bool
        ensures { result ≡ fits (length self.now.bytes) addr len }
    {
        addr as usize + len as usize <= self.pages.len() * PAGE
    }

    /// Whether the `len` bytes from `addr` on lie in the memory, and each page that has one of them is private.
    pub fn owns(&self, addr: u32, len: u32) -> bool
        ensures { IsTrue result ↔ Owns self.now.private addr len }
    {
        let end = addr as usize + len as usize;
        if end > self.pages.len() * PAGE {
            return false;
        }
        if len == 0 {
            return true;
        }
        for page in addr as usize / PAGE..(end - 1) / PAGE + 1 {
            if !self.pages[page].is_private() {
                return false;
            }
        }
        true
    }

    /// Whether the memory has a page of this number that is not private.
    #[inline]
    pub fn shares(&self, page: usize) -> bool
        ensures { IsTrue result ↔ IsShared self.now.private page }
    {
        page < self.pages.len() && !self.pages[page].is_private()
    }

    /// The `len` bytes from an address of the memory on, which lie within one page.
    fn window(&self, addr: usize, len: usize) -> &[u8]
        requires begins { addr < length self.now.bytes }
        requires one_page { addr % 4096 + len ≤ 4096 }
        ensures value { result.now ≡ bytes_at self.now.bytes addr len }
        ensures long { length result.now ≡ len }
    {
        let offset = addr % PAGE;
        &self.pages[addr / PAGE].bytes()[offset..offset + len]
    }

    /// Does nothing at run time. A proof learns from it that a memory has at most 2^31 bytes, and a flag for each page of them.
    #[inline(always)]
    fn recall_size(&self)
        ensures most { length self.now.bytes ≤ 2 ^ 31 }
        ensures pages { length self.now.private * 4096 ≡ length self.now.bytes }
    {
        // The use of a field brings the invariant into the proof.
        let _ = &self.pages;
    }
}
