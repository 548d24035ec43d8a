//! Bytes of gets that wait to land in one memory.

ghost use Rattle.std.specs.Prelude.{◌≡◌, ◌<◌, ◌^◌, ◌∷◌, ◌++◌, [], length, IsTrue, OnOk, OnErr};
ghost use Rattle.node_memory.specs.Bytes.{fits, bytes_at};
ghost use Rattle.bsp_exchange.specs.Parts.{bytes_in};

use crate::patch_list::PatchList;
use crate::room::grow;
use node_memory::Memory;
use std::alloc::{AllocError, Allocator};
use std::marker::Model;

/// So many bytes, from a place of the buffer on, go to an address.
#[derive(Clone, Copy)]
struct Range {
    addr: u32,
    len: u32,
    start: usize,
}

/// Bytes that were fetched and wait to land in one node's memory, in the order in which they land.
///
/// Contracts see them as a list of patches, each an address and its bytes. The bytes of all stand in one buffer, so that many
/// small ones cost no memory of their own each.
#[derive(Drop)]
pub(crate) struct Landings<A: Allocator> {
    ranges: Vec<Range, A>,
    // Those of the first range, then those of the second, and so on.
    bytes: Vec<u8, A>,
    // For how many ranges the first room is made.
    expected: usize,
}

impl<A: Allocator> Model for Landings<A> {
    ghost use Rattle.std.specs.Prelude.{List};
    ghost use Rattle.bsp_exchange.specs.Arrivals.{patches_view, AreCovered};
    ghost use Rattle.bsp_exchange.specs.Parts.{Patch};

    ghost Value = { List Patch };

    ghost view = { patches_view };

    ghost invariant = { AreCovered };
}

impl<A: Allocator + Copy> Landings<A> {
    /// No bytes wait, and about so many gets are expected. No memory is taken.
    pub(crate) fn new(alloc: A, expected: usize) -> Landings<A>
        ensures { result ≡ [] }
    {
        Landings {
            ranges: Vec::new(alloc),
            bytes: Vec::new(alloc),
            expected,
        }
    }

    /// Adds a copy of the `len` bytes from `from` on of a memory, which land from `addr` on, after those that wait.
    #[tactic(auto, using(crate::proofs::Patches::patches_push_range))]
    pub(crate) fn push_copy_of(
        &mut self,
        addr: u32,
        memory: &Memory<A>,
        from: u32,
        len: u32,
    ) -> Result<(), AllocError>
        requires { IsTrue (fits (length memory.now.bytes) from len) }
        ensures ok { OnOk result (self.new
            ≡ self.old ++ record { addr = addr; bytes = bytes_at memory.now.bytes from len } ∷ []) }
        ensures err { OnErr result (self.new ≡ self.old) }
    {
        if self.ranges.len() == self.ranges.capacity() {
            grow(&mut self.ranges, self.expected)?;
        }
        let start = self.bytes.len();
        memory.append_range(from, len, &mut self.bytes)?;
        self.ranges.push_reserved(Range { addr, len, start });
        Ok(())
    }

    /// Whether nothing waits.
    pub(crate) fn is_empty(&self) -> bool
        ensures { IsTrue result → self.now ≡ [] }
    {
        self.ranges.is_empty()
    }

    /// How many bytes wait.
    #[tactic(auto, using(crate::proofs::Patches::bytes_waiting))]
    pub(crate) fn len(&self) -> usize
        ensures value { result ≡ bytes_in self.now }
        ensures few { result < 2 ^ 63 }
    {
        self.bytes.len()
    }
}

impl<A: Allocator> PatchList for Landings<A> {
    ghost patches = { λ p. p };

    fn count(&self) -> usize {
        self.ranges.len()
    }

    fn addr(&self, place: usize) -> u32 {
        self.ranges[place].addr
    }

    fn bytes(&self, place: usize) -> &[u8] {
        let range = self.ranges[place];
        &self.bytes[range.start..range.start + range.len as usize]
    }

    #[inline(always)]
    fn few(&self, _: usize) -> Option<([u8; 16], u32)> {
        None
    }
}
