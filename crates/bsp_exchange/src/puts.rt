//! Bytes of puts that wait to land in one memory.

ghost use Rattle.std.specs.Prelude.{◌≡◌, ◌<◌, ◌^◌, ◌∷◌, ◌++◌, [], OnOk, IsTrue};
ghost use Rattle.bsp_exchange.specs.Parts.{bytes_in};

use crate::patch_list::PatchList;
use crate::room::grow;
use shared_bytes::SharedBytes;
use std::alloc::{AllocError, Allocator};
use std::marker::Model;

/// Bytes that go to an address.
#[derive(Drop)]
struct Patch<A: Allocator> {
    addr: u32,
    bytes: SharedBytes<A>,
}

impl<A: Allocator> Model for Patch<A> {
    ghost use Rattle.bsp_exchange.specs.Parts.{Patch as PatchValue};

    ghost Value = { PatchValue };

    ghost view = { λ p. record { addr = p.addr; bytes = p.bytes } };
}

/// Bytes that were put and wait to land in one node's memory, in the order in which they land. They are the puts' own bytes, shared
/// with them: nothing is copied before it lands.
///
/// Contracts see them as a list of patches, each an address and its bytes.
#[derive(Drop)]
pub(crate) struct Puts<A: Allocator> {
    patches: Vec<Patch<A>, A>,
    // For how many the first room is made.
    expected: usize,
}

impl<A: Allocator> Model for Puts<A> {
    ghost use Rattle.std.specs.Prelude.{List};
    ghost use Rattle.bsp_exchange.specs.Parts.{Patch as PatchValue};

    ghost Value = { List PatchValue };

    ghost view = { λ p. p.patches.items };
}

impl<A: Allocator + Copy> Puts<A> {
    /// No bytes wait, and about so many puts are expected. No memory is taken.
    pub(crate) fn new(alloc: A, expected: usize) -> Puts<A>
        ensures { result ≡ [] }
    {
        Puts {
            patches: Vec::new(alloc),
            expected,
        }
    }

    /// Adds `bytes`, which land from `addr` on, after those that wait.
    ///
    /// # Errors
    /// Where memory is refused, or the bytes have too many clones.
    pub(crate) fn push(&mut self, addr: u32, bytes: &SharedBytes<A>) -> Result<(), AllocError>
        ensures ok { OnOk result (self.new ≡ self.old ++ record { addr = addr; bytes = bytes.now } ∷ []) }
    {
        if self.patches.len() == self.patches.capacity() {
            grow(&mut self.patches, self.expected)?;
        }
        let place = self.patches.len();
        self.patches.push_reserved(Patch {
            addr,
            bytes: SharedBytes::empty(),
        });
        self.patches[place].bytes.try_clone_from(bytes)
    }

    /// Whether nothing waits.
    pub(crate) fn is_empty(&self) -> bool
        ensures { IsTrue result → self.now ≡ [] }
    {
        self.patches.is_empty()
    }

    /// How many bytes wait. They are added up here, since most exchanges do without their sum.
    pub(crate) fn bytes(&self) -> u64
        requires { bytes_in self.now < 2 ^ 63 }
        ensures { result ≡ bytes_in self.now }
    {
        self.patches
            .iter()
            .map(|patch| patch.bytes.len() as u64)
            .sum()
    }
}

impl<A: Allocator> PatchList for Puts<A> {
    ghost patches = { λ p. p };

    fn count(&self) -> usize {
        self.patches.len()
    }

    fn addr(&self, place: usize) -> u32 {
        self.patches[place].addr
    }

    fn bytes(&self, place: usize) -> &[u8] {
        self.patches[place].bytes.as_slice()
    }

    #[inline(always)]
    fn few(&self, _: usize) -> Option<([u8; 16], u32)> {
        None
    }
}
