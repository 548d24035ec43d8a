//! Bytes of small puts and gets that wait to land in one memory.

ghost use Rattle.std.specs.Prelude.{◌≡◌, ◌<◌, ◌≤◌, ◌^◌, ◌∷◌, ◌++◌, [], take, OnOk};
ghost use Rattle.bsp_exchange.specs.Parts.{bytes_in};

use crate::patch_list::PatchList;
use crate::room::grow;
use std::alloc::{AllocError, Allocator};
use std::marker::Model;

/// At most 16 bytes that go to an address: the first of `room`.
// For speed: `room` is written first, so its bytes are copied straight from where they lie. Behind another field, whose writing might change
// them, they are copied twice.
#[derive(Drop)]
struct Small {
    room: [u8; 16],
    addr: u32,
    len: u32,
}

impl Model for Small {
    ghost use Rattle.std.specs.Prelude.{◌≡◌, ◌≤◌, length, take};
    ghost use Rattle.bsp_exchange.specs.Parts.{Patch as PatchValue};

    ghost Value = { PatchValue };

    ghost view = { λ s. record { addr = s.addr; bytes = take s.len s.room } };

    ghost invariant = { λ s. (s.len ≤ 16) × (length s.room ≡ 16) };
}

/// Bytes of small puts, or of small gets, which wait to land in one node's memory, in the order in which they land. They are copies, which
/// cost no memory of their own each and have nothing to be dropped.
///
/// Contracts see them as a list of patches, each an address and its bytes.
#[derive(Drop)]
pub(crate) struct Smalls<A: Allocator> {
    patches: Vec<Small, A>,
    // For how many the first room is made.
    expected: usize,
}

impl<A: Allocator> Model for Smalls<A> {
    ghost use Rattle.std.specs.Prelude.{List};
    ghost use Rattle.bsp_exchange.specs.Parts.{Patch as PatchValue};

    ghost Value = { List PatchValue };

    ghost view = { λ p. p.patches.items };
}

impl<A: Allocator + Copy> Smalls<A> {
    /// No bytes wait, and about so many requests are expected. No memory is taken.
    pub(crate) fn new(alloc: A, expected: usize) -> Smalls<A>
        ensures { result ≡ [] }
    {
        Smalls {
            patches: Vec::new(alloc),
            expected,
        }
    }

    /// Adds the first `len` bytes of `room`, which land from `addr` on, after those that wait.
    ///
    /// # Errors
    /// Where memory is refused.
    #[inline(always)]
    pub(crate) fn push(&mut self, addr: u32, room: &[u8; 16], len: u32) -> Result<(), AllocError>
        requires { len ≤ 16 }
        ensures ok { OnOk result (self.new ≡ self.old ++ record { addr = addr; bytes = take len room.now } ∷ []) }
    {
        if self.patches.len() == self.patches.capacity() {
            grow(&mut self.patches, self.expected)?;
        }
        self.patches.push_reserved(Small {
            room: *room,
            addr,
            len,
        });
        Ok(())
    }

    /// How many bytes wait. They are added up here, since most exchanges do without their sum.
    pub(crate) fn bytes(&self) -> u64
        requires { bytes_in self.now < 2 ^ 63 }
        ensures { result ≡ bytes_in self.now }
    {
        self.patches.iter().map(|patch| u64::from(patch.len)).sum()
    }
}

impl<A: Allocator> PatchList for Smalls<A> {
    ghost patches = { λ p. p };

    fn count(&self) -> usize {
        self.patches.len()
    }

    fn addr(&self, place: usize) -> u32 {
        self.patches[place].addr
    }

    fn bytes(&self, place: usize) -> &[u8] {
        let patch = &self.patches[place];
        &patch.room[..patch.len as usize]
    }

    #[inline(always)]
    fn few(&self, place: usize) -> Option<([u8; 16], u32)> {
        let patch = &self.patches[place];
        let room = patch.room;
        Some((room, patch.len))
    }
}
