//! Bytes that are cheap to clone.
//!
//! A [`SharedBytes`] is made once and never changes. To use the same bytes, take a clone of it. Up to 22 bytes are kept in the value
//! itself, and then neither making nor cloning it takes memory. More bytes are kept in memory that all clones share. Contracts see it as
//! the list of its bytes. That clones of the same bytes share memory is not proved.
#![tactic(auto)]

ghost use Rattle.std.specs.Prelude.{◌≡◌, ◌+◌, ◌≤◌, ◌==◌, ◌++◌, [], length, take, IfOk, IfSome, IsOk, OnOk, OnErr};

use std::alloc::{AllocError, Allocator};
use std::marker::Model;
use std::sync::ArcSlice;

/// The most bytes that a value holds by itself. With them it has 24 bytes, as a vector has.
const MOST_WITHIN: usize = 22;

/// Few bytes: the first `len` of `room`.
#[derive(Clone, Copy)]
struct Within {
    len: u8,
    room: [u8; 22],
}

/// No bytes.
const NONE_WITHIN: Within = Within {
    len: 0,
    room: [0; 22],
};

/// Where the bytes stand.
#[derive(Drop)]
enum Held<A: Allocator> {
    Within(Within),
    Shared(ArcSlice<u8, A>),
}

/// Bytes that never change, and are cheap to clone.
#[derive(Drop)]
pub struct SharedBytes<A: Allocator> {
    held: Held<A>,
}

impl<A: Allocator> Model for SharedBytes<A> {
    ghost use Rattle.std.specs.Prelude.{ℕ, List};
    ghost use Rattle.shared_bytes.specs.Held.{held_bytes, IsHeld};

    ghost Value = { List ℕ };

    ghost view = { λ b. held_bytes b.held };

    ghost invariant = { λ b. IsHeld b.held };
}

impl<A: Allocator + Copy> SharedBytes<A> {
    /// A copy of `bytes`.
    ///
    /// # Errors
    /// If memory is refused, which up to 22 bytes do not take.
    pub fn from_slice(alloc: A, bytes: &[u8]) -> Result<Self, AllocError>
        ensures ok { IfOk result (λ b. b ≡ bytes.now) }
        ensures few { length bytes.now ≤ 22 → IsOk result }
    {
        if bytes.len() <= MOST_WITHIN {
            return Ok(SharedBytes::within(bytes));
        }
        let held = Held::Shared(ArcSlice::from_slice(alloc, bytes)?);
        Ok(SharedBytes { held })
    }

    /// The bytes of a vector, which keep their memory if they are more than 22.
    ///
    /// # Errors
    /// If memory is refused, which up to 22 bytes do not take.
    pub fn from_vec(bytes: Vec<u8, A>) -> Result<Self, AllocError>
        ensures ok { IfOk result (λ b. b ≡ bytes.items) }
        ensures few { length bytes.items ≤ 22 → IsOk result }
    {
        if bytes.len() <= MOST_WITHIN {
            return Ok(SharedBytes::within(bytes.as_slice()));
        }
        let held = Held::Shared(ArcSlice::from_vec(bytes)?);
        Ok(SharedBytes { held })
    }
}

impl<A: Allocator> SharedBytes<A> {
    /// The first `len` of some bytes, of which there are at least 22. No memory is taken.
    // For speed: as many bytes are copied whatever `len` is, which takes no call.
    #[inline(always)]
    pub fn few_of(bytes: &[u8], len: usize) -> Self
        requires few { len ≤ 22 }
        requires room { 22 ≤ length bytes.now }
        ensures { result ≡ take len bytes.now }
    {
        let mut room = [0; 22];
        room.copy_from_slice(&bytes[..MOST_WITHIN]);
        let within = Within {
            len: len as u8,
            room,
        };
        SharedBytes {
            held: Held::Within(within),
        }
    }

    /// The bytes of two slices, those of the second after those of the first: at most 22. No memory is taken.
    pub fn few_of_two(first: &[u8], second: &[u8]) -> Self
        requires { length first.now + length second.now ≤ 22 }
        ensures { result ≡ first.now ++ second.now }
    {
        let middle = first.len();
        let len = middle + second.len();
        let mut room = [0; 22];
        room[..middle].copy_from_slice(first);
        room[middle..len].copy_from_slice(second);
        let within = Within {
            len: len as u8,
            room,
        };
        SharedBytes {
            held: Held::Within(within),
        }
    }

    /// No bytes. No memory is taken.
    #[inline]
    pub fn empty() -> Self
        ensures { result ≡ [] }
    {
        SharedBytes {
            held: Held::Within(NONE_WITHIN),
        }
    }

    /// The same bytes. No memory is taken.
    ///
    /// # Errors
    /// If they have too many clones.
    pub fn try_clone(&self) -> Result<Self, AllocError>
        ensures ok { IfOk result (λ b. b ≡ self.now) }
        ensures few { length self.now ≤ 22 → IsOk result }
    {
        let held = match &self.held {
            Held::Within(within) => Held::Within(*within),
            Held::Shared(bytes) => Held::Shared(bytes.clone()?),
        };
        Ok(SharedBytes { held })
    }

    /// Becomes the same bytes as `source`, as `clone_from` of Rust's `Clone`. No memory is taken.
    ///
    /// # Errors
    /// If `source` has too many clones. Nothing has changed then.
    // For speed: few bytes go straight from one place to the other, as they do not where a clone is made first and then moved.
    #[inline]
    pub fn try_clone_from(&mut self, source: &Self) -> Result<(), AllocError>
        ensures ok { OnOk result (self.new ≡ source.now) }
        ensures err { OnErr result (self.new ≡ self.old) }
        ensures few { length source.now ≤ 22 → IsOk result }
    {
        if let Held::Within(here) = &mut self.held {
            if let Held::Within(there) = &source.held {
                *here = *there;
                return Ok(());
            }
        }
        *self = source.try_clone()?;
        Ok(())
    }

    pub fn as_slice(&self) -> &[u8]
        ensures { result.now ≡ self.now }
    {
        match &self.held {
            Held::Within(within) => &within.room[..within.len as usize],
            Held::Shared(bytes) => bytes.as_slice(),
        }
    }

    /// If they are at most 16, sixteen bytes of which they are the first, and how many they are.
    // For speed: a value of a known size is copied without a call, and by whoever gets it, so that it is copied once.
    #[inline(always)]
    pub fn within_16(&self) -> Option<(&[u8; 16], u32)>
        ensures first { IfSome result (λ few. take few.1 few.0.now ≡ self.now) }
        ensures most { IfSome result (λ few. few.1 ≤ 16) }
    {
        match &self.held {
            Held::Within(within) => {
                if within.len > 16 {
                    return None;
                }
                let few = within.room.first_chunk::<16>()?;
                Some((few, u32::from(within.len)))
            }
            Held::Shared(_) => None,
        }
    }

    pub fn len(&self) -> usize
        ensures { result ≡ length self.now }
    {
        match &self.held {
            Held::Within(within) => within.len as usize,
            Held::Shared(bytes) => bytes.len(),
        }
    }

    pub fn is_empty(&self) -> bool
        ensures { result ≡ (length self.now == 0) }
    {
        self.len() == 0
    }

    /// A copy of a few bytes.
    fn within(bytes: &[u8]) -> Self
        requires { length bytes.now ≤ 22 }
        ensures { result ≡ bytes.now }
    {
        let len = bytes.len();
        let mut room = [0; 22];
        room[..len].copy_from_slice(bytes);
        let within = Within {
            len: len as u8,
            room,
        };
        SharedBytes {
            held: Held::Within(within),
        }
    }
}
