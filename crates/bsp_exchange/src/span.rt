//! The smallest range that contains some ranges.

ghost use Rattle.std.specs.Prelude.{◌≡◌, ℕ, ◌+◌, ◌-◌, ◌/◌, ◌<◌, ◌≤◌, ◌^◌, ◌↔◌, IsTrue};
ghost use Rattle.node_memory.specs.Pages.{Owns};

use node_memory::Memory;
use std::alloc::Allocator;

/// From the lowest address of some ranges on to the highest end of one. Where there are none, it ends before it begins.
#[derive(Clone, Copy)]
pub(crate) struct Span {
    low: u32,
    end: u32,
}

impl Span {
    /// That of no ranges.
    pub(crate) fn of_none() -> Span
        ensures { result.end ≡ 0 }
    {
        Span {
            low: u32::MAX,
            end: 0,
        }
    }

    /// That of one range more.
    pub(crate) fn with(self, addr: u32, len: u32) -> Span
        requires { addr + len < 2 ^ 32 }
        ensures has { (result.low ≤ addr) × (addr + len ≤ result.end) }
        ensures more { (result.low ≤ self.low) × (self.end ≤ result.end) }
        ensures most { (size : ℕ) → self.end ≤ size → addr + len ≤ size → result.end ≤ size }
    {
        Span {
            low: self.low.min(addr),
            end: self.end.max(addr + len),
        }
    }

    /// Whether it has bytes, all of them in one page.
    pub(crate) fn is_in_one_page(self) -> bool
        ensures { IsTrue result ↔ ((self.low < self.end) × (self.low / 4096 ≡ (self.end - 1) / 4096)) }
    {
        self.low < self.end && self.low / 0x1000 == (self.end - 1) / 0x1000
    }

    /// Its lowest address.
    pub(crate) fn low(self) -> u32
        ensures { result ≡ self.low }
    {
        self.low
    }

    /// How many bytes it has, where it has some.
    pub(crate) fn len(self) -> u32
        requires { self.low ≤ self.end }
        ensures { result ≡ self.end - self.low }
    {
        self.end - self.low
    }

    /// Whether all of it lies in a memory, in private pages, and so each of its ranges does. Where there are none, it says no.
    pub(crate) fn is_owned_by<A: Allocator>(self, memory: &Memory<A>) -> bool
        ensures { IsTrue result → (addr len : ℕ) → self.low ≤ addr → addr + len ≤ self.end → Owns memory.now.private addr len }
    {
        self.low <= self.end && memory.owns(self.low, self.end - self.low)
    }
}
