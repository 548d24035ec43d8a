//! Ranges of contested bytes.

ghost use Rattle.std.specs.Prelude.{◌≡◌, ℕ, ◌≤◌, ◌↔◌, ◌⊎◌, List, All, OnOk, IsTrue};
ghost use Rattle.bsp_exchange.specs.Landings.{Landing};
ghost use Rattle.contested_bytes.specs.Ranges.{IsIn, Has, IsContestedRange, AreApart, EndsWithin};
ghost use Rattle.contested_bytes.specs.Places.{StartsBy, Joins};

use std::alloc::{AllocError, Allocator};

/// What asked for bytes to land.
#[derive(Clone, Copy, Debug, PartialEq, Eq)]
pub enum Kind {
    Get,
    Put,
}

/// A put or a get, and the byte that it brings.
#[derive(Clone, Copy, Debug, PartialEq, Eq)]
pub struct Contender {
    pub kind: Kind,
    /// The rank of the node that asked for it.
    pub caller: u32,
    /// Its number among the requests of that node in this superstep, from 0.
    pub issue: usize,
    pub byte: u8,
}

/// Contested bytes that lie one after another in the memory of a rank.
#[derive(Clone, Copy, Debug, PartialEq, Eq)]
pub struct ContestedRange {
    pub rank: u32,
    pub addr: u32,
    pub len: u32,
    /// Two requests that bring the first of these bytes, each another one.
    pub first: Contender,
    pub second: Contender,
}

impl ContestedRange {
    /// Whether another range begins in this one, or right after it.
    fn joins(&self, other: &ContestedRange) -> bool
        requires { EndsWithin self.now }
        ensures { IsTrue result ↔ Joins self.now other.now }
    {
        self.rank == other.rank && self.addr <= other.addr && other.addr <= self.addr + self.len
    }

    /// With the bytes of another, which begins in this one or right after it.
    fn with(self, other: &ContestedRange) -> ContestedRange
        requires here { EndsWithin self }
        requires there { EndsWithin other.now }
        requires joins { Joins self other.now }
        ensures bytes { (rank addr : ℕ) → Has result rank addr ↔ (Has self rank addr ⊎ Has other.now rank addr) }
        ensures same { result ≡ record self { len = result.len } }
        ensures more { self.len ≤ result.len }
        ensures within { EndsWithin result }
    {
        let end = (self.addr + self.len).max(other.addr + other.len);
        ContestedRange {
            len: end - self.addr,
            ..self
        }
    }
}

/// Adds a range: to the last one, if it begins in that or right after it, and otherwise as one more.
pub(crate) fn add_range<A: Allocator>(
    found: &mut Vec<ContestedRange, A>,
    range: ContestedRange,
) -> Result<(), AllocError>
    requires old { All EndsWithin found.old.items }
    requires new { EndsWithin range }
    ensures within { All EndsWithin found.new.items }
    ensures bytes { OnOk result ((rank addr : ℕ)
        → IsIn found.new.items rank addr ↔ (IsIn found.old.items rank addr ⊎ Has range rank addr)) }
    ensures contested { OnOk result ((all : List Landing)
        → All (IsContestedRange all) found.old.items → IsContestedRange all range → All (IsContestedRange all) found.new.items) }
    ensures starts { OnOk result ((rank addr : ℕ)
        → All (StartsBy rank addr) found.old.items → StartsBy rank addr range → All (StartsBy rank addr) found.new.items) }
    ensures apart { OnOk result (AreApart found.old.items
        → All (StartsBy range.rank range.addr) found.old.items → AreApart found.new.items) }
{
    let count = found.len();
    if count > 0 && found[count - 1].joins(&range) {
        found[count - 1] = found[count - 1].with(&range);
        return Ok(());
    }
    found.push(range)?;
    Ok(())
}
