//! Merges ranges in order, each byte once.

ghost use Rattle.std.specs.Prelude.{ℕ, ◌↔◌, List, All, IfOk, IsPermutation};
ghost use Rattle.bsp_exchange.specs.Landings.{Landing};
ghost use Rattle.contested_bytes.specs.Ranges.{IsIn, IsContestedRange, AreApart, EndsWithin};
ghost use Rattle.contested_bytes.specs.Places.{StartInOrder};

use crate::range::{ContestedRange, add_range};
use std::alloc::{AllocError, Allocator};

/// Sorts ranges by rank and then by address.
pub(crate) fn sort_ranges<A: Allocator>(found: &mut Vec<ContestedRange, A>)
    ensures same { IsPermutation found.old.items found.new.items }
    ensures order { StartInOrder found.new.items }
{
    found.sort_unstable_by_key(|range| (range.rank, range.addr));
}

/// The bytes of ranges that begin in the order of rank and address, as ranges that are apart.
pub(crate) fn merge<A: Allocator + Copy>(
    alloc: A,
    found: &[ContestedRange],
) -> Result<Vec<ContestedRange, A>, AllocError>
    requires within { All EndsWithin found.now }
    requires order { StartInOrder found.now }
    ensures apart { IfOk result (λ merged. AreApart merged.items) }
    ensures within { IfOk result (λ merged. All EndsWithin merged.items) }
    ensures bytes { IfOk result (λ merged. (rank addr : ℕ) → IsIn merged.items rank addr ↔ IsIn found.now rank addr) }
    ensures contested { IfOk result (λ merged. (all : List Landing)
        → All (IsContestedRange all) found.now → All (IsContestedRange all) merged.items) }
{
    let mut merged = Vec::new(alloc);
    for range in found {
        add_range(&mut merged, *range)?;
    }
    Ok(merged)
}
