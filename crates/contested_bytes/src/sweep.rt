//! Finds the contested bytes of landings that are sorted by rank and then by address.

ghost use Rattle.std.specs.Prelude.{◌≡◌, ℕ, ◌≤◌, ◌<◌, ◌↔◌, ◌⊎◌, true, false, List, All, Contains, OnOk, IfOk, length, slice_index_or};
ghost use Rattle.bsp_exchange.specs.Landings.{Landing as LandingValue};
ghost use Rattle.contested_bytes.specs.Contested.{Differ, IsContested};
ghost use Rattle.contested_bytes.specs.Ranges.{IsIn, IsContestedRange, EndsWithin};
ghost use Rattle.contested_bytes.specs.Places.{ComeInOrder, ReachesAsFar};

use crate::landing::Landing;
use crate::range::{ContestedRange, add_range};
use std::alloc::{AllocError, Allocator};

/// The contested bytes of landings that come by rank and then by address, as ranges in some order, which may overlap.
///
/// Of the landings that begin at an address or before it, the one that reaches furthest has that byte if any of them has. So each
/// landing is compared with that one alone: of two that bring different bytes, one differs from it, or it is one of them.
pub(crate) fn sweep<A: Allocator + Copy>(
    alloc: A,
    all: &[Landing<A>],
) -> Result<Vec<ContestedRange, A>, AllocError>
    requires { ComeInOrder all.now }
    ensures within { IfOk result (λ found. All EndsWithin found.items) }
    ensures contested { IfOk result (λ found. All (IsContestedRange all.now) found.items) }
    ensures exact { IfOk result (λ found. (rank addr : ℕ) → IsIn found.items rank addr ↔ IsContested all.now rank addr) }
{
    let mut found = Vec::new(alloc);
    let mut furthest = 0;
    for at in 1..all.len() {
        compare(&all[furthest], &all[at], &mut found)?;
        furthest = further(all, furthest, at);
    }
    Ok(found)
}

/// Which of two landings reaches further, the memories of all ranks taken one after another.
fn further<A: Allocator>(all: &[Landing<A>], first: usize, second: usize) -> usize
    requires first { first < length all.now }
    requires second { second < length all.now }
    ensures either { (result ≡ first) ⊎ (result ≡ second) }
    ensures first { (d : LandingValue) → ReachesAsFar (slice_index_or all.now first d) (slice_index_or all.now result d) }
    ensures second { (d : LandingValue) → ReachesAsFar (slice_index_or all.now second d) (slice_index_or all.now result d) }
{
    if reaches_as_far(&all[second], &all[first]) {
        first
    } else {
        second
    }
}

/// Whether a landing reaches no further than another.
fn reaches_as_far<A: Allocator>(one: &Landing<A>, other: &Landing<A>) -> bool
    ensures yes { result ≡ true → ReachesAsFar one.now other.now }
    ensures no { result ≡ false → ReachesAsFar other.now one.now }
{
    one.rank < other.rank || one.rank == other.rank && one.end() <= other.end()
}

/// Adds the bytes of which two landings bring different ones. If they share a memory, the second begins no earlier.
fn compare<A: Allocator>(
    first: &Landing<A>,
    second: &Landing<A>,
    found: &mut Vec<ContestedRange, A>,
) -> Result<(), AllocError>
    requires order { first.now.rank ≡ second.now.rank → first.now.addr ≤ second.now.addr }
    requires old { All EndsWithin found.old.items }
    ensures within { All EndsWithin found.new.items }
    ensures bytes { OnOk result ((rank addr : ℕ)
        → IsIn found.new.items rank addr ↔ (IsIn found.old.items rank addr ⊎ Differ rank addr first.now second.now)) }
    ensures contested { OnOk result ((all : List LandingValue)
        → Contains all first.now → Contains all second.now
        → All (IsContestedRange all) found.old.items → All (IsContestedRange all) found.new.items) }
{
    if first.rank != second.rank {
        return Ok(());
    }
    for addr in second.addr..first.end().min(second.end()) {
        let (one, other) = (first.byte(addr), second.byte(addr));
        if one != other {
            let range = ContestedRange {
                rank: second.rank,
                addr,
                len: 1,
                first: first.contender(one),
                second: second.contender(other),
            };
            add_range(found, range)?;
        }
    }
    Ok(())
}
