//! Exposed bytes, with the call that reads them and the one that writes them.

ghost use Rattle.std.specs.Prelude.{◌≡◌, ◌≢◌, ℕ, ◌≤◌, ◌↔◌, List, All, Contains, MatchOption, OnOk, IsTrue};
ghost use Rattle.exposed_bytes.specs.Exposed.{Exposes};
ghost use Rattle.exposed_bytes.specs.Found.{IsTold, IsOf, IsWhole, AreOfOtherPlaces};
ghost use Rattle.exposed_bytes.specs.Search.{AddsFrom};

use crate::call::{Call, is_open};
use std::alloc::{AllocError, Allocator};

/// Bytes of a rank's memory that two calls of a superstep expose, or one with itself: all that these two do.
#[derive(Clone, Copy, Debug, PartialEq, Eq)]
pub struct Exposure {
    pub reader: Call,
    pub writer: Call,
    pub rank: u32,
    pub addr: u32,
    pub len: u32,
}

impl Exposure {
    /// Whether its calls were made at the places of another's.
    fn has_places_of(&self, other: &Exposure) -> bool
        ensures { IsTrue result ↔ ((self.now.reader.place ≡ other.now.reader.place) × (self.now.writer.place ≡ other.now.writer.place)) }
    {
        self.reader.place == other.reader.place && self.writer.place == other.writer.place
    }
}

/// The bytes that a call reads and another one, or the same, writes, if it is open which comes first.
fn exposed_by(reader: &Call, writer: &Call) -> Option<Exposure>
    ensures { MatchOption result
        ((rank addr : ℕ) → Exposes rank addr reader.now writer.now → ⊥)
        (λ e. IsWhole e × (e.reader ≡ reader.now) × (e.writer ≡ writer.now)) }
{
    if reader.source_rank != writer.target_rank || !writer.changes() || !is_open(reader, writer) {
        return None;
    }
    let addr = reader.source.max(writer.target);
    let read_end = reader.source as u64 + reader.len as u64;
    let written_end = writer.target as u64 + writer.len as u64;
    let end = read_end.min(written_end);
    if end <= addr as u64 {
        return None;
    }
    Some(Exposure {
        reader: *reader,
        writer: *writer,
        rank: reader.source_rank,
        addr,
        len: (end - addr as u64) as u32,
    })
}

/// Adds what two calls expose, if no range of calls from the same two places is there.
pub(crate) fn add_pair<A: Allocator>(
    reader: &Call,
    writer: &Call,
    found: &mut Vec<Exposure, A>,
) -> Result<(), AllocError>
    ensures told { OnOk result ((rank addr : ℕ)
        → Exposes rank addr reader.now writer.now → IsTold found.new.items reader.now.place writer.now.place) }
    ensures adds { OnOk result ((readers writers : List Call) → Contains readers reader.now → Contains writers writer.now
        → AddsFrom readers writers found.old.items found.new.items) }
{
    if let Some(range) = exposed_by(reader, writer) {
        add_exposure(range, found)?;
    }
    Ok(())
}

/// Adds a range, if none of calls from the same two places is there.
fn add_exposure<A: Allocator>(
    range: Exposure,
    found: &mut Vec<Exposure, A>,
) -> Result<(), AllocError>
    ensures told { OnOk result (IsTold found.new.items range.reader.place range.writer.place) }
    ensures keeps { OnOk result ((p q : ℕ) → IsTold found.old.items p q → IsTold found.new.items p q) }
    ensures sound { OnOk result ((calls : List Call)
        → IsOf calls range → All (IsOf calls) found.old.items → All (IsOf calls) found.new.items) }
    ensures once { OnOk result (AreOfOtherPlaces found.old.items → AreOfOtherPlaces found.new.items) }
{
    if !is_told(&range, found) {
        found.push(range)?;
    }
    Ok(())
}

/// Whether a range of calls from the same two places is there.
fn is_told(range: &Exposure, found: &[Exposure]) -> bool
    ensures { IsTrue result ↔ IsTold found.now range.now.reader.place range.now.writer.place }
{
    for other in found {
        if other.has_places_of(range) {
            return true;
        }
    }
    false
}
