//! The exposed bytes of a superstep.

ghost use Rattle.std.specs.Prelude.{◌≡◌, ◌≤◌, ◌<◌, ℕ, List, Contains, IfOk, OnOk, IsPermutation, filter, length, not};
ghost use Rattle.std.specs.List.Sorted.{IsNonDecreasingBy, IsPartitionPoint};
ghost use Rattle.exposed_bytes.specs.Exposed.{Exposes, is_unbuffered};
ghost use Rattle.exposed_bytes.specs.Found.{AreExposures, IsTold};
ghost use Rattle.exposed_bytes.specs.Search.{AddsFrom, source_key, target_key};

use crate::call::Call;
use crate::exposure::{Exposure, add_pair};
use std::alloc::{AllocError, Allocator};

/// The exposed bytes of a superstep, by its calls in any order: each range with the call that reads it and the one that writes it. Of calls
/// from the same two places one range is told, so all are if each call has a place of its own. None is told exactly if no byte is exposed
/// ([`laws`](crate::laws)).
///
/// With n calls, of which p pairs share bytes of which an unbuffered one reads or writes them, and r ranges, it takes time as
/// n log n + p r.
///
/// # Errors
/// If memory is refused. It can be asked again.
pub fn exposures<A: Allocator + Copy>(
    alloc: A,
    calls: &[Call],
) -> Result<Vec<Exposure, A>, AllocError>
    ensures { IfOk result (λ found. AreExposures calls.now found.items) }
{
    let unbuffered_readers = by_source(unbuffered(alloc, calls)?);
    let unbuffered_writers = by_target(unbuffered(alloc, calls)?);
    let other_readers = by_source(others(alloc, calls)?);
    let other_writers = by_target(others(alloc, calls)?);
    let mut found = Vec::new(alloc);
    add_met(&unbuffered_readers, &unbuffered_writers, &mut found)?;
    add_met(&other_readers, &unbuffered_writers, &mut found)?;
    add_met(&unbuffered_readers, &other_writers, &mut found)?;
    Ok(found)
}

/// The unbuffered calls.
fn unbuffered<A: Allocator>(alloc: A, calls: &[Call]) -> Result<Vec<Call, A>, AllocError>
    ensures { IfOk result (λ found. found.items ≡ filter (λ c. is_unbuffered c.sort) calls.now) }
{
    calls
        .iter()
        .copied()
        .filter(|call| call.sort.is_unbuffered())
        .collect(alloc)
}

/// The calls that are not unbuffered.
fn others<A: Allocator>(alloc: A, calls: &[Call]) -> Result<Vec<Call, A>, AllocError>
    ensures { IfOk result (λ found. found.items ≡ filter (λ c. not (is_unbuffered c.sort)) calls.now) }
{
    calls
        .iter()
        .copied()
        .filter(|call| !call.sort.is_unbuffered())
        .collect(alloc)
}

/// Calls by where they read.
fn by_source<A: Allocator>(mut calls: Vec<Call, A>) -> Vec<Call, A>
    ensures same { IsPermutation calls.items result.items }
    ensures order { IsNonDecreasingBy source_key result.items }
{
    calls.sort_unstable_by_key(|call| call.source_key());
    calls
}

/// Calls by where they write.
fn by_target<A: Allocator>(mut calls: Vec<Call, A>) -> Vec<Call, A>
    ensures same { IsPermutation calls.items result.items }
    ensures order { IsNonDecreasingBy target_key result.items }
{
    calls.sort_unstable_by_key(|call| call.target_key());
    calls
}

/// Adds what readers and writers expose, each sorted by where they read or write.
fn add_met<A: Allocator>(
    readers: &[Call],
    writers: &[Call],
    found: &mut Vec<Exposure, A>,
) -> Result<(), AllocError>
    requires sources { IsNonDecreasingBy source_key readers.now }
    requires targets { IsNonDecreasingBy target_key writers.now }
    ensures told { OnOk result ((a b : Call) (rank addr : ℕ)
        → Contains readers.now a → Contains writers.now b → Exposes rank addr a b → IsTold found.new.items a.place b.place) }
    ensures adds { OnOk result (AddsFrom readers.now writers.now found.old.items found.new.items) }
{
    for reader in readers {
        add_writers(reader, writers, found)?;
    }
    for writer in writers {
        add_readers(readers, writer, found)?;
    }
    Ok(())
}

/// Adds what a reader exposes with those writers that begin in its bytes.
fn add_writers<A: Allocator>(
    reader: &Call,
    writers: &[Call],
    found: &mut Vec<Exposure, A>,
) -> Result<(), AllocError>
    requires { IsNonDecreasingBy target_key writers.now }
    ensures told { OnOk result ((b : Call) (rank addr : ℕ) → Contains writers.now b
        → Exposes rank addr reader.now b → source_key reader.now ≤ target_key b → IsTold found.new.items reader.now.place b.place) }
    ensures adds { OnOk result ((readers : List Call) → Contains readers reader.now
        → AddsFrom readers writers.now found.old.items found.new.items) }
{
    let start = reader.source_key();
    let from = written_before(writers, start);
    let to = written_before(writers, start + reader.len as u128);
    for at in from..to {
        add_pair(reader, &writers[at], found)?;
    }
    Ok(())
}

/// Adds what a writer exposes with those readers that begin in its bytes.
fn add_readers<A: Allocator>(
    readers: &[Call],
    writer: &Call,
    found: &mut Vec<Exposure, A>,
) -> Result<(), AllocError>
    requires { IsNonDecreasingBy source_key readers.now }
    ensures told { OnOk result ((a : Call) (rank addr : ℕ) → Contains readers.now a
        → Exposes rank addr a writer.now → target_key writer.now ≤ source_key a → IsTold found.new.items a.place writer.now.place) }
    ensures adds { OnOk result ((writers : List Call) → Contains writers writer.now
        → AddsFrom readers.now writers found.old.items found.new.items) }
{
    let start = writer.target_key();
    let from = read_before(readers, start);
    let to = read_before(readers, start + writer.len as u128);
    for at in from..to {
        add_pair(&readers[at], writer, found)?;
    }
    Ok(())
}

/// How many calls, of some by where they write, begin to write before a place.
fn written_before(calls: &[Call], place: u128) -> usize
    requires { IsNonDecreasingBy target_key calls.now }
    ensures within { result ≤ length calls.now }
    ensures parted { IsPartitionPoint (λ c. target_key c < place) (λ c. place ≤ target_key c) calls.now result }
{
    calls.partition_point(|call| call.target_key() < place)
}

/// How many calls, of some by where they read, begin to read before a place.
fn read_before(calls: &[Call], place: u128) -> usize
    requires { IsNonDecreasingBy source_key calls.now }
    ensures within { result ≤ length calls.now }
    ensures parted { IsPartitionPoint (λ c. source_key c < place) (λ c. place ≤ source_key c) calls.now result }
{
    calls.partition_point(|call| call.source_key() < place)
}
