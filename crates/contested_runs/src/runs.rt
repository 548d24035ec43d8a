//! A run that reports contested bytes.

ghost use Rattle.std.specs.Prelude.{◌≡◌, ◌++◌, ℕ, List, None, IsSome, OnOk};
ghost use Rattle.worker_pool.specs.Answers.{IsRunAnswer};
ghost use Rattle.worker_pool.specs.Numbers.{numbers_fault};
ghost use Rattle.contested_runs.specs.Runs.{AreLines, AreLinesUpTo};

use crate::told::Told;
use machine_core::Machine;
use std::alloc::Allocator;
use std::sync::Wait;
use std::thread::Threads;
use worker_pool::{PoolError, check_numbers, run_phase_sparing};

/// Runs a machine to its outcome as [`worker_pool::run_sparing`] does, and tells which bytes are contested in each superstep.
///
/// # Errors
/// As [`worker_pool::run_sparing`]; [`PoolError::NoMemory`] is also answered if memory was refused for what is told. It has then the lines
/// of the supersteps that are over, and the call made again with it appends those that are left.
pub fn run<R: Threads + Wait + Sync, A: Allocator + Copy + Send + Sync>(
    rt: &R,
    machine: &mut Machine<A>,
    workers: u32,
    slice: u64,
    told: &mut Told<A>,
) -> Result<(), PoolError>
    ensures machine { IsRunAnswer workers slice machine.old machine.new result }
    ensures told { OnOk result ((lines : List ℕ) × AreLines machine.old lines × (told.new ≡ told.old ++ lines)) }
    ensures lines_left { (made : List ℕ) × AreLinesUpTo machine.old machine.new made × (told.new ≡ told.old ++ made) }
    ensures unchanged { IsSome (numbers_fault workers slice) → told.new ≡ told.old }
    ensures over { numbers_fault workers slice ≡ None → IsSome machine.old.outcome → told.new ≡ told.old }
{
    check_numbers(workers, slice)?;
    while machine.outcome().is_none() {
        run_phase_sparing(rt, machine, workers, slice)?;
        told.turn(machine)?;
    }
    Ok(())
}
