//! Runs with a profile.

ghost use Rattle.std.specs.Prelude.{◌≡◌, ◌++◌, ℕ, None, IsSome, OnErr, OnOk};
ghost use Rattle.machine_core.specs.Turn.{IsRunToEnd};
ghost use Rattle.machine_core.specs.Walk.{walked};
ghost use Rattle.worker_pool.specs.Answers.{IsRunAnswer};
ghost use Rattle.worker_pool.specs.Numbers.{numbers_fault};
ghost use Rattle.bsp_profile.specs.Lines.{lines_of};

use crate::profile::Profile;
use machine_core::Machine;
use std::alloc::{AllocError, Allocator};
use std::sync::Wait;
use std::thread::Threads;
use worker_pool::{PoolError, check_numbers, run_phase_sparing};

/// Runs a machine to its outcome as [`worker_pool::run_sparing`] does, and takes its profile superstep by superstep.
///
/// # Errors
/// As [`worker_pool::run_sparing`]; [`PoolError::NoMemory`] is also answered if the profile was refused memory. The profile has then the
/// lines of the supersteps that are over, and the call made again with it appends those that are left.
pub fn run<R: Threads + Wait + Sync, A: Allocator + Copy + Send + Sync>(
    rt: &R,
    machine: &mut Machine<A>,
    workers: u32,
    slice: u64,
    profile: &mut Profile<A>,
) -> Result<(), PoolError>
    ensures machine { IsRunAnswer workers slice machine.old machine.new result }
    ensures profile { OnOk result (profile.new ≡ profile.old ++ lines_of machine.old) }
    ensures lines_left { profile.new ++ lines_of machine.new ≡ profile.old ++ lines_of machine.old }
    ensures unchanged { IsSome (numbers_fault workers slice) → profile.new ≡ profile.old }
    ensures over { numbers_fault workers slice ≡ None → IsSome machine.old.outcome
        → profile.new ≡ profile.old }
{
    check_numbers(workers, slice)?;
    while machine.outcome().is_none() {
        run_phase_sparing(rt, machine, workers, slice)?;
        profile.turn(machine)?;
    }
    Ok(())
}

/// Runs a machine to its outcome in one thread, as [`Machine::run_plain`] does, and takes its profile superstep by superstep.
///
/// # Errors
/// If memory is refused. The profile has then the lines of the supersteps that are over, and the call made again with it appends those that
/// are left.
pub fn run_plain<A: Allocator + Copy>(
    machine: &mut Machine<A>,
    profile: &mut Profile<A>,
) -> Result<(), AllocError>
    ensures ok { OnOk result (IsRunToEnd machine.old machine.new) }
    ensures err { OnErr result ((k : ℕ) × (machine.new ≡ walked k machine.old)) }
    ensures going { OnErr result (machine.new.outcome ≡ None) }
    ensures profile { OnOk result (profile.new ≡ profile.old ++ lines_of machine.old) }
    ensures lines_left { profile.new ++ lines_of machine.new ≡ profile.old ++ lines_of machine.old }
    ensures over { IsSome machine.old.outcome → profile.new ≡ profile.old }
{
    while machine.outcome().is_none() {
        machine.run_phase_plain()?;
        profile.turn(machine)?;
    }
    Ok(())
}
