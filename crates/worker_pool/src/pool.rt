//! The calls of the pool: one phase of a machine, and its whole run.

ghost use Rattle.std.specs.Prelude.{◌≡◌, ◌<◌, ◌≤◌, IsTrue, IsFalse, length};
ghost use Rattle.std.specs.Thread.{IsSend, IsSync};
ghost use denote.Param.Send.{Frees};
ghost use Rattle.machine_core.specs.Sound.{AreInRange};
ghost use Rattle.worker_pool.specs.Answers.{IsPhaseAnswer, IsRunAnswer};
ghost use Rattle.worker_pool.specs.Landings.{IsTurnMade};
ghost use Rattle.worker_pool.specs.Phases.{IsPhaseMade};

use crate::error::{PoolError, Refused};
use crate::landing::{Share, Stage, bytes_of, make_in_threads};
use crate::numbers::check_numbers;
use crate::part::{FirstShare, work_on};
use bsp_exchange::Part;
use claim_table::{Gate, OpenGate, Work};
use machine_core::{Begun, Landing, Machine, Settings};
use std::alloc::Allocator;
use std::sync::Wait;
use std::thread::Threads;

/// What the caller's thread makes of a superstep before others are started, by [`run_sparing`] (own rule): a thread costs about as much
/// as so many steps do, or the copies of so many bytes.
const FIRST_SHARE: FirstShare = FirstShare {
    steps: 200_000,
    bytes: 1 << 20,
};

/// From how many bytes of an exchange on threads prepare its nodes and land its parts, by [`run_sparing`] (own rule).
const LANDED_BYTES: u64 = 1 << 20;

/// Who works on the nodes of a machine, and how.
#[derive(Drop)]
struct Team<'g, G> {
    workers: u32,
    slice: u64,
    /// What the caller's thread makes first.
    first: FirstShare,
    /// From how many bytes of an exchange on threads prepare its nodes and land its parts.
    landed_bytes: u64,
    gate: &'g G,
}

impl<'g, G> Team<'g, G> {
    /// All of the work is done with the gate.
    fn gated(workers: u32, slice: u64, gate: &'g G) -> Team<'g, G>
        ensures { (result.workers ≡ workers) × (result.slice ≡ slice) }
    {
        Team {
            workers,
            slice,
            first: FirstShare { steps: 0, bytes: 0 },
            landed_bytes: 0,
            gate,
        }
    }
}

impl Team<'static, OpenGate> {
    /// The caller's thread makes the first steps of the nodes, and the only worker all of them.
    fn sparing(workers: u32, slice: u64) -> Team<'static, OpenGate>
        ensures { (result.workers ≡ workers) × (result.slice ≡ slice) }
    {
        let whole = FirstShare {
            steps: u64::MAX,
            bytes: u64::MAX,
        };
        Team {
            workers,
            slice,
            first: if workers == 1 { whole } else { FIRST_SHARE },
            landed_bytes: LANDED_BYTES,
            gate: &OpenGate,
        }
    }
}

/// What came of a machine's turn.
#[derive(Clone, Copy)]
struct Turned {
    /// Whether it was made, and whole. It was not if memory was refused before a part landed, and then nothing has changed.
    is_made: bool,
    /// What was refused. A turn is made in spite of threads and room that are refused for its exchange.
    refused: Refused,
}

impl Turned {
    /// A turn that was made, in spite of what was refused.
    fn made(refused: Refused) -> Turned
        ensures made { IsTrue result.is_made }
        ensures refused { result.refused ≡ refused }
    {
        Turned {
            is_made: true,
            refused,
        }
    }

    /// A turn that was not made, since memory was refused, with what was refused before that.
    fn called_off(before: Refused) -> Turned
        ensures made { IsFalse result.is_made }
        ensures thread { result.refused.thread ≡ before.thread }
        ensures memory { IsTrue result.refused.memory }
    {
        Turned {
            is_made: false,
            refused: before.and(Refused::MEMORY),
        }
    }
}

/// Takes each node of a machine through its local part of the superstep (BSP, Valiant 1990), in `workers` threads, this one among
/// them, and no more than there are nodes. A worker takes a node that runs, makes at most `slice` steps of it, and gives it back;
/// around these steps the calls of `gate` are made. After the outcome nothing is left to do.
///
/// The numbers have the ranges of [`check_numbers`](crate::check_numbers). The table of nodes takes its room from the machine's own
/// allocator.
///
/// # Errors
/// The first that applies of [`PoolError::BadWorkers`] and [`PoolError::BadSlice`], at which nothing has changed. Then
/// [`PoolError::NoWorker`] if a thread could not be started, be memory refused besides or not, else [`PoolError::NoMemory`] if memory was
/// refused, for the table or in a step. At both the nodes keep the steps that they made, and a call made again leaves what this one would
/// have left.
pub fn run_phase<R: Threads + Wait + Sync, A: Allocator + Copy + Send + Sync, G: Gate<A> + Sync>(
    rt: &R,
    machine: &mut Machine<A>,
    workers: u32,
    slice: u64,
    gate: &G,
) -> Result<(), PoolError>
    ensures { IsPhaseAnswer workers slice machine.old machine.new result }
{
    run_phase_with(rt, machine, &Team::gated(workers, slice, gate))
}

/// As [`run_phase`], with an open gate, but starts threads only for the work that pays for them, as [`run_sparing`] does.
///
/// # Errors
/// As [`run_phase`].
pub fn run_phase_sparing<R: Threads + Wait + Sync, A: Allocator + Copy + Send + Sync>(
    rt: &R,
    machine: &mut Machine<A>,
    workers: u32,
    slice: u64,
) -> Result<(), PoolError>
    ensures { IsPhaseAnswer workers slice machine.old machine.new result }
{
    run_phase_with(rt, machine, &Team::sparing(workers, slice))
}

/// Runs a machine to its outcome, superstep by superstep, with the numbers and the gate of [`run_phase`]. For an exchange nodes are
/// prepared and parts land in so many threads too, without calls of the gate. After the outcome nothing is left to run.
///
/// # Errors
/// As [`run_phase`]. [`PoolError::NoWorker`] is also answered if a thread could not be started for an exchange, be memory refused in the
/// turn besides or not, and otherwise [`PoolError::NoMemory`] if memory was refused in it. A turn for which a node was refused memory is
/// not made. If no more than a thread or room was refused for an exchange, the turn is whole, and the nodes make their next local parts
/// before that is answered. No turn is made any more; the steps and turns before stand, and a call made again leaves what this one would
/// have left.
pub fn run<R: Threads + Wait + Sync, A: Allocator + Copy + Send + Sync, G: Gate<A> + Sync>(
    rt: &R,
    machine: &mut Machine<A>,
    workers: u32,
    slice: u64,
    gate: &G,
) -> Result<(), PoolError>
    ensures { IsRunAnswer workers slice machine.old machine.new result }
{
    run_with(rt, machine, &Team::gated(workers, slice, gate))
}

/// As [`run`], with an open gate, but starts threads only for the work that pays for them: first the caller's thread makes some steps of
/// each node, or fewer if they ask for many bytes, and only if a node still runs then do the workers share out the nodes; and for an
/// exchange several threads work only if there are bytes enough. One worker needs no table.
///
/// # Errors
/// As [`run`].
pub fn run_sparing<R: Threads + Wait + Sync, A: Allocator + Copy + Send + Sync>(
    rt: &R,
    machine: &mut Machine<A>,
    workers: u32,
    slice: u64,
) -> Result<(), PoolError>
    ensures { IsRunAnswer workers slice machine.old machine.new result }
{
    run_with(rt, machine, &Team::sparing(workers, slice))
}

/// Takes the nodes of a machine through their local parts with a team, if it is not over.
fn run_phase_with<R: Threads + Wait + Sync, A: Allocator + Copy + Send + Sync, G: Gate<A> + Sync>(
    rt: &R,
    machine: &mut Machine<A>,
    team: &Team<'_, G>,
) -> Result<(), PoolError>
    ensures { IsPhaseAnswer team.now.workers team.now.slice machine.old machine.new result }
{
    check_numbers(team.workers, team.slice)?;
    if machine.outcome().is_some() {
        return Ok(());
    }
    make_local_parts(rt, machine, team).answer()
}

/// Runs a machine to its outcome with a team.
fn run_with<R: Threads + Wait + Sync, A: Allocator + Copy + Send + Sync, G: Gate<A> + Sync>(
    rt: &R,
    machine: &mut Machine<A>,
    team: &Team<'_, G>,
) -> Result<(), PoolError>
    ensures { IsRunAnswer team.now.workers team.now.slice machine.old machine.new result }
{
    check_numbers(team.workers, team.slice)?;
    let mut landings = Refused::NOTHING;
    while machine.outcome().is_none() {
        let parts = make_local_parts(rt, machine, team);
        landings.and(parts).answer()?;
        let turned = make_turn(rt, machine, team);
        if !turned.is_made {
            return turned.refused.answer();
        }
        landings = turned.refused;
    }
    Ok(())
}

/// Makes the local parts of a machine's nodes. The machine is taken out of its place for as long as its row is lent, and is back
/// in it, with its row, at any answer.
fn make_local_parts<R: Threads + Wait + Sync, A: Allocator + Copy + Send + Sync, G: Gate<A> + Sync>(
    rt: &R,
    machine: &mut Machine<A>,
    team: &Team<'_, G>,
) -> Refused
    requires { 0 < team.now.slice }
    ensures { IsPhaseMade team.now.workers machine.old machine.new result }
{
    core::mem::replace_with(
        machine,
        team,
        |machine: Machine<A>, team: &Team<'_, G>| -> (Machine<A>, Refused)
            requires { IsSync R.row × IsSync G.row × IsSend A.row × IsSync A.row × Frees A.Allocator A.dealloc_token
                × (0 < team.now.slice) }
            ensures { IsPhaseMade team.now.workers machine result.0 result.1 }
        { work_on_machine(rt, team, machine) },
    )
}

/// A machine whose row was lent to threads, and what they were refused.
fn work_on_machine<R: Threads + Wait + Sync, A: Allocator + Copy + Send + Sync, G: Gate<A> + Sync>(
    rt: &R,
    team: &Team<'_, G>,
    machine: Machine<A>,
) -> (Machine<A>, Refused)
    requires { 0 < team.now.slice }
    ensures { IsPhaseMade team.now.workers machine result.0 result.1 }
{
    let settings = machine.settings();
    let work = Work {
        gate: team.gate,
        slice: team.slice,
        allowance: allowance(settings, team.slice),
    };
    let (computing, row) = machine.lend();
    let workers = row.len().min(team.workers as usize);
    let worked = work_on(rt, &work, team.first, workers, computing.input(), row);
    (computing.take_back(worked.nodes), worked.refused)
}

/// Makes a machine's turn, or nothing of it. The machine is out of its place meanwhile, as for [`make_local_parts`].
fn make_turn<R: Threads + Wait + Sync, A: Allocator + Copy + Send + Sync, G: Sync>(
    rt: &R,
    machine: &mut Machine<A>,
    team: &Team<'_, G>,
) -> Turned
    ensures { IsTurnMade team.now.workers machine.old machine.new result }
{
    core::mem::replace_with(
        machine,
        team,
        |machine: Machine<A>, team: &Team<'_, G>| -> (Machine<A>, Turned)
            requires { IsSync R.row × IsSync G.row × IsSend A.row × IsSync A.row × Frees A.Allocator A.dealloc_token }
            ensures { IsTurnMade team.now.workers machine result.0 result.1 }
        { turn_machine(rt, team, machine) },
    )
}

/// A machine for whose exchange threads prepared the nodes and landed the parts, and what came of its turn.
fn turn_machine<R: Threads + Wait + Sync, A: Allocator + Copy + Send + Sync, G: Sync>(
    rt: &R,
    team: &Team<'_, G>,
    machine: Machine<A>,
) -> (Machine<A>, Turned)
    ensures { IsTurnMade team.now.workers machine result.0 result.1 }
{
    match machine.begin_turn() {
        Begun::Whole(machine, answer) => match answer {
            Ok(_) => (machine, Turned::made(Refused::NOTHING)),
            Err(_) => (machine, Turned::called_off(Refused::NOTHING)),
        },
        Begun::Landing(
            Landing {
                exchanging,
                nodes,
                parts,
            },
        ) => {
            let threads = landing_threads(team, &parts);
            let share = Share { nodes, parts };
            let prepared = make_in_threads(rt, threads, Stage::Prepare, share);
            if !prepared.complete {
                let turned = Turned::called_off(prepared.refused);
                return (exchanging.call_off(prepared.share.nodes), turned);
            }
            let landed = make_in_threads(rt, threads, Stage::Land, prepared.share);
            let turned = Turned::made(prepared.refused.and(landed.refused));
            (exchanging.finish(landed.share.nodes), turned)
        }
    }
}

/// In how many threads nodes are prepared for these parts, and then the parts land: as many as there are workers and parts, or one, if the
/// bytes do not pay for others.
fn landing_threads<A: Allocator + Copy, G>(team: &Team<'_, G>, parts: &[Part<A>]) -> usize
    ensures workers { result ≤ team.now.workers }
    ensures parts { result ≤ length parts.now }
{
    let most = parts.len().min(team.workers as usize);
    if most > 1 && bytes_of(parts) < team.landed_bytes {
        1
    } else {
        most
    }
}

/// How many nodes a worker takes at most in a phase: all of them, each for as many slices as its steps may fill.
fn allowance(settings: Settings, slice: u64) -> u64
    requires ranges { AreInRange settings }
    requires some { 0 < slice }
{
    u64::from(settings.nodes) * settings.limit.div_ceil(slice)
}
