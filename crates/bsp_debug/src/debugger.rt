//! The debugger.

ghost use Rattle.std.specs.Prelude.{◌≡◌, ◌+◌, ◌⊎◌, [], length, slice_get, option_copied, true, false, Some, None, IsSome, is_none, is_some, Err, IfOk, IfErr, OnOk, OnErr, if◌then◌else◌};
ghost use Rattle.std.specs.Result.{result_err};
ghost use Rattle.machine_core.specs.Events.{after};
ghost use Rattle.machine_core.specs.Sound.{IsSoundMachine};
ghost use Rattle.bsp_debug.specs.declared.command.Command.TheVariants.{Bytes as bytes_command};
ghost use Rattle.bsp_debug.specs.declared.error.DebugError.{DebugError as DebugErrorValue};
ghost use Rattle.bsp_debug.specs.Debugger.{has_rank, unit_at, refused_unless, add_fault, remove_fault, command_fault, Makes, MakesPart};
ghost use Rattle.bsp_debug.specs.Kept.{state_at, kept_fault, keeping, back_at, without};
ghost use Rattle.bsp_debug.specs.Made.{events_of, AreFew};
ghost use Rattle.bsp_debug.specs.Points.{is_set, AreInOrder, HasAlso, HasNoMore};
ghost use Rattle.bsp_debug.specs.Reached.{HasReachedStates};
ghost use Rattle.bsp_debug.specs.Reply.{answer};
ghost use Rattle.bsp_debug.specs.Returns.{next_rank, over};
ghost use Rattle.bsp_debug.specs.Trace.{IsTrace};

use crate::command::Command;
use crate::error::DebugError;
use crate::made::Made;
use crate::over::{next_rank, over};
use crate::point::Point;
use crate::points::Points;
use crate::reads::{bytes_of, costs_of, floats_of, queue_of, registers_of};
use crate::reply::Reply;
use crate::trace::Trace;
use float_unit::FloatUnit;
use machine_core::Machine;
use node_core::Node;
use std::alloc::{AllocError, Allocator};
use std::marker::Model;
use std::snapshot::Snapshot;

/// The most points that can be set (own limit).
const MOST_POINTS: usize = 1024;

/// A machine that is stepped by commands, the states that were kept of it, and the points at which it stops.
///
/// Contracts see it as a `DebuggerState`: the machine as it began and as it is, the states that are kept, the set of points, and the
/// events that the last command made. The machine as it began is sound, and some events lead from it to the machine as it is, and to
/// each state that is kept, as `HasReachedStates` says.
#[derive(Drop)]
pub struct Debugger<A: Allocator> {
    alloc: A,
    first: Snapshot<Machine<A>>,
    trace: Trace<A>,
    kept: Vec<Option<Machine<A>>, A>,
    points: Points<A>,
}

impl<A: Allocator> Model for Debugger<A> {
    ghost use Rattle.bsp_debug.specs.Debugger.{DebuggerState};

    ghost Value = { DebuggerState };

    ghost use Rattle.bsp_debug.specs.Inside.{debugger_view};
    ghost use Rattle.bsp_debug.specs.Reached.{HasReachedStates};

    ghost view = { debugger_view };

    ghost invariant = { λ d. HasReachedStates (debugger_view d) };
}

impl<A: Allocator + Copy> Debugger<A> {
    /// A debugger of a machine, as it stands, without a point, that keeps nothing. No memory is taken.
    pub fn new(alloc: A, machine: Machine<A>) -> Self
        ensures { result ≡ record { first = machine; machine = machine; kept = []; points = []; last = [] } }
    {
        recall_sound(&machine);
        Debugger {
            alloc,
            first: Snapshot::of(&machine),
            trace: Trace::new(alloc, machine),
            kept: Vec::new(alloc),
            points: Points::new(alloc),
        }
    }

    /// Sets a point. One that is set already stays so.
    ///
    /// # Errors
    /// The first that applies of [`DebugError::BadRank`], if the point names a node that there is not, [`DebugError::TooMany`], if it is
    /// not set and 1,024 points are, and [`DebugError::NoMemory`]. Nothing has changed then.
    pub fn add(&mut self, point: Point) -> Result<(), DebugError>
        ensures set { OnOk result (HasAlso point self.old.points self.new.points) }
        ensures count { OnOk result (length self.new.points
            ≡ length self.old.points + (if is_set self.old.points point then 0 else 1)) }
        ensures others { self.new ≡ record self.old { points = self.new.points } }
        ensures ok { OnOk result (add_fault self.old.points self.old.machine point ≡ None) }
        ensures refused { IfErr result (λ e. (e ≡ DebugError.NoMemory)
            ⊎ (add_fault self.old.points self.old.machine point ≡ Some e)) }
        ensures no_memory { result ≡ Err DebugError.NoMemory
            → add_fault self.old.points self.old.machine point ≡ None }
        ensures err { OnErr result (self.new ≡ self.old) }
    {
        self.check_point(point)?;
        self.points.add(point)?;
        Ok(())
    }

    /// The points that are set, in their order: those of ranks by rank and address, and then those of supersteps.
    ///
    /// # Errors
    /// If memory is refused.
    pub fn points(&self) -> Result<Vec<Point, A>, AllocError>
        ensures value { IfOk result (λ points. points.items ≡ self.now.points) }
        ensures order { AreInOrder self.now.points }
    {
        self.points.to_vec(self.alloc)
    }

    /// Whether a point may be set.
    fn check_point(&self, point: Point) -> Result<(), DebugError>
        ensures { result_err result ≡ add_fault self.now.points self.now.machine point }
    {
        if let Point::Address { rank, .. } = point {
            self.check_rank(rank)?;
        }
        if !self.points.has(point) && self.points.len() >= MOST_POINTS {
            return Err(DebugError::TooMany);
        }
        Ok(())
    }

    /// Takes a point away. No memory is taken.
    ///
    /// # Errors
    /// [`DebugError::NoSuchBreak`] if it is not set. Nothing has changed then.
    pub fn remove(&mut self, point: Point) -> Result<(), DebugError>
        ensures set { OnOk result (HasNoMore point self.old.points self.new.points) }
        ensures count { OnOk result (length self.new.points + 1 ≡ length self.old.points) }
        ensures others { self.new ≡ record self.old { points = self.new.points } }
        ensures fault { result_err result ≡ remove_fault self.old.points point }
        ensures err { OnErr result (self.new ≡ self.old) }
    {
        if !self.points.has(point) {
            return Err(DebugError::NoSuchBreak);
        }
        self.points.remove(point);
        Ok(())
    }

    /// Does what a command says, and answers it. The events that it made are those of [`Debugger::events_of_last`].
    ///
    /// # Errors
    /// The first that applies of [`DebugError::BadRank`], [`DebugError::BadRange`], [`DebugError::NoFloatUnit`] and [`DebugError::Over`],
    /// at which no event was made; then [`DebugError::NoMemory`], after some first of the command's events, of [`Command::Return`],
    /// [`Command::Turn`] and [`Command::Go`] not all of them. The command given again goes on from there: it leaves what it would have
    /// left, [`Command::Step`] and [`Command::Run`] with as many steps less as were made.
    pub fn command(&mut self, command: Command) -> Result<Reply<A>, DebugError>
        ensures machine { self.new.machine ≡ after self.old.machine (events_of self.new.last) }
        ensures few { AreFew self.new.last }
        ensures others { self.new ≡ record self.old { machine = self.new.machine; last = self.new.last } }
        ensures ok { IfOk result (λ reply.
            Makes self.old.points self.old.machine command (events_of self.new.last) (answer reply)) }
        ensures faultless { OnOk result (command_fault self.old.machine command ≡ None) }
        ensures refused { IfErr result (λ e. (e ≡ DebugError.NoMemory)
            ⊎ (command_fault self.old.machine command ≡ Some e)) }
        ensures unmade { IsSome (command_fault self.old.machine command) → self.new.last ≡ [] }
        ensures no_memory { result ≡ Err DebugError.NoMemory
            → (command_fault self.old.machine command ≡ None)
            × MakesPart self.old.points self.old.machine command (events_of self.new.last) }
    {
        self.trace.forget();
        self.check(command)?;
        let reply = reply_to(self.alloc, &mut self.trace, &self.points, command)?;
        Ok(reply)
    }

    /// Keeps the state in which the machine is, and answers its number: how many were kept before it, forgotten ones too. The machine
    /// and its states share their memory page by page. So a state takes the pages that were written since the last one, and besides
    /// what the nodes have in registers, messages and requests, the output and the costs.
    ///
    /// # Errors
    /// If memory is refused. Nothing has changed then.
    pub fn keep(&mut self) -> Result<u64, AllocError>
        ensures number { IfOk result (λ number. number ≡ length self.old.kept) }
        ensures ok { OnOk result (self.new ≡ keeping self.old) }
        ensures err { OnErr result (self.new ≡ self.old) }
    {
        self.kept.reserve(1)?;
        let (state, again) = copies_of(self.machine())?;
        let number = self.kept.len() as u64;
        self.kept.push_reserved(Some(state));
        self.trace.renew(again);
        Ok(number)
    }

    /// Brings the machine back, or forward, to the state that is kept under a number. It stays kept, and so do the others; points
    /// stay set.
    ///
    /// # Errors
    /// [`DebugError::NoSuchKept`] if no state is kept under the number, and then [`DebugError::NoMemory`]. Nothing has changed then.
    pub fn back(&mut self, number: u64) -> Result<(), DebugError>
        ensures ok { OnOk result (self.new ≡ back_at number self.old) }
        ensures faultless { OnOk result (kept_fault self.old.kept number ≡ None) }
        ensures refused { IfErr result (λ e. (e ≡ DebugError.NoMemory)
            ⊎ (kept_fault self.old.kept number ≡ Some e)) }
        ensures no_memory { result ≡ Err DebugError.NoMemory → kept_fault self.old.kept number ≡ None }
        ensures err { OnErr result (self.new ≡ self.old) }
    {
        let Some(state) = self.state(number) else {
            return Err(DebugError::NoSuchKept);
        };
        let again = state.try_clone()?;
        self.trace.begin(again);
        Ok(())
    }

    /// Forgets the state that is kept under a number. No other state gets the number. No memory is taken.
    ///
    /// # Errors
    /// [`DebugError::NoSuchKept`] if no state is kept under the number. Nothing has changed then.
    pub fn forget(&mut self, number: u64) -> Result<(), DebugError>
        ensures ok { OnOk result (self.new ≡ without number self.old) }
        ensures fault { result_err result ≡ kept_fault self.old.kept number }
        ensures err { OnErr result (self.new ≡ self.old) }
    {
        if self.state(number).is_none() {
            return Err(DebugError::NoSuchKept);
        }
        self.kept[number as usize] = None;
        Ok(())
    }

    /// Whether a command is to be refused.
    fn check(&self, command: Command) -> Result<(), DebugError>
        ensures { result_err result ≡ command_fault self.now.machine command }
    {
        match command {
            Command::Step { rank, .. } => self.check_rank(rank).and(self.check_open()),
            Command::Run { rank, .. } => self.check_rank(rank).and(self.check_open()),
            Command::Return { rank, .. } => self.check_rank(rank).and(self.check_open()),
            Command::Phase | Command::Turn | Command::Go => self.check_open(),
            Command::Regs { rank } | Command::Queue { rank } => self.check_rank(rank),
            Command::Fregs { rank } => self.check_rank(rank).and(self.check_unit(rank)),
            Command::Bytes { rank, addr, len } => self.check_range(rank, addr, len),
            Command::Costs => Ok(()),
        }
    }

    /// Whether there is a node of a rank.
    fn check_rank(&self, rank: u32) -> Result<(), DebugError>
        ensures { result_err result ≡ refused_unless (has_rank self.now.machine rank) DebugError.BadRank }
    {
        match self.machine().node(rank) {
            Some(_) => Ok(()),
            None => Err(DebugError::BadRank),
        }
    }

    /// Whether the node of a rank has a unit of floating point.
    fn check_unit(&self, rank: u32) -> Result<(), DebugError>
        ensures { result_err result ≡ refused_unless (is_some (unit_at self.now.machine rank)) DebugError.NoFloatUnit }
    {
        if unit_of(self.machine(), rank).is_none() {
            return Err(DebugError::NoFloatUnit);
        }
        Ok(())
    }

    /// Whether a range lies in the memory of the node of a rank.
    fn check_range(&self, rank: u32, addr: u32, len: u32) -> Result<(), DebugError>
        ensures { result_err result ≡ command_fault self.now.machine (bytes_command rank addr len) }
    {
        match self.machine().node(rank) {
            None => Err(DebugError::BadRank),
            Some(node) if node.memory().fits(addr, len) => Ok(()),
            Some(_) => Err(DebugError::BadRange),
        }
    }

    /// Whether the machine has no outcome yet.
    fn check_open(&self) -> Result<(), DebugError>
        ensures { result_err result ≡ refused_unless (is_none self.now.machine.outcome) DebugError.Over }
    {
        match self.machine().outcome() {
            None => Ok(()),
            Some(_) => Err(DebugError::Over),
        }
    }
}

impl<A: Allocator> Debugger<A> {
    /// The machine, as it stands.
    pub fn machine(&self) -> &Machine<A>
        ensures value { result.now ≡ self.now.machine }
        ensures reached { HasReachedStates self.now }
    {
        self.trace.machine()
    }

    /// The command that steps over the instruction at which the node of a rank stands: one step, or if that is a call of a function, which
    /// leaves its return address in ra, what goes on to where it returns.
    pub fn over(&self, rank: u32) -> Command
        ensures { result ≡ over self.now.machine rank }
    {
        over(self.machine(), rank)
    }

    /// The rank that makes the next step of all, as [`Command::Go`] takes them: the lowest whose node runs; rank 0 if none does.
    pub fn next_rank(&self) -> u32
        ensures { result ≡ next_rank self.now.machine }
    {
        next_rank(self.machine())
    }

    /// The states that were kept, each at the place of its number, and none if it was forgotten.
    pub fn kept(&self) -> &[Option<Machine<A>>]
        ensures value { result.now ≡ self.now.kept }
        ensures reached { HasReachedStates self.now }
    {
        self.kept.as_slice()
    }

    /// The state that is kept under a number.
    fn state(&self, number: u64) -> Option<&Machine<A>>
        ensures { option_copied result ≡ state_at self.now.kept number }
    {
        match self.kept.get(number as usize) {
            Some(Some(state)) => Some(state),
            _ => None,
        }
    }

    /// The machine, as it stands.
    pub fn into_machine(self) -> Machine<A>
        ensures value { result ≡ self.machine }
        ensures reached { HasReachedStates self }
    {
        self.trace.into_machine()
    }

    /// The events that the last command made, those of one rank in a row as one entry. None were made before the first command, by
    /// a command that reads, by one that was refused anything but memory, or since the machine was brought back. Setting points and
    /// taking them away has no part in it, and neither has keeping and forgetting states.
    pub fn events_of_last(&self) -> &[Made]
        ensures { result.now ≡ self.now.last }
    {
        self.trace.made()
    }
}

/// Two machines in the state of this one, which share all their pages.
fn copies_of<A: Allocator + Copy>(
    machine: &Machine<A>,
) -> Result<(Machine<A>, Machine<A>), AllocError>
    ensures { IfOk result (λ copies. (copies.0 ≡ machine.now) × (copies.1 ≡ machine.now)) }
{
    // What the machine has written since its last copy is copied here, and shared from then on.
    let copy = machine.try_clone()?;
    let again = copy.try_clone()?;
    Ok((copy, again))
}

/// Does what a command says that is not refused, and answers it.
fn reply_to<A: Allocator + Copy>(
    alloc: A,
    trace: &mut Trace<A>,
    points: &Points<A>,
    command: Command,
) -> Result<Reply<A>, AllocError>
    requires fresh { trace.old.made ≡ [] }
    requires start { trace.old.start ≡ trace.old.machine }
    requires faultless { command_fault trace.old.machine command ≡ None }
    ensures trace { IsTrace trace.new }
    ensures start { trace.new.start ≡ trace.old.start }
    ensures ok { IfOk result (λ reply.
        Makes points.now trace.old.machine command (events_of trace.new.made) (answer reply)) }
    ensures err { OnErr result
        (MakesPart points.now trace.old.machine command (events_of trace.new.made)) }
{
    match command {
        Command::Step { rank, count } => Ok(Reply::Moved(trace.steps(rank, count)?)),
        Command::Run { rank, count } => {
            Ok(Reply::Moved(trace.run_to_point(rank, count, points)?))
        }
        Command::Return { rank, addr, sp } => {
            Ok(Reply::Moved(trace.run_to_return(rank, addr, sp, points)?))
        }
        Command::Phase => Ok(Reply::Moved(trace.phase()?)),
        Command::Turn => trace.turn_with_reply(),
        Command::Go => trace.go(points),
        Command::Regs { rank } => Ok(registers_of(node_of(trace.machine(), rank))),
        Command::Fregs { rank } => Ok(floats_of(rank, unit_that_is(trace.machine(), rank))),
        Command::Bytes { rank, addr, len } => {
            bytes_of(alloc, node_of(trace.machine(), rank), addr, len)
        }
        Command::Queue { rank } => queue_of(alloc, node_of(trace.machine(), rank)),
        Command::Costs => costs_of(alloc, trace.machine()),
    }
}

/// Does nothing at run time. A proof learns from it that a machine is sound.
#[inline(always)]
fn recall_sound<A: Allocator>(machine: &Machine<A>)
    ensures { IsSoundMachine machine.now }
{
    let _ = machine.outcome();
}

/// The node of a rank that there is.
fn node_of<A: Allocator>(machine: &Machine<A>, rank: u32) -> &Node<A>
    requires { has_rank machine.now rank ≡ true }
    ensures { slice_get machine.now.nodes rank ≡ Some result.now.node }
{
    match machine.node(rank) {
        Some(node) => node,
        None => unreachable!(),
    }
}

/// The unit of floating point of a node that has one.
fn unit_that_is<A: Allocator>(machine: &Machine<A>, rank: u32) -> &FloatUnit
    requires { is_some (unit_at machine.now rank) ≡ true }
    ensures { unit_at machine.now rank ≡ Some result.now }
{
    match unit_of(machine, rank) {
        Some(unit) => unit,
        None => unreachable!(),
    }
}

/// The unit of floating point of the node of a rank, if there is such a node, and it has one.
fn unit_of<A: Allocator>(machine: &Machine<A>, rank: u32) -> Option<&FloatUnit>
    ensures { option_copied result ≡ unit_at machine.now rank }
{
    machine.node(rank)?.unit()
}
