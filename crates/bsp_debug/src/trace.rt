//! A machine that records its events.

ghost use Rattle.std.specs.Prelude.{◌≡◌, ◌++◌, ◌∷◌, ◌≤◌, ◌<◌, ℕ, [], true, None, slice_get, replicate, IfOk, OnOk, OnErr, vec_len, vec_capacity, if◌then◌else◌};
ghost use Rattle.std.specs.Option.{option_map_or};
ghost use Rattle.node_core.specs.Node.{NodeState};
ghost use Rattle.machine_core.specs.declared.event.Event.TheVariants.{Turn as the_turn};
ghost use Rattle.machine_core.specs.Events.{after, event as event_of, is_enabled, some_runs as some_runs_of, runs as runs_of};
ghost use Rattle.bsp_debug.specs.declared.made.Made.TheVariants.{Turn as turn_made};
ghost use Rattle.bsp_debug.specs.Debugger.{steps_at};
ghost use Rattle.bsp_debug.specs.Returns.{HasReturned, IsReturning};
ghost use Rattle.bsp_debug.specs.Trace.{IsTrace, after_steps, with_steps, stepped, turned, EndsBelow, point_at, RunsToPoint, RunsOnTo};

use crate::made::Made;
use crate::point::Point;
use crate::points::Points;
use crate::returns::run_node_to_return;
use machine_core::{Event, Machine};
use std::alloc::{AllocError, Allocator};
use std::marker::Model;
use std::snapshot::Snapshot;

/// A machine, and the events that were made of it since [`Trace::forget`].
#[derive(Drop)]
pub(crate) struct Trace<A: Allocator> {
    start: Snapshot<Machine<A>>,
    machine: Machine<A>,
    made: Vec<Made, A>,
}

impl<A: Allocator> Model for Trace<A> {
    ghost use Rattle.bsp_debug.specs.Trace.{Traced, IsTrace};

    ghost Value = { Traced };

    ghost view = { λ t. record { start = t.start.value; machine = t.machine; made = t.made.items } };

    ghost invariant = { λ t. IsTrace (record { start = t.start.value; machine = t.machine; made = t.made.items }) };
}

impl<A: Allocator + Copy> Trace<A> {
    pub fn new(alloc: A, machine: Machine<A>) -> Self
        ensures { result ≡ record { start = machine; machine = machine; made = [] } }
    {
        Trace {
            start: Snapshot::of(&machine),
            machine,
            made: Vec::new(alloc),
        }
    }

    /// Forgets the events that were made so far.
    pub fn forget(&mut self)
        ensures value { self.new ≡ record self.old { start = self.old.machine; made = [] } }
        ensures trace { IsTrace self.new }
    {
        self.start = Snapshot::of(&self.machine);
        self.made.clear();
    }

    /// Takes another machine in the place of this one, of which no event has been made.
    pub fn begin(&mut self, machine: Machine<A>)
        ensures { self.new ≡ record { start = machine; machine = machine; made = [] } }
    {
        self.start = Snapshot::of(&machine);
        self.machine = machine;
        self.made.clear();
    }

    /// Takes a machine that is the same in the place of this one, and keeps the events that were made.
    pub fn renew(&mut self, same: Machine<A>)
        requires { same ≡ self.old.machine }
        ensures { self.new ≡ self.old }
    {
        self.machine = same;
    }

    /// Makes at most `most` steps of the node of a rank, while it runs, and answers how many it made.
    ///
    /// # Errors
    /// If memory is refused. The steps before that stand, and are taken down.
    pub fn steps(&mut self, rank: u32, most: u64) -> Result<u64, AllocError>
        requires { EndsBelow rank self.old.made }
        ensures trace { IsTrace self.new }
        ensures count { IfOk result (λ count. count ≡ steps_at self.old.machine rank most) }
        ensures few { IfOk result (λ count. count ≤ most) }
        ensures ok { OnOk result (self.new ≡ stepped rank (steps_at self.old.machine rank most) self.old) }
        ensures err { OnErr result ((k : ℕ) × (k ≤ steps_at self.old.machine rank most)
            × (self.new ≡ stepped rank k self.old)) }
    {
        self.made.reserve(1)?;
        let before = ticks_of(&self.machine, rank);
        let ran = self.machine.run_node(rank, most);
        let count = ticks_of(&self.machine, rank).saturating_sub(before);
        note_steps(&mut self.made, rank, count);
        ran?;
        Ok(count)
    }

    /// Runs the node of a rank, by at most `most` steps, until it stops or, after a step at least, stands at a point. Answers how many
    /// steps it made.
    ///
    /// # Errors
    /// If memory is refused. The steps before that stand, and are taken down.
    pub fn run_to_point(
        &mut self,
        rank: u32,
        most: u64,
        points: &Points<A>,
    ) -> Result<u64, AllocError>
        requires { EndsBelow rank self.old.made }
        ensures trace { IsTrace self.new }
        ensures ok { IfOk result (λ count. RunsToPoint points.now self.old.machine rank most count
            × (self.new ≡ stepped rank count self.old)) }
        ensures err { OnErr result ((count : ℕ) × RunsOnTo points.now self.old.machine rank most count
            × (self.new ≡ stepped rank count self.old)) }
    {
        // A node that does not run asks for no room, so that `Go` is not refused where it is to stop at the next one.
        if !self.machine.runs(rank) {
            return Ok(0);
        }
        self.made.reserve(1)?;
        let before = ticks_of(&self.machine, rank);
        let ran = run_node_to_point(&mut self.machine, rank, most, points);
        let count = ticks_of(&self.machine, rank).saturating_sub(before);
        note_steps(&mut self.made, rank, count);
        ran?;
        Ok(count)
    }

    /// Runs the node of a rank until it stops or, after a step at least, stands after a call or at a point. Answers how many steps it made.
    ///
    /// # Errors
    /// If memory is refused. The steps before that stand, and are taken down.
    pub fn run_to_return(
        &mut self,
        rank: u32,
        addr: u32,
        sp: u32,
        points: &Points<A>,
    ) -> Result<u64, AllocError>
        requires { EndsBelow rank self.old.made }
        ensures trace { IsTrace self.new }
        ensures ok { IfOk result (λ count. HasReturned points.now self.old.machine rank addr sp count
            × (self.new ≡ stepped rank count self.old)) }
        ensures err { OnErr result ((count : ℕ) × IsReturning points.now self.old.machine rank addr sp count
            × (self.new ≡ stepped rank count self.old)) }
    {
        if !self.machine.runs(rank) {
            return Ok(0);
        }
        self.made.reserve(1)?;
        let before = ticks_of(&self.machine, rank);
        let ran = run_node_to_return(&mut self.machine, rank, addr, sp, points);
        let count = ticks_of(&self.machine, rank).saturating_sub(before);
        note_steps(&mut self.made, rank, count);
        ran?;
        Ok(count)
    }

    /// Makes the turn, if no node runs and there is no outcome, and answers whether it did.
    ///
    /// # Errors
    /// If memory is refused for a turn that is to be made. Nothing has changed then.
    pub fn turn(&mut self) -> Result<bool, AllocError>
        ensures was_trace { IsTrace self.old }
        ensures trace { IsTrace self.new }
        ensures value { IfOk result (λ made. made ≡ is_enabled self.old.machine the_turn) }
        ensures ok { IfOk result (λ made. self.new ≡ (if made
            then turned self.old else self.old)) }
        ensures err { OnErr result (self.new ≡ self.old) }
        ensures refuses { OnErr result (is_enabled self.old.machine the_turn ≡ true) }
    {
        if !self.machine.can_turn() {
            return Ok(false);
        }
        self.made.reserve(1)?;
        self.machine.turn()?;
        self.made.push_reserved(Made::Turn);
        Ok(true)
    }
}

impl<A: Allocator> Trace<A> {
    pub fn machine(&self) -> &Machine<A>
        ensures value { result.now ≡ self.now.machine }
        ensures trace { IsTrace self.now }
    {
        &self.machine
    }

    pub fn into_machine(self) -> Machine<A>
        ensures { result ≡ self.machine }
    {
        self.machine
    }

    /// The events that were made, those of one rank in a row as one entry.
    pub fn made(&self) -> &[Made]
        ensures value { result.now ≡ self.now.made }
        ensures trace { IsTrace self.now }
    {
        self.made.as_slice()
    }
}

/// The steps that the node of a rank has made so far; none if there is no such node.
fn ticks_of<A: Allocator>(machine: &Machine<A>, rank: u32) -> u64
    ensures { result ≡ option_map_or (λ (n : NodeState). n.ticks) (slice_get machine.now.nodes rank) 0 }
{
    match machine.node(rank) {
        Some(node) => node.ticks(),
        None => 0,
    }
}

/// Takes down some steps of a rank, if there are any, if there is room for an entry.
fn note_steps<A: Allocator>(made: &mut Vec<Made, A>, rank: u32, count: u64)
    requires { vec_len made.old < vec_capacity made.old }
    ensures { made.new.items ≡ with_steps made.old.items rank count }
{
    if count > 0 {
        made.push_reserved(Made::Steps { rank, count });
    }
}

/// Runs the node of a rank, by at most `most` steps, until it stops or, after a step at least, stands at a point.
fn run_node_to_point<A: Allocator + Copy>(
    machine: &mut Machine<A>,
    rank: u32,
    most: u64,
    points: &Points<A>,
) -> Result<(), AllocError>
    ensures ok { OnOk result ((count : ℕ) × (machine.new ≡ after_steps machine.old rank count)
        × RunsToPoint points.now machine.old rank most count) }
    ensures err { OnErr result ((count : ℕ) × (machine.new ≡ after_steps machine.old rank count)
        × RunsOnTo points.now machine.old rank most count) }
{
    // Without points a node runs by itself, at the full speed of its hot path.
    if points.is_empty() {
        return machine.run_node(rank, most);
    }
    for _made in 0..most {
        if !machine.apply(Event::Step(rank))? {
            break;
        }
        if point_of(machine, rank, points).is_some() {
            break;
        }
    }
    Ok(())
}

/// The point at which the node of a rank stands, if it runs and its next step has one.
pub(crate) fn point_of<A: Allocator + Copy>(
    machine: &Machine<A>,
    rank: u32,
    points: &Points<A>,
) -> Option<Point>
    ensures { result ≡ point_at points.now machine.now rank }
{
    let node = machine.node(rank)?;
    let addr = node.pc();
    if node.state().is_running() && points.has_address(rank, addr) {
        Some(Point::Address { rank, addr })
    } else {
        None
    }
}
