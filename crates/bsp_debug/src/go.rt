//! The commands that make events.

ghost use Rattle.std.specs.Prelude.{◌≡◌, ◌+◌, [], length, true, false, None, Ok, IfOk, OnOk, OnErr, if◌then◌else◌};
ghost use Rattle.machine_core.specs.declared.event.Event.TheVariants.{Turn as the_turn};
ghost use Rattle.machine_core.specs.Events.{event as event_of, is_enabled, some_runs};
ghost use Rattle.machine_core.specs.Sound.{IsSoundMachine};
ghost use Rattle.machine_core.specs.Turn.{with_phases};
ghost use Rattle.bsp_debug.specs.Debugger.{MakesPhases, IsWithinPhases, turn_events, turn_answer};
ghost use Rattle.bsp_debug.specs.Going.{IsGoing, HaveStoppedBelow, HasGone, HasGoneOrStopped};
ghost use Rattle.bsp_debug.specs.Made.{events_of};
ghost use Rattle.bsp_debug.specs.Reply.{answer, turned};
ghost use Rattle.bsp_debug.specs.Stops.{Goes, IsOnTheWay};
ghost use Rattle.bsp_debug.specs.Trace.{IsTrace, after_steps, EndsBelow};

use crate::point::Point;
use crate::points::Points;
use crate::reply::Reply;
use crate::trace::{Trace, point_of};
use std::alloc::{AllocError, Allocator};

impl<A: Allocator + Copy> Trace<A> {
    /// Each running node in rank order, until it stops. Answers how many steps were made.
    pub fn phase(&mut self) -> Result<u64, AllocError>
        requires fresh { self.old.made ≡ [] }
        ensures trace { IsTrace self.new }
        ensures start { self.new.start ≡ self.old.start }
        ensures ok { OnOk result (MakesPhases self.old.machine (events_of self.new.made)) }
        ensures moved { IfOk result (λ moved. moved ≡ length (events_of self.new.made)) }
        ensures err { OnErr result (IsWithinPhases self.old.machine (events_of self.new.made)) }
    {
        let settings = self.machine().settings();
        let mut moved = 0;
        for rank in 0..settings.nodes {
            moved += self.steps(rank, settings.limit)?;
        }
        Ok(moved)
    }

    /// The turn, if no node runs, and its outcome, if it has one.
    pub fn turn_with_reply(&mut self) -> Result<Reply<A>, AllocError>
        requires fresh { self.old.made ≡ [] }
        requires open { self.old.machine.outcome ≡ None }
        ensures trace { IsTrace self.new }
        ensures start { self.new.start ≡ self.old.start }
        ensures ok { OnOk result (events_of self.new.made ≡ turn_events self.old.machine) }
        ensures reply { IfOk result (λ reply. answer reply ≡ (if is_enabled self.old.machine the_turn
            then turn_answer self.new.machine.outcome else turned false)) }
        ensures err { OnErr result ((self.new ≡ self.old) × (is_enabled self.old.machine the_turn ≡ true)) }
    {
        if !self.turn()? {
            return Ok(Reply::Turned(false));
        }
        Ok(match self.machine().outcome() {
            Some(outcome) => Reply::Finished(outcome),
            None => Reply::Turned(true),
        })
    }

    /// Each running node in rank order until it stops, then the turn, and again, to the first stop.
    pub fn go(&mut self, points: &Points<A>) -> Result<Reply<A>, AllocError>
        requires fresh { self.old.made ≡ [] }
        requires open { self.old.machine.outcome ≡ None }
        ensures trace { IsTrace self.new }
        ensures start { self.new.start ≡ self.old.start }
        ensures ok { IfOk result (λ reply.
            Goes points.now self.old.start (events_of self.new.made) (answer reply)) }
        ensures err { OnErr result (IsOnTheWay points.now self.old.start (events_of self.new.made)) }
    {
        loop {
            if let Some(point) = self.go_through_phase(points)? {
                return Ok(Reply::Stopped(point));
            }
            if let Some(stop) = self.go_through_turn(points)? {
                return Ok(stop);
            }
        }
    }

    /// Runs each node in rank order until it stops, or to the first point.
    fn go_through_phase(&mut self, points: &Points<A>) -> Result<Option<Point>, AllocError>
        requires going { IsGoing points.now self.old }
        requires open { self.old.machine.outcome ≡ None }
        requires order { EndsBelow 0 self.old.made }
        ensures sound { IsSoundMachine self.old.machine }
        ensures trace { IsTrace self.new }
        ensures start { self.new.start ≡ self.old.start }
        ensures gone { HasGone points.now self.new result }
        ensures whole { result ≡ Ok None → self.new.machine ≡ with_phases self.old.machine }
    {
        for rank in 0..self.machine().settings().nodes {
            if let Some(point) = self.go_through_node(rank, points)? {
                return Ok(Some(point));
            }
        }
        Ok(None)
    }

    /// Runs the node of a rank until it stops, or to the first point. A point at which it stands counts, unless no event has been
    /// made yet.
    fn go_through_node(
        &mut self,
        rank: u32,
        points: &Points<A>,
    ) -> Result<Option<Point>, AllocError>
        requires going { IsGoing points.now self.old }
        requires open { self.old.machine.outcome ≡ None }
        requires sound { IsSoundMachine self.old.machine }
        requires below { HaveStoppedBelow rank self.old.machine }
        requires order { EndsBelow rank self.old.made }
        ensures trace { IsTrace self.new }
        ensures start { self.new.start ≡ self.old.start }
        ensures gone { HasGone points.now self.new result }
        ensures whole { result ≡ Ok None
            → self.new.machine ≡ after_steps self.old.machine rank self.old.machine.settings.limit }
        ensures order { result ≡ Ok None → EndsBelow (rank + 1) self.new.made }
    {
        if !self.made().is_empty() {
            if let Some(point) = point_of(self.machine(), rank, points) {
                return Ok(Some(point));
            }
        }
        let limit = self.machine().settings().limit;
        self.run_to_point(rank, limit, points)?;
        Ok(point_of(self.machine(), rank, points))
    }

    /// Makes the turn, and answers the stop that it led to.
    fn go_through_turn(&mut self, points: &Points<A>) -> Result<Option<Reply<A>>, AllocError>
        requires going { IsGoing points.now self.old }
        requires open { self.old.machine.outcome ≡ None }
        requires stopped { some_runs self.old.machine.nodes ≡ false }
        ensures trace { IsTrace self.new }
        ensures start { self.new.start ≡ self.old.start }
        ensures gone { HasGoneOrStopped points.now self.new result }
        ensures made { OnOk result (self.new.machine ≡ event_of self.old.machine the_turn) }
        ensures open { result ≡ Ok None → self.new.machine.outcome ≡ None }
        ensures order { OnOk result (EndsBelow 0 self.new.made) }
    {
        self.turn()?;
        if let Some(outcome) = self.machine().outcome() {
            return Ok(Some(Reply::Finished(outcome)));
        }
        let point = Point::Superstep(self.machine().superstep());
        if points.has(point) {
            return Ok(Some(Reply::Stopped(point)));
        }
        Ok(None)
    }
}
