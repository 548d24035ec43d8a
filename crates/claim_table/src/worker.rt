//! A worker at the table: it enrols, takes nodes and gives them back, and retires.

ghost use Rattle.std.specs.Prelude.{◌≡◌, ◌+◌, ◌<◌, ◌%◌, Some};
ghost use mathlib.Core.Option.{some};
ghost use Rattle.claim_table.specs.Claims.{word_of};

use crate::gate::Gate;
use crate::rule::{ClaimRule, PhaseStart};
use crate::steps::{Enrol, Hire, Retire, Return, Take};
use crate::view::View;
use atomic_table::{Seat, Shared};
use node_core::Node;
use std::alloc::{AllocError, Allocator};

/// The table as those at it share it.
pub(crate) type SharedClaims<'p, A> = Shared<Option<Node<A>>, View, PhaseStart<'p, A>, ClaimRule>;

/// What one of them knows of it, and the slots that it has.
pub(crate) type ClaimSeat<A> = Seat<Option<Node<A>>, View>;

/// The words of a rank.
pub(crate) const HOME_AND_RUNS: u64 = 0;

pub(crate) const OUT: u64 = 1;

pub(crate) const HOME_AND_STOPPED: u64 = 2;

pub(crate) const EMPTY: u64 = 3;

/// How often a worker tries to enrol: more often than others can enrol and retire meanwhile.
const ENROL_TRIES: u32 = 128;

/// No more workers than this are counted.
const MOST_WORKERS: u64 = (1 << 63) - 1;

/// The word of a rank whose node is at home.
pub(crate) fn word_at_home<A: Allocator>(node: &Node<A>) -> u64
    ensures { result ≡ word_of (some (Some node.now)) }
{
    if node.state().is_running() {
        HOME_AND_RUNS
    } else {
        HOME_AND_STOPPED
    }
}

/// The rank that comes so many places after the given one, round.
fn rank_after(first: usize, places: usize, ranks: usize) -> usize
    requires { places < ranks }
    ensures within { result < ranks }
    ensures value { result ≡ (first % ranks + places) % ranks }
{
    let first = first % ranks;
    let behind = ranks - first;
    if places < behind {
        first + places
    } else {
        places - behind
    }
}

/// What workers are told of their work.
#[derive(Drop)]
pub struct Work<'g, G> {
    /// What is called round the steps of each node.
    pub gate: &'g G,
    /// The most steps that a node makes before it is given back.
    pub slice: u64,
    /// The most nodes that a worker takes, each as often as it is taken.
    pub allowance: u64,
}

/// A worker at the table.
#[derive(Drop)]
pub(crate) struct Worker<'t, 'p, A: Allocator> {
    shared: &'t SharedClaims<'p, A>,
    pub(crate) seat: ClaimSeat<A>,
    input: &'p [u8],
    ranks: usize,
    ghost sized: { (shared.now.table_id.words ≡ ranks + 1) × (shared.now.table_id.slots ≡ ranks) },
    ghost seated: { seat.table_id ≡ shared.now.table_id },
    ghost reads: { input.now ≡ shared.now.key.input.now },
}

impl<'t, 'p, A: Allocator + Copy> Worker<'t, 'p, A> {
    ghost use Rattle.std.specs.Prelude.{ℕ, ◌≤◌, ◌∷◌, [], None, IsTrue, IfOk, IfSome, IfNone, true, false};
    ghost use Rattle.node_core.specs.Node.{NodeState, is_running, local_steps};
    ghost use Rattle.claim_table.specs.ClaimSteps.{view_away, view_at_work, after_take};

    /// The first worker, by the keeper's seat.
    pub(crate) fn first(
        shared: &'t SharedClaims<'p, A>,
        seat: &mut ClaimSeat<A>,
        input: &'p [u8],
        ranks: usize,
    ) -> Worker<'t, 'p, A>
        requires sized { (shared.now.table_id.words ≡ ranks + 1) × (shared.now.table_id.slots ≡ ranks) }
        requires seated { seat.old.table_id ≡ shared.now.table_id }
        requires reads { input.now ≡ shared.now.key.input.now }
        ensures keeper { (seat.new.table_id ≡ seat.old.table_id) × (seat.new.me ≡ seat.old.me) }
        ensures worker { result.seat.me ≡ (view_away, []) }
        ensures at { (result.shared ≡ shared.entry) × (result.input ≡ input.entry) × (result.ranks ≡ ranks) }
    {
        let worker = shared.split_seat::<Hire>(seat);
        Worker {
            shared,
            seat: worker,
            input,
            ranks,
        }
    }

    /// Another worker at the same table.
    pub(crate) fn another(&mut self) -> Worker<'t, 'p, A>
        ensures this { (self.new.seat.me ≡ self.old.seat.me) × (self.new.shared ≡ self.old.shared)
            × (self.new.input ≡ self.old.input) × (self.new.ranks ≡ self.old.ranks) }
        ensures that { result.seat.me ≡ (view_away, []) }
        ensures at { (result.shared ≡ self.old.shared) × (result.input ≡ self.old.input) × (result.ranks ≡ self.old.ranks) }
    {
        let seat = self.shared.split_seat::<Hire>(&mut self.seat);
        Worker {
            shared: self.shared,
            seat,
            input: self.input,
            ranks: self.ranks,
        }
    }

    /// Whether the worker could be counted. It cannot if the table is sealed, or if others always came first.
    fn enrol(&mut self) -> bool
        requires { self.old.seat.me ≡ (view_away, []) }
        ensures yes { IsTrue result → self.new.seat.me ≡ (view_at_work, []) }
        ensures no { result ≡ false → self.new.seat.me ≡ (view_away, []) }
    {
        let mut count = 0;
        for _ in 0..ENROL_TRIES {
            if count >= MOST_WORKERS {
                return false;
            }
            let found = self
                .shared
                .compare_exchange::<Enrol>(&mut self.seat, self.ranks, count, count + 1);
            if found == count {
                return true;
            }
            count = found;
        }
        false
    }

    /// The worker is counted no longer.
    fn retire(&mut self)
        requires { self.old.seat.me ≡ (view_at_work, []) }
        ensures { self.new.seat.me ≡ (view_away, []) }
    {
        self.shared
            .fetch_sub::<Retire>(&mut self.seat, self.ranks, 1);
    }

    /// The node of a rank, if it is at home and runs. It is out with this worker then.
    fn take(&mut self, rank: usize) -> Option<Node<A>>
        requires within { rank < self.old.ranks }
        requires idle { self.old.seat.me ≡ (view_at_work, []) }
        ensures taken { IfSome result (λ n. (is_running n.node.state ≡ true)
            × (self.new.seat.me ≡ (after_take rank n.node view_at_work, (rank, None) ∷ []))) }
        ensures missed { IfNone result (self.new.seat.me ≡ (view_at_work, [])) }
        ensures same { (self.new.ranks ≡ self.old.ranks) × (self.new.input ≡ self.old.input) }
    {
        if self
            .shared
            .compare_exchange::<Take>(&mut self.seat, rank, HOME_AND_RUNS, OUT)
            != HOME_AND_RUNS
        {
            return None;
        }
        self.shared.exchange(&mut self.seat, rank, None)
    }

    /// Gives back the node that was taken, after some steps of its own.
    fn give(&mut self, rank: usize, node: Node<A>)
        requires within { rank < self.old.ranks }
        requires out { (taken : NodeState) × (self.old.seat.me ≡ (after_take rank taken view_at_work, (rank, None) ∷ []))
            × ((k : ℕ) × (node.node ≡ local_steps self.old.input.now k taken)) }
        ensures idle { self.new.seat.me ≡ (view_at_work, []) }
        ensures same { (self.new.ranks ≡ self.old.ranks) × (self.new.input ≡ self.old.input) }
    {
        let word = word_at_home(&node);
        self.shared.exchange(&mut self.seat, rank, Some(node));
        self.shared.store::<Return>(&mut self.seat, rank, word);
    }

    /// Takes the node of a rank through a slice of its steps, if it is at home and runs, and gives it back. Whether it was so.
    ///
    /// # Errors
    /// If memory was refused in a step. The node is back then too, as its last whole step left it.
    fn serve<G: Gate<A>>(&mut self, work: &Work<'_, G>, rank: usize) -> Result<bool, AllocError>
        requires within { rank < self.old.ranks }
        requires idle { self.old.seat.me ≡ (view_at_work, []) }
        ensures idle { self.new.seat.me ≡ (view_at_work, []) }
        ensures same { self.new.ranks ≡ self.old.ranks }
    {
        let Some(mut node) = self.take(rank) else {
            return Ok(false);
        };
        let name = node.rank();
        work.gate.enter(name);
        let answer = node.run(self.input, work.slice);
        work.gate.leave(name, &node);
        self.give(rank, node);
        answer?;
        Ok(true)
    }

    /// One pass over the ranks, from the given one on and round: how many nodes it took, which are so many at most.
    ///
    /// # Errors
    /// If memory was refused in a step, at which the pass ends.
    fn pass<G: Gate<A>>(
        &mut self,
        work: &Work<'_, G>,
        first: usize,
        most: u64,
    ) -> Result<u64, AllocError>
        requires idle { self.old.seat.me ≡ (view_at_work, []) }
        ensures idle { self.new.seat.me ≡ (view_at_work, []) }
        ensures taken { IfOk result (λ taken. taken ≤ most) }
    {
        let mut taken = 0;
        for at in 0..self.ranks {
            if taken == most {
                break;
            }
            if self.serve(work, rank_after(first, at, self.ranks))? {
                taken += 1;
            }
        }
        Ok(taken)
    }

    /// Passes over the ranks until one took no node, or the allowance is used up.
    ///
    /// # Errors
    /// If memory was refused in a step, at which the last pass ends.
    fn make_passes<G: Gate<A>>(
        &mut self,
        work: &Work<'_, G>,
        first: usize,
    ) -> Result<(), AllocError>
        requires idle { self.old.seat.me ≡ (view_at_work, []) }
        ensures idle { self.new.seat.me ≡ (view_at_work, []) }
    {
        let mut left = work.allowance;
        while left > 0 {
            let taken = self.pass(work, first, left)?;
            if taken == 0 {
                break;
            }
            left -= taken;
        }
        Ok(())
    }

    /// The whole work of a worker: it is counted, makes its passes, and is counted no longer, whatever came.
    ///
    /// # Errors
    /// If memory was refused in a step of a node.
    pub(crate) fn work<G: Gate<A>>(
        &mut self,
        work: &Work<'_, G>,
        first: usize,
    ) -> Result<(), AllocError>
        requires away { self.old.seat.me ≡ (view_away, []) }
        ensures away { self.new.seat.me ≡ (view_away, []) }
    {
        if !self.enrol() {
            return Ok(());
        }
        let answer = self.make_passes(work, first);
        self.retire();
        answer
    }
}
