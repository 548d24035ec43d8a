//! A place at the table. Workers can use it one after another.

ghost use Rattle.std.specs.Prelude.{◌≡◌, ◌+◌, []};
ghost use Rattle.claim_table.specs.ClaimSteps.{view_away};

use crate::gate::Gate;
use crate::worker::{ClaimSeat, SharedClaims, Work, Worker};
use node_core::Node;
use std::alloc::{AllocError, Allocator};

/// A worker's place at the table, where it is counted only while it works.
#[derive(Drop)]
pub struct Place<'t, 'p, A: Allocator> {
    worker: Worker<'t, 'p, A>,
    ghost away: { worker.seat.me ≡ (view_away, []) },
}

impl<'t, 'p, A: Allocator + Copy> Place<'t, 'p, A> {
    /// The first worker's place, by the keeper's seat.
    pub(crate) fn first(
        shared: &'t SharedClaims<'p, A>,
        seat: &mut ClaimSeat<A>,
        input: &'p [u8],
        ranks: usize,
    ) -> Place<'t, 'p, A>
        requires sized { (shared.now.table_id.words ≡ ranks + 1) × (shared.now.table_id.slots ≡ ranks) }
        requires seated { seat.old.table_id ≡ shared.now.table_id }
        requires reads { input.now ≡ shared.now.key.input.now }
        ensures keeper { (seat.new.table_id ≡ seat.old.table_id) × (seat.new.me ≡ seat.old.me) }
        ensures at { (result.worker.shared ≡ shared.entry) × (result.worker.input ≡ input.entry) × (result.worker.ranks ≡ ranks) }
    {
        Place {
            worker: Worker::first(shared, seat, input, ranks),
        }
    }

    /// A place for another worker, at the same table. This place stays as it was.
    pub fn another(&mut self) -> Place<'t, 'p, A>
        ensures at { (result.worker.shared ≡ self.old.worker.shared) × (result.worker.input ≡ self.old.worker.input)
            × (result.worker.ranks ≡ self.old.worker.ranks) }
        ensures same { (self.new.worker.shared ≡ self.old.worker.shared) × (self.new.worker.input ≡ self.old.worker.input)
            × (self.new.worker.ranks ≡ self.old.worker.ranks) }
    {
        Place {
            worker: self.worker.another(),
        }
    }

    /// Works here: takes nodes that are at home and run, pass after pass over the ranks from `first` on and round, each through a slice of
    /// its steps, and gives them back. It ends if a pass took none, or with its allowance. If the worker cannot be counted, since the table
    /// is sealed or others always came first, it takes none.
    ///
    /// # Errors
    /// If memory was refused in a step. The node is back then, as its last whole step left it, and no other is taken.
    pub fn work<G: Gate<A>>(&mut self, work: &Work<'_, G>, first: usize) -> Result<(), AllocError> {
        self.worker.work(work, first)
    }
}
