//! Steps of one node, with their addresses.

ghost use Rattle.std.specs.Prelude.{◌<◌, IfOk, length};
ghost use Rattle.node_core.specs.Addresses.{HoldAddresses};
ghost use Rattle.machine_core.specs.Events.{AreStepsMade, next_addresses_at};
ghost use Rattle.machine_core.specs.Sound.{IsSoundMachine};

use super::Machine;
use crate::row;
use std::alloc::{AllocError, Allocator};

impl<A: Allocator + Copy> Machine<A> {
    /// Makes at most as many steps of the node of a rank as `pcs` has places, while it runs, and writes the address of each there, that of
    /// the first one first: pc before the step. How many it made. Of a rank that is absent there are none.
    ///
    /// # Errors
    /// If memory is refused in a step, as [`Machine::run_node`] says.
    pub fn run_node_traced(&mut self, rank: u32, pcs: &mut [u32]) -> Result<usize, AllocError>
        ensures steps { AreStepsMade rank (length pcs.old) self.old self.new result }
        ensures addresses { IfOk result (HoldAddresses (next_addresses_at self.old.input rank (length pcs.old) self.old.nodes) pcs.new) }
    {
        if rank as usize >= self.nodes.len() {
            return Ok(0);
        }
        self.run_traced_at(rank as usize, pcs)
    }

    /// The same of the node at a place of the row.
    fn run_traced_at(&mut self, rank: usize, pcs: &mut [u32]) -> Result<usize, AllocError>
        requires { rank < length self.old.nodes }
        ensures steps { AreStepsMade rank (length pcs.old) self.old self.new result }
        ensures addresses { IfOk result (HoldAddresses (next_addresses_at self.old.input rank (length pcs.old) self.old.nodes) pcs.new) }
    {
        row::run_traced_at(&mut self.nodes, rank, pcs, self.input.as_slice())
    }
}
