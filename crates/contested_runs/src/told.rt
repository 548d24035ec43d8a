//! The lines that a run has reported so far.

ghost use Rattle.std.specs.Prelude.{◌≡◌, ◌++◌, ℕ, List, true, IfOk, OnOk, OnErr};
ghost use Rattle.machine_core.specs.declared.event.Event.TheVariants.{Turn as the_turn};
ghost use Rattle.machine_core.specs.Events.{event, is_enabled};
ghost use Rattle.machine_core.specs.Sound.{IsSoundMachine};
ghost use Rattle.contested_runs.specs.Lines.{header};
ghost use Rattle.contested_runs.specs.Runs.{AreTurnLines};

use crate::turn::turn_lines;
use machine_core::Machine;
use std::alloc::{AllocError, Allocator};
use std::marker::Model;

/// The names of the columns.
const HEADER: &str =
    "superstep,rank,address,bytes,first_kind,first_rank,first_request,first_byte,second_kind,second_rank,second_request,second_byte\n";

/// The lines that show what is contested in a run, so far. Contracts see them as their bytes.
#[derive(Drop)]
pub struct Told<A: Allocator> {
    alloc: A,
    text: Vec<u8, A>,
}

impl<A: Allocator> Model for Told<A> {
    ghost use Rattle.std.specs.Prelude.{List, ℕ};

    ghost Value = { List ℕ };

    ghost view = { λ told. told.text.items };
}

impl<A: Allocator + Copy> Told<A> {
    /// The names of the columns alone.
    ///
    /// # Errors
    /// If memory is refused.
    pub fn new(alloc: A) -> Result<Told<A>, AllocError>
        ensures { IfOk result (λ told. told ≡ header) }
    {
        let text = Vec::from_slice(alloc, HEADER.as_bytes())?;
        Ok(Told { alloc, text })
    }

    /// Makes the turn of a machine none of whose nodes runs, and takes down what is contested in its exchange.
    ///
    /// # Errors
    /// If memory is refused. Neither the machine nor what is told has changed then.
    pub(crate) fn turn(&mut self, machine: &mut Machine<A>) -> Result<(), AllocError>
        requires sound { IsSoundMachine machine.old }
        requires enabled { is_enabled machine.old the_turn ≡ true }
        ensures told { OnOk result ((lines : List ℕ) × AreTurnLines machine.old lines × (self.new ≡ self.old ++ lines)) }
        ensures machine { OnOk result (machine.new ≡ event machine.old the_turn) }
        ensures same_told { OnErr result (self.new ≡ self.old) }
        ensures same_machine { OnErr result (machine.new ≡ machine.old) }
    {
        let before = self.text.len();
        let lines = turn_lines(self.alloc, machine)?;
        self.text.extend_from_slice(lines.as_bytes())?;
        if let Err(refused) = machine.turn() {
            self.text.truncate(before);
            return Err(refused);
        }
        Ok(())
    }
}

impl<A: Allocator> Told<A> {
    /// The bytes of its lines.
    pub fn as_bytes(&self) -> &[u8]
        ensures { result.now ≡ self.now }
    {
        self.text.as_slice()
    }
}
