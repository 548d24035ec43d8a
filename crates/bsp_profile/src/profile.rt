//! The profile of a run so far.

ghost use Rattle.std.specs.Prelude.{◌≡◌, ◌++◌, true, IfOk, OnOk, OnErr};
ghost use Rattle.machine_core.specs.declared.event.Event.TheVariants.{Turn as the_turn};
ghost use Rattle.machine_core.specs.Events.{is_enabled};
ghost use Rattle.machine_core.specs.Turn.{turned};
ghost use Rattle.bsp_profile.specs.Lines.{header, superstep_lines as superstep_lines_of};

use crate::lines::superstep_lines;
use machine_core::Machine;
use std::alloc::{AllocError, Allocator};
use std::marker::Model;

/// The names of the columns.
const HEADER: &str = "superstep,rank,to,ticks,sent,received,kept,messages,requests,state\n";

/// The lines of a profile so far. Contracts see it as their bytes.
#[derive(Drop)]
pub struct Profile<A: Allocator> {
    alloc: A,
    text: Vec<u8, A>,
}

impl<A: Allocator> Model for Profile<A> {
    ghost use Rattle.std.specs.Prelude.{List, ℕ};

    ghost Value = { List ℕ };

    ghost view = { λ p. p.text.items };
}

impl<A: Allocator + Copy> Profile<A> {
    /// A profile that has the names of its columns alone.
    ///
    /// # Errors
    /// If memory is refused.
    pub fn new(alloc: A) -> Result<Profile<A>, AllocError>
        ensures { IfOk result (λ profile. profile ≡ header) }
    {
        let text = Vec::from_slice(alloc, HEADER.as_bytes())?;
        Ok(Profile { alloc, text })
    }

    /// Makes the turn of a machine none of whose nodes runs, and takes down what the superstep was for each rank: its row, and
    /// what went from rank to rank.
    ///
    /// # Errors
    /// If memory is refused. Neither the machine nor the profile has changed then.
    pub fn turn(&mut self, machine: &mut Machine<A>) -> Result<(), AllocError>
        requires { is_enabled machine.old the_turn ≡ true }
        ensures profile { OnOk result (self.new ≡ self.old ++ superstep_lines_of machine.old) }
        ensures machine { OnOk result (machine.new ≡ turned machine.old) }
        ensures same_profile { OnErr result (self.new ≡ self.old) }
        ensures same_machine { OnErr result (machine.new ≡ machine.old) }
    {
        let before = self.text.len();
        let lines = superstep_lines(self.alloc, machine)?;
        self.text.extend_from_slice(lines.as_bytes())?;
        if let Err(refused) = machine.turn() {
            self.text.truncate(before);
            return Err(refused);
        }
        Ok(())
    }
}

impl<A: Allocator> Profile<A> {
    /// The bytes of its lines.
    pub fn as_bytes(&self) -> &[u8]
        ensures { result.now ≡ self.now }
    {
        self.text.as_slice()
    }
}
