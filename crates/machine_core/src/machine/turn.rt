//! The turn, at once or in two halves. Between the halves, the nodes are prepared for the parts of their exchange, and the parts land.

ghost use Rattle.std.specs.Prelude.{◌≡◌, true};
ghost use Rattle.machine_core.specs.declared.event.Event.TheVariants.{Turn as the_turn};
ghost use Rattle.machine_core.specs.Events.{IsAnswered, is_enabled};
ghost use Rattle.machine_core.specs.Landing.{HasBegun};

use crate::closing::{Closing, begin, last_row};
use crate::machine::Machine;
use crate::machine::exchanging::ExchangingMachine;
use crate::row;
use bsp_exchange::{Part, Plan, land_all, prepare_all};
use cost_ledger::CostRow;
use node_core::Node;
use std::alloc::{AllocError, Allocator};
use std::snapshot::Snapshot;

/// A turn that has begun.
pub enum Begun<A: Allocator> {
    /// No part has to land, and the machine is whole. The answer is that of [`Machine::turn`]: the turn was made, and the machine has
    /// its outcome; or it is not enabled, or memory was refused, and nothing has changed.
    Whole(Machine<A>, Result<bool, AllocError>),
    /// The turn makes the exchange, whose parts have to land in nodes that are prepared for them.
    Landing(Landing<A>),
}

/// The exchange of a turn: the row, the part of each node at the same place, and the machine that takes the row back. Each node has to
/// be prepared for its part before that lands.
pub struct Landing<A: Allocator> {
    pub exchanging: ExchangingMachine<A>,
    pub nodes: Vec<Node<A>, A>,
    pub parts: Vec<Part<A>, A>,
}

impl<A: Allocator + Copy> Machine<A> {
    /// Makes the turn, as [`Machine::apply`] does: ends the superstep, with the exchange or with the outcome.
    pub fn turn(&mut self) -> Result<bool, AllocError>
        ensures { IsAnswered the_turn self.old self.new result }
    {
        core::mem::replace_with(
            self,
            (),
            |machine: Machine<A>, _nothing: ()| -> (Machine<A>, Result<bool, AllocError>)
                ensures { IsAnswered the_turn machine result.0 result.1 }
            { machine.turn_whole() },
        )
    }

    /// Makes the turn, whose nodes are prepared and whose parts land in this thread.
    fn turn_whole(self) -> (Machine<A>, Result<bool, AllocError>)
        ensures { IsAnswered the_turn self result.0 result.1 }
    {
        match self.begin_turn() {
            Begun::Whole(machine, answer) => (machine, answer),
            Begun::Landing(
                Landing {
                    exchanging,
                    mut nodes,
                    mut parts,
                },
            ) => match prepare_all(&mut nodes, &parts) {
                Ok(()) => {
                    land_all(&mut nodes, &mut parts);
                    (exchanging.finish(nodes), Ok(true))
                }
                Err(refused) => (exchanging.call_off(nodes), Err(refused)),
            },
        }
    }

    /// Begins the turn, and hands its exchange out: a [`Part`] for each node, for which [`Part::prepare`] makes the node ready, and which
    /// [`Part::land`] takes into it, in whichever thread. [`ExchangingMachine::finish`] makes the machine whole again when all parts have
    /// landed. If no exchange is made, it is whole at once.
    ///
    /// What is still asked for after this is the memory of each node that is prepared. If that is refused, and no part has landed,
    /// [`ExchangingMachine::call_off`] leads back to the machine before the turn. When all nodes are prepared, nothing can be refused any
    /// more.
    pub fn begin_turn(self) -> Begun<A>
        ensures { HasBegun self result }
    {
        if !self.can_turn() {
            return Begun::Whole(self, Ok(false));
        }
        self.begin_enabled()
    }

    /// Begins a turn that is enabled.
    fn begin_enabled(mut self) -> Begun<A>
        requires { is_enabled self the_turn ≡ true }
        ensures { HasBegun self result }
    {
        let before = Snapshot::of(&self);
        let w = row::work(&self.nodes, &self.started);
        let output_before = self.output.len();
        match begin(self.alloc, &mut self.output, &mut self.ledger, &self.nodes) {
            Err(refused) => Begun::Whole(self, Err(refused)),
            Ok(Closing::Over(outcome)) => {
                self.ledger.add_prepared(last_row(w));
                self.outcome = Some(outcome);
                Begun::Whole(self, Ok(true))
            }
            Ok(Closing::Drafted(Plan { traffic, parts })) => {
                let cost = CostRow {
                    w,
                    h: traffic.h,
                    h_all: traffic.h_all,
                    messages: traffic.messages,
                    turned: true,
                };
                let Machine {
                    alloc,
                    settings,
                    input,
                    nodes,
                    started,
                    output,
                    ledger,
                    exchanges,
                    outcome: _,
                } = self;
                let exchanging = ExchangingMachine {
                    alloc,
                    settings,
                    input,
                    started,
                    output,
                    output_before,
                    ledger,
                    exchanges,
                    cost,
                    before,
                };
                Begun::Landing(Landing {
                    exchanging,
                    nodes,
                    parts,
                })
            }
        }
    }
}
