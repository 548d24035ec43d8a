//! The second half of a turn: the nodes come back, and the next superstep begins or the turn is called off.

ghost use Rattle.std.specs.Prelude.{◌≡◌, None};
ghost use Rattle.bsp_exchange.specs.Exchange.{states};
ghost use Rattle.machine_core.specs.declared.event.Event.TheVariants.{Turn as the_turn};
ghost use Rattle.machine_core.specs.Events.{event as event_of};
ghost use Rattle.machine_core.specs.Landing.{row_landed};

use crate::clock::{closed_with, set_clocks};
use crate::machine::Machine;
use crate::row;
use crate::settings::Settings;
use cost_ledger::{CostRow, Ledger};
use node_core::Node;
use shared_bytes::SharedBytes;
use std::alloc::Allocator;
use std::marker::Model;
use std::snapshot::Snapshot;

/// A machine whose turn has begun and makes the exchange: all of it but the nodes, which have to be prepared for their parts, and in
/// which these have to land.
///
/// Contracts see it as the `MachineState` before the turn. It can be neither copied nor dropped: it ends by [`ExchangingMachine::finish`],
/// or by [`ExchangingMachine::call_off`] before a part has landed, so that no row is lost, and no turn is left half made.
pub struct ExchangingMachine<A: Allocator> {
    pub(super) alloc: A,
    pub(super) settings: Settings,
    pub(super) input: SharedBytes<A>,
    pub(super) started: Vec<u64, A>,
    /// That of this superstep stands in it.
    pub(super) output: Vec<u8, A>,
    /// How long the output was before the turn.
    pub(super) output_before: usize,
    /// With room for the superstep's row.
    pub(super) ledger: Ledger<A>,
    pub(super) exchanges: u64,
    pub(super) cost: CostRow,
    pub(super) before: Snapshot<Machine<A>>,
}

impl<A: Allocator> Model for ExchangingMachine<A> {
    ghost use Rattle.machine_core.specs.Machine.{MachineState};

    ghost Value = { MachineState };

    ghost use Rattle.machine_core.specs.ExchangingMachine.{exchanging_view, IsExchanging};

    ghost view = { exchanging_view };

    ghost invariant = { IsExchanging };
}

impl<A: Allocator> ExchangingMachine<A> {
    /// The machine after its turn. The caller's condition is that each part has landed in its node; by whom, and in which order of the
    /// nodes, does not matter. No memory is taken.
    pub fn finish(self, mut row: Vec<Node<A>, A>) -> Machine<A>
        requires { states row.items ≡ row_landed self.nodes }
        ensures turned { result ≡ event_of self the_turn }
        ensures going { result.outcome ≡ None }
    {
        let ExchangingMachine {
            alloc,
            settings,
            input,
            mut started,
            output,
            output_before: _,
            mut ledger,
            exchanges,
            cost,
            before: _,
        } = self;
        let closed = closed_with(settings.clock, &ledger, &cost, &row);
        ledger.add_prepared(cost);
        row::note_ticks(&row, &mut started);
        set_clocks(&mut row, closed);
        Machine {
            alloc,
            settings,
            input,
            nodes: row,
            started,
            output,
            ledger,
            exchanges: exchanges + 1,
            outcome: None,
        }
    }

    /// The machine as it was before its turn, which is called off, since memory was refused while the nodes were prepared for their
    /// parts. None of these has landed. What became private stays so, and the turn can be made again.
    pub fn call_off(self, row: Vec<Node<A>, A>) -> Machine<A>
        requires { states row.items ≡ self.nodes }
        ensures { result ≡ self }
    {
        let ExchangingMachine {
            alloc,
            settings,
            input,
            started,
            mut output,
            output_before,
            ledger,
            exchanges,
            cost: _,
            before: _,
        } = self;
        output.truncate(output_before);
        Machine {
            alloc,
            settings,
            input,
            nodes: row,
            started,
            output,
            ledger,
            exchanges,
            outcome: None,
        }
    }
}
