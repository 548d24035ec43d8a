//! Lends the nodes of a machine to a caller, who makes local steps with them and gives them back.

ghost use Rattle.std.specs.Prelude.{◌≡◌};
ghost use Rattle.bsp_exchange.specs.Exchange.{states};
ghost use Rattle.machine_core.specs.Events.{HaveStepped};

use crate::machine::Machine;
use crate::outcome::Outcome;
use crate::settings::Settings;
use cost_ledger::Ledger;
use node_core::Node;
use shared_bytes::SharedBytes;
use std::alloc::Allocator;
use std::marker::Model;
use std::snapshot::Snapshot;

/// A machine whose row is lent: all of it but the nodes.
///
/// Contracts see it as the `MachineState` that was lent. It can be neither copied nor dropped: [`ComputingMachine::take_back`] is the
/// only end that it has, so that no row is lost.
pub struct ComputingMachine<A: Allocator> {
    alloc: A,
    settings: Settings,
    input: SharedBytes<A>,
    lent: Snapshot<Vec<Node<A>, A>>,
    started: Vec<u64, A>,
    output: Vec<u8, A>,
    ledger: Ledger<A>,
    exchanges: u64,
    outcome: Option<Outcome>,
}

impl<A: Allocator> Model for ComputingMachine<A> {
    ghost use Rattle.machine_core.specs.Machine.{MachineState};
    ghost use Rattle.machine_core.specs.Sound.{IsSoundMachine};

    ghost Value = { MachineState };

    ghost use Rattle.machine_core.specs.Inside.{computing_view};

    ghost view = { computing_view };

    ghost invariant = { λ m. IsSoundMachine (computing_view m) };
}

impl<A: Allocator> Machine<A> {
    /// Lends the row: the nodes, each at the place of its rank, and apart from them the rest of the machine, which takes them
    /// back. No memory is taken.
    pub fn lend(self) -> (ComputingMachine<A>, Vec<Node<A>, A>)
        ensures rest { result.0 ≡ self }
        ensures row { states result.1.items ≡ self.nodes }
    {
        let Machine {
            alloc,
            settings,
            input,
            nodes,
            started,
            output,
            ledger,
            exchanges,
            outcome,
        } = self;
        let computing = ComputingMachine {
            alloc,
            settings,
            input,
            lent: Snapshot::of(&nodes),
            started,
            output,
            ledger,
            exchanges,
            outcome,
        };
        (computing, nodes)
    }
}

impl<A: Allocator> ComputingMachine<A> {
    /// The input, which each node reads by itself.
    pub fn input(&self) -> &[u8]
        ensures { result.now ≡ self.now.input }
    {
        self.input.as_slice()
    }

    /// The machine with its row again. The caller's condition is that each node has made some steps of its own meanwhile, or none;
    /// nothing else changes.
    pub fn take_back(self, row: Vec<Node<A>, A>) -> Machine<A>
        requires { HaveStepped self.input self.nodes (states row.items) }
        ensures { result ≡ record self { nodes = states row.items } }
    {
        let ComputingMachine {
            alloc,
            settings,
            input,
            lent: _,
            started,
            output,
            ledger,
            exchanges,
            outcome,
        } = self;
        Machine {
            alloc,
            settings,
            input,
            nodes: row,
            started,
            output,
            ledger,
            exchanges,
            outcome,
        }
    }
}
