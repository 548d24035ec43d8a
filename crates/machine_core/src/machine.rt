//! The machine itself: its events, its runs, and its readers.

ghost use Rattle.std.specs.Prelude.{◌≡◌, ◌<◌, ℕ, None, IfOk, OnOk, OnErr, IsSome, IsSomeAnd, length, map, slice_get, option_copied};
ghost use Rattle.std.specs.Prelude.{option_map, true};
ghost use Rattle.node_core.specs.Node.{PreparedNode, MayRefuseStep, is_running};
ghost use Rattle.bsp_exchange.specs.Exchange.{states};
ghost use Rattle.machine_core.specs.declared.event.Event.TheVariants.{Step as step_of, Turn as the_turn};
ghost use Rattle.machine_core.specs.Faults.{NamesFault};
ghost use Rattle.machine_core.specs.Machine.{fresh, machine_fault};
ghost use Rattle.machine_core.specs.Turn.{IsRunToEnd, lowest, makes_exchange as makes_exchange_of, with_phases};
ghost use Rattle.machine_core.specs.Events.{AreStepsMade, IsAnswered, is_enabled};
ghost use Rattle.machine_core.specs.Walk.{walked, IsOnPhase};
ghost use Rattle.machine_core.specs.Sound.{IsSoundMachine};

use crate::closing::makes_exchange;
use crate::error::MachineError;
use crate::event::Event;
use crate::outcome::Outcome;
use crate::row;
use crate::settings::Settings;
use crate::start::start_nodes;
use cost_ledger::Ledger;
use node_core::Node;
use node_memory::Image;
use shared_bytes::SharedBytes;
use std::alloc::{AllocError, Allocator};
use std::marker::Model;

mod computing;
mod exchanging;
mod traced;
mod turn;

pub use computing::ComputingMachine;
pub use exchanging::ExchangingMachine;
pub use turn::{Begun, Landing};

/// A machine of several nodes with one input.
///
/// Contracts see it as a `MachineState`: settings and input, the nodes with the ticks at which they began the superstep, the
/// output and the costs of the supersteps that are over, the number of exchanges, and the outcome, if there is one. It is
/// always sound, as `IsSoundMachine` says.
#[derive(Drop)]
pub struct Machine<A: Allocator> {
    alloc: A,
    settings: Settings,
    input: SharedBytes<A>,
    nodes: Vec<Node<A>, A>,
    started: Vec<u64, A>,
    output: Vec<u8, A>,
    ledger: Ledger<A>,
    exchanges: u64,
    outcome: Option<Outcome>,
}

impl<A: Allocator> Model for Machine<A> {
    ghost use Rattle.machine_core.specs.Machine.{MachineState};
    ghost use Rattle.machine_core.specs.Sound.{IsSoundMachine};

    ghost Value = { MachineState };

    ghost use Rattle.machine_core.specs.Inside.{machine_view};

    ghost view = { machine_view };

    ghost invariant = { λ m. IsSoundMachine (machine_view m) };
}

impl<A: Allocator + Copy> Machine<A> {
    /// A machine at the start of its first superstep, with the image in each node's memory. The nodes share it, page by page, until they
    /// write there; the input keeps its memory.
    ///
    /// # Errors
    /// The first that applies of [`MachineError`]'s, in their order.
    pub fn new(
        alloc: A,
        image: &Image<A>,
        input: Vec<u8, A>,
        settings: Settings,
    ) -> Result<Machine<A>, MachineError>
        ensures ok { IfOk result (λ m. m ≡ fresh image.now input.items settings) }
        ensures fault { NamesFault result (machine_fault image.now settings) }
    {
        settings.check()?;
        let nodes = start_nodes(alloc, image, &settings)?;
        let started = vec![in alloc; 0u64; settings.nodes as usize]?;
        let input = SharedBytes::from_vec(input)?;
        Ok(Machine {
            alloc,
            settings,
            input,
            nodes,
            started,
            output: Vec::new(alloc),
            ledger: Ledger::new(alloc),
            exchanges: 0,
            outcome: None,
        })
    }

    /// The same machine. What it does shows in the other one no more than in any other machine.
    ///
    /// The machines share the input and, until one of the two writes to a page, the pages of their nodes' memories. So a copy costs as
    /// [`Node::try_clone`] for each node, and a copy of the output and the ledger: of the memory that was written since the start, or
    /// since the machine was itself a copy, and of no other. The pages that were written stay private, and the next copy of
    /// it would copy them again. Who makes copies of a machine on its way goes on with a copy of the copy, which shares all pages with
    /// it.
    ///
    /// # Errors
    /// If memory is refused.
    pub fn try_clone(&self) -> Result<Machine<A>, AllocError>
        ensures { IfOk result (λ m. m ≡ self.now) }
    {
        Ok(Machine {
            alloc: self.alloc,
            settings: self.settings,
            input: self.input.try_clone()?,
            nodes: row::try_clone(self.alloc, &self.nodes)?,
            started: Vec::from_slice(self.alloc, &self.started)?,
            output: Vec::from_slice(self.alloc, &self.output)?,
            ledger: self.ledger.try_clone(self.alloc)?,
            exchanges: self.exchanges,
            outcome: self.outcome,
        })
    }

    /// Makes an event, if it is enabled, and answers whether it was. One that is not enabled changes nothing: a step of a
    /// rank that is absent or does not run, and a turn while a node runs or after the outcome.
    ///
    /// # Errors
    /// If memory is refused, which can be at an enabled event alone, and at a step only if the node's own step can be refused: at a store,
    /// and at a call that stores, registers, asks or writes. Nothing has changed then, and the event can be made again.
    pub fn apply(&mut self, event: Event) -> Result<bool, AllocError>
        ensures { IsAnswered event self.old self.new result }
    {
        match event {
            Event::Step(rank) => self.step(rank),
            Event::Turn => self.turn(),
        }
    }

    /// Makes a step of the node of a rank, as [`Machine::apply`] does.
    fn step(&mut self, rank: u32) -> Result<bool, AllocError>
        ensures { IsAnswered (step_of rank) self.old self.new result }
    {
        row::step_at(&mut self.nodes, rank as usize, self.input.as_slice())
    }

    /// Whether the turn makes the exchange; else it finds the outcome. Nothing is changed.
    pub fn makes_exchange(&self) -> bool
        ensures { result ≡ makes_exchange_of self.now.nodes }
    {
        makes_exchange(&self.nodes)
    }

    /// Runs each running node in rank order until it stops. After the outcome nothing is left to run.
    ///
    /// # Errors
    /// If memory is refused in a step, after which no node runs of a lower rank than that step's. The steps before it are made, and a call
    /// made again leaves what this one would have left.
    pub fn run_phase_plain(&mut self) -> Result<(), AllocError>
        ensures ok { OnOk result (self.new ≡ with_phases self.old) }
        ensures err { OnErr result (IsOnPhase self.old self.new) }
        ensures going { OnErr result (self.new.outcome ≡ None) }
        ensures refuses { OnErr result (IsSomeAnd (lowest is_running self.new.nodes)
            (λ n. MayRefuseStep self.new.input n)) }
    {
        for rank in 0..self.nodes.len() {
            let limit = self.settings.limit;
            self.run_at(rank, limit)?;
        }
        Ok(())
    }

    /// Makes at most `most` steps of the node of a rank, while it runs. Of a rank that is absent there are none.
    ///
    /// # Errors
    /// If memory is refused in a step. The steps before it are made, fewer than `most`, and the node still runs.
    pub fn run_node(&mut self, rank: u32, most: u64) -> Result<(), AllocError>
        ensures { AreStepsMade rank most self.old self.new result }
    {
        if rank as usize >= self.nodes.len() {
            return Ok(());
        }
        self.run_at(rank as usize, most)
    }

    /// Makes at most `most` steps of the node at a place of the row, while it runs.
    fn run_at(&mut self, rank: usize, most: u64) -> Result<(), AllocError>
        requires { rank < length self.old.nodes }
        ensures steps { AreStepsMade rank most self.old self.new result }
        ensures sound { IsSoundMachine self.old }
    {
        row::run_at(&mut self.nodes, rank, most, self.input.as_slice())
    }

    /// Runs the machine to its outcome, superstep by superstep. After the outcome nothing is left to run.
    ///
    /// # Errors
    /// If memory is refused in a step or a turn. What was made before it stands, and a call made again leaves what this one would have
    /// left.
    pub fn run_plain(&mut self) -> Result<(), AllocError>
        ensures ok { OnOk result (IsRunToEnd self.old self.new) }
        ensures err { OnErr result ((k : ℕ) × (self.new ≡ walked k self.old)) }
        ensures going { OnErr result (self.new.outcome ≡ None) }
    {
        while self.outcome.is_none() {
            self.run_phase_plain()?;
            self.turn()?;
        }
        Ok(())
    }
}

impl<A: Allocator> Machine<A> {
    /// How the machine ended, if it has.
    pub fn outcome(&self) -> Option<Outcome>
        ensures value { result ≡ self.now.outcome }
        ensures sound { IsSoundMachine self.now }
    {
        self.outcome
    }

    /// Whether the node of a rank runs. Of a rank that is absent none does.
    pub fn runs(&self, rank: u32) -> bool
        ensures { result ≡ is_enabled self.now (step_of rank) }
    {
        match self.node(rank) {
            Some(node) => node.state().is_running(),
            None => false,
        }
    }

    /// Whether the turn is enabled: no node runs, and there is no outcome.
    pub fn can_turn(&self) -> bool
        ensures { result ≡ is_enabled self.now the_turn }
    {
        self.outcome.is_none() && !row::some_runs(&self.nodes)
    }

    /// What the nodes wrote in the supersteps that are over, rank by rank in each.
    pub fn output(&self) -> &[u8]
        ensures { result.now ≡ self.now.output }
    {
        self.output.as_slice()
    }

    /// The costs of the supersteps that are over.
    pub fn ledger(&self) -> &Ledger<A>
        ensures { result.now.rows ≡ self.now.ledger }
    {
        &self.ledger
    }

    /// The node of a rank.
    pub fn node(&self, rank: u32) -> Option<&Node<A>>
        ensures { option_map (λ (p : PreparedNode). p.node) (option_copied result)
            ≡ slice_get self.now.nodes rank }
    {
        self.nodes.get(rank as usize)
    }

    /// The nodes, each at the place of its rank.
    pub fn nodes(&self) -> &[Node<A>]
        ensures { states result.now ≡ self.now.nodes }
    {
        self.nodes.as_slice()
    }

    /// The ticks that each node had made when the superstep began.
    pub fn started(&self) -> &[u64]
        ensures { result.now ≡ self.now.started }
    {
        self.started.as_slice()
    }

    /// How many exchanges were made: the number of the superstep, from 0.
    pub fn superstep(&self) -> u64
        ensures { result ≡ self.now.exchanges }
    {
        self.exchanges
    }

    /// The input, which each node reads by itself.
    pub fn input(&self) -> &[u8]
        ensures { result.now ≡ self.now.input }
    {
        self.input.as_slice()
    }

    /// What the machine is made of.
    pub fn settings(&self) -> Settings
        ensures value { result ≡ self.now.settings }
        ensures sound { IsSoundMachine self.now }
    {
        self.settings
    }
}
