//! How a superstep ends for its nodes, after all of them have stopped.

ghost use Rattle.std.specs.Prelude.{false, ◌≡◌, ◌++◌, None, Some, find, option_copied, IfOk, OnOk, IfSome, IsNone, IsTrue, OnErr};
ghost use Rattle.node_core.specs.Node.{PreparedNode};
ghost use Rattle.bsp_exchange.specs.Exchange.{AreAtSync, states};
ghost use Rattle.machine_core.specs.Closing.{Closes};
ghost use Rattle.machine_core.specs.Turn.{was_stopped as was_stopped_of, has_ended as has_ended_of, is_waiting as is_waiting_of, lowest};
ghost use Rattle.machine_core.specs.Turn.{makes_exchange as makes_exchange_of, outcome_of, written};

use crate::outcome::Outcome;
use crate::row;
use bsp_exchange::{ExchangeError, Plan, draft, first_fault};
use cost_ledger::{CostRow, Ledger};
use node_core::{Node, State};
use std::alloc::{AllocError, Allocator};

/// How a superstep ends.
#[derive(Drop)]
pub(crate) enum Closing<A: Allocator> {
    /// With an outcome, and no exchange.
    Over(Outcome),
    /// With the exchange, for the parts of which the nodes have to be prepared yet.
    Drafted(Plan<A>),
}

/// Begins the end of a superstep of nodes none of which runs: makes room for a row of costs, appends what the nodes wrote to `output`, and
/// finds how the superstep ends. All memory of a turn is asked for here, but for that of the nodes that have to be prepared for their
/// parts.
///
/// # Errors
/// If memory is refused. Rows and output are then as they were.
pub(crate) fn begin<A: Allocator + Copy>(
    alloc: A,
    output: &mut Vec<u8, A>,
    ledger: &mut Ledger<A>,
    nodes: &[Node<A>],
) -> Result<Closing<A>, AllocError>
    requires { lowest was_stopped_of (states nodes.now) ≡ None
        → lowest has_ended_of (states nodes.now) ≡ None → AreAtSync (states nodes.now) }
    ensures closes { IfOk result (Closes (states nodes.now)) }
    ensures written { OnOk result (output.new.items ≡ output.old.items ++ written (states nodes.now)) }
    ensures kept { OnErr result (output.new.items ≡ output.old.items) }
    ensures rows { ledger.new.rows ≡ ledger.old.rows }
    ensures ready { OnOk result (IsTrue ledger.new.ready) }
{
    ledger.prepare()?;
    let before = output.len();
    row::append_output(nodes, output)?;
    match close(alloc, nodes) {
        Ok(closing) => Ok(closing),
        Err(refused) => {
            output.truncate(before);
            Err(refused)
        }
    }
}

/// Finds the outcome of nodes none of which runs, or drafts their exchange.
///
/// # Errors
/// If memory is refused.
fn close<A: Allocator + Copy>(alloc: A, nodes: &[Node<A>]) -> Result<Closing<A>, AllocError>
    requires { lowest was_stopped_of (states nodes.now) ≡ None
        → lowest has_ended_of (states nodes.now) ≡ None → AreAtSync (states nodes.now) }
    ensures ok { IfOk result (Closes (states nodes.now)) }
{
    if let Some(outcome) = outcome_before_exchange(nodes) {
        return Ok(Closing::Over(outcome));
    }
    match draft(alloc, nodes) {
        Ok(plan) => Ok(Closing::Drafted(plan)),
        Err(ExchangeError::Fault(fault)) => Ok(Closing::Over(Outcome::Refused(fault))),
        Err(ExchangeError::NoMemory) => Err(AllocError),
    }
}

/// Whether nodes none of which runs make the exchange; else they have an outcome.
pub(crate) fn makes_exchange<A: Allocator + Copy>(nodes: &[Node<A>]) -> bool
    ensures { result ≡ makes_exchange_of (states nodes.now) }
{
    if outcome_before_exchange(nodes).is_some() {
        return false;
    }
    first_fault(nodes).is_none()
}

/// The row of costs of a superstep without an exchange, in which requests count in no cost.
pub(crate) fn last_row(w: u64) -> CostRow
    ensures { result ≡ record { w = w; h = 0; h_all = 0; messages = 0; turned = false } }
{
    CostRow {
        w,
        h: 0,
        h_all: 0,
        messages: 0,
        turned: false,
    }
}

/// The outcome of nodes some of which were stopped or ended.
fn outcome_before_exchange<A: Allocator>(nodes: &[Node<A>]) -> Option<Outcome>
    ensures some { IfSome result (λ outcome. outcome_of (states nodes.now) ≡ Some outcome) }
    ensures stopped { IsNone result → lowest was_stopped_of (states nodes.now) ≡ None }
    ensures ended { IsNone result → lowest has_ended_of (states nodes.now) ≡ None }
{
    if let Some(stopped) = lowest_stopped(nodes) {
        return Some(Outcome::NodeStopped {
            rank: stopped.rank(),
            state: stopped.state(),
        });
    }
    let ended = lowest_ended(nodes)?;
    match lowest_waiting(nodes) {
        Some(waiting) => Some(Outcome::Desync {
            ended: ended.rank(),
            synced: waiting.rank(),
        }),
        None => Some(Outcome::Ended),
    }
}

/// The node of the lowest rank that was stopped.
fn lowest_stopped<A: Allocator>(nodes: &[Node<A>]) -> Option<&Node<A>>
    ensures { option_copied result ≡ find (λ (p : PreparedNode). was_stopped_of p.node.state) nodes.now }
{
    nodes.iter().find(|node| was_stopped(node.state()))
}

/// The node of the lowest rank that ended.
fn lowest_ended<A: Allocator>(nodes: &[Node<A>]) -> Option<&Node<A>>
    ensures { option_copied result ≡ find (λ (p : PreparedNode). has_ended_of p.node.state) nodes.now }
{
    nodes.iter().find(|node| has_ended(node.state()))
}

/// The node of the lowest rank that waits.
fn lowest_waiting<A: Allocator>(nodes: &[Node<A>]) -> Option<&Node<A>>
    ensures { option_copied result ≡ find (λ (p : PreparedNode). is_waiting_of p.node.state) nodes.now }
{
    nodes.iter().find(|node| is_waiting(node.state()))
}

/// Whether a node in this state was stopped: by a fault, by its own abort, or by the limit of ticks.
fn was_stopped(state: State) -> bool
    ensures { result ≡ was_stopped_of state }
{
    matches!(state, State::Faulted(_) | State::Aborted | State::Exhausted)
}

/// Whether a node in this state called `end`.
fn has_ended(state: State) -> bool
    ensures { result ≡ has_ended_of state }
{
    matches!(state, State::Ended)
}

/// Whether a node in this state waits for the end of the superstep.
fn is_waiting(state: State) -> bool
    ensures { result ≡ is_waiting_of state }
{
    matches!(state, State::Synced)
}
