//! How the reply to a command is written.

ghost use Rattle.std.specs.Prelude.{◌≡◌, ◌++◌, List, codes, IfOk, string_bytes};
ghost use Rattle.cost_ledger.specs.declared.CostRow.{CostRow as CostRowValue};
ghost use Rattle.machine_core.specs.Outcome.{outcome_text};
ghost use Rattle.bsp_debug.specs.Reply.{answer, costs};
ghost use Rattle.bsp_console.specs.Dialogue.{tells_in};
ghost use Rattle.bsp_console.specs.Talk.{in_person, places_at, plainly};

use crate::manner::Manner;
use crate::place::add_first_places;
use bsp_debug::Reply;
use bsp_session::Job;
use debug_lines::{named_float_registers, named_registers, reply_text};
use machine_core::{Machine, Outcome};
use std::alloc::{AllocError, Allocator};

/// The reply of a command that left the machine so. It is an error only if memory is refused.
pub(crate) fn told<A: Allocator + Copy>(
    alloc: A,
    reply: &Reply<A>,
    machine: &Machine<A>,
    job: &Job,
    manner: Manner,
) -> Result<String<A>, AllocError>
    requires { (rows : List CostRowValue) → answer reply.now ≡ costs rows → rows ≡ machine.now.ledger }
    ensures { IfOk result (λ text. string_bytes text ≡ tells_in manner job.now machine.now (answer reply.now)) }
{
    match manner {
        Manner::Dialogue => in_person(alloc, reply, machine, job),
        Manner::Script | Manner::Framed => plainly(alloc, reply, machine, job),
    }
}

/// The same to a script or a program.
fn plainly<A: Allocator + Copy>(
    alloc: A,
    reply: &Reply<A>,
    machine: &Machine<A>,
    job: &Job,
) -> Result<String<A>, AllocError>
    requires { (rows : List CostRowValue) → answer reply.now ≡ costs rows → rows ≡ machine.now.ledger }
    ensures { IfOk result (λ text. string_bytes text ≡ plainly job.now machine.now (answer reply.now)) }
{
    reply_text(alloc, reply, machine.ledger(), job.ledger, job.g, job.l)
}

/// The same to a person: registers have their names too, and after the outcome stands where the nodes are.
fn in_person<A: Allocator + Copy>(
    alloc: A,
    reply: &Reply<A>,
    machine: &Machine<A>,
    job: &Job,
) -> Result<String<A>, AllocError>
    requires { (rows : List CostRowValue) → answer reply.now ≡ costs rows → rows ≡ machine.now.ledger }
    ensures { IfOk result (λ text. string_bytes text ≡ in_person job.now machine.now (answer reply.now)) }
{
    match reply {
        Reply::Regs {
            rank,
            pc,
            ticks,
            state,
            x,
        } => named_registers(alloc, *rank, *pc, *ticks, *state, x),
        Reply::Fregs { rank, fcsr, f } => named_float_registers(alloc, *rank, *fcsr, f),
        Reply::Finished(outcome) => outcome_told(alloc, *outcome, machine),
        Reply::Moved(_)
        | Reply::Turned(_)
        | Reply::Stopped(_)
        | Reply::Bytes(_)
        | Reply::Queue(_)
        | Reply::Costs(_) => plainly(alloc, reply, machine, job),
    }
}

/// The outcome of a machine, and where its nodes are, if not all of them have ended.
fn outcome_told<A: Allocator>(
    alloc: A,
    outcome: Outcome,
    machine: &Machine<A>,
) -> Result<String<A>, AllocError>
    ensures { IfOk result (λ text. string_bytes text
        ≡ (outcome_text outcome ++ codes "\n") ++ places_at outcome machine.now) }
{
    let mut text = format!(in alloc; "{outcome}\n")?;
    add_places_at(&mut text, outcome, machine)?;
    Ok(text)
}

/// Adds to a text where the nodes are at an outcome, if not all of them have ended.
fn add_places_at<A: Allocator>(
    text: &mut String<A>,
    outcome: Outcome,
    machine: &Machine<A>,
) -> Result<(), AllocError>
    ensures { IfOk result (λ _. string_bytes text.new ≡ string_bytes text.old ++ places_at outcome machine.now) }
{
    match outcome {
        Outcome::Ended => Ok(()),
        Outcome::NodeStopped { .. } | Outcome::Desync { .. } | Outcome::Refused(_) => {
            add_first_places(text, machine)
        }
    }
}
