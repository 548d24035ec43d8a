//! The answer to one line.

ghost use Rattle.std.specs.Prelude.{◌≡◌, ◌≢◌, ◌≤◌, ◌⊎◌, ◌++◌, ℕ, List, [], codes, true, false, not, is_some};
ghost use Rattle.std.specs.Prelude.{length, nat_lt, IfErr, IfOk, MatchResult, OnOk, string_bytes};
ghost use Rattle.std.specs.Io.KnownBytes.{Appends};
ghost use Rattle.std.specs.List.{flat_map};
ghost use Rattle.bsp_debug.specs.Debugger.{add_fault, has_rank, remove_fault, command_fault};
ghost use Rattle.bsp_debug.specs.declared.command.Command.TheVariants.{Step as step_command};
ghost use Rattle.bsp_debug.specs.Returns.{next_rank, over};
ghost use Rattle.bsp_debug.specs.Kept.{kept_fault, keeping, back_at, without};
ghost use Rattle.debug_lines.specs.declared.verdict.Verdict.TheVariants.{Done as done_verdict, Kept as kept_verdict};
ghost use Rattle.debug_lines.specs.declared.verdict.Verdict.TheVariants.{Refused as refused_verdict};
ghost use Rattle.debug_lines.specs.Framed.{setup_text};
ghost use Rattle.debug_lines.specs.Help.{help_on, help_text as help_text_of};
ghost use Rattle.debug_lines.specs.Shown.{point_lines as point_lines_of};
ghost use Rattle.debug_lines.specs.Verdicts.{verdict_text};
ghost use Rattle.counted_io.specs.Counted.{HasRisen};
ghost use Rattle.counted_io.specs.Transfers.{AppendsPrefix};
ghost use Rattle.bsp_console.specs.Dialogue.{AnsweredIn, tells_in};
ghost use Rattle.bsp_console.specs.Talk.{Answered, DoesOrRefuses, DoesThere, HasPoint, LacksPoint, Replies};
ghost use Rattle.bsp_console.specs.Talk.{is_quit as is_quit_line, costs_or_refusal, is_refused, kept_line};
ghost use Rattle.bsp_console.specs.Talk.{kept_lines, output_or_refusal, place_line, place_or_refusal};
ghost use Rattle.bsp_console.specs.Talk.{areas_or_refusal, has_address, requests_or_refusal, shown_or_refusal};

use crate::manner::Manner;
use crate::place::{add_place_of, add_places};
use crate::telling::told;
use bsp_debug::{Command, DebugError, Debugger, Point};
use bsp_session::{Job, SessionError};
use counted_io::{Counted, framed_text, write_whole};
use debug_lines::{
    Audience, Form, Line, Topic, Verdict, add_help, add_kept, area_lines, costs_from, help_text,
    point_lines, request_lines, setup_line, shown_len, shown_text,
};
use machine_core::Machine;
use rv_atomics::Extensions;
use std::alloc::{AllocError, Allocator};
use std::io::Write;

/// What a line is answered.
#[derive(Drop)]
struct Answer<A: Allocator> {
    /// Whether the line was refused.
    refused: bool,
    /// The lines of the reply.
    text: Vec<u8, A>,
}

/// Whether a line ends the session.
pub(crate) fn is_quit(line: Line) -> bool
    ensures { result ≡ is_quit_line line }
{
    matches!(line, Line::Quit)
}

/// Answers a line: the reply is written whole, or an error says why not. Refused memory leaves nothing of it written.
pub(crate) fn answer_to<A: Allocator + Copy, W: Write>(
    alloc: A,
    debugger: &mut Debugger<A>,
    line: Line,
    job: &Job,
    manner: Manner,
    out: &mut Counted<W>,
) -> Result<(), SessionError>
    ensures ok { OnOk result ((text : List ℕ)
        × AnsweredIn manner job.now line debugger.old text debugger.new
        × Appends (W.contents out.old.inner) (W.contents out.new.inner) text) }
    ensures err { IfErr result (λ e. ((e ≡ SessionError.NoMemory) × (out.new ≡ out.old))
        ⊎ ((e ≡ SessionError.WriteFault) × HasRisen out.old.failures out.new.failures
        × (text : List ℕ)
        × AnsweredIn manner job.now line debugger.old text debugger.new
        × AppendsPrefix (W.contents out.old.inner) (W.contents out.new.inner) text)) }
    ensures never_falls { out.old.failures ≤ out.new.failures }
{
    let text = text_for(alloc, debugger, line, job, manner)?;
    write_whole(out, text.as_slice())?;
    Ok(())
}

/// Does what a line asks for, and gives what a session writes for it. It is an error only if memory is refused.
fn text_for<A: Allocator + Copy>(
    alloc: A,
    debugger: &mut Debugger<A>,
    line: Line,
    job: &Job,
    manner: Manner,
) -> Result<Vec<u8, A>, AllocError>
    ensures { IfOk result (λ text. AnsweredIn manner job.now line debugger.old text.items debugger.new) }
{
    let answer = answer_line(alloc, debugger, line, job, manner)?;
    match manner {
        Manner::Script => Ok(answer.text),
        Manner::Dialogue => Ok(answer.text),
        Manner::Framed => framed_text(alloc, answer.refused, answer.text.as_slice()),
    }
}

/// Does what a line asks for, and gives what answers it. It is an error only if memory is refused.
fn answer_line<A: Allocator + Copy>(
    alloc: A,
    debugger: &mut Debugger<A>,
    line: Line,
    job: &Job,
    manner: Manner,
) -> Result<Answer<A>, AllocError>
    ensures told { IfOk result (λ a. Answered (tells_in manner job.now) job.now line debugger.old a.text.items debugger.new) }
    ensures refused { IfOk result (λ a. a.refused ≡ is_refused line debugger.old) }
{
    match line {
        Line::Break(point) => set_point(alloc, debugger, point),
        Line::Clear(point) => clear_point(alloc, debugger, point),
        Line::Command(command) => answer_command(alloc, debugger, command, job, manner),
        Line::Output => output_line(alloc, debugger.machine().output()),
        Line::Keep => keep_state(alloc, debugger),
        Line::Back(number) => go_back(alloc, debugger, number),
        Line::Forget(number) => forget_state(alloc, debugger, number),
        Line::Kept => kept_states(alloc, debugger.kept()),
        Line::Points => points_set(alloc, debugger),
        Line::Shown {
            form,
            rank,
            addr,
            count,
        } => memory_shown(alloc, debugger.machine(), form, rank, addr, count),
        Line::Areas(rank) => areas_of(alloc, debugger.machine(), rank),
        Line::Requests(rank) => requests_of(alloc, debugger.machine(), rank),
        Line::StepNext => step_next(alloc, debugger, job, manner),
        Line::Over(rank) => step_over(alloc, debugger, rank, job, manner),
        Line::Nodes => nodes_line(alloc, debugger.machine(), job),
        Line::Place(rank) => place_of(alloc, debugger.machine(), rank),
        Line::Places => places(alloc, debugger.machine()),
        Line::OutputFrom(from) => output_from(alloc, debugger.machine(), from),
        Line::CostsFrom(from) => rows_from(alloc, debugger.machine(), from, job),
        Line::Help(audience) => all_help(alloc, audience),
        Line::HelpOn(audience, topic) => help_on(alloc, audience, topic),
        Line::Unknown => refusal(alloc, Verdict::BadCommand),
        Line::Misused(topic) => refusal(alloc, Verdict::Misused(topic)),
        Line::NoLine => refusal(alloc, Verdict::NoLine),
        Line::Empty | Line::Quit => Ok(done(Vec::new(alloc))),
    }
}

/// An answer to a line that was not refused.
fn done<A: Allocator>(text: Vec<u8, A>) -> Answer<A>
    ensures told { result.text ≡ text }
    ensures refused { result.refused ≡ false }
{
    Answer {
        refused: false,
        text,
    }
}

/// Sets a point.
fn set_point<A: Allocator + Copy>(
    alloc: A,
    debugger: &mut Debugger<A>,
    point: Point,
) -> Result<Answer<A>, AllocError>
    ensures told { IfOk result (λ a. DoesOrRefuses (add_fault debugger.old.points debugger.old.machine point)
        (HasPoint point debugger.old debugger.new × (a.text.items ≡ verdict_text done_verdict))
        debugger.old debugger.new a.text.items) }
    ensures refused { IfOk result (λ a. a.refused
        ≡ is_some (add_fault debugger.old.points debugger.old.machine point)) }
{
    let outcome = debugger.add(point);
    verdict_of(alloc, outcome)
}

/// Takes a point away.
fn clear_point<A: Allocator + Copy>(
    alloc: A,
    debugger: &mut Debugger<A>,
    point: Point,
) -> Result<Answer<A>, AllocError>
    ensures told { IfOk result (λ a. DoesOrRefuses (remove_fault debugger.old.points point)
        (LacksPoint point debugger.old debugger.new × (a.text.items ≡ verdict_text done_verdict))
        debugger.old debugger.new a.text.items) }
    ensures refused { IfOk result (λ a. a.refused ≡ is_some (remove_fault debugger.old.points point)) }
{
    let outcome = debugger.remove(point);
    verdict_of(alloc, outcome)
}

/// Keeps the state of the machine, and tells its number.
fn keep_state<A: Allocator + Copy>(
    alloc: A,
    debugger: &mut Debugger<A>,
) -> Result<Answer<A>, AllocError>
    ensures { IfOk result (λ a. (debugger.new ≡ keeping debugger.old)
        × (a.text.items ≡ verdict_text (kept_verdict (length debugger.old.kept)))
        × (a.refused ≡ false)) }
{
    let number = debugger.keep()?;
    Ok(done(verdict_line(alloc, Verdict::Kept(number))?))
}

/// Brings the machine back to a state that is kept.
fn go_back<A: Allocator + Copy>(
    alloc: A,
    debugger: &mut Debugger<A>,
    number: u64,
) -> Result<Answer<A>, AllocError>
    ensures told { IfOk result (λ a. DoesOrRefuses (kept_fault debugger.old.kept number)
        ((debugger.new ≡ back_at number debugger.old) × (a.text.items ≡ verdict_text done_verdict))
        debugger.old debugger.new a.text.items) }
    ensures refused { IfOk result (λ a. a.refused ≡ is_some (kept_fault debugger.old.kept number)) }
{
    let outcome = debugger.back(number);
    verdict_of(alloc, outcome)
}

/// Forgets a state that is kept.
fn forget_state<A: Allocator + Copy>(
    alloc: A,
    debugger: &mut Debugger<A>,
    number: u64,
) -> Result<Answer<A>, AllocError>
    ensures told { IfOk result (λ a. DoesOrRefuses (kept_fault debugger.old.kept number)
        ((debugger.new ≡ without number debugger.old) × (a.text.items ≡ verdict_text done_verdict))
        debugger.old debugger.new a.text.items) }
    ensures refused { IfOk result (λ a. a.refused ≡ is_some (kept_fault debugger.old.kept number)) }
{
    let outcome = debugger.forget(number);
    verdict_of(alloc, outcome)
}

/// The lines of states, each at the place of its number, of those that are kept.
fn kept_states<A: Allocator + Copy>(
    alloc: A,
    states: &[Option<Machine<A>>],
) -> Result<Answer<A>, AllocError>
    ensures { IfOk result (λ a. (a.text.items ≡ kept_lines states.now) × (a.refused ≡ false)) }
{
    let mut text = String::new(alloc);
    for (number, state) in states.iter().enumerate() {
        add_state(alloc, &mut text, number as u64, state)?;
    }
    Ok(done(text.into_bytes()))
}

/// Adds to a text the line of the state of a number, if it is kept.
fn add_state<A: Allocator + Copy>(
    alloc: A,
    text: &mut String<A>,
    number: u64,
    state: &Option<Machine<A>>,
) -> Result<(), AllocError>
    ensures { IfOk result (λ _. string_bytes text.new
        ≡ string_bytes text.old ++ kept_line (number, state.now)) }
{
    match state {
        Some(machine) => add_kept(alloc, text, number, machine.superstep(), machine.nodes()),
        None => Ok(()),
    }
}

/// `ok`, or why not. Refused memory is an error.
fn verdict_of<A: Allocator>(
    alloc: A,
    outcome: Result<(), DebugError>,
) -> Result<Answer<A>, AllocError>
    ensures { IfOk result (λ a. MatchResult outcome
        (λ _. (a.text.items ≡ verdict_text done_verdict) × (a.refused ≡ false))
        (λ e. (e ≢ DebugError.NoMemory) × (a.text.items ≡ verdict_text (refused_verdict e)) × (a.refused ≡ true))) }
{
    match outcome {
        Ok(()) => Ok(done(verdict_line(alloc, Verdict::Done)?)),
        Err(DebugError::NoMemory) => Err(AllocError),
        Err(error) => refusal(alloc, Verdict::Refused(error)),
    }
}

/// An answer that refuses a line.
fn refusal<A: Allocator>(alloc: A, verdict: Verdict) -> Result<Answer<A>, AllocError>
    ensures { IfOk result (λ a. (a.text.items ≡ verdict_text verdict) × (a.refused ≡ true)) }
{
    let text = verdict_line(alloc, verdict)?;
    Ok(Answer {
        refused: true,
        text,
    })
}

/// The line of a verdict.
fn verdict_line<A: Allocator>(alloc: A, verdict: Verdict) -> Result<Vec<u8, A>, AllocError>
    ensures { IfOk result (λ text. text.items ≡ verdict_text verdict) }
{
    let text = format!(in alloc; "{verdict}")?;
    Ok(text.into_bytes())
}

/// An output, and a line feed.
fn output_line<A: Allocator>(alloc: A, output: &[u8]) -> Result<Answer<A>, AllocError>
    ensures { IfOk result (λ a. (a.text.items ≡ output.now ++ codes "\n") × (a.refused ≡ false)) }
{
    let mut text = Vec::new(alloc);
    text.reserve(output.len().saturating_add(1))?;
    text.extend_from_slice(output)?;
    text.extend_from_slice(b"\n")?;
    Ok(done(text))
}

/// What the machine is made of, and how its costs are told.
fn nodes_line<A: Allocator>(
    alloc: A,
    machine: &Machine<A>,
    job: &Job,
) -> Result<Answer<A>, AllocError>
    ensures { IfOk result (λ a. (a.text.items ≡ setup_text machine.now.settings job.now.ledger job.now.g job.now.l)
        × (a.refused ≡ false)) }
{
    let text = setup_line(alloc, machine.settings(), job.ledger, job.g, job.l)?;
    Ok(done(text.into_bytes()))
}

/// The points that are set.
fn points_set<A: Allocator + Copy>(
    alloc: A,
    debugger: &Debugger<A>,
) -> Result<Answer<A>, AllocError>
    ensures { IfOk result (λ a. (a.text.items ≡ point_lines_of debugger.now.points) × (a.refused ≡ false)) }
{
    let points = debugger.points()?;
    let text = point_lines(alloc, points.as_slice())?;
    Ok(done(text.into_bytes()))
}

/// The memory of the node of a rank in a form, if there is such a node, and its memory has the address. What the node can execute has its
/// name.
fn memory_shown<A: Allocator + Copy>(
    alloc: A,
    machine: &Machine<A>,
    form: Form,
    rank: u32,
    addr: u32,
    count: u32,
) -> Result<Answer<A>, AllocError>
    ensures { IfOk result (λ a. (a.text.items ≡ shown_or_refusal machine.now form rank addr count)
        × (a.refused ≡ not (has_address machine.now rank addr))) }
{
    let Some(node) = machine.node(rank) else {
        return refusal(alloc, Verdict::Refused(DebugError::BadRank));
    };
    let memory = node.memory();
    if addr >= memory.size() {
        return refusal(alloc, Verdict::Refused(DebugError::BadRange));
    }
    let len = shown_len(form, count, memory.size() - addr);
    let mut bytes = Vec::new(alloc);
    memory.append_range(addr, len, &mut bytes)?;
    let extensions = Extensions {
        float: node.unit().is_some(),
        atomic: node.reservation().is_some(),
    };
    let text = shown_text(alloc, form, extensions, addr, count, bytes)?;
    Ok(done(text.into_bytes()))
}

/// The areas that the node of a rank has registered, if there is one.
fn areas_of<A: Allocator + Copy>(
    alloc: A,
    machine: &Machine<A>,
    rank: u32,
) -> Result<Answer<A>, AllocError>
    ensures { IfOk result (λ a. (a.text.items ≡ areas_or_refusal machine.now rank)
        × (a.refused ≡ not (has_rank machine.now rank))) }
{
    match machine.node(rank) {
        Some(node) => Ok(done(area_lines(alloc, node.slots())?.into_bytes())),
        None => refusal(alloc, Verdict::Refused(DebugError::BadRank)),
    }
}

/// What the node of a rank has asked for in this superstep, if there is one.
fn requests_of<A: Allocator + Copy>(
    alloc: A,
    machine: &Machine<A>,
    rank: u32,
) -> Result<Answer<A>, AllocError>
    ensures { IfOk result (λ a. (a.text.items ≡ requests_or_refusal machine.now rank)
        × (a.refused ≡ not (has_rank machine.now rank))) }
{
    match machine.node(rank) {
        Some(node) => Ok(done(request_lines(alloc, node.requests())?.into_bytes())),
        None => refusal(alloc, Verdict::Refused(DebugError::BadRank)),
    }
}

/// What is told of all lines.
fn all_help<A: Allocator>(alloc: A, audience: Audience) -> Result<Answer<A>, AllocError>
    ensures { IfOk result (λ a. (a.text.items ≡ help_text_of audience) × (a.refused ≡ false)) }
{
    let text = help_text(alloc, audience)?;
    Ok(done(text.into_bytes()))
}

/// What is told of the lines with one first word.
fn help_on<A: Allocator>(
    alloc: A,
    audience: Audience,
    topic: Topic,
) -> Result<Answer<A>, AllocError>
    ensures { IfOk result (λ a. (a.text.items ≡ help_on audience topic) × (a.refused ≡ false)) }
{
    let mut text = String::new(alloc);
    add_help(&mut text, audience, topic)?;
    Ok(done(text.into_bytes()))
}

/// Where the node of a rank is, if there is one.
fn place_of<A: Allocator>(
    alloc: A,
    machine: &Machine<A>,
    rank: u32,
) -> Result<Answer<A>, AllocError>
    ensures { IfOk result (λ a. (a.text.items ≡ place_or_refusal machine.now rank)
        × (a.refused ≡ not (has_rank machine.now rank))) }
{
    match machine.node(rank) {
        Some(node) => {
            let mut text = String::new(alloc);
            add_place_of(&mut text, machine, node)?;
            Ok(done(text.into_bytes()))
        }
        None => refusal(alloc, Verdict::Refused(DebugError::BadRank)),
    }
}

/// Where each node is.
fn places<A: Allocator>(alloc: A, machine: &Machine<A>) -> Result<Answer<A>, AllocError>
    ensures { IfOk result (λ a. (a.text.items ≡ flat_map (place_line machine.now) machine.now.nodes)
        × (a.refused ≡ false)) }
{
    let mut text = String::new(alloc);
    add_places(&mut text, machine, machine.nodes())?;
    Ok(done(text.into_bytes()))
}

/// What was written from the byte of a number on, if there are so many.
fn output_from<A: Allocator>(
    alloc: A,
    machine: &Machine<A>,
    from: u64,
) -> Result<Answer<A>, AllocError>
    ensures { IfOk result (λ a. (a.text.items ≡ output_or_refusal machine.now from)
        × (a.refused ≡ nat_lt (length machine.now.output) from)) }
{
    let output = machine.output();
    if from > output.len() as u64 {
        refusal(alloc, Verdict::Refused(DebugError::BadRange))
    } else {
        output_line(alloc, &output[from as usize..])
    }
}

/// What the supersteps cost from that of a number on, if there are so many.
fn rows_from<A: Allocator>(
    alloc: A,
    machine: &Machine<A>,
    from: u64,
    job: &Job,
) -> Result<Answer<A>, AllocError>
    ensures { IfOk result (λ a. (a.text.items ≡ costs_or_refusal job.now machine.now from)
        × (a.refused ≡ nat_lt (length machine.now.ledger) from)) }
{
    let ledger = machine.ledger();
    if from > ledger.rows().len() as u64 {
        return refusal(alloc, Verdict::Refused(DebugError::BadRange));
    }
    let text = costs_from(alloc, ledger, from as usize, job.ledger, job.g, job.l)?;
    Ok(done(text.into_bytes()))
}

/// Does what a command says.
fn answer_command<A: Allocator + Copy>(
    alloc: A,
    debugger: &mut Debugger<A>,
    command: Command,
    job: &Job,
    manner: Manner,
) -> Result<Answer<A>, AllocError>
    ensures told { IfOk result (λ a. DoesOrRefuses (command_fault debugger.old.machine command)
        (Replies (tells_in manner job.now) command debugger.old debugger.new a.text.items)
        (record debugger.old { last = [] }) debugger.new a.text.items) }
    ensures refused { IfOk result (λ a. a.refused ≡ is_some (command_fault debugger.old.machine command)) }
{
    match debugger.command(command) {
        Ok(reply) => {
            let text = told(alloc, &reply, debugger.machine(), job, manner)?;
            Ok(done(text.into_bytes()))
        }
        Err(error) => verdict_of(alloc, Err(error)),
    }
}

/// Makes the next step of all, and tells where that rank is then.
fn step_next<A: Allocator + Copy>(
    alloc: A,
    debugger: &mut Debugger<A>,
    job: &Job,
    manner: Manner,
) -> Result<Answer<A>, AllocError>
    ensures told { IfOk result (λ a. DoesThere (tells_in manner job.now) (next_rank debugger.old.machine)
        (step_command (next_rank debugger.old.machine) 1) debugger.old a.text.items debugger.new) }
    ensures refused { IfOk result (λ a. a.refused
        ≡ is_some (command_fault debugger.old.machine (step_command (next_rank debugger.old.machine) 1))) }
{
    let rank = debugger.next_rank();
    let command = Command::Step { rank, count: 1 };
    do_there(alloc, debugger, rank, command, job, manner)
}

/// Steps over the instruction at which the node of a rank stands, and tells where that is then.
fn step_over<A: Allocator + Copy>(
    alloc: A,
    debugger: &mut Debugger<A>,
    rank: u32,
    job: &Job,
    manner: Manner,
) -> Result<Answer<A>, AllocError>
    ensures told { IfOk result (λ a.
        DoesThere (tells_in manner job.now) rank (over debugger.old.machine rank) debugger.old a.text.items debugger.new) }
    ensures refused { IfOk result (λ a. a.refused
        ≡ is_some (command_fault debugger.old.machine (over debugger.old.machine rank))) }
{
    let command = debugger.over(rank);
    do_there(alloc, debugger, rank, command, job, manner)
}

/// Does what a command says, and tells where the node of a rank is then.
fn do_there<A: Allocator + Copy>(
    alloc: A,
    debugger: &mut Debugger<A>,
    rank: u32,
    command: Command,
    job: &Job,
    manner: Manner,
) -> Result<Answer<A>, AllocError>
    ensures told { IfOk result (λ a.
        DoesThere (tells_in manner job.now) rank command debugger.old a.text.items debugger.new) }
    ensures refused { IfOk result (λ a. a.refused ≡ is_some (command_fault debugger.old.machine command)) }
{
    let answer = answer_command(alloc, debugger, command, job, manner)?;
    if answer.refused {
        return Ok(answer);
    }
    let place = place_of(alloc, debugger.machine(), rank)?;
    let mut text = answer.text;
    text.extend_from_slice(place.text.as_slice())?;
    Ok(done(text))
}
