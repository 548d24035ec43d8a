//! The texts of replies.

ghost use Rattle.std.specs.Prelude.{◌≡◌, ◌<◌, ◌++◌, List, length, codes, IfOk, string_bytes};
ghost use Rattle.std.specs.Fmt.{decimal};
ghost use Rattle.bsp_requests.specs.Inbox.{payload_bytes};
ghost use Rattle.cost_ledger.specs.declared.CostRow.{CostRow as CostRowValue};
ghost use Rattle.bsp_debug.specs.Reply.{answer, costs};
ghost use Rattle.debug_lines.specs.Replies.{entry_end, message_line, node_line, register_lines, byte_lines as byte_lines_of};
ghost use Rattle.debug_lines.specs.Replies.{queue_lines as queue_lines_of, reply_text as reply_text_of};

use crate::floats::float_registers;
use crate::octets::Octets;
use bsp_debug::{Point, Reply};
use bsp_requests::{Message, payload_bytes};
use cost_ledger::{Ledger, LedgerText};
use node_core::State;
use rv_listing::{EightDigits, TwoDigits};
use std::alloc::{AllocError, Allocator};
use std::fmt;

/// The lines of a reply, each with the line feed that ends it, and costs in a version of the ledger at `g` a byte and `l` a superstep. It
/// is an error only if memory is refused.
///
/// A reply of costs has the rows of `ledger`: those of the machine that gave it. So their total fits, whatever the prices.
pub fn reply_text<A: Allocator, L: Allocator, B: Allocator>(
    alloc: B,
    reply: &Reply<A>,
    ledger: &Ledger<L>,
    version: LedgerText,
    g: u32,
    l: u32,
) -> Result<String<B>, AllocError>
    requires { (rows : List CostRowValue) → answer reply.now ≡ costs rows → rows ≡ ledger.now.rows }
    ensures { IfOk result (λ text. string_bytes text ≡ reply_text_of version g l (answer reply.now)) }
{
    match reply {
        Reply::Moved(steps) => format!(in alloc; "moved {steps}\n"),
        Reply::Turned(true) => format!(in alloc; "turned\n"),
        Reply::Turned(false) => format!(in alloc; "not turned\n"),
        Reply::Stopped(point) => format!(in alloc; "stopped at {}\n", PointText(*point)),
        Reply::Finished(outcome) => format!(in alloc; "{outcome}\n"),
        Reply::Regs {
            rank,
            pc,
            ticks,
            state,
            x,
        } => registers(alloc, *rank, *pc, *ticks, *state, x),
        Reply::Fregs { rank, fcsr, f } => float_registers(alloc, *rank, *fcsr, f),
        Reply::Bytes(bytes) => byte_lines(alloc, bytes.as_slice()),
        Reply::Queue(messages) => queue_lines(alloc, messages.as_slice()),
        Reply::Costs(_) => ledger.lines(alloc, version, g, l),
    }
}

/// Where a node or a machine is, without a line feed.
#[derive(Clone, Copy)]
pub(crate) struct PointText(pub Point);

impl fmt::Display for PointText {
    ghost use Rattle.std.specs.Prelude.{Some};
    ghost use Rattle.debug_lines.specs.Replies.{point_text};

    ghost output = { λ text. Some (point_text text.0) };

    fn fmt<W: fmt::Write>(&self, f: &mut fmt::Formatter<W>) -> fmt::Result {
        match self.0 {
            Point::Address { rank, addr } => write!(f, "rank {rank} pc {}", EightDigits(addr)),
            Point::Superstep(k) => write!(f, "superstep {k}"),
        }
    }
}

/// A node, and its registers.
fn registers<B: Allocator>(
    alloc: B,
    rank: u32,
    pc: u32,
    ticks: u64,
    state: State,
    x: &[u32],
) -> Result<String<B>, AllocError>
    ensures { IfOk result (λ text. string_bytes text ≡ node_line rank pc ticks state ++ register_lines x.now) }
{
    let mut text = node_line(alloc, rank, pc, ticks, state)?;
    add_registers(&mut text, x)?;
    Ok(text)
}

/// The first line of a node.
pub(crate) fn node_line<B: Allocator>(
    alloc: B,
    rank: u32,
    pc: u32,
    ticks: u64,
    state: State,
) -> Result<String<B>, AllocError>
    ensures { IfOk result (λ text. string_bytes text ≡ node_line rank pc ticks state) }
{
    let place = PointText(Point::Address { rank, addr: pc });
    format!(in alloc; "{place} ticks {ticks} state {state}\n")
}

/// Adds the lines of registers to a text, four in a line.
fn add_registers<B: Allocator>(text: &mut String<B>, x: &[u32]) -> Result<(), AllocError>
    ensures { IfOk result (λ _. string_bytes text.new ≡ string_bytes text.old ++ register_lines x.now) }
{
    for (at, value) in x.iter().enumerate() {
        let end = entry_end(4, x.len(), at);
        write!(text, "x{at}={}{end}", EightDigits(*value))?;
    }
    Ok(())
}

/// Bytes, sixteen in a line.
fn byte_lines<B: Allocator>(alloc: B, bytes: &[u8]) -> Result<String<B>, AllocError>
    ensures { IfOk result (λ text. string_bytes text ≡ byte_lines_of bytes.now) }
{
    let mut text = String::new(alloc);
    for (at, byte) in bytes.iter().enumerate() {
        let end = entry_end(16, bytes.len(), at);
        write!(text, "{}{end}", TwoDigits(*byte))?;
    }
    Ok(text)
}

/// What follows the entry of a place, of so many, `width` of them in a line.
pub(crate) fn entry_end(width: usize, count: usize, at: usize) -> &'static str
    requires wide { 0 < width }
    requires within { at < count }
    ensures { result.now ≡ entry_end width count at }
{
    if (at + 1) % width == 0 || at + 1 == count {
        "\n"
    } else {
        " "
    }
}

/// A line of what messages there are, and then one for each.
fn queue_lines<A: Allocator, B: Allocator>(
    alloc: B,
    messages: &[Message<A>],
) -> Result<String<B>, AllocError>
    ensures { IfOk result (λ text. string_bytes text ≡ queue_lines_of messages.now) }
{
    let mut text = count_line(alloc, messages)?;
    for message in messages {
        add_message(&mut text, message)?;
    }
    Ok(text)
}

/// The line of how many messages there are, and of the bytes of their payloads.
fn count_line<A: Allocator, B: Allocator>(
    alloc: B,
    messages: &[Message<A>],
) -> Result<String<B>, AllocError>
    ensures { IfOk result (λ text. string_bytes text ≡ codes "count " ++ decimal (length messages.now)
        ++ codes " bytes " ++ decimal (payload_bytes messages.now) ++ codes "\n") }
{
    let bytes = payload_bytes(messages);
    format!(in alloc; "count {} bytes {bytes}\n", messages.len())
}

/// Adds the line of a message to a text.
fn add_message<A: Allocator, B: Allocator>(
    text: &mut String<B>,
    message: &Message<A>,
) -> Result<(), AllocError>
    ensures { IfOk result (λ _. string_bytes text.new ≡ string_bytes text.old ++ message_line message.now) }
{
    let tag = Octets(message.tag());
    let payload = Octets(message.payload());
    writeln!(text, "from {} tag {tag} payload {payload}", message.sender)
}
