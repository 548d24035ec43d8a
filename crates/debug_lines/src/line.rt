//! The parser of a line: what it asks for.

ghost use Rattle.std.specs.Prelude.{◌≡◌};
ghost use Rattle.debug_lines.specs.Lines.{line_of, line_of_words, line_of_one, command_of_one, line_of_two};
ghost use Rattle.debug_lines.specs.Lines.{line_of_three, line_of_four, point_of, step_of, bytes_of};
ghost use Rattle.debug_lines.specs.Lines.{asks_help, dialogue_line_of, dialogue_of_words, dialogue_of_one};
ghost use Rattle.debug_lines.specs.Lines.{dialogue_of_two, dialogue_of_four, is_one, mistake_of};
ghost use Rattle.debug_lines.specs.Lines.{form_named, help_line_of, rank_line_of, shown_of, state_line_of};
ghost use Rattle.debug_lines.specs.Lines.{framed_line_of, framed_of_words, framed_of_one, framed_of_two, framed_of_three};
ghost use Rattle.debug_lines.specs.Lines.{from_line_of, go_of};
ghost use Rattle.debug_lines.specs.Words.{words};

use crate::form::Form;
use crate::help::Audience;
use crate::topic::{Topic, topic_named};
use crate::word::split_word;
use bsp_debug::{Command, Point};
use numerals::{u32_of, u64_of};

/// What a line asks for.
#[derive(Clone, Copy)]
pub enum Line {
    /// To set a point: `break RANK ADDR` or `break superstep K`.
    Break(Point),
    /// To take a point away: `clear RANK ADDR` or `clear superstep K`.
    Clear(Point),
    /// A command of the debugger: `step RANK COUNT`, `phase`, `turn`, `go`, `regs RANK`, `fregs RANK`, `bytes RANK ADDR LEN`,
    /// `queue RANK` or `costs`; and `go RANK COUNT`, which only framed sessions have.
    Command(Command),
    /// What the nodes wrote: `output`.
    Output,
    /// To keep the state in which the machine is: `keep`. Scripts do not have it.
    Keep,
    /// To go back to the state that is kept under a number: `back N`. Scripts do not have it.
    Back(u64),
    /// To forget the state that is kept under a number: `forget N`. Scripts do not have it.
    Forget(u64),
    /// The states that are kept: `kept`. Scripts do not have it.
    Kept,
    /// Where the node of a rank is: `where RANK`. Scripts do not have it.
    Place(u32),
    /// Where each node is: `where`. Scripts do not have it.
    Places,
    /// The points that are set: `points`. Scripts do not have it.
    Points,
    /// The memory of a node, from the address `addr` on, as so many words, characters or codes: `words RANK ADDR N`,
    /// `text RANK ADDR N`, `list RANK ADDR N`. Scripts do not have it.
    Shown {
        form: Form,
        rank: u32,
        addr: u32,
        count: u32,
    },
    /// The areas that the node of a rank has registered: `areas RANK`. Scripts do not have it.
    Areas(u32),
    /// What the node of a rank has asked for in this superstep: `requests RANK`. Scripts do not have it.
    Requests(u32),
    /// To make the next instruction of all: `step`. Scripts do not have it.
    StepNext,
    /// To step over the instruction of the node of a rank, with all of a function that it calls: `over RANK`. Scripts do not have it.
    Over(u32),
    /// How many nodes there are, and what else the machine and its costs are set to: `nodes`. Only framed sessions have it.
    Nodes,
    /// What the nodes wrote, from the byte of a number on: `output FROM`. Only framed sessions have it.
    OutputFrom(u64),
    /// What the supersteps that are over cost, from that of a number on: `costs FROM`. Only framed sessions have it.
    CostsFrom(u64),
    /// All lines, and what they do: `help`. Scripts do not have it, and a framed session is told it as a program.
    Help(Audience),
    /// Those with one first word: `help LINE`. The same holds for it.
    HelpOn(Audience, Topic),
    /// To end: `quit`.
    Quit,
    /// Nothing: spaces at most.
    Empty,
    /// Nothing that there is: its words are those of none of these, or a number is too great for its place.
    Unknown,
    /// The same in a dialogue, if the first word is that of these lines.
    Misused(Topic),
    /// The same in a dialogue, if the first word is that of no line, or help is asked on a word that is that of none.
    NoLine,
}

/// What a line of a script asks for. It is given without the line feed that ends it.
#[tactic(auto, unfolding(crate::specs::Lines::line_of))]
pub fn parse_line(line: &[u8]) -> Line
    ensures { result ≡ line_of line.now }
{
    match known_line(line) {
        Some(known) => known,
        None => Line::Unknown,
    }
}

/// What a line of a dialogue asks for: that of a script, and some lines more; or what is wrong with it. It is given without the line
/// feed that ends it.
#[tactic(auto, unfolding(crate::specs::Lines::dialogue_line_of))]
pub fn parse_dialogue_line(line: &[u8]) -> Line
    ensures { result ≡ dialogue_line_of line.now }
{
    match known_line(line).or(dialogue_line(line)) {
        Some(known) => known,
        None => mistake_of(line),
    }
}

/// What is wrong with a line that asks for nothing.
fn mistake_of(line: &[u8]) -> Line
    ensures { result ≡ mistake_of (words line.now) }
{
    let Some((word, others)) = split_word(line) else {
        return Line::NoLine;
    };
    if asks_help(word, others) {
        return Line::NoLine;
    }
    match topic_named(word) {
        Some(topic) => Line::Misused(topic),
        None => Line::NoLine,
    }
}

/// Whether a line asks for help on one word, by its first word and what is after that.
fn asks_help(word: &[u8], others: &[u8]) -> bool
    ensures { result ≡ asks_help word.now (words others.now) }
{
    word == b"help".as_slice() && is_one_word(others)
}

/// Whether a line has one word.
fn is_one_word(line: &[u8]) -> bool
    ensures { result ≡ is_one (words line.now) }
{
    match split_word(line) {
        Some((_, rest)) => split_word(rest).is_none(),
        None => false,
    }
}

/// What a line of a framed session asks for: that of a dialogue, and some lines more; and help as a table. It is given without the line
/// feed that ends it.
#[tactic(auto, unfolding(crate::specs::Lines::framed_line_of))]
pub fn parse_framed_line(line: &[u8]) -> Line
    ensures { result ≡ framed_line_of line.now }
{
    match known_line(line)
        .or(framed_line(line))
        .or(dialogue_line(line))
    {
        Some(known) => known,
        None => Line::Unknown,
    }
}

/// What a line asks for that scripts do not have, if its words are those of one.
fn dialogue_line(line: &[u8]) -> Option<Line>
    ensures { result ≡ dialogue_of_words (words line.now) }
{
    let Some((word, rest)) = split_word(line) else {
        return None;
    };
    let Some((first, rest)) = split_word(rest) else {
        return dialogue_of_one(word);
    };
    let Some((second, rest)) = split_word(rest) else {
        return dialogue_of_two(word, first);
    };
    let Some((third, rest)) = split_word(rest) else {
        return None;
    };
    match split_word(rest) {
        Some(_) => None,
        None => dialogue_of_four(word, first, second, third),
    }
}

/// A line of one word that scripts do not have.
fn dialogue_of_one(word: &[u8]) -> Option<Line>
    ensures { result ≡ dialogue_of_one word.now }
{
    if word == b"keep".as_slice() {
        Some(Line::Keep)
    } else if word == b"kept".as_slice() {
        Some(Line::Kept)
    } else if word == b"where".as_slice() {
        Some(Line::Places)
    } else if word == b"points".as_slice() {
        Some(Line::Points)
    } else if word == b"help".as_slice() {
        Some(Line::Help(Audience::Person))
    } else if word == b"step".as_slice() {
        Some(Line::StepNext)
    } else {
        None
    }
}

/// A line of two words that scripts do not have.
fn dialogue_of_two(word: &[u8], operand: &[u8]) -> Option<Line>
    ensures { result ≡ dialogue_of_two word.now operand.now }
{
    let help = help_line_of(Audience::Person, word, operand);
    state_line_of(word, operand).or(rank_line_of(word, operand).or(help))
}

/// A line of the number of a state.
fn state_line_of(word: &[u8], number: &[u8]) -> Option<Line>
    ensures { result ≡ state_line_of word.now number.now }
{
    if word == b"back".as_slice() {
        Some(Line::Back(u64_of(number)?))
    } else if word == b"forget".as_slice() {
        Some(Line::Forget(u64_of(number)?))
    } else {
        None
    }
}

/// A line of a rank that scripts do not have.
fn rank_line_of(word: &[u8], rank: &[u8]) -> Option<Line>
    ensures { result ≡ rank_line_of word.now rank.now }
{
    let rank = u32_of(rank)?;
    if word == b"where".as_slice() {
        Some(Line::Place(rank))
    } else if word == b"areas".as_slice() {
        Some(Line::Areas(rank))
    } else if word == b"requests".as_slice() {
        Some(Line::Requests(rank))
    } else if word == b"over".as_slice() {
        Some(Line::Over(rank))
    } else if word == b"step".as_slice() {
        Some(Line::Command(Command::Step { rank, count: 1 }))
    } else {
        None
    }
}

/// A line that asks what another line does.
fn help_line_of(audience: Audience, word: &[u8], name: &[u8]) -> Option<Line>
    ensures { result ≡ help_line_of audience word.now name.now }
{
    if word == b"help".as_slice() {
        Some(Line::HelpOn(audience, topic_named(name)?))
    } else {
        None
    }
}

/// A line of four words that scripts do not have.
fn dialogue_of_four(word: &[u8], rank: &[u8], addr: &[u8], count: &[u8]) -> Option<Line>
    ensures { result ≡ dialogue_of_four word.now rank.now addr.now count.now }
{
    let form = form_named(word)?;
    shown_of(form, rank, addr, count)
}

/// The form in which memory is shown that a word names.
fn form_named(word: &[u8]) -> Option<Form>
    ensures { result ≡ form_named word.now }
{
    if word == b"words".as_slice() {
        Some(Form::Words)
    } else if word == b"text".as_slice() {
        Some(Form::Text)
    } else if word == b"list".as_slice() {
        Some(Form::Codes)
    } else {
        None
    }
}

/// A line that shows memory, by its words after the first.
fn shown_of(form: Form, rank: &[u8], addr: &[u8], count: &[u8]) -> Option<Line>
    ensures { result ≡ shown_of form rank.now addr.now count.now }
{
    let rank = u32_of(rank)?;
    let addr = u32_of(addr)?;
    let count = u32_of(count)?;
    Some(Line::Shown {
        form,
        rank,
        addr,
        count,
    })
}

/// What a line asks for that framed sessions have in their own way, if its words are those of one.
fn framed_line(line: &[u8]) -> Option<Line>
    ensures { result ≡ framed_of_words (words line.now) }
{
    let Some((word, rest)) = split_word(line) else {
        return None;
    };
    let Some((first, rest)) = split_word(rest) else {
        return framed_of_one(word);
    };
    let Some((second, rest)) = split_word(rest) else {
        return framed_of_two(word, first);
    };
    match split_word(rest) {
        Some(_) => None,
        None => framed_of_three(word, first, second),
    }
}

/// A line of one word that framed sessions have in their own way.
fn framed_of_one(word: &[u8]) -> Option<Line>
    ensures { result ≡ framed_of_one word.now }
{
    if word == b"nodes".as_slice() {
        Some(Line::Nodes)
    } else if word == b"help".as_slice() {
        Some(Line::Help(Audience::Program))
    } else {
        None
    }
}

/// A line of two words that framed sessions have in their own way.
fn framed_of_two(word: &[u8], operand: &[u8]) -> Option<Line>
    ensures { result ≡ framed_of_two word.now operand.now }
{
    from_line_of(word, operand).or(help_line_of(Audience::Program, word, operand))
}

/// A line that asks for what is after a number.
fn from_line_of(word: &[u8], number: &[u8]) -> Option<Line>
    ensures { result ≡ from_line_of word.now number.now }
{
    if word == b"output".as_slice() {
        Some(Line::OutputFrom(u64_of(number)?))
    } else if word == b"costs".as_slice() {
        Some(Line::CostsFrom(u64_of(number)?))
    } else {
        None
    }
}

/// A line of three words that only framed sessions have.
fn framed_of_three(word: &[u8], rank: &[u8], count: &[u8]) -> Option<Line>
    ensures { result ≡ framed_of_three word.now rank.now count.now }
{
    if word == b"go".as_slice() {
        go_of(rank, count)
    } else {
        None
    }
}

/// A command to go on by one rank, by its words after the first.
fn go_of(rank: &[u8], count: &[u8]) -> Option<Line>
    ensures { result ≡ go_of rank.now count.now }
{
    let rank = u32_of(rank)?;
    let count = u64_of(count)?;
    Some(Line::Command(Command::Run { rank, count }))
}

/// What a line asks for, if its words are those of a line of a script.
fn known_line(line: &[u8]) -> Option<Line>
    ensures { result ≡ line_of_words (words line.now) }
{
    let Some((word, rest)) = split_word(line) else {
        return Some(Line::Empty);
    };
    let Some((first, rest)) = split_word(rest) else {
        return line_of_one(word);
    };
    let Some((second, rest)) = split_word(rest) else {
        return line_of_two(word, first);
    };
    let Some((third, rest)) = split_word(rest) else {
        return line_of_three(word, first, second);
    };
    match split_word(rest) {
        Some(_) => None,
        None => line_of_four(word, first, second, third),
    }
}

/// A line of one word.
fn line_of_one(word: &[u8]) -> Option<Line>
    ensures { result ≡ line_of_one word.now }
{
    if word == b"output".as_slice() {
        Some(Line::Output)
    } else if word == b"quit".as_slice() {
        Some(Line::Quit)
    } else {
        Some(Line::Command(command_of_one(word)?))
    }
}

/// A command of one word.
fn command_of_one(word: &[u8]) -> Option<Command>
    ensures { result ≡ command_of_one word.now }
{
    if word == b"phase".as_slice() {
        Some(Command::Phase)
    } else if word == b"turn".as_slice() {
        Some(Command::Turn)
    } else if word == b"go".as_slice() {
        Some(Command::Go)
    } else if word == b"costs".as_slice() {
        Some(Command::Costs)
    } else {
        None
    }
}

/// A line of two words.
fn line_of_two(word: &[u8], rank: &[u8]) -> Option<Line>
    ensures { result ≡ line_of_two word.now rank.now }
{
    let rank = u32_of(rank)?;
    if word == b"regs".as_slice() {
        Some(Line::Command(Command::Regs { rank }))
    } else if word == b"fregs".as_slice() {
        Some(Line::Command(Command::Fregs { rank }))
    } else if word == b"queue".as_slice() {
        Some(Line::Command(Command::Queue { rank }))
    } else {
        None
    }
}

/// A line of three words.
fn line_of_three(word: &[u8], first: &[u8], second: &[u8]) -> Option<Line>
    ensures { result ≡ line_of_three word.now first.now second.now }
{
    if word == b"break".as_slice() {
        Some(Line::Break(point_of(first, second)?))
    } else if word == b"clear".as_slice() {
        Some(Line::Clear(point_of(first, second)?))
    } else if word == b"step".as_slice() {
        step_of(first, second)
    } else {
        None
    }
}

/// A line of four words.
fn line_of_four(word: &[u8], rank: &[u8], addr: &[u8], len: &[u8]) -> Option<Line>
    ensures { result ≡ line_of_four word.now rank.now addr.now len.now }
{
    if word == b"bytes".as_slice() {
        bytes_of(rank, addr, len)
    } else {
        None
    }
}

/// A point as its two words name it.
fn point_of(first: &[u8], second: &[u8]) -> Option<Point>
    ensures { result ≡ point_of first.now second.now }
{
    if first == b"superstep".as_slice() {
        Some(Point::Superstep(u64_of(second)?))
    } else {
        let rank = u32_of(first)?;
        let addr = u32_of(second)?;
        Some(Point::Address { rank, addr })
    }
}

/// A command to step, by its words after the first.
fn step_of(rank: &[u8], count: &[u8]) -> Option<Line>
    ensures { result ≡ step_of rank.now count.now }
{
    let rank = u32_of(rank)?;
    let count = u64_of(count)?;
    Some(Line::Command(Command::Step { rank, count }))
}

/// A command to read memory, by its words after the first.
fn bytes_of(rank: &[u8], addr: &[u8], len: &[u8]) -> Option<Line>
    ensures { result ≡ bytes_of rank.now addr.now len.now }
{
    let rank = u32_of(rank)?;
    let addr = u32_of(addr)?;
    let len = u32_of(len)?;
    Some(Line::Command(Command::Bytes { rank, addr, len }))
}
