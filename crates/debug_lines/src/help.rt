//! The help of the lines: a text for a person, and a table for a program.

ghost use Rattle.std.specs.Prelude.{◌≡◌, ◌++◌, IfOk, string_bytes};
ghost use Rattle.debug_lines.specs.Help.{alone_note, framed_row, gap, help_on, help_rows, help_text, joint};
ghost use Rattle.debug_lines.specs.TopicViews.{form_value};

use crate::topic::{LineForm, Sessions, Topic, all_topics, first_form, name_of, other_form};
use std::alloc::{AllocError, Allocator};
use std::fmt;

/// Whom help is for.
#[derive(Clone, Copy, Debug, PartialEq, Eq)]
pub enum Audience {
    /// Who types the lines of a dialogue: a line for each first word.
    Person,
    /// What has a framed session: a table, with a row for each form of lines.
    Program,
}

/// What is told of all lines. It is an error only if memory is refused.
pub fn help_text<A: Allocator>(alloc: A, audience: Audience) -> Result<String<A>, AllocError>
    ensures { IfOk result (λ text. string_bytes text ≡ help_text audience) }
{
    let mut text = String::new(alloc);
    let topics = all_topics();
    for topic in topics {
        add_help(&mut text, audience, *topic)?;
    }
    Ok(text)
}

/// Adds to a text what is told of the lines with one first word. It is an error only if memory is refused.
pub fn add_help<A: Allocator>(
    text: &mut String<A>,
    audience: Audience,
    topic: Topic,
) -> Result<(), AllocError>
    ensures { IfOk result (λ _. string_bytes text.new ≡ string_bytes text.old ++ help_on audience topic) }
{
    match audience {
        Audience::Person => writeln!(text, "{}: {}", Usage(topic), Purpose(topic)),
        Audience::Program => add_rows(text, topic),
    }
}

/// Adds to a text the rows of the lines with one first word.
fn add_rows<A: Allocator>(text: &mut String<A>, topic: Topic) -> Result<(), AllocError>
    ensures { IfOk result (λ _. string_bytes text.new ≡ string_bytes text.old ++ help_rows topic) }
{
    add_framed_row(text, topic, first_form(topic))?;
    match other_form(topic) {
        Some(form) => add_framed_row(text, topic, form),
        None => Ok(()),
    }
}

/// Adds to a text the row of a form, if framed sessions have it.
fn add_framed_row<A: Allocator>(
    text: &mut String<A>,
    topic: Topic,
    form: LineForm,
) -> Result<(), AllocError>
    ensures { IfOk result (λ _. string_bytes text.new ≡ string_bytes text.old ++ framed_row topic (form_value form)) }
{
    let name = name_of(topic);
    match form.sessions {
        Sessions::Both | Sessions::Framed => {
            writeln!(text, "{name}\t{}\t{}", form.operands, form.purpose)
        }
        Sessions::Dialogues => Ok(()),
    }
}

/// Displays as how the lines with a first word are spelled.
#[derive(Clone, Copy)]
pub(crate) struct Usage(pub(crate) Topic);

impl fmt::Display for Usage {
    ghost use Rattle.std.specs.Prelude.{Some};
    ghost use Rattle.debug_lines.specs.Help.{usage};

    ghost output = { λ u. Some (usage u.0) };

    fn fmt<W: fmt::Write>(&self, f: &mut fmt::Formatter<W>) -> fmt::Result {
        let topic = self.0;
        let first = first_form(topic);
        let note = alone_note(first.sessions);
        write!(f, "{}{note}{}", Spelled(topic, first), OtherUsage(topic))
    }
}

/// Displays as how the lines of the other form are spelled, if there is one, and what is before that.
#[derive(Clone, Copy)]
struct OtherUsage(Topic);

impl fmt::Display for OtherUsage {
    ghost use Rattle.std.specs.Prelude.{Some};
    ghost use Rattle.debug_lines.specs.Help.{other_usage};
    ghost use Rattle.debug_lines.specs.Topics.{other_form};

    ghost output = { λ u. Some (other_usage u.0 (other_form u.0)) };

    fn fmt<W: fmt::Write>(&self, f: &mut fmt::Formatter<W>) -> fmt::Result {
        let topic = self.0;
        match other_form(topic) {
            Some(form) => write!(f, "{}{}", joint(form.sessions), Spelled(topic, form)),
            None => Ok(()),
        }
    }
}

/// Displays as a line of a form.
#[derive(Clone, Copy)]
struct Spelled(Topic, LineForm);

impl fmt::Display for Spelled {
    ghost use Rattle.std.specs.Prelude.{Some};
    ghost use Rattle.debug_lines.specs.Help.{spelled};
    ghost use Rattle.debug_lines.specs.TopicViews.{form_value};

    ghost output = { λ s. Some (spelled s.0 (form_value s.1)) };

    fn fmt<W: fmt::Write>(&self, f: &mut fmt::Formatter<W>) -> fmt::Result {
        let name = name_of(self.0);
        let operands = self.1.operands;
        let gap = gap(operands);
        write!(f, "{name}{gap}{operands}")
    }
}

/// What is before operands, if there are any.
fn gap(operands: &str) -> &'static str
    ensures { result.now ≡ gap operands.now }
{
    if operands.is_empty() { "" } else { " " }
}

/// What is told after the first form of lines.
fn alone_note(sessions: Sessions) -> &'static str
    ensures { result.now ≡ alone_note sessions }
{
    match sessions {
        Sessions::Framed => ", with --framed alone",
        Sessions::Both | Sessions::Dialogues => "",
    }
}

/// What is told before the other form of lines.
fn joint(sessions: Sessions) -> &'static str
    ensures { result.now ≡ joint sessions }
{
    match sessions {
        Sessions::Framed => ", or with --framed ",
        Sessions::Both | Sessions::Dialogues => ", or ",
    }
}

/// Displays as what the lines with a first word do.
#[derive(Clone, Copy)]
struct Purpose(Topic);

impl fmt::Display for Purpose {
    ghost use Rattle.std.specs.Prelude.{Some};
    ghost use Rattle.debug_lines.specs.Help.{purpose};

    ghost output = { λ p. Some (purpose p.0) };

    fn fmt<W: fmt::Write>(&self, f: &mut fmt::Formatter<W>) -> fmt::Result {
        let first = first_form(self.0).purpose;
        write!(f, "{first}{}", OtherPurpose(self.0))
    }
}

/// Displays as what the lines of the other form do, if there is one, and it is something else.
#[derive(Clone, Copy)]
struct OtherPurpose(Topic);

impl fmt::Display for OtherPurpose {
    ghost use Rattle.std.specs.Prelude.{Some};
    ghost use Rattle.debug_lines.specs.Help.{other_purpose};
    ghost use Rattle.debug_lines.specs.Topics.{first_form, other_form};

    ghost output = { λ p. Some (other_purpose (first_form p.0).purpose (other_form p.0)) };

    fn fmt<W: fmt::Write>(&self, f: &mut fmt::Formatter<W>) -> fmt::Result {
        let first = first_form(self.0).purpose;
        match other_form(self.0) {
            Some(form) if form.purpose != first => write!(f, "; {}", form.purpose),
            _ => Ok(()),
        }
    }
}
