//! A line of a profile: its values and its text.

use node_core::State;
use std::fmt;

/// What a rank did in a superstep. Bytes and messages are those of the exchange at its end, and 0 if none is made.
#[derive(Clone, Copy, Debug, PartialEq, Eq)]
pub struct Row {
    /// The number of the superstep, from 0.
    pub superstep: u64,
    pub rank: u32,
    /// The instructions that it made in the superstep.
    pub ticks: u64,
    /// The bytes that went from it to others.
    pub sent: u64,
    /// The bytes that came to it from others.
    pub received: u64,
    /// The bytes that it moved to itself.
    pub kept: u64,
    /// The messages that it received from others.
    pub messages: u64,
    /// The puts, gets and messages that it asked for.
    pub requests: u64,
    /// How it stood before the turn.
    pub state: State,
}

/// The bytes that went from one rank to another, or to itself, in a superstep.
#[derive(Clone, Copy, Debug, PartialEq, Eq)]
pub struct Flow {
    /// The number of the superstep, from 0.
    pub superstep: u64,
    pub from: u32,
    pub to: u32,
    pub bytes: u64,
}

impl fmt::Display for Row {
    ghost use Rattle.std.specs.Prelude.{Some};
    ghost use Rattle.bsp_profile.specs.Lines.{row_text};

    ghost output = { λ row. Some (row_text row) };

    fn fmt<W: fmt::Write>(&self, f: &mut fmt::Formatter<W>) -> fmt::Result {
        let (work, moved, asked) = (Work(self), Moved(self), Asked(self));
        write!(f, "{work},{moved},{asked}")
    }
}

/// Which superstep and rank it is, and the work, in four columns, of which the third is empty.
#[derive(Clone, Copy)]
struct Work<'a>(&'a Row);

impl fmt::Display for Work<'_> {
    ghost use Rattle.std.specs.Prelude.{Some};
    ghost use Rattle.bsp_profile.specs.Lines.{work_text};

    ghost output = { λ work. Some (work_text work.0.now) };

    #[tactic(auto, unfolding(crate::specs::Lines::work_text))]
    fn fmt<W: fmt::Write>(&self, f: &mut fmt::Formatter<W>) -> fmt::Result {
        let row = self.0;
        write!(f, "{},{},,{}", row.superstep, row.rank, row.ticks)
    }
}

/// What a rank moved, in three columns.
#[derive(Clone, Copy)]
struct Moved<'a>(&'a Row);

impl fmt::Display for Moved<'_> {
    ghost use Rattle.std.specs.Prelude.{Some};
    ghost use Rattle.bsp_profile.specs.Lines.{moved_text};

    ghost output = { λ moved. Some (moved_text moved.0.now) };

    #[tactic(auto, unfolding(crate::specs::Lines::moved_text))]
    fn fmt<W: fmt::Write>(&self, f: &mut fmt::Formatter<W>) -> fmt::Result {
        let row = self.0;
        write!(f, "{},{},{}", row.sent, row.received, row.kept)
    }
}

/// What a rank received and asked for, and how it stood, in three columns.
#[derive(Clone, Copy)]
struct Asked<'a>(&'a Row);

impl fmt::Display for Asked<'_> {
    ghost use Rattle.std.specs.Prelude.{Some};
    ghost use Rattle.bsp_profile.specs.Lines.{asked_text};

    ghost output = { λ asked. Some (asked_text asked.0.now) };

    #[tactic(auto, unfolding(crate::specs::Lines::asked_text))]
    fn fmt<W: fmt::Write>(&self, f: &mut fmt::Formatter<W>) -> fmt::Result {
        let row = self.0;
        let state = StateWord(row.state);
        write!(f, "{},{},{state}", row.messages, row.requests)
    }
}

impl fmt::Display for Flow {
    ghost use Rattle.std.specs.Prelude.{Some};
    ghost use Rattle.bsp_profile.specs.Lines.{flow_text};

    ghost output = { λ flow. Some (flow_text flow) };

    fn fmt<W: fmt::Write>(&self, f: &mut fmt::Formatter<W>) -> fmt::Result {
        write!(
            f,
            "{},{},{},,{},,,,,",
            self.superstep, self.from, self.to, self.bytes
        )
    }
}

/// A state that displays as one word, which does not say which fault it was.
#[derive(Clone, Copy)]
struct StateWord(State);

impl fmt::Display for StateWord {
    ghost use Rattle.std.specs.Prelude.{Some};
    ghost use Rattle.bsp_profile.specs.Lines.{state_word};

    ghost output = { λ word. Some (state_word word.0) };

    fn fmt<W: fmt::Write>(&self, f: &mut fmt::Formatter<W>) -> fmt::Result {
        f.write_str(match self.0 {
            State::Running => "running",
            State::Synced => "synced",
            State::Ended => "ended",
            State::Aborted => "aborted",
            State::Exhausted => "exhausted",
            State::Faulted(_) => "faulted",
        })
    }
}
