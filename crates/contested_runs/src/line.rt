//! A line of contested bytes: its values and its text.

ghost use Rattle.std.specs.Prelude.{◌≡◌, ◌++◌, OnOk, string_bytes};
ghost use Rattle.contested_runs.specs.Lines.{range_line};

use contested_bytes::{Contender, ContestedRange, Kind};
use rv_listing::{EightDigits, TwoDigits};
use std::alloc::{AllocError, Allocator};
use std::fmt;

/// Where contested bytes of a superstep are, in four columns.
#[derive(Clone, Copy)]
struct Place {
    superstep: u64,
    range: ContestedRange,
}

impl fmt::Display for Place {
    ghost use Rattle.std.specs.Prelude.{Some};
    ghost use Rattle.contested_runs.specs.Lines.{place_text};

    ghost output = { λ place. Some (place_text place.superstep place.range) };

    #[tactic(auto, unfolding(crate::specs::Lines::place_text))]
    fn fmt<W: fmt::Write>(&self, f: &mut fmt::Formatter<W>) -> fmt::Result {
        let address = EightDigits(self.range.addr);
        write!(
            f,
            "{},{},{address},{}",
            self.superstep, self.range.rank, self.range.len
        )
    }
}

/// A request and the byte that it brings, in four columns.
#[derive(Clone, Copy)]
struct Request(Contender);

impl fmt::Display for Request {
    ghost use Rattle.std.specs.Prelude.{Some};
    ghost use Rattle.contested_runs.specs.Lines.{contender_text};

    ghost output = { λ request. Some (contender_text request.0) };

    #[tactic(auto, unfolding(crate::specs::Lines::contender_text))]
    fn fmt<W: fmt::Write>(&self, f: &mut fmt::Formatter<W>) -> fmt::Result {
        let (kind, byte) = (KindWord(self.0.kind), TwoDigits(self.0.byte));
        write!(f, "{kind},{},{},{byte}", self.0.caller, self.0.issue)
    }
}

/// What asked for bytes, in one word.
#[derive(Clone, Copy)]
struct KindWord(Kind);

impl fmt::Display for KindWord {
    ghost use Rattle.std.specs.Prelude.{Some};
    ghost use Rattle.contested_runs.specs.Lines.{kind_word};

    ghost output = { λ word. Some (kind_word word.0) };

    fn fmt<W: fmt::Write>(&self, f: &mut fmt::Formatter<W>) -> fmt::Result {
        f.write_str(match self.0 {
            Kind::Get => "get",
            Kind::Put => "put",
        })
    }
}

/// Appends the line of a range of a superstep.
pub(crate) fn write_range<A: Allocator>(
    superstep: u64,
    range: &ContestedRange,
    text: &mut String<A>,
) -> Result<(), AllocError>
    ensures { OnOk result (string_bytes text.new ≡ string_bytes text.old ++ range_line superstep range.now) }
{
    let place = Place {
        superstep,
        range: *range,
    };
    let (first, second) = (Request(range.first), Request(range.second));
    writeln!(text, "{place},{first},{second}")?;
    Ok(())
}
