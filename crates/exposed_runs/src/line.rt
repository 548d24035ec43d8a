//! A line of exposed bytes: its values and its text.

ghost use Rattle.std.specs.Prelude.{◌≡◌, ◌++◌, OnOk, string_bytes};
ghost use Rattle.exposed_runs.specs.Lines.{exposure_line};

use exposed_bytes::{Call, Exposure, Sort};
use rv_listing::EightDigits;
use std::alloc::{AllocError, Allocator};
use std::fmt;

/// Where exposed bytes of a superstep are, in four columns.
#[derive(Clone, Copy)]
struct Place {
    superstep: u64,
    range: Exposure,
}

impl fmt::Display for Place {
    ghost use Rattle.std.specs.Prelude.{Some};
    ghost use Rattle.exposed_runs.specs.Lines.{place_text};

    ghost output = { λ place. Some (place_text place.superstep place.range) };

    #[tactic(auto, unfolding(crate::specs::Lines::place_text))]
    fn fmt<W: fmt::Write>(&self, f: &mut fmt::Formatter<W>) -> fmt::Result {
        let address = EightDigits(self.range.addr);
        write!(
            f,
            "{},{},{address},{}",
            self.superstep, self.range.rank, self.range.len
        )
    }
}

/// A call, in four columns.
#[derive(Clone, Copy)]
struct CallText(Call);

impl fmt::Display for CallText {
    ghost use Rattle.std.specs.Prelude.{Some};
    ghost use Rattle.exposed_runs.specs.Lines.{call_text};

    ghost output = { λ call. Some (call_text call.0) };

    #[tactic(auto, unfolding(crate::specs::Lines::call_text))]
    fn fmt<W: fmt::Write>(&self, f: &mut fmt::Formatter<W>) -> fmt::Result {
        let (sort, place) = (SortWord(self.0.sort), EightDigits(self.0.place));
        write!(f, "{sort},{},{},{place}", self.0.caller, self.0.number)
    }
}

/// What is called, in one word.
#[derive(Clone, Copy)]
struct SortWord(Sort);

impl fmt::Display for SortWord {
    ghost use Rattle.std.specs.Prelude.{Some};
    ghost use Rattle.exposed_runs.specs.Lines.{sort_word};

    ghost output = { λ word. Some (sort_word word.0) };

    fn fmt<W: fmt::Write>(&self, f: &mut fmt::Formatter<W>) -> fmt::Result {
        f.write_str(match self.0 {
            Sort::Put => "put",
            Sort::HpPut => "hpput",
            Sort::Get => "get",
            Sort::HpGet => "hpget",
            Sort::Send => "send",
            Sort::DirectGet => "direct_get",
        })
    }
}

/// Appends the line of a range of a superstep.
pub(crate) fn write_exposure<A: Allocator>(
    superstep: u64,
    range: &Exposure,
    text: &mut String<A>,
) -> Result<(), AllocError>
    ensures { OnOk result (string_bytes text.new ≡ string_bytes text.old ++ exposure_line superstep range.now) }
{
    let place = Place {
        superstep,
        range: *range,
    };
    let (reader, writer) = (CallText(range.reader), CallText(range.writer));
    writeln!(text, "{place},{reader},{writer}")?;
    Ok(())
}
