//! A line of the counts: its values and its text.

ghost use Rattle.std.specs.Prelude.{◌≡◌, ◌++◌, OnOk, string_bytes};
ghost use Rattle.step_counts.specs.Counts.{line_of};

use rv_listing::EightDigits;
use std::alloc::{AllocError, Allocator};
use std::fmt;

/// How many instructions a rank made at an address in a superstep.
#[derive(Clone, Copy, Debug)]
struct Count {
    superstep: u64,
    rank: u32,
    address: u32,
    count: u64,
}

impl fmt::Display for Count {
    ghost use Rattle.std.specs.Prelude.{Some};
    ghost use Rattle.step_counts.specs.Counts.{count_text};

    ghost output = { λ line. Some (count_text line.superstep line.rank line.address line.count) };

    #[tactic(auto, unfolding(crate::specs::Counts::count_text))]
    fn fmt<W: fmt::Write>(&self, f: &mut fmt::Formatter<W>) -> fmt::Result {
        let address = EightDigits(self.address);
        write!(
            f,
            "{},{},{address},{}",
            self.superstep, self.rank, self.count
        )
    }
}

/// Appends the line of a count, if it is above 0.
pub(crate) fn write_count<A: Allocator>(
    superstep: u64,
    rank: u32,
    address: u32,
    count: u64,
    text: &mut String<A>,
) -> Result<(), AllocError>
    ensures { OnOk result (string_bytes text.new ≡ string_bytes text.old ++ line_of superstep rank address count) }
{
    if count > 0 {
        let line = Count {
            superstep,
            rank,
            address,
            count,
        };
        writeln!(text, "{line}")?;
    }
    Ok(())
}
