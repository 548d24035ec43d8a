//! The lines that show costs.

ghost use Rattle.std.specs.Prelude.{◌≡◌, ◌^◌, ◌<◌, IfOk, string_bytes};
ghost use Rattle.cost_ledger.specs.CostRow.{total_in, superstep_lines as superstep_lines_of, cost_lines as cost_lines_of};

use crate::{CostRow, LedgerText, sum_of_costs};
use std::alloc::{AllocError, Allocator};
use std::fmt;

/// A line for each row, as `superstep 0: w 10 h 4 m 1 turned`, numbered from 0, and one for their total at `g` a byte and `l` a superstep,
/// as `total 58`; all of them in one version. It is an error only if memory is refused.
pub fn cost_lines<A: Allocator>(
    alloc: A,
    version: LedgerText,
    rows: &[CostRow],
    g: u32,
    l: u32,
) -> Result<String<A>, AllocError>
    requires { total_in version g l rows.now < 2 ^ 128 }
    ensures { IfOk result (λ text. string_bytes text ≡ cost_lines_of version g l rows.now) }
{
    let mut text = superstep_lines(alloc, version, rows)?;
    let total = sum_of_costs(version, rows, g, l);
    writeln!(text, "total {total}")?;
    Ok(text)
}

/// A line for each row.
fn superstep_lines<A: Allocator>(
    alloc: A,
    version: LedgerText,
    rows: &[CostRow],
) -> Result<String<A>, AllocError>
    ensures { IfOk result (λ text. string_bytes text ≡ superstep_lines_of version rows.now) }
{
    let mut text = String::new(alloc);
    for (superstep, row) in rows.iter().enumerate() {
        let row = InVersion(version, *row);
        writeln!(text, "superstep {superstep}: {row}")?;
    }
    Ok(text)
}

/// A row that displays as its text in a version.
#[derive(Clone, Copy)]
struct InVersion(LedgerText, CostRow);

impl fmt::Display for InVersion {
    ghost use Rattle.std.specs.Prelude.{Some};
    ghost use Rattle.cost_ledger.specs.CostRow.{row_text};

    ghost output = { λ shown. Some (row_text shown.0 shown.1) };

    fn fmt<W: fmt::Write>(&self, f: &mut fmt::Formatter<W>) -> fmt::Result {
        let row = self.1;
        match self.0 {
            LedgerText::V1 => write!(f, "w {} h {} {}", row.w, row.h_all, row.ending()),
            LedgerText::V2 => write!(f, "{row}"),
        }
    }
}
