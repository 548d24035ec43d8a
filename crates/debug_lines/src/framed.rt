//! The replies that only dialogues and framed sessions have.

ghost use Rattle.std.specs.Prelude.{◌≡◌, ◌≤◌, ◌++◌, length, IfOk, string_bytes};
ghost use Rattle.cost_ledger.specs.CostRow.{ending_text, superstep_line, total_in as total_of, total_line};
ghost use Rattle.debug_lines.specs.Framed.{cost_lines_from, place_text, prices_text, settings_text, setup_text, superstep_lines_from};
ghost use Rattle.debug_lines.specs.Framed.{version_number as number_of_version};

use crate::reply::PointText;
use bsp_debug::Point;
use cost_ledger::{CostRow, Ledger, LedgerText};
use machine_core::Settings;
use node_core::State;
use std::alloc::{AllocError, Allocator};

/// What a machine is made of, and how its costs are told: in a version of the ledger at `g` a byte and `l` a superstep. It is a line, and
/// an error only if memory is refused.
pub fn setup_line<A: Allocator>(
    alloc: A,
    settings: Settings,
    version: LedgerText,
    g: u32,
    l: u32,
) -> Result<String<A>, AllocError>
    ensures { IfOk result (λ text. string_bytes text ≡ setup_text settings version g l) }
{
    let mut text = String::new(alloc);
    add_settings(&mut text, settings)?;
    add_prices(&mut text, version, g, l)?;
    Ok(text)
}

/// Adds to a text what a machine is made of.
fn add_settings<A: Allocator>(text: &mut String<A>, settings: Settings) -> Result<(), AllocError>
    ensures { IfOk result (λ _. string_bytes text.new ≡ string_bytes text.old ++ settings_text settings) }
{
    let nodes = settings.nodes;
    let memory = settings.memory;
    let limit = settings.limit;
    write!(text, "nodes {nodes} memory {memory} limit {limit}")
}

/// Adds to a text how costs are told.
fn add_prices<A: Allocator>(
    text: &mut String<A>,
    version: LedgerText,
    g: u32,
    l: u32,
) -> Result<(), AllocError>
    ensures { IfOk result (λ _. string_bytes text.new ≡ string_bytes text.old ++ prices_text version g l) }
{
    let number = number_of_version(version);
    writeln!(text, " g {g} l {l} ledger {number}")
}

/// The number of a version of the ledger.
fn number_of_version(version: LedgerText) -> u32
    ensures { result ≡ number_of_version version }
{
    match version {
        LedgerText::V1 => 1,
        LedgerText::V2 => 2,
    }
}

/// Adds a line to a text: where the node of a rank is, in the superstep of this number. It is an error only if memory is refused.
pub fn add_place<A: Allocator>(
    text: &mut String<A>,
    rank: u32,
    pc: u32,
    superstep: u64,
    state: State,
) -> Result<(), AllocError>
    ensures { IfOk result (λ _. string_bytes text.new
        ≡ string_bytes text.old ++ place_text rank pc superstep state) }
{
    let place = PointText(Point::Address { rank, addr: pc });
    writeln!(text, "{place} superstep {superstep} state {state}")
}

/// The lines of the costs of a ledger from the superstep of a number on, and of the total of all supersteps, in a version of the ledger at
/// `g` a byte and `l` a superstep. It is an error only if memory is refused.
pub fn costs_from<L: Allocator, A: Allocator>(
    alloc: A,
    ledger: &Ledger<L>,
    from: usize,
    version: LedgerText,
    g: u32,
    l: u32,
) -> Result<String<A>, AllocError>
    requires { from ≤ length ledger.now.rows }
    ensures { IfOk result (λ text. string_bytes text ≡ cost_lines_from version g l from ledger.now.rows) }
{
    let mut text = String::new(alloc);
    add_supersteps(&mut text, ledger.rows(), from, version)?;
    add_total(&mut text, ledger, version, g, l)?;
    Ok(text)
}

/// Adds to a text the lines of the supersteps from that of a number on.
fn add_supersteps<A: Allocator>(
    text: &mut String<A>,
    rows: &[CostRow],
    from: usize,
    version: LedgerText,
) -> Result<(), AllocError>
    requires { from ≤ length rows.now }
    ensures { IfOk result (λ _. string_bytes text.new
        ≡ string_bytes text.old ++ superstep_lines_from version from rows.now) }
{
    for number in from..rows.len() {
        let row = &rows[number];
        add_superstep(text, number, row, version)?;
    }
    Ok(())
}

/// Adds to a text the line of a superstep.
fn add_superstep<A: Allocator>(
    text: &mut String<A>,
    number: usize,
    row: &CostRow,
    version: LedgerText,
) -> Result<(), AllocError>
    ensures { IfOk result (λ _. string_bytes text.new
        ≡ string_bytes text.old ++ superstep_line version (number, row.now)) }
{
    match version {
        LedgerText::V1 => {
            let end = ending(row);
            writeln!(
                text,
                "superstep {number}: w {} h {} {end}",
                row.w, row.h_all
            )?;
        }
        LedgerText::V2 => writeln!(text, "superstep {number}: {row}")?,
    }
    Ok(())
}

/// The last word of the line of a superstep: whether an exchange was made.
fn ending(row: &CostRow) -> &'static str
    ensures { result.now ≡ ending_text row.now }
{
    if row.turned { "turned" } else { "last" }
}

/// Adds to a text the line of the total of a ledger.
fn add_total<L: Allocator, A: Allocator>(
    text: &mut String<A>,
    ledger: &Ledger<L>,
    version: LedgerText,
    g: u32,
    l: u32,
) -> Result<(), AllocError>
    ensures { IfOk result (λ _. string_bytes text.new
        ≡ string_bytes text.old ++ total_line version g l ledger.now.rows) }
{
    let total = total_in(ledger, version, g, l);
    writeln!(text, "total {total}")
}

/// The total of a ledger in a version.
fn total_in<L: Allocator>(ledger: &Ledger<L>, version: LedgerText, g: u32, l: u32) -> u128
    ensures { result ≡ total_of version g l ledger.now.rows }
{
    match version {
        LedgerText::V1 => ledger.total_v1(g, l),
        LedgerText::V2 => ledger.total(g, l),
    }
}
