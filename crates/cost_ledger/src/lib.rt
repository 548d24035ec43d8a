//! The costs of a bulk synchronous run, superstep by superstep.
//!
//! A [`Ledger`] is a list of [`CostRow`]s, one for each superstep, in the order in which they ended. Contracts see it as that list, and
//! whether there is room for one more row. Its total is that of the BSP cost model, `w + g h + l` summed over all rows. h does not count a
//! rank's bytes to itself. The first version of the ledger counted them, so each row also has that figure, in `h_all`, with its own total
//! and its own lines ([`LedgerText`]).
//!
//! Callers may rely on this:
//!
//! - A refused [`add`](Ledger::add) or [`prepare`](Ledger::prepare) changes nothing. Apart from these two, only copies and lines take
//!   memory.
//! - After `prepare`, [`add_prepared`](Ledger::add_prepared) adds a row and cannot be refused.
//! - A total is exact: under the conditions of `add`, every sum of costs fits 128 bits.
//! - The lines that show rows are those of the definitions ([`cost_lines`], [`Ledger::lines`]).
//! - [`Ledger::total_with`] updates a total row by row.
//! - The order of the rows does not change a total ([`total_ignores_order`]), and if no h is more than its `h_all`, no total is more than
//!   that of the first version ([`total_is_at_most_v1`]).
#![tactic(auto)]

mod lines;

ghost use Rattle.std.specs.Prelude.{◌≡◌, ◌^◌, ◌<◌, ◌≤◌, true, false, [], ◌∷◌, ◌++◌, length, string_bytes, IsTrue, IfOk, OnOk, OnErr};
ghost use Rattle.cost_ledger.specs.declared.LedgerText.TheVariants.{V1, V2};
ghost use Rattle.cost_ledger.specs.CostRow.{IsBounded, h_in, cost_of, total_in, ending_text, cost_lines as cost_lines_of};
ghost use Rattle.cost_ledger.specs.CostRow.{TotalIgnoresOrder, TotalIsAtMostV1};

pub use lines::cost_lines;
use std::alloc::{AllocError, Allocator};
use std::fmt;
use std::marker::Model;

/// What one superstep cost. Its text is as `w 10 h 4 m 1 turned`, and ends with `last` if no exchange was made. That such a row has no more
/// than its work is the machine's rule; a ledger takes what it is given.
#[derive(Clone, Copy, Debug, PartialEq, Eq)]
pub struct CostRow {
    /// The work: the most ticks that a node made.
    pub w: u64,
    /// The h-relation: the most bytes that a node sent to others or received from others.
    pub h: u64,
    /// The same with what a node moved to itself, as the first version of the ledger had it.
    pub h_all: u64,
    /// The most messages that a node received from others.
    pub messages: u64,
    /// Whether an exchange was made.
    pub turned: bool,
}

/// The version in which the lines of costs are written.
#[derive(Clone, Copy, Debug, PartialEq, Eq)]
pub enum LedgerText {
    /// Rows as `w 10 h 4 turned` and the total of the first version, whose h is `h_all`.
    V1,
    /// Rows as `w 10 h 4 m 1 turned`, and the total.
    V2,
}

/// The costs of the supersteps so far, oldest first.
#[derive(Drop)]
pub struct Ledger<A: Allocator> {
    rows: Vec<CostRow, A>,
    ready: bool,
}

impl<A: Allocator> Model for Ledger<A> {
    ghost use Rattle.std.specs.Prelude.{◌^◌, ◌<◌, ◌≤◌, length, All, IsTrue, vec_capacity};
    ghost use Rattle.cost_ledger.specs.CostRow.{IsBounded, PreparedRows};

    ghost Value = { PreparedRows };

    ghost view = { λ l. record { rows = l.rows.items; ready = l.ready } };

    ghost invariant = { λ l. (length l.rows.items ≤ 2 ^ 41)
        × All IsBounded l.rows.items
        × (IsTrue l.ready → length l.rows.items < vec_capacity l.rows) };
}

impl<A: Allocator> Ledger<A> {
    /// A ledger without rows, which takes no memory.
    pub fn new(alloc: A) -> Self
        ensures { result ≡ record { rows = []; ready = false } }
    {
        Ledger {
            rows: Vec::new(alloc),
            ready: false,
        }
    }

    /// The same rows, with no room made for another. It costs a copy of the rows.
    ///
    /// # Errors
    /// If memory is refused.
    pub fn try_clone(&self, alloc: A) -> Result<Self, AllocError>
        ensures { IfOk result (λ l. l ≡ record self.now { ready = false }) }
    {
        Ok(Ledger {
            rows: Vec::from_slice(alloc, &self.rows)?,
            ready: false,
        })
    }

    /// Appends a row.
    ///
    /// # Errors
    /// If memory is refused. Nothing has changed then.
    pub fn add(&mut self, row: CostRow) -> Result<(), AllocError>
        requires work { row.w ≤ 2 ^ 40 }
        requires relation { row.h < 2 ^ 48 }
        requires whole_relation { row.h_all < 2 ^ 48 }
        requires messages { row.messages < 2 ^ 48 }
        requires few { length self.old.rows < 2 ^ 41 }
        ensures ok { OnOk result
            (self.new ≡ record { rows = self.old.rows ++ row ∷ []; ready = false }) }
        ensures err { OnErr result (self.new ≡ self.old) }
    {
        self.prepare()?;
        self.add_prepared(row);
        Ok(())
    }

    /// Makes room for one row, which then stands until the next row is added.
    ///
    /// # Errors
    /// If memory is refused. Nothing has changed then.
    pub fn prepare(&mut self) -> Result<(), AllocError>
        ensures ok { OnOk result (self.new ≡ record self.old { ready = true }) }
        ensures err { OnErr result (self.new ≡ self.old) }
    {
        self.rows.reserve(1)?;
        self.ready = true;
        Ok(())
    }

    /// Appends a row, for which [`Ledger::prepare`] made room.
    pub fn add_prepared(&mut self, row: CostRow)
        requires work { row.w ≤ 2 ^ 40 }
        requires relation { row.h < 2 ^ 48 }
        requires whole_relation { row.h_all < 2 ^ 48 }
        requires messages { row.messages < 2 ^ 48 }
        requires few { length self.old.rows < 2 ^ 41 }
        requires ready { IsTrue self.old.ready }
        ensures { self.new ≡ record { rows = self.old.rows ++ row ∷ []; ready = false } }
    {
        self.rows.push_reserved(row);
        self.ready = false;
    }

    /// The rows, oldest first.
    pub fn rows(&self) -> &[CostRow]
        ensures { result.now ≡ self.now.rows }
    {
        self.rows.as_slice()
    }

    /// The cost of all rows, turned or not, at `g` a byte and `l` a superstep.
    #[tactic(auto, using(crate::proofs::Totals::total_fits))]
    pub fn total(&self, g: u32, l: u32) -> u128
        ensures { result ≡ total_in V2 g l self.now.rows }
    {
        sum_of_costs(LedgerText::V2, &self.rows, g, l)
    }

    /// The same in the first version, in which h counts what nodes moved to themselves too.
    #[tactic(auto, using(crate::proofs::Totals::total_fits))]
    pub fn total_v1(&self, g: u32, l: u32) -> u128
        ensures { result ≡ total_in V1 g l self.now.rows }
    {
        sum_of_costs(LedgerText::V1, &self.rows, g, l)
    }

    /// The total of all rows and of one more in a version, at `g` a byte and `l` a superstep, if `total` is that of all rows: so it is kept
    /// row by row, in a time that does not grow with them.
    #[tactic(auto, using(crate::proofs::Totals::total_with_fits, crate::proofs::Totals::total_more))]
    pub fn total_with(
        &self,
        version: LedgerText,
        g: u32,
        l: u32,
        total: u128,
        row: &CostRow,
    ) -> u128
        requires total { total ≡ total_in version g l self.now.rows }
        requires bounded { IsBounded row.now }
        requires few { length self.now.rows < 2 ^ 41 }
        ensures { result ≡ total_in version g l (self.now.rows ++ row.now ∷ []) }
    {
        if self.rows.is_empty() {
            return row.cost(version, g, l);
        }
        total + row.cost(version, g, l)
    }

    /// The lines that show all rows in a version, and their total at `g` a byte and `l` a superstep. It is an error only if memory is
    /// refused.
    #[tactic(auto, using(crate::proofs::Totals::total_fits))]
    pub fn lines<B: Allocator>(
        &self,
        alloc: B,
        version: LedgerText,
        g: u32,
        l: u32,
    ) -> Result<String<B>, AllocError>
        ensures { IfOk result (λ text. string_bytes text ≡ cost_lines_of version g l self.now.rows) }
    {
        cost_lines(alloc, version, &self.rows, g, l)
    }
}

/// The total of rows in a version.
fn sum_of_costs(version: LedgerText, rows: &[CostRow], g: u32, l: u32) -> u128
    requires { total_in version g l rows.now < 2 ^ 128 }
    ensures { result ≡ total_in version g l rows.now }
{
    rows.iter().map(|row| row.cost(version, g, l)).sum()
}

impl fmt::Display for CostRow {
    ghost use Rattle.std.specs.Prelude.{Some};
    ghost use Rattle.cost_ledger.specs.declared.LedgerText.TheVariants.{V2};
    ghost use Rattle.cost_ledger.specs.CostRow.{row_text};

    ghost output = { λ row. Some (row_text V2 row) };

    fn fmt<W: fmt::Write>(&self, f: &mut fmt::Formatter<W>) -> fmt::Result {
        let end = self.ending();
        write!(f, "w {} h {} m {} {end}", self.w, self.h, self.messages)
    }
}

impl CostRow {
    /// What it costs in a version.
    fn cost(&self, version: LedgerText, g: u32, l: u32) -> u128
        ensures { result ≡ cost_of version g l self.now }
    {
        u128::from(self.w) + u128::from(g) * u128::from(self.h_in(version)) + u128::from(l)
    }

    /// The h that a version counts.
    fn h_in(&self, version: LedgerText) -> u64
        ensures { result ≡ h_in version self.now }
    {
        match version {
            LedgerText::V1 => self.h_all,
            LedgerText::V2 => self.h,
        }
    }

    /// The last word of its text: whether an exchange was made.
    fn ending(&self) -> &'static str
        ensures { result.now ≡ ending_text self.now }
    {
        if self.turned { "turned" } else { "last" }
    }
}

/// States that rows in another order have the same total, in either version.
pub fn total_ignores_order()
    ensures { TotalIgnoresOrder }
{}

/// States that no total is more than that of the first version, if no row's h is more than its `h_all`.
#[tactic(auto, using(crate::proofs::Totals::total_is_at_most_v1))]
pub fn total_is_at_most_v1()
    ensures { TotalIsAtMostV1 }
{}
