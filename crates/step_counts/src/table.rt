//! The counts of one rank in one superstep.

ghost use Rattle.std.specs.Prelude.{◌≡◌, ℕ, ◌+◌, ◌^◌, ◌<◌, ◌≤◌, ◌==◌, ◌++◌, length, slice_index, OnOk, None, string_bytes, if◌then◌else◌};
ghost use Rattle.step_counts.specs.Counts.{lines_below};
ghost use Rattle.step_counts.specs.Table.{told, IsEmpty};

use crate::line::write_count;
use std::alloc::{AllocError, Allocator};
use std::marker::Model;

/// So many cells are added at a time: those of a page of code.
const PAGE: usize = 0x1000;

/// How many steps were made at each address. Contracts see what it tells of an address.
///
/// There are cells up to the highest address at which a step was made so far: code lies low in a memory, as a rule, and far from filling
/// it.
#[derive(Drop)]
pub(crate) struct Table<A: Allocator> {
    memory: u32,
    cells: Vec<u64, A>,
    low: usize,
    high: usize,
    outside: Option<u32>,
}

impl<A: Allocator> Model for Table<A> {
    ghost use Rattle.step_counts.specs.Table.{TableState, IsTable};

    ghost Value = { TableState };

    ghost view = { λ t. record { memory = t.memory; cells = t.cells.items; low = t.low; high = t.high; outside = t.outside } };

    ghost invariant = { λ t. IsTable (record { memory = t.memory; cells = t.cells.items; low = t.low; high = t.high; outside = t.outside }) };
}

impl<A: Allocator> Table<A> {
    /// A table for a memory of so many bytes, with no steps.
    pub fn new(alloc: A, memory: u32) -> Table<A>
        ensures memory { result.memory ≡ memory }
        ensures empty { IsEmpty result }
    {
        Table {
            memory,
            cells: Vec::new(alloc),
            low: memory as usize,
            high: 0,
            outside: None,
        }
    }

    /// Counts one more step at an address. At addresses past the memory there is one step at most.
    ///
    /// # Errors
    /// If memory is refused.
    // For speed: nearly each address lies between two at which steps were made, where one cell is all that changes.
    #[inline]
    pub fn add(&mut self, address: u32) -> Result<(), AllocError>
        requires few { told self.old address < 2 ^ 63 }
        requires outside { self.old.memory ≤ address → self.old.outside ≡ None }
        ensures told { OnOk result ((other : ℕ) → told self.new other ≡ told self.old other + (if address == other then 1 else 0)) }
        ensures memory { self.new.memory ≡ self.old.memory }
        ensures inside { address < self.old.memory → self.new.outside ≡ self.old.outside }
    {
        let at = address as usize;
        if at < self.low || at >= self.high {
            return self.add_beyond(address);
        }
        self.cells[at] += 1;
        Ok(())
    }

    /// The same wherever the address lies.
    #[cold]
    #[inline(never)]
    fn add_beyond(&mut self, address: u32) -> Result<(), AllocError>
        requires few { told self.old address < 2 ^ 63 }
        requires outside { self.old.memory ≤ address → self.old.outside ≡ None }
        ensures told { OnOk result ((other : ℕ) → told self.new other ≡ told self.old other + (if address == other then 1 else 0)) }
        ensures memory { self.new.memory ≡ self.old.memory }
        ensures inside { address < self.old.memory → self.new.outside ≡ self.old.outside }
    {
        if address >= self.memory {
            self.outside = Some(address);
            return Ok(());
        }
        let at = address as usize;
        self.reach(at)?;
        self.cells[at] += 1;
        self.low = self.low.min(at);
        self.high = self.high.max(at + 1);
        Ok(())
    }

    /// Makes sure that an address of the memory has a cell.
    ///
    /// # Errors
    /// If memory is refused.
    #[inline]
    fn reach(&mut self, at: usize) -> Result<(), AllocError>
        requires { at < self.old.memory }
        ensures there { OnOk result (at < length self.new.cells) }
        ensures cells { (k : ℕ) → slice_index self.new.cells k ≡ slice_index self.old.cells k }
        ensures rest { self.new ≡ record self.old { cells = self.new.cells } }
    {
        if at >= self.cells.len() {
            let end = ((at / PAGE + 1) * PAGE).min(self.memory as usize);
            self.cells.resize(end, 0)?;
        }
        Ok(())
    }

    /// Appends the lines of the addresses at which steps were made.
    ///
    /// # Errors
    /// If memory is refused.
    pub fn write_lines(
        &self,
        superstep: u64,
        rank: u32,
        text: &mut String<A>,
    ) -> Result<(), AllocError>
        ensures { OnOk result (string_bytes text.new
            ≡ string_bytes text.old ++ lines_below (2 ^ 32) superstep rank (told self.now)) }
    {
        for address in self.low..self.high {
            write_count(superstep, rank, address as u32, self.cells[address], text)?;
        }
        if let Some(address) = self.outside {
            write_count(superstep, rank, address, 1, text)?;
        }
        Ok(())
    }

    /// Forgets all steps.
    pub fn clear(&mut self)
        ensures memory { self.new.memory ≡ self.old.memory }
        ensures empty { IsEmpty self.new }
    {
        for address in self.low..self.high {
            self.cells[address] = 0;
        }
        self.low = self.memory as usize;
        self.high = 0;
        self.outside = None;
    }
}
