//! The labels of a text.

ghost use Rattle.std.specs.Prelude.{◌≡◌, ◌⊎◌, List, ℕ, map, IsSome, is_some, OnOk, IfErr, None, true, false};
ghost use Rattle.rv_asm.specs.Faults.{has_duplicate};
ghost use Rattle.rv_asm.specs.Labels.{symbols};
ghost use Rattle.rv_asm.specs.Symbols.{no_symbols, with_symbol, with_labels};

use crate::errors::AsmKind;
use std::alloc::Allocator;
use std::collections::BTreeMap;

/// The labels so far, with their addresses.
#[derive(Drop)]
pub struct Labels<'a, A: Allocator> {
    addresses: BTreeMap<&'a [u8], u32, A>,
}

impl<'a, A: Allocator + Copy> Labels<'a, A> {
    pub fn new(alloc: A) -> Self
        ensures { (q : List ℕ) → symbols result q ≡ no_symbols q }
    {
        Labels {
            addresses: BTreeMap::new(alloc),
        }
    }

    /// The address of a label.
    pub fn get(&self, name: &[u8]) -> Option<u32>
        ensures { result ≡ symbols self.now name.now }
    {
        self.addresses.get(name).copied()
    }

    /// Adds a label that is not there yet.
    pub fn define(&mut self, name: &'a [u8], address: u32) -> Result<(), AsmKind>
        ensures ok { OnOk result ((q : List ℕ) → symbols self.new q ≡ with_symbol (symbols self.old) name.entry.now address q) }
        ensures absent { OnOk result (symbols self.old name.entry.now ≡ None) }
        ensures err { IfErr result (λ kind. (kind ≡ AsmKind.NoMemory)
            ⊎ ((kind ≡ AsmKind.DuplicateLabel) × IsSome (symbols self.old name.entry.now))) }
    {
        match self.addresses.insert(name, address) {
            Ok(None) => Ok(()),
            Ok(Some(_)) => Err(AsmKind::DuplicateLabel),
            Err(_) => Err(AsmKind::NoMemory),
        }
    }

    /// Adds the labels of a line.
    pub fn define_all(&mut self, names: &[&'a [u8]], address: u32) -> Result<(), AsmKind>
        ensures ok { OnOk result ((q : List ℕ) → symbols self.new q
            ≡ with_labels (symbols self.old) (map (λ name. name.now) names.now) address q) }
        ensures distinct { OnOk result (has_duplicate (λ q. is_some (symbols self.old q)) (map (λ name. name.now) names.now) ≡ false) }
        ensures err { IfErr result (λ kind. (kind ≡ AsmKind.NoMemory) ⊎ ((kind ≡ AsmKind.DuplicateLabel)
            × (has_duplicate (λ q. is_some (symbols self.old q)) (map (λ name. name.now) names.now) ≡ true))) }
    {
        for name in names {
            self.define(*name, address)?;
        }
        Ok(())
    }
}
