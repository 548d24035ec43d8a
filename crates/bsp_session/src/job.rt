//! What a session is asked to do.

use cost_ledger::LedgerText;
use machine_core::Settings;
use rv_atomics::Extensions;

/// The most bytes of an ELF file or a raw file for a large machine.
const LARGE_BYTES: usize = 1 << 28;

/// How the bytes of an image file are read.
#[derive(Clone, Copy)]
pub enum Format {
    /// An ELF file: a static executable of 32 bits for RISC-V; at most 2^25 bytes, or 2^28 for a large machine.
    Elf { large: bool },
    /// The bytes are the memory's, from address 0 on, and pc starts there; there are at most 2^24 of them, or 2^28 for a large machine.
    Raw { large: bool },
    /// A text in assembly language with the statements of some extensions; at most 2^22 bytes.
    Asm { extensions: Extensions },
}

impl Format {
    ghost use Rattle.std.specs.Prelude.{◌≡◌};
    ghost use Rattle.bsp_session.specs.Images.{most_bytes as most_bytes_of};

    /// The most bytes of a file in this format (own limits).
    pub fn most_bytes(self) -> usize
        ensures { result ≡ most_bytes_of self }
    {
        match self {
            Format::Elf { large } => { if large { LARGE_BYTES } else { 1 << 25 } }
            Format::Raw { large } => { if large { LARGE_BYTES } else { 1 << 24 } }
            Format::Asm { .. } => 1 << 22,
        }
    }
}

/// How the image is read, the machine that runs it, by how many threads, and what is told of the run.
#[derive(Clone, Copy)]
pub struct Job {
    pub format: Format,
    /// Settings may be out of their ranges; a session then refuses them.
    pub settings: Settings,
    /// How many threads run the nodes at most, the caller's among them: 1 to 64. It has no part in what is written.
    pub workers: u32,
    /// How many steps a node makes at most before another may have its thread: 1 to 1,048,576. It has no part in what is written.
    pub slice: u64,
    /// Whether the costs of the supersteps, their total and the outcome follow the output.
    pub report: bool,
    /// The version in which costs are told.
    pub ledger: LedgerText,
    /// The price of a byte of the h-relation, in ticks.
    pub g: u32,
    /// The price of a superstep's end, in ticks.
    pub l: u32,
}
