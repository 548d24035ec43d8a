//! Why a file is not loaded.

use std::alloc::AllocError;
use std::fmt;

/// Why a file is not loaded: the first of these that is found, in the order of [`crate::load`].
///
/// Its text is its name.
#[derive(Clone, Copy, Debug, PartialEq, Eq)]
pub enum ElfError {
    /// The file does not begin with the four bytes of ELF.
    NotElf,
    /// It is not of 32 bits, not little-endian, or of an unknown version of the format.
    NotElf32Little,
    /// It is not an executable file: an object file or a shared library.
    NotExecutable,
    /// It is not for RISC-V.
    NotRiscV,
    /// Its version, a size of its headers, or the number of them is not one that can be.
    BadHeader,
    /// A header, or a segment's bytes, pass the end of the file.
    Truncated,
    /// It asks for a dynamic linker or an interpreter.
    Dynamic,
    /// A segment has more bytes than its size or ends past the addresses of 32 bits, or the segments have more than 2^24
    /// bytes, or 2^28 for a large machine.
    BadSegment,
    /// A request for memory was refused.
    NoMemory,
}

impl fmt::Display for ElfError {
    ghost use Rattle.std.specs.Prelude.{Some};
    ghost use Rattle.elf_image.specs.Faults.{name_of};

    ghost output = { λ error. Some (name_of error) };

    fn fmt<W: fmt::Write>(&self, f: &mut fmt::Formatter<W>) -> fmt::Result {
        f.write_str(match self {
            ElfError::NotElf => "NotElf",
            ElfError::NotElf32Little => "NotElf32Little",
            ElfError::NotExecutable => "NotExecutable",
            ElfError::NotRiscV => "NotRiscV",
            ElfError::BadHeader => "BadHeader",
            ElfError::Truncated => "Truncated",
            ElfError::Dynamic => "Dynamic",
            ElfError::BadSegment => "BadSegment",
            ElfError::NoMemory => "NoMemory",
        })
    }
}

impl From<AllocError> for ElfError {
    ghost use Rattle.std.specs.Prelude.{◌≡◌};
    ghost use Rattle.elf_image.specs.declared.error.ElfError.TheVariants.{NoMemory};

    ghost from_gives = { λ _ e. e ≡ NoMemory };

    fn from(_refused: AllocError) -> ElfError {
        ElfError::NoMemory
    }
}
