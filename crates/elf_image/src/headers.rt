//! The headers of a file, read in place, by the names of the System V ABI.

ghost use Rattle.std.specs.Prelude.{◌≡◌, ◌≤◌, length, if◌then◌else◌};

use byteorder::{ByteOrder, LittleEndian};
use std::marker::Model;

/// The bytes of a file header, and of a program header.
pub(crate) const EHDR_SIZE: usize = 52;

pub(crate) const PHDR_SIZE: usize = 32;

/// EI_MAG0 to EI_MAG3: the four bytes that every ELF file begins with.
pub(crate) const ELF_MAGIC: [u8; 4] = [0x7F, b'E', b'L', b'F'];

pub(crate) const ELFCLASS32: u8 = 1;

pub(crate) const ELFDATA2LSB: u8 = 1;

pub(crate) const EV_CURRENT: u8 = 1;

pub(crate) const ET_EXEC: u16 = 2;

pub(crate) const EM_RISCV: u16 = 243;

pub(crate) const PN_XNUM: u16 = 0xFFFF;

/// e_ident of a file that is saved: nine zeros follow, since it has no extensions of any system.
pub(crate) const E_IDENT: [u8; 16] = [
    0x7F,
    b'E',
    b'L',
    b'F',
    ELFCLASS32,
    ELFDATA2LSB,
    EV_CURRENT,
    0,
    0,
    0,
    0,
    0,
    0,
    0,
    0,
    0,
];

pub(crate) const PT_LOAD: u32 = 1;

pub(crate) const PT_DYNAMIC: u32 = 2;

pub(crate) const PT_INTERP: u32 = 3;

/// The file header at the start of a file.
#[derive(Drop)]
pub(crate) struct FileHeader<'a> {
    bytes: &'a [u8],
}

impl<'a> Model for FileHeader<'a> {
    ghost use Rattle.std.specs.Prelude.{◌≤◌, length};
    ghost use Rattle.elf_image.specs.Headers.{FileHeader as FileHeaderValue, file_header, ehdr_size};

    ghost Value = { FileHeaderValue };

    ghost view = { λ h. file_header h.bytes.now };

    ghost invariant = { λ h. ehdr_size ≤ length h.bytes.now };
}

#[tactic(auto, unfolding(crate::specs::Headers::file_header), using(crate::proofs::Fields::fields))]
impl<'a> FileHeader<'a> {
    ghost use Rattle.elf_image.specs.Headers.{file_header, ehdr_size};

    pub(crate) fn new(bytes: &'a [u8]) -> FileHeader<'a>
        requires { ehdr_size ≤ length bytes.now }
        ensures { result ≡ file_header bytes.now }
    {
        FileHeader { bytes }
    }

    pub(crate) fn ei_class(&self) -> u8
        ensures { result ≡ self.now.ei_class }
    {
        self.bytes[4]
    }

    pub(crate) fn ei_data(&self) -> u8
        ensures { result ≡ self.now.ei_data }
    {
        self.bytes[5]
    }

    pub(crate) fn ei_version(&self) -> u8
        ensures { result ≡ self.now.ei_version }
    {
        self.bytes[6]
    }

    pub(crate) fn e_type(&self) -> u16
        ensures { result ≡ self.now.e_type }
    {
        LittleEndian::read_u16(&self.bytes[16..])
    }

    pub(crate) fn e_machine(&self) -> u16
        ensures { result ≡ self.now.e_machine }
    {
        LittleEndian::read_u16(&self.bytes[18..])
    }

    pub(crate) fn e_version(&self) -> u32
        ensures { result ≡ self.now.e_version }
    {
        LittleEndian::read_u32(&self.bytes[20..])
    }

    pub(crate) fn e_entry(&self) -> u32
        ensures { result ≡ self.now.e_entry }
    {
        LittleEndian::read_u32(&self.bytes[24..])
    }

    pub(crate) fn e_phoff(&self) -> u32
        ensures { result ≡ self.now.e_phoff }
    {
        LittleEndian::read_u32(&self.bytes[28..])
    }

    pub(crate) fn e_ehsize(&self) -> u16
        ensures { result ≡ self.now.e_ehsize }
    {
        LittleEndian::read_u16(&self.bytes[40..])
    }

    pub(crate) fn e_phentsize(&self) -> u16
        ensures { result ≡ self.now.e_phentsize }
    {
        LittleEndian::read_u16(&self.bytes[42..])
    }

    pub(crate) fn e_phnum(&self) -> u16
        ensures { result ≡ self.now.e_phnum }
    {
        LittleEndian::read_u16(&self.bytes[44..])
    }
}

/// A program header: 32 bytes of a file.
#[derive(Drop)]
pub(crate) struct ProgramHeader<'a> {
    bytes: &'a [u8],
}

impl<'a> Model for ProgramHeader<'a> {
    ghost use Rattle.std.specs.Prelude.{◌≤◌, length};
    ghost use Rattle.elf_image.specs.Headers.{ProgramHeader as ProgramHeaderValue, program_header, phdr_size};

    ghost Value = { ProgramHeaderValue };

    ghost view = { λ p. program_header p.bytes.now };

    ghost invariant = { λ p. phdr_size ≤ length p.bytes.now };
}

#[tactic(auto, unfolding(crate::specs::Headers::program_header), using(crate::proofs::Fields::fields))]
impl<'a> ProgramHeader<'a> {
    ghost use Rattle.elf_image.specs.Headers.{program_header, phdr_size, is_load};

    pub(crate) fn new(bytes: &'a [u8]) -> ProgramHeader<'a>
        requires { phdr_size ≤ length bytes.now }
        ensures { result ≡ program_header bytes.now }
    {
        ProgramHeader { bytes }
    }

    pub(crate) fn p_type(&self) -> u32
        ensures { result ≡ self.now.p_type }
    {
        LittleEndian::read_u32(self.bytes)
    }

    pub(crate) fn p_offset(&self) -> u32
        ensures { result ≡ self.now.p_offset }
    {
        LittleEndian::read_u32(&self.bytes[4..])
    }

    pub(crate) fn p_vaddr(&self) -> u32
        ensures { result ≡ self.now.p_vaddr }
    {
        LittleEndian::read_u32(&self.bytes[8..])
    }

    pub(crate) fn p_filesz(&self) -> u32
        ensures { result ≡ self.now.p_filesz }
    {
        LittleEndian::read_u32(&self.bytes[16..])
    }

    pub(crate) fn p_memsz(&self) -> u32
        ensures { result ≡ self.now.p_memsz }
    {
        LittleEndian::read_u32(&self.bytes[20..])
    }

    /// Whether it is of a segment to be loaded.
    pub(crate) fn is_load(&self) -> bool
        ensures { result ≡ is_load self.now }
    {
        self.p_type() == PT_LOAD
    }

    /// The bytes of the file that it loads: none for a header of another type.
    pub(crate) fn loaded_filesz(&self) -> u32
        ensures { result ≡ (if is_load self.now then self.now.p_filesz else 0) }
    {
        if self.is_load() { self.p_filesz() } else { 0 }
    }
}
