//! An ELF file for RISC-V, and its table of program headers.

ghost use Rattle.std.specs.Prelude.{◌≡◌, ◌+◌, ◌<◌, ◌≤◌, ◌^◌, length, None, IfOk};
ghost use Rattle.std.specs.Result.{result_err};
ghost use Rattle.node_memory.specs.Bytes.{bytes_at};
ghost use Rattle.elf_image.specs.Headers.{file_header, program_header_at};
ghost use Rattle.elf_image.specs.Faults.{first_fault, identity_checks, layout_checks, file_header_checks, program_header_checks};
ghost use Rattle.elf_image.specs.Faults.{most_segment_bytes, table_checks};

use crate::error::ElfError;
use crate::headers::{
    EHDR_SIZE, ELF_MAGIC, ELFCLASS32, ELFDATA2LSB, EM_RISCV, ET_EXEC, EV_CURRENT, FileHeader,
    PHDR_SIZE, PN_XNUM, PT_DYNAMIC, PT_INTERP, ProgramHeader,
};
use std::marker::Model;

/// How many addresses of 32 bits there are.
const ADDRESSES: u64 = 1 << 32;

/// The most bytes that the segments of an image have in all, and those of an image for a large machine (own limits).
const MOST_BYTES: u64 = 1 << 24;

const LARGE_BYTES: u64 = 1 << 28;

/// The bytes of a file whose file header has no fault, so that its table of program headers lies in it.
#[derive(Drop)]
pub(crate) struct ElfFile<'a> {
    bytes: &'a [u8],
}

impl<'a> Model for ElfFile<'a> {
    ghost use Rattle.std.specs.Prelude.{◌≡◌, ℕ, List, None};
    ghost use Rattle.elf_image.specs.Faults.{first_fault, file_header_checks};

    ghost Value = { List ℕ };

    ghost view = { λ f. f.bytes.now };

    ghost invariant = { λ f. first_fault (file_header_checks f.bytes.now) ≡ None };
}

impl<'a> ElfFile<'a> {
    /// The file that `bytes` are, by their file header alone.
    pub(crate) fn parse(bytes: &'a [u8]) -> Result<ElfFile<'a>, ElfError>
        ensures same { IfOk result (λ file. file ≡ bytes.now) }
        ensures fault { result_err result ≡ first_fault (file_header_checks bytes.now) }
    {
        if !bytes.starts_with(&ELF_MAGIC) {
            return Err(ElfError::NotElf);
        }
        if bytes.len() < EHDR_SIZE {
            return Err(ElfError::Truncated);
        }
        let header = FileHeader::new(bytes);
        check_identity(&header)?;
        check_layout(bytes.len(), &header)?;
        Ok(ElfFile { bytes })
    }

    pub(crate) fn header(&self) -> FileHeader<'a>
        ensures value { result ≡ file_header self.now }
        ensures valid { first_fault (file_header_checks self.now) ≡ None }
    {
        FileHeader::new(self.bytes)
    }

    /// Entry `i` of the table of program headers.
    pub(crate) fn program_header(&self, i: u16) -> ProgramHeader<'a>
        requires { i < (file_header self.now).e_phnum }
        ensures { result ≡ program_header_at self.now i }
    {
        let start = self.header().e_phoff() as usize + usize::from(i) * PHDR_SIZE;
        ProgramHeader::new(&self.bytes[start..start + PHDR_SIZE])
    }

    /// Looks for the first fault of the program headers.
    pub(crate) fn check_table(&self, large: bool) -> Result<(), ElfError>
        ensures { result_err result ≡ first_fault (table_checks large self.now) }
    {
        let phnum = self.header().e_phnum();
        let mut so_far = 0u64;
        for i in 0..phnum {
            let header = self.program_header(i);
            so_far += u64::from(header.loaded_filesz());
            check_program_header(large, self.bytes.len(), so_far, &header)?;
        }
        Ok(())
    }

    /// The bytes of a segment in the file. If it has none, it may stand anywhere.
    pub(crate) fn segment_bytes(&self, header: &ProgramHeader) -> &'a [u8]
        requires { 0 < header.now.p_filesz
            → header.now.p_offset + header.now.p_filesz ≤ length self.now }
        ensures { result.now ≡ bytes_at self.now header.now.p_offset header.now.p_filesz }
    {
        let len = header.p_filesz() as usize;
        if len == 0 {
            return &[];
        }
        let start = header.p_offset() as usize;
        &self.bytes[start..start + len]
    }
}

/// Whether the file is an executable for RISC-V of 32 bits, little-endian.
fn check_identity(header: &FileHeader) -> Result<(), ElfError>
    ensures { result_err result ≡ first_fault (identity_checks header.now) }
{
    if header.ei_class() != ELFCLASS32
        || header.ei_data() != ELFDATA2LSB
        || header.ei_version() != EV_CURRENT
    {
        return Err(ElfError::NotElf32Little);
    }
    if header.e_type() != ET_EXEC {
        return Err(ElfError::NotExecutable);
    }
    if header.e_machine() != EM_RISCV {
        return Err(ElfError::NotRiscV);
    }
    Ok(())
}

/// Whether the headers' version and sizes are the ones that there are, and their table lies in a file of `len` bytes.
fn check_layout(len: usize, header: &FileHeader) -> Result<(), ElfError>
    ensures { result_err result ≡ first_fault (layout_checks len header.now) }
{
    let phnum = header.e_phnum();
    if header.e_version() != u32::from(EV_CURRENT)
        || usize::from(header.e_ehsize()) != EHDR_SIZE
        || (phnum > 0 && usize::from(header.e_phentsize()) != PHDR_SIZE)
        || phnum == PN_XNUM
    {
        return Err(ElfError::BadHeader);
    }
    let table_end = header.e_phoff() as usize + usize::from(phnum) * PHDR_SIZE;
    if phnum > 0 && table_end > len {
        return Err(ElfError::Truncated);
    }
    Ok(())
}

/// Looks for the first fault of a program header in a file of `len` bytes, if the segments up to and with this one have `so_far` bytes.
fn check_program_header(
    large: bool,
    len: usize,
    so_far: u64,
    header: &ProgramHeader,
) -> Result<(), ElfError>
    ensures { result_err result ≡ first_fault (program_header_checks large len so_far header.now) }
{
    if header.p_type() == PT_DYNAMIC || header.p_type() == PT_INTERP {
        return Err(ElfError::Dynamic);
    }
    if !header.is_load() {
        return Ok(());
    }
    let filesz = header.p_filesz();
    if filesz > header.p_memsz()
        || u64::from(header.p_vaddr()) + u64::from(header.p_memsz()) > ADDRESSES
        || so_far > most_segment_bytes(large)
    {
        return Err(ElfError::BadSegment);
    }
    if filesz > 0 && header.p_offset() as usize + filesz as usize > len {
        return Err(ElfError::Truncated);
    }
    Ok(())
}

/// The most bytes that the segments of an image have in all.
fn most_segment_bytes(large: bool) -> u64
    ensures { result ≡ most_segment_bytes large }
{
    if large { LARGE_BYTES } else { MOST_BYTES }
}
