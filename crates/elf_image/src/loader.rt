//! Loads images from files.

ghost use Rattle.std.specs.Prelude.{Bool, ◌≡◌, ◌≢◌, ◌+◌, ◌<◌, ◌≤◌, ◌^◌, ◌↔◌, length, Some, None, IfOk, IfErr, OnOk, IsErrOf};
ghost use Rattle.elf_image.specs.declared.error.ElfError.{ElfError as ElfErrorValue};
ghost use Rattle.elf_image.specs.Presents.{segment_of as segment_value, Presents, raw_image as raw_value};
ghost use Rattle.elf_image.specs.Faults.{first_fault, table_checks, file_fault};

use crate::error::ElfError;
use crate::file::ElfFile;
use crate::headers::ProgramHeader;
use list_vec::ListVec;
use node_memory::{Image, Segment};
use std::alloc::{AllocError, Allocator};

/// The image that an ELF file presents: an executable for RISC-V of 32 bits, of which nothing is left to a dynamic linker
/// (System V ABI, chapters 4 and 5). The file has at most 256 MiB. An image for a large machine may have more bytes.
///
/// Sections, symbols and headers of other types are skipped. Nothing is copied before the file is known to have no fault.
///
/// # Errors
///
/// The file's first fault. [`ElfError::NoMemory`] comes only of a file that has none.
pub fn load<A: Allocator + Copy>(alloc: A, bytes: &[u8], large: bool) -> Result<Image<A>, ElfError>
    requires { length bytes.now ≤ 2 ^ 28 }
    ensures ok { IfOk result (λ image. Presents bytes.now image) }
    ensures faultless { OnOk result (file_fault large bytes.now ≡ None) }
    ensures err { IfErr result (λ e. e ≢ ElfError.NoMemory → file_fault large bytes.now ≡ Some e) }

    // A file's fault is answered whatever memory there is, and want of memory only of a file that has none.
    ensures fault { (e : ElfErrorValue) → (file_fault large bytes.now ≡ Some e)
        ↔ (IsErrOf result e × (e ≢ ElfError.NoMemory)) }
{
    let file = ElfFile::parse(bytes)?;
    file.check_table(large)?;
    let image = image_of(alloc, &file)?;
    Ok(image)
}

/// The image of a raw file, of at most 256 MiB: its bytes from address 0 on, where it starts. An empty file has no segment.
pub fn raw<A: Allocator + Copy>(alloc: A, bytes: &[u8]) -> Result<Image<A>, AllocError>
    requires { length bytes.now ≤ 2 ^ 28 }
    ensures { IfOk result (λ image. image ≡ raw_value bytes.now) }
{
    let mut segments = Vec::new(alloc);
    if !bytes.is_empty() {
        let segment = Segment {
            addr: 0,
            bytes: ListVec::from_vec(Vec::from_slice(alloc, bytes)?),
            size: bytes.len() as u32,
        };
        segments.push(segment)?;
    }
    Ok(Image {
        entry: 0,
        segments: ListVec::from_vec(segments),
    })
}

/// The image of a file with no fault.
fn image_of<A: Allocator + Copy>(alloc: A, file: &ElfFile) -> Result<Image<A>, AllocError>
    requires { (large : Bool) × (first_fault (table_checks large file.now) ≡ None) }
    ensures { IfOk result (λ image. Presents file.now image) }
{
    let header = file.header();
    let phnum = header.e_phnum();
    let mut segments = Vec::new(alloc);
    for i in 0..phnum {
        let header = file.program_header(i);
        if header.is_load() {
            let segment = segment_of(alloc, file, &header)?;
            segments.push(segment)?;
        }
    }
    Ok(Image {
        entry: header.e_entry(),
        segments: ListVec::from_vec(segments),
    })
}

/// The segment of a program header.
fn segment_of<A: Allocator>(
    alloc: A,
    file: &ElfFile,
    header: &ProgramHeader,
) -> Result<Segment<A>, AllocError>
    requires holds_bytes { header.now.p_filesz ≤ header.now.p_memsz }
    requires in_addresses { header.now.p_vaddr + header.now.p_memsz ≤ 2 ^ 32 }
    requires in_file { 0 < header.now.p_filesz
        → header.now.p_offset + header.now.p_filesz ≤ length file.now }
    ensures { IfOk result (λ segment. segment ≡ segment_value file.now header.now) }
{
    let bytes = file.segment_bytes(header);
    Ok(Segment {
        addr: header.p_vaddr(),
        bytes: ListVec::from_vec(Vec::from_slice(alloc, bytes)?),
        size: header.p_memsz(),
    })
}
