//! Writes an image as a file.

ghost use Rattle.std.specs.Prelude.{◌≡◌, ◌+◌, ◌*◌, ◌≤◌, ◌<◌, ◌^◌, ◌++◌, length, IfOk, OnOk};
ghost use Rattle.std.specs.List.{flat_map};
ghost use Rattle.elf_image.specs.Spelling.{half, word, spelling_of, spelled_file_header, spelled_program_header};

use crate::headers::{E_IDENT, EHDR_SIZE, EM_RISCV, ET_EXEC, EV_CURRENT, PHDR_SIZE, PT_LOAD};
use byteorder::{ByteOrder, LittleEndian};
use node_memory::{Image, Segment};
use std::alloc::{AllocError, Allocator};

/// PF_R, PF_W and PF_X: a segment may be read, written and executed.
const PF_RWX: u32 = 7;

/// The file that an image is saved as, which [`crate::load`] gives back as the same image (System V ABI, chapters 4 and
/// 5): the file header, a PT_LOAD header for each segment, and then the segments' bytes, without gaps.
pub fn save<A: Allocator + Copy>(alloc: A, image: &Image<A>) -> Result<Vec<u8, A>, AllocError>
    ensures { IfOk result (λ file. file.items ≡ spelling_of image.now) }
{
    let segments = image.segments.as_slice();
    let mut out = Vec::new(alloc);
    put_file_header(&mut out, image.entry, segments.len() as u16)?;
    let mut offset = EHDR_SIZE + segments.len() * PHDR_SIZE;
    for segment in segments {
        put_program_header(&mut out, offset as u32, segment)?;
        offset += segment.bytes.len();
    }
    for segment in segments {
        out.extend_from_slice(segment.bytes.as_slice())?;
    }
    Ok(out)
}

/// Appends the file header of an image with `phnum` segments.
fn put_file_header<A: Allocator>(
    out: &mut Vec<u8, A>,
    entry: u32,
    phnum: u16,
) -> Result<(), AllocError>
    ensures { OnOk result (out.new.items ≡ out.old.items ++ spelled_file_header entry phnum) }
{
    out.extend_from_slice(&E_IDENT)?;
    let e_type_and_machine = [ET_EXEC, EM_RISCV];
    put_halves(out, &e_type_and_machine)?;
    let e_version_to_flags = [EV_CURRENT as u32, entry, EHDR_SIZE as u32, 0, 0];
    put_words(out, &e_version_to_flags)?;
    let e_ehsize_to_shstrndx = [EHDR_SIZE as u16, PHDR_SIZE as u16, phnum, 0, 0, 0];
    put_halves(out, &e_ehsize_to_shstrndx)
}

/// Appends the program header of a segment whose bytes begin at `offset`.
fn put_program_header<A: Allocator>(
    out: &mut Vec<u8, A>,
    offset: u32,
    segment: &Segment<A>,
) -> Result<(), AllocError>
    requires { length segment.now.bytes < 2 ^ 32 }
    ensures { OnOk result
        (out.new.items ≡ out.old.items ++ spelled_program_header offset segment.now) }
{
    let fields = [
        PT_LOAD, // p_type
        offset, // p_offset
        segment.addr, // p_vaddr
        segment.addr, // p_paddr
        segment.bytes.len() as u32, // p_filesz
        segment.size, // p_memsz
        PF_RWX, // p_flags
        1, // p_align
    ];
    put_words(out, &fields)
}

/// Appends numbers of two bytes.
fn put_halves<A: Allocator>(out: &mut Vec<u8, A>, numbers: &[u16]) -> Result<(), AllocError>
    ensures { OnOk result (out.new.items ≡ out.old.items ++ flat_map half numbers.now) }
{
    for number in numbers {
        let mut bytes = [0; 2];
        LittleEndian::write_u16(&mut bytes, *number);
        out.extend_from_slice(&bytes)?;
    }
    Ok(())
}

/// Appends numbers of four bytes.
fn put_words<A: Allocator>(out: &mut Vec<u8, A>, numbers: &[u32]) -> Result<(), AllocError>
    ensures { OnOk result (out.new.items ≡ out.old.items ++ flat_map word numbers.now) }
{
    for number in numbers {
        let mut bytes = [0; 4];
        LittleEndian::write_u32(&mut bytes, *number);
        out.extend_from_slice(&bytes)?;
    }
    Ok(())
}
