//! The image of a text.

ghost use Rattle.std.specs.Prelude.{◌≡◌, ◌≢◌, ◌^◌, ◌≤◌, length, None, Some, vec_len, OnOk, IfOk, IfErr};
ghost use Rattle.rv_asm.specs.Faults.{text_fault};
ghost use Rattle.node_memory.specs.Image.{segments_from_0};
ghost use Rattle.rv_asm.specs.Text.{IsImageOfText};

use crate::errors::{AsmError, AsmKind};
use crate::first_pass::define_labels;
use crate::program::Program;
use crate::second_pass::write_lines;
use list_vec::ListVec;
use node_memory::{Image, Segment};
use rv_atomics::Extensions;
use std::alloc::{AllocError, Allocator};

/// A program as an image: one segment at 0 with all its bytes, and none if there are none.
fn image_of<A: Allocator + Copy>(alloc: A, program: Program<A>) -> Result<Image<A>, AllocError>
    requires { vec_len program.bytes ≤ 2 ^ 24 }
    ensures entry { IfOk result (λ image. image.entry ≡ program.entry) }
    ensures segments { IfOk result (λ image. image.segments ≡ segments_from_0 program.bytes.items) }
{
    let Program { bytes, entry } = program;
    let mut segments = Vec::new(alloc);
    if !bytes.is_empty() {
        segments.push(Segment {
            addr: 0,
            size: bytes.len() as u32,
            bytes: ListVec::from_vec(bytes),
        })?;
    }
    Ok(Image {
        entry,
        segments: ListVec::from_vec(segments),
    })
}

/// The image of an assembly text, or its first fault. The language has the statements of some extensions.
///
/// The text has at most 4 MiB, of any bytes. It is gone through twice: once for the addresses of its labels, and once for
/// its bytes. Its labels are kept in an ordered map.
pub fn assemble<A: Allocator + Copy>(
    alloc: A,
    extensions: Extensions,
    text: &[u8],
) -> Result<Image<A>, AsmError>
    requires { length text.now ≤ 2 ^ 22 }
    ensures ok { IfOk result (λ image. IsImageOfText extensions text.now image) }
    ensures faultless { OnOk result (text_fault extensions text.now ≡ None) }
    ensures err { IfErr result (λ e. e.kind ≢ AsmKind.NoMemory → text_fault extensions text.now ≡ Some (e.line, e.kind)) }
    ensures no_memory { IfErr result (λ e. e.kind ≡ AsmKind.NoMemory → e.line ≡ 0) }
{
    let labels = define_labels(alloc, extensions, text)?;
    let program = write_lines(alloc, extensions, &labels, text)?;
    Ok(image_of(alloc, program)?)
}
