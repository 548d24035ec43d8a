//! Images from the bytes of files.

ghost use Rattle.std.specs.Prelude.{◌≡◌, ◌≢◌, ◌≤◌, length, Some, IfOk, IfErr};
ghost use Rattle.bsp_session.specs.Images.{most_bytes, Gives, image_fault};

use crate::errors::SessionError;
use crate::job::Format;
use elf_image::{load, raw};
use node_memory::Image;
use rv_asm::assemble;
use std::alloc::Allocator;

/// The image that the bytes of a file give.
pub fn image_of<A: Allocator + Copy>(
    alloc: A,
    format: Format,
    bytes: &[u8],
) -> Result<Image<A>, SessionError>
    requires { length bytes.now ≤ most_bytes format }
    ensures ok { IfOk result (λ image. Gives format bytes.now image) }
    ensures err { IfErr result (λ e.
        e ≢ SessionError.NoMemory → image_fault format bytes.now ≡ Some e) }
{
    match format {
        Format::Elf { large } => Ok(load(alloc, bytes, large)?),
        Format::Raw { .. } => Ok(raw(alloc, bytes)?),
        Format::Asm { extensions } => Ok(assemble(alloc, extensions, bytes)?),
    }
}
