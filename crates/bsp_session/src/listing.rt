//! The sessions that run nothing: the listing of an image, and the image of a text.

ghost use Rattle.std.specs.Prelude.{◌≡◌, ◌≢◌, ◌≤◌, ◌⊎◌, ◌++◌, List, [], IfErr, OnOk, string_bytes};
ghost use Rattle.std.specs.List.{flat_map};
ghost use Rattle.std.specs.Io.KnownBytes.{Appends};
ghost use Rattle.rv_atomics.specs.declared.extensions.Extensions.{Extensions};
ghost use Rattle.elf_image.specs.Spelling.{spelling_of};
ghost use Rattle.rv_listing.specs.declared.lines.Line.{Line};
ghost use Rattle.rv_listing.specs.Listing.{ended_line, listing_of, listing_of_segment};
ghost use Rattle.bsp_session.specs.Conversion.{AnswersAssembly, AnswersListing, IsErrorOfAssembly, IsErrorOfLines, IsErrorOfListing};
ghost use Rattle.bsp_session.specs.Conversion.{ListsFirstLines, ReadsImage, conversion_of, lines_of_image, lines_of_segment};
ghost use Rattle.bsp_session.specs.Streams.{Stream, stream};

use crate::errors::SessionError;
use crate::images::image_of;
use crate::job::Format;
use counted_io::{Counted, read_at_most, write_whole};
use elf_image::save;
use node_memory::{Image, Segment};
use rv_atomics::Extensions;
use rv_listing::{Lines, ShownLine};
use std::alloc::Allocator;
use std::io::{Read, Write};

/// How many bytes of a listing are gathered before they are written.
const BLOCK: usize = 1 << 16;

/// Writes the listing of the image that `image` gives to `out`: a line for each word, segment by segment. Instructions of these
/// extensions have their names in it, and those of others are data. The reader is read to its end.
///
/// # Errors
/// That of the first stage that failed:
///
/// 1. [`SessionError::TooLong`] or [`SessionError::ReadFault`].
/// 2. [`SessionError::Text`] or [`SessionError::BadImage`].
/// 3. [`SessionError::WriteFault`], after some first bytes of the listing, and not all, were written.
///
/// [`SessionError::NoMemory`] is answered where a request for memory was refused, which may be after some first lines of
/// the listing, each whole, were written.
pub fn list_session<A: Allocator + Copy, I: Read, W: Write>(
    alloc: A,
    format: Format,
    extensions: Extensions,
    image: &mut Counted<I>,
    out: &mut Counted<W>,
) -> Result<(), SessionError>
    ensures ok { OnOk result (AnswersListing extensions (conversion_of
        (stream I.remaining image.old image.new) (stream W.contents out.old out.new) format)) }
    ensures err { IfErr result (λ e. IsErrorOfListing extensions (conversion_of
        (stream I.remaining image.old image.new) (stream W.contents out.old out.new) format) e) }
    // A writer that is not written to stays as it was, also where its bytes are not known.
    ensures nothing_written { IfErr result (λ e. e ≢ SessionError.WriteFault
        → (out.new ≡ out.old) ⊎ ((e ≡ SessionError.NoMemory) × ListsFirstLines extensions (conversion_of
        (stream I.remaining image.old image.new) (stream W.contents out.old out.new) format))) }
{
    let bytes = read_at_most(alloc, image, format.most_bytes())?;
    let image = image_of(alloc, format, bytes.as_slice())?;
    write_listing(alloc, extensions, &image, out)
}

/// Assembles the text that `text` gives, in the language with the statements of some extensions, and writes its image to `out` as an ELF
/// file. The reader is read to its end.
///
/// # Errors
/// As [`list_session`], with the saved image in the place of the listing. What is read is a text, so it is refused as
/// [`SessionError::Text`] alone; [`SessionError::NoMemory`] comes before anything is written.
pub fn asm_session<A: Allocator + Copy, T: Read, W: Write>(
    alloc: A,
    extensions: Extensions,
    text: &mut Counted<T>,
    out: &mut Counted<W>,
) -> Result<(), SessionError>
    ensures ok { OnOk result (AnswersAssembly (conversion_of
        (stream T.remaining text.old text.new) (stream W.contents out.old out.new) (Format.Asm extensions))) }
    ensures err { IfErr result (λ e. IsErrorOfAssembly (conversion_of
        (stream T.remaining text.old text.new) (stream W.contents out.old out.new) (Format.Asm extensions)) e) }
    // A writer that is not written to stays as it was, also where its bytes are not known.
    ensures nothing_written { IfErr result (λ e. e ≢ SessionError.WriteFault → out.new ≡ out.old) }
{
    let format = Format::Asm { extensions };
    let bytes = read_at_most(alloc, text, format.most_bytes())?;
    let image = image_of(alloc, format, bytes.as_slice())?;
    write_saved(alloc, &image, out)
}

/// Writes an image as an ELF file, which is whole before its first byte is written.
fn write_saved<A: Allocator + Copy, W: Write>(
    alloc: A,
    image: &Image<A>,
    out: &mut Counted<W>,
) -> Result<(), SessionError>
    ensures ok { OnOk result
        (Appends (W.contents out.old.inner) (W.contents out.new.inner) (spelling_of image.now)) }
    // For a text that was read, and has this image.
    ensures err { IfErr result (λ e. (text : Stream) (extensions : Extensions)
        → ReadsImage (conversion_of text (stream W.contents out.old out.new) (Format.Asm extensions)) image.now
        → IsErrorOfAssembly (conversion_of text (stream W.contents out.old out.new) (Format.Asm extensions)) e) }
    ensures nothing_written { IfErr result (λ e. e ≢ SessionError.WriteFault → out.new ≡ out.old) }
{
    let file = save(alloc, image)?;
    Ok(write_whole(out, file.as_slice())?)
}

/// Writes the listing of an image.
fn write_listing<A: Allocator + Copy, W: Write>(
    alloc: A,
    extensions: Extensions,
    image: &Image<A>,
    out: &mut Counted<W>,
) -> Result<(), SessionError>
    ensures ok { OnOk result
        (Appends (W.contents out.old.inner) (W.contents out.new.inner) (listing_of extensions image.now)) }
    ensures err { IfErr result (λ e.
        IsErrorOfLines extensions (stream W.contents out.old out.new) (lines_of_image image.now) e) }
{
    for segment in image.segments.as_slice() {
        write_segment(alloc, extensions, segment, out)?;
    }
    Ok(())
}

/// Writes the listing of a segment, in blocks.
fn write_segment<A: Allocator + Copy, W: Write>(
    alloc: A,
    extensions: Extensions,
    segment: &Segment<A>,
    out: &mut Counted<W>,
) -> Result<(), SessionError>
    ensures ok { OnOk result (Appends
        (W.contents out.old.inner) (W.contents out.new.inner) (listing_of_segment extensions segment.now)) }
    ensures err { IfErr result (λ e.
        IsErrorOfLines extensions (stream W.contents out.old out.new) (lines_of_segment segment.now) e) }
    ensures never_falls { out.old.failures ≤ out.new.failures }
{
    let mut block = String::new(alloc);
    write_blocks(extensions, segment, &mut block, out)?;
    Ok(write_whole(out, block.as_bytes())?)
}

/// Writes the listing of a segment up to its last block, which is left in `block`.
fn write_blocks<A: Allocator + Copy, W: Write>(
    extensions: Extensions,
    segment: &Segment<A>,
    block: &mut String<A>,
    out: &mut Counted<W>,
) -> Result<(), SessionError>
    requires { string_bytes block.old ≡ [] }
    ensures ok { OnOk result ((done waiting : List Line)
        × (lines_of_segment segment.now ≡ done ++ waiting)
        × Appends (W.contents out.old.inner) (W.contents out.new.inner) (flat_map (ended_line extensions) done)
        × (string_bytes block.new ≡ flat_map (ended_line extensions) waiting)) }
    ensures err { IfErr result (λ e.
        IsErrorOfLines extensions (stream W.contents out.old out.new) (lines_of_segment segment.now) e) }
    ensures never_falls { out.old.failures ≤ out.new.failures }
{
    for line in Lines::new(segment) {
        writeln!(block, "{}", ShownLine { line, extensions })?;
        if block.len() >= BLOCK {
            write_whole(out, block.as_bytes())?;
            block.clear();
        }
    }
    Ok(())
}
