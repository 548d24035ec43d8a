//! Replies with a header before each.

ghost use Rattle.std.specs.Prelude.{◌≡◌, IfOk, string_bytes};
ghost use Rattle.counted_io.specs.Framed.{framed_text as framed_text_of, header_text, line_count as line_count_of};

use std::alloc::{AllocError, Allocator};

/// A reply after its header: `done 2` or `refused 1`, with the number of its lines. It is an error only if memory is refused.
pub fn framed_text<A: Allocator>(
    alloc: A,
    refused: bool,
    reply: &[u8],
) -> Result<Vec<u8, A>, AllocError>
    ensures { IfOk result (λ text. text.items ≡ framed_text_of refused reply.now) }
{
    let mut text = header(alloc, refused, line_count(reply))?.into_bytes();
    text.extend_from_slice(reply)?;
    Ok(text)
}

/// The header of a reply of so many lines.
fn header<A: Allocator>(alloc: A, refused: bool, lines: usize) -> Result<String<A>, AllocError>
    ensures { IfOk result (λ text. string_bytes text ≡ header_text refused lines) }
{
    if refused {
        format!(in alloc; "refused {lines}\n")
    } else {
        format!(in alloc; "done {lines}\n")
    }
}

/// How many lines a text has: each ends with a line feed.
fn line_count(text: &[u8]) -> usize
    ensures { result ≡ line_count_of text.now }
{
    let mut count = 0;
    for byte in text {
        if *byte == b'\n' {
            count += 1;
        }
    }
    count
}
