//! Strings.

ghost use Rattle.std.specs.Prelude.{◌≡◌, ◌≤◌, ◌<◌, ◌+◌, ◌∷◌, IfSome, IfOk, length};
ghost use Rattle.std.specs.Option.{option_map, option_and_then};
ghost use Rattle.asm_syntax.specs.TokenViews.{unescaped};
ghost use Rattle.asm_syntax.specs.Tokens.{text_from};

use crate::bytes;
use std::alloc::{AllocError, Allocator};

/// How many bytes spell the string that a line begins with, after its first `"`; the `"` at its end is one of them. None if the string has
/// no end, or a byte or an escape that strings do not have.
pub(crate) fn text_len(line: &[u8]) -> Option<usize>
    ensures len { result ≡ option_map (λ t. t.len) (text_from line.now) }
    ensures within { IfSome result (λ n. (0 < n) × (n ≤ length line.now)) }
{
    let mut rest = line;
    while let [byte, behind @ ..] = rest {
        rest = match *byte {
            b'"' => return Some(line.len() - behind.len()),
            b'\\' => behind_escape(behind)?,
            plain if bytes::is_plain(plain) => behind,
            _ => return None,
        };
    }
    None
}

/// What a string goes on with after an escape, by what is after its `\`. None if that begins no escape.
fn behind_escape(rest: &[u8]) -> Option<&[u8]>
    ensures string { option_map (λ t. t.len) (text_from (92 ∷ rest.now))
        ≡ option_and_then (λ behind. option_map (λ t. t.len + 2) (text_from behind.now)) result }
    ensures shorter { IfSome result (λ behind. length behind.now + 1 ≡ length rest.now) }
{
    match rest {
        [escape, behind @ ..] => {
            bytes::escape_value(*escape)?;
            Some(behind)
        }
        [] => None,
    }
}

/// What the bytes between the `"` of a string stand for.
pub(crate) fn unescaped<A: Allocator + Copy>(alloc: A, raw: &[u8]) -> Result<Vec<u8, A>, AllocError>
    ensures { IfOk result (λ text. text.items ≡ unescaped raw.now) }
{
    let mut text = Vec::new(alloc);
    let mut rest = raw;
    loop {
        match rest {
            [] => return Ok(text),
            [b'\\', escape, behind @ ..] => {
                text.push(bytes::escape_value(*escape).unwrap_or(*escape))?;
                rest = behind;
            }
            [byte, behind @ ..] => {
                text.push(*byte)?;
                rest = behind;
            }
        }
    }
}
