//! The lines of a listing.

ghost use Rattle.std.specs.Prelude.{◌≡◌, ◌+◌, ◌≤◌, length};
ghost use Rattle.node_memory.specs.Bytes.{half_at, word_at};
ghost use Rattle.rv_tables.specs.Codes.{code_at};
ghost use Rattle.rv_listing.specs.Listing.{listing_lines};
ghost use Rattle.rv_listing.specs.Lines.{next_code};

use crate::numerals::{EightDigits, FourDigits, TwoDigits};
use crate::statement::Statement;
use node_memory::Segment;
use rv_tables::Code;
use std::alloc::Allocator;
use std::fmt;
use std::marker::Model;

/// A line of a listing. Its text is the line without the line feed that ends it.
#[derive(Clone, Copy, Debug, PartialEq, Eq)]
pub enum Line {
    /// The code at `addr`, the low byte first: `00000000: 00300893  addi x17,x0,3`, or
    /// `00000000: 488d      addi x17,x0,3 # compressed`.
    Code { addr: u32, code: Code },
    /// The byte at `addr`, which is of no whole code: `00000004: 73        .byte 0x73`.
    Byte { addr: u32, byte: u8 },
}

impl fmt::Display for Line {
    ghost use Rattle.std.specs.Prelude.{Some};
    ghost use Rattle.rv_listing.specs.Listing.{text_of};

    ghost output = { λ line. Some (text_of line) };

    fn fmt<W: fmt::Write>(&self, f: &mut fmt::Formatter<W>) -> fmt::Result {
        match *self {
            Line::Code { addr, code } => {
                let address = EightDigits(addr);
                let statement = Statement { code, addr };
                match code {
                    Code::Half(half) => write!(
                        f,
                        "{address}: {}      {statement}",
                        FourDigits(half)
                    ),
                    Code::Word(word) => write!(f, "{address}: {}  {statement}", EightDigits(word)),
                }
            }
            Line::Byte { addr, byte } => {
                let (address, digits) = (EightDigits(addr), TwoDigits(byte));
                write!(f, "{address}: {digits}        .byte 0x{digits}")
            }
        }
    }
}

/// The lines of a segment that are left, from the lowest address up: one for each code of its bytes, and then, if what is left is no whole
/// code, one for each of these one to three bytes. The zeros that follow a segment's bytes have no lines.
///
/// Contracts see the list of the lines that are left.
#[derive(Drop)]
pub struct Lines<'a> {
    addr: u32,
    bytes: &'a [u8],
    // how many of the bytes have had their lines
    at: usize,
    // whether one of these was of no whole code, so that none follows
    is_rest: bool,
}

impl<'a> Model for Lines<'a> {
    ghost use Rattle.std.specs.Prelude.{List};
    ghost use Rattle.rv_listing.specs.declared.lines.Line.{Line};
    ghost use Rattle.rv_listing.specs.Lines.{IsPlace, lines_left};

    ghost Value = { List Line };

    ghost view = { λ l. lines_left l.addr l.bytes.now l.at l.is_rest };

    ghost invariant = { λ l. IsPlace l.addr l.bytes.now l.at };
}

impl<'a> Lines<'a> {
    /// The lines of a segment's bytes.
    pub fn new<A: Allocator>(segment: &'a Segment<A>) -> Lines<'a>
        ensures { result ≡ listing_lines segment.now.addr segment.now.bytes }
    {
        Lines {
            addr: segment.addr,
            bytes: segment.bytes.as_slice(),
            at: 0,
            is_rest: false,
        }
    }
}

impl<'a> Iterator for Lines<'a> {
    ghost use Rattle.std.specs.Iterator.{YieldsFirst, item_count};

    type Item = Line;

    ghost next_gives = { YieldsFirst (λ left. left) };

    ghost remaining = { item_count (λ left. left) };

    #[tactic(auto, using(crate::proofs::NextLine::next_code, crate::proofs::NextLine::next_byte, crate::proofs::NextLine::no_line))]
    fn next(&mut self) -> Option<Line> {
        let at = self.at;
        let bytes = self.bytes;
        if let Some(code) = next_code(bytes, at, self.is_rest) {
            self.at += code.length() as usize;
            Some(Line::Code {
                addr: self.addr + at as u32,
                code,
            })
        } else if at < bytes.len() {
            self.at += 1;
            self.is_rest = true;
            Some(Line::Byte {
                addr: self.addr + at as u32,
                byte: bytes[at],
            })
        } else {
            None
        }
    }
}

/// The code at an index, if there is one whole and it is not among what no whole code was left of.
fn next_code(bytes: &[u8], at: usize, is_rest: bool) -> Option<Code>
    requires { at ≤ length bytes.now }
    ensures { result ≡ next_code bytes.now at is_rest }
{
    if is_rest { None } else { code_at(bytes, at) }
}

/// The code at an index, or none if the bytes end before it does.
fn code_at(bytes: &[u8], at: usize) -> Option<Code>
    requires { at ≤ length bytes.now }
    ensures { result ≡ code_at bytes.now at }
{
    let left = bytes.len() - at;
    if left < 2 {
        return None;
    }
    match Code::first_in(u32::from(half_at(bytes, at))) {
        Code::Half(half) => Some(Code::Half(half)),
        Code::Word(_) if left < 4 => None,
        Code::Word(_) => Some(Code::Word(word_at(bytes, at))),
    }
}

/// The half-word at an index, its low byte first.
fn half_at(bytes: &[u8], at: usize) -> u16
    requires { at + 2 ≤ length bytes.now }
    ensures { result ≡ half_at bytes.now at }
{
    u16::from_le_bytes([bytes[at], bytes[at + 1]])
}

/// The word at an index, its low byte first.
pub fn word_at(bytes: &[u8], at: usize) -> u32
    requires { at + 4 ≤ length bytes.now }
    ensures { result ≡ word_at bytes.now at }
{
    u32::from_le_bytes([bytes[at], bytes[at + 1], bytes[at + 2], bytes[at + 3]])
}
