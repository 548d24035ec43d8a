//! The code of an instruction, and how long it is.

ghost use Rattle.std.specs.Prelude.{◌≡◌};
ghost use Rattle.rv_tables.specs.Codes.{code_length, code_in, length_of, decoded};
ghost use Rattle.rv_tables.specs.Operands.{IsEncodable, IsFound};

use crate::compressed::decode16;
use crate::decoder::decode;
use crate::instr::Instr;

/// The code of an instruction, as it stands in memory (RISC-V Unprivileged ISA 20191213, section 1.5 "Base Instruction-Length
/// Encoding").
#[derive(Clone, Copy, Debug, PartialEq, Eq)]
pub enum Code {
    /// That of a compressed instruction. Its low bits are not 11.
    Half(u16),
    /// That of any other. Its low bits are 11.
    Word(u32),
}

impl Code {
    /// The code with which a word begins: the whole word if its low bits are 11, else its lower half.
    // For speed: these three are a part of each step of a node.
    #[inline(always)]
    pub fn first_in(word: u32) -> Code
        ensures { result ≡ code_in word }
    {
        if word % 4 == 3 {
            Code::Word(word)
        } else {
            Code::Half((word % 0x1_0000) as u16)
        }
    }

    /// Its bytes: 2 or 4.
    #[inline(always)]
    pub fn length(self) -> u32
        ensures { result ≡ length_of self }
    {
        match self {
            Code::Half(_) => 2,
            Code::Word(_) => 4,
        }
    }

    /// Its instruction, as [`decode16`] and [`decode`] answer it.
    #[inline(always)]
    pub fn decode(self) -> Option<Instr>
        ensures { IsFound IsEncodable (decoded self) result }
    {
        match self {
            Code::Half(half) => decode16(half),
            Code::Word(word) => decode(word),
        }
    }
}

/// The bytes of the code with which a word begins: 4 if the word's low bits are 11, else 2.
#[inline(always)]
pub fn code_length(word: u32) -> u32
    ensures { result ≡ code_length word }
{
    if word % 4 == 3 { 4 } else { 2 }
}
