//! Decodes a code of two or four bytes.

ghost use Rattle.rv_tables.specs.Operands.{IsFound};
ghost use Rattle.rv_atomics.specs.Codes.{atomic_decoded};
ghost use Rattle.rv_atomics.specs.Operands.{IsEncodable};

use crate::decoder::decode;
use crate::instr::AtomicInstr;
use rv_tables::Code;

/// The instruction of A of a code: a word as [`decode`] answers it, and none of a halfword.
///
/// A code that has one has none of whole numbers or of floating point
/// ([`a_code_is_in_one_table`](crate::laws::a_code_is_in_one_table)): so it does not matter in which table a code is looked up first.
pub fn decode_code(code: Code) -> Option<AtomicInstr>
    ensures { IsFound IsEncodable (atomic_decoded code) result }
{
    match code {
        Code::Half(_) => None,
        Code::Word(word) => decode(word),
    }
}
