//! Decodes a code of two or four bytes.

ghost use Rattle.rv_tables.specs.Operands.{IsFound};
ghost use Rattle.rv_float_tables.specs.Codes.{float_decoded};
ghost use Rattle.rv_float_tables.specs.Operands.{IsEncodable};

use crate::compressed::decode16;
use crate::decoder::decode;
use crate::instr::FloatInstr;
use rv_tables::Code;

/// The instruction of floating point of a code, as [`decode16`] and [`decode`] answer it.
///
/// A code that has one has none of whole numbers ([`a_code_is_in_one_table`](crate::laws::a_code_is_in_one_table)): so it does not
/// matter in which table a code is looked up first.
#[inline]
pub fn decode_code(code: Code) -> Option<FloatInstr>
    ensures { IsFound IsEncodable (float_decoded code) result }
{
    match code {
        Code::Half(half) => decode16(half),
        Code::Word(word) => decode(word),
    }
}
