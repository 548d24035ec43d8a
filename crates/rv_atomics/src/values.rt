//! What the atomic memory operations compute (RISC-V Unprivileged ISA 20191213, section 8.4). The function uses the machine's own
//! arithmetic, for speed: the definition that its clause names is in whole numbers.

ghost use Rattle.std.specs.Prelude.{◌≡◌};
ghost use Rattle.rv_atomics.specs.Values.{amo_value as amo_value_of};

use crate::instr::AmoOp;

/// What an atomic memory operation stores, of the word that it has loaded and of the value in `rs2`.
pub fn amo_value(op: AmoOp, loaded: u32, operand: u32) -> u32
    ensures { result ≡ amo_value_of op loaded operand }
{
    match op {
        AmoOp::Swap => operand,
        AmoOp::Add => loaded.wrapping_add(operand),
        AmoOp::Xor => loaded ^ operand,
        AmoOp::And => loaded & operand,
        AmoOp::Or => loaded | operand,
        AmoOp::Min => {
            if operand.cast_signed() < loaded.cast_signed() {
                operand
            } else {
                loaded
            }
        }
        AmoOp::Max => {
            if loaded.cast_signed() < operand.cast_signed() {
                operand
            } else {
                loaded
            }
        }
        AmoOp::Minu => if operand < loaded { operand } else { loaded },
        AmoOp::Maxu => if loaded < operand { operand } else { loaded },
    }
}
