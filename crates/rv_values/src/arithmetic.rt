//! What instructions compute from registers and immediates (RISC-V Unprivileged ISA 20191213, sections 2.4 and 2.5,
//! chapter 7). The functions use the machine's own arithmetic, for speed: the definitions that their clauses name are in
//! whole numbers.

ghost use Rattle.std.specs.Prelude.{◌≡◌, ◌*◌, ◌/◌, ◌^◌, ◌<◌, pos, ◌*ℤ◌, ◌+ℤ◌};
ghost use Rattle.rv_values.specs.Arithmetic.{modulo, floor_div, signed};
ghost use Rattle.rv_values.specs.Arithmetic.{r_value as r_value_of, i_value as i_value_of};
ghost use Rattle.rv_values.specs.Arithmetic.{shift_value as shift_value_of};
ghost use Rattle.rv_values.specs.Arithmetic.{is_taken as is_taken_of};
ghost use Rattle.rv_values.specs.Arithmetic.{upper_value as upper_value_of};

use rv_tables::{BranchOp, IOp, ROp, ShiftOp, UpperOp};

/// What an instruction on two registers puts into its third.
#[inline]
pub fn r_value(op: ROp, a: u32, b: u32) -> u32
    ensures { result ≡ r_value_of op a b }
{
    match op {
        ROp::Add => a.wrapping_add(b),
        ROp::Sub => a.wrapping_sub(b),
        ROp::Sll => a.wrapping_shl(b),
        ROp::Slt => u32::from(a.cast_signed() < b.cast_signed()),
        ROp::Sltu => u32::from(a < b),
        ROp::Xor => a ^ b,
        ROp::Srl => a.wrapping_shr(b),
        ROp::Sra => shift_right_signed(a, b % 32),
        ROp::Or => a | b,
        ROp::And => a & b,
        ROp::Mul => product(a, b),
        ROp::Mulh => high_signed(a, b),
        ROp::Mulhsu => high_signed_unsigned(a, b),
        ROp::Mulhu => high_unsigned(a, b),
        ROp::Div => divide_signed(a, b),
        ROp::Divu => divide_unsigned(a, b),
        ROp::Rem => remainder_signed(a, b),
        ROp::Remu => remainder_unsigned(a, b),
    }
}

/// An arithmetic shift to the right: the sign goes into the free bits.
fn shift_right_signed(a: u32, k: u32) -> u32
    requires { k < 32 }
    ensures { result ≡ modulo (floor_div (signed a) (2 ^ k)) }
{
    (a.cast_signed() >> k).cast_unsigned()
}

/// The upper word of a product.
fn high_word(product: i64) -> u32
    ensures { result ≡ modulo (floor_div product (2 ^ 32)) }
{
    ((product >> 32) as i32).cast_unsigned()
}

fn high_signed(a: u32, b: u32) -> u32
    ensures { result ≡ modulo (floor_div (signed a *ℤ signed b) (2 ^ 32)) }
{
    high_word(i64::from(a.cast_signed()) * i64::from(b.cast_signed()))
}

fn high_signed_unsigned(a: u32, b: u32) -> u32
    ensures { result ≡ modulo (floor_div (signed a *ℤ pos b) (2 ^ 32)) }
{
    high_word(i64::from(a.cast_signed()) * i64::from(b))
}

fn high_unsigned(a: u32, b: u32) -> u32
    ensures { result ≡ a * b / 2 ^ 32 }
{
    let product = u64::from(a) * u64::from(b);
    (product >> 32) as u32
}

/// The lower word of a product, which is the same with signs and without.
fn product(a: u32, b: u32) -> u32
    ensures { result ≡ modulo (signed a *ℤ signed b) }
{
    a.wrapping_mul(b)
}

// By zero the quotients are all ones and the remainders the dividend; the one signed quotient that does not fit wraps to
// the dividend, and its remainder is 0 (chapter 7, "Semantics for division by zero and division overflow").

fn divide_signed(a: u32, b: u32) -> u32
    ensures { result ≡ r_value_of ROp.Div a b }
{
    if b == 0 {
        u32::MAX
    } else {
        a.cast_signed()
            .wrapping_div(b.cast_signed())
            .cast_unsigned()
    }
}

fn divide_unsigned(a: u32, b: u32) -> u32
    ensures { result ≡ r_value_of ROp.Divu a b }
{
    if b == 0 { u32::MAX } else { a / b }
}

fn remainder_signed(a: u32, b: u32) -> u32
    ensures { result ≡ r_value_of ROp.Rem a b }
{
    if b == 0 {
        a
    } else {
        a.cast_signed()
            .wrapping_rem(b.cast_signed())
            .cast_unsigned()
    }
}

fn remainder_unsigned(a: u32, b: u32) -> u32
    ensures { result ≡ r_value_of ROp.Remu a b }
{
    if b == 0 { a } else { a % b }
}

/// What an instruction on a register and an immediate puts into another.
#[inline]
pub fn i_value(op: IOp, a: u32, imm: i32) -> u32
    ensures { result ≡ i_value_of op a imm }
{
    match op {
        IOp::Addi => a.wrapping_add_signed(imm),
        IOp::Slti => u32::from(a.cast_signed() < imm),
        IOp::Sltiu => u32::from(a < imm.cast_unsigned()),
        IOp::Xori => a ^ imm.cast_unsigned(),
        IOp::Ori => a | imm.cast_unsigned(),
        IOp::Andi => a & imm.cast_unsigned(),
    }
}

/// What a shift by an immediate of 0 to 31 gives.
#[inline]
pub fn shift_value(op: ShiftOp, a: u32, shamt: u8) -> u32
    requires { shamt < 32 }
    ensures { result ≡ shift_value_of op a shamt }
{
    let k = u32::from(shamt);
    match op {
        ShiftOp::Slli => a.wrapping_shl(k),
        ShiftOp::Srli => a >> k,
        ShiftOp::Srai => shift_right_signed(a, k),
    }
}

/// What an instruction with a constant of 20 bits puts into a register.
#[inline]
pub fn upper_value(op: UpperOp, pc: u32, imm: u32) -> u32
    ensures { result ≡ upper_value_of op pc imm }
{
    let upper = imm.wrapping_shl(12);
    match op {
        UpperOp::Lui => upper,
        UpperOp::Auipc => pc.wrapping_add(upper),
    }
}

/// Whether a branch is taken.
#[inline]
pub fn is_taken(op: BranchOp, a: u32, b: u32) -> bool
    ensures { result ≡ is_taken_of op a b }
{
    match op {
        BranchOp::Beq => a == b,
        BranchOp::Bne => a != b,
        BranchOp::Blt => a.cast_signed() < b.cast_signed(),
        BranchOp::Bge => a.cast_signed() >= b.cast_signed(),
        BranchOp::Bltu => a < b,
        BranchOp::Bgeu => a >= b,
    }
}

/// A register or pc plus a signed immediate, modulo 2^32: the address of a load, a store or a jump.
#[inline]
pub fn offset_by(a: u32, imm: i32) -> u32
    ensures { result ≡ modulo (pos a +ℤ imm) }
{
    a.wrapping_add_signed(imm)
}
