//! The fields of a halfword that is an instruction, as the manual cuts them, and the immediates in it.
//!
//! A halfword comes as a `u32`, as a word does, so that both are cut by the same [`bits`].

ghost use Rattle.std.specs.Prelude.{◌≡◌, pos};
ghost use Rattle.rv_tables.specs.Fields as Fields;
ghost use Rattle.rv_tables.specs.Fields.{sign_extended};
ghost use Rattle.rv_tables.specs.Halfwords as Halfwords;
ghost use Rattle.rv_tables.specs.Halfwords.{immediate, upper_field};

use crate::fields::bits;

#[inline]
pub fn quadrant(half: u32) -> u32
    ensures { result ≡ Halfwords.quadrant half }
{
    bits(half, 1, 0)
}

#[inline]
pub fn funct3(half: u32) -> u32
    ensures { result ≡ Halfwords.funct3 half }
{
    bits(half, 15, 13)
}

#[inline]
pub fn rd(half: u32) -> u8
    ensures { result ≡ Halfwords.rd half }
{
    bits(half, 11, 7) as u8
}

#[inline]
pub fn rs2(half: u32) -> u8
    ensures { result ≡ Halfwords.rs2 half }
{
    bits(half, 6, 2) as u8
}

#[inline]
pub fn rs1_prime(half: u32) -> u8
    ensures { result ≡ Halfwords.rs1_prime half }
{
    bits(half, 9, 7) as u8 + 8
}

#[inline]
pub fn rs2_prime(half: u32) -> u8
    ensures { result ≡ Halfwords.rs2_prime half }
{
    bits(half, 4, 2) as u8 + 8
}

/// The offset from the stack pointer in `C.ADDI4SPN`.
#[inline]
pub fn addi4spn_immediate(half: u32) -> i32
    ensures { result ≡ pos (immediate half Halfwords.addi4spn_layout) }
{
    let high = (bits(half, 10, 7) << 6) + (bits(half, 12, 11) << 4);
    let low = (bits(half, 5, 5) << 3) + (bits(half, 6, 6) << 2);
    (high + low) as i32
}

/// The offset in `C.LW` and `C.SW`.
#[inline]
pub fn word_offset(half: u32) -> i32
    ensures { result ≡ pos (immediate half Halfwords.word_layout) }
{
    ((bits(half, 5, 5) << 6) + (bits(half, 12, 10) << 3) + (bits(half, 6, 6) << 2)) as i32
}

/// The offset in `C.LWSP`.
#[inline]
pub fn lwsp_offset(half: u32) -> i32
    ensures { result ≡ pos (immediate half Halfwords.lwsp_layout) }
{
    ((bits(half, 3, 2) << 6) + (bits(half, 12, 12) << 5) + (bits(half, 6, 4) << 2)) as i32
}

/// The offset in `C.SWSP`.
#[inline]
pub fn swsp_offset(half: u32) -> i32
    ensures { result ≡ pos (immediate half Halfwords.swsp_layout) }
{
    ((bits(half, 8, 7) << 6) + (bits(half, 12, 9) << 2)) as i32
}

/// The field of 6 bits in which `C.ADDI` has its immediate, as rows like it have, and shifts have their amount.
#[inline]
pub fn small_field(half: u32) -> u8
    ensures { result ≡ immediate half Halfwords.small_layout }
{
    ((bits(half, 12, 12) << 5) + bits(half, 6, 2)) as u8
}

// The sign of each signed immediate is bit 12 of its halfword.

/// The immediate in `C.ADDI`, `C.LI` and `C.ANDI`.
#[inline]
pub fn small_immediate(half: u32) -> i32
    ensures { result ≡ sign_extended 6 (immediate half Halfwords.small_layout) }
{
    bits(half, 6, 2) as i32 - sign(half) * 0x20
}

/// What `C.ADDI16SP` adds to the stack pointer.
#[inline]
pub fn addi16sp_immediate(half: u32) -> i32
    ensures { result ≡ sign_extended 10 (immediate half Halfwords.addi16sp_layout) }
{
    let high = (bits(half, 4, 3) << 7) + (bits(half, 5, 5) << 6);
    let low = (bits(half, 2, 2) << 5) + (bits(half, 6, 6) << 4);
    (high + low) as i32 - sign(half) * 0x200
}

/// The field of `LUI` that `C.LUI` stands for: its immediate without the 12 zeros below it.
#[inline]
pub fn lui_field(half: u32) -> u32
    ensures { result ≡ upper_field (sign_extended 18 (immediate half Halfwords.lui_layout)) }
{
    bits(half, 12, 12) * 0xF_FFE0 + bits(half, 6, 2)
}

/// The offset in `C.J` and `C.JAL`.
#[inline]
pub fn jump_offset(half: u32) -> i32
    ensures { result ≡ sign_extended 12 (immediate half Halfwords.jump_layout) }
{
    let high = (bits(half, 8, 8) << 10) + (bits(half, 10, 9) << 8) + (bits(half, 6, 6) << 7);
    let middle = (bits(half, 7, 7) << 6) + (bits(half, 2, 2) << 5) + (bits(half, 11, 11) << 4);
    let low = bits(half, 5, 3) << 1;
    (high + middle + low) as i32 - sign(half) * 0x800
}

/// The offset in `C.BEQZ` and `C.BNEZ`.
#[inline]
pub fn branch_offset(half: u32) -> i32
    ensures { result ≡ sign_extended 9 (immediate half Halfwords.branch_layout) }
{
    let high = (bits(half, 6, 5) << 6) + (bits(half, 2, 2) << 5);
    let low = (bits(half, 11, 10) << 3) + (bits(half, 4, 3) << 1);
    (high + low) as i32 - sign(half) * 0x100
}

/// 1 if a signed immediate is below 0, else 0.
#[inline]
fn sign(half: u32) -> i32
    ensures { result ≡ pos (Fields.bits half 12 12) }
{
    bits(half, 12, 12) as i32
}
