//! The bit fields of a word, as the manual cuts them.

ghost use Rattle.std.specs.Prelude.{◌≡◌, ◌+◌, ◌^◌, ◌<◌, ◌≤◌};
ghost use Rattle.rv_tables.specs.Fields as Fields;

/// The bits of a word from `high` down to `low`, as a number.
#[inline]
pub fn bits(word: u32, high: u32, low: u32) -> u32
    requires ordered { low ≤ high }
    requires narrow { high < low + 31 }
    requires within { high < 32 }
    ensures { result ≡ Fields.bits word high low }
{
    let width = high - low + 1;
    word >> low & ((1 << width) - 1)
}

#[inline]
pub fn opcode(word: u32) -> u32
    ensures { result ≡ Fields.opcode word }
{
    word & 0x7F
}

#[inline]
pub fn funct3(word: u32) -> u32
    ensures { result ≡ Fields.funct3 word }
{
    bits(word, 14, 12)
}

#[inline]
pub fn funct7(word: u32) -> u32
    ensures { result ≡ Fields.funct7 word }
{
    bits(word, 31, 25)
}

#[inline]
pub fn rd(word: u32) -> u8
    ensures { result ≡ Fields.rd word }
{
    bits(word, 11, 7) as u8
}

#[inline]
pub fn rs1(word: u32) -> u8
    ensures { result ≡ Fields.rs1 word }
{
    bits(word, 19, 15) as u8
}

#[inline]
pub fn rs2(word: u32) -> u8
    ensures { result ≡ Fields.rs2 word }
{
    bits(word, 24, 20) as u8
}

#[inline]
pub fn shamt(word: u32) -> u8
    ensures { result ≡ Fields.shamt word }
{
    bits(word, 24, 20) as u8
}

// The sign of each immediate is bit 31 of its word: an arithmetic shift to the right fills the bits above with it.

#[inline]
pub fn i_immediate(word: u32) -> i32
    ensures { result ≡ Fields.i_immediate word }
{
    word.cast_signed() >> 20
}

#[inline]
pub fn s_immediate(word: u32) -> i32
    ensures { result ≡ Fields.s_immediate word }
{
    (word.cast_signed() >> 25) * 0x20 + bits(word, 11, 7) as i32
}

#[inline]
pub fn b_immediate(word: u32) -> i32
    ensures { result ≡ Fields.b_immediate word }
{
    let low = (bits(word, 7, 7) << 11) + (bits(word, 30, 25) << 5) + (bits(word, 11, 8) << 1);
    (word.cast_signed() >> 31) * 0x1000 + low as i32
}

#[inline]
pub fn u_immediate(word: u32) -> u32
    ensures { result ≡ Fields.u_immediate word }
{
    bits(word, 31, 12)
}

#[inline]
pub fn j_immediate(word: u32) -> i32
    ensures { result ≡ Fields.j_immediate word }
{
    let low = (bits(word, 19, 12) << 12) + (bits(word, 20, 20) << 11) + (bits(word, 30, 21) << 1);
    (word.cast_signed() >> 31) * 0x10_0000 + low as i32
}
