//! The assembly statement of a code.

ghost use Rattle.std.specs.Prelude.{◌≡◌, IfOk};
ghost use Rattle.rv_tables.specs.Codes.{code_in};
ghost use Rattle.rv_listing.specs.Operands.{operand_texts};
ghost use Rattle.rv_listing.specs.Statement.{statement_of, operands_of, target_address};

use crate::numerals::{EightDigits, FourDigits};
use rv_tables::{Code, Instr, decode, decode16, mnemonic};
use std::alloc::{AllocError, Allocator};
use std::fmt;

/// A code at an address. Its text is its assembly statement there, in ASCII: `addi x17,x0,3`, or `addi x17,x0,3 # compressed`.
#[derive(Clone, Copy, Debug, PartialEq, Eq)]
pub struct Statement {
    pub code: Code,
    pub addr: u32,
}

impl fmt::Display for Statement {
    ghost use Rattle.std.specs.Prelude.{Some};
    ghost use Rattle.rv_listing.specs.Statement.{statement_of};

    ghost output = { λ s. Some (statement_of s.code s.addr) };

    #[tactic(auto, unfolding(crate::specs::Statement::statement_of))]
    fn fmt<W: fmt::Write>(&self, f: &mut fmt::Formatter<W>) -> fmt::Result {
        let addr = self.addr;
        match self.code {
            Code::Half(half) => match decode16(half) {
                Some(instr) => write!(f, "{} # compressed", InstructionAt { instr, addr }),
                None => write!(f, ".half 0x{}", FourDigits(half)),
            },
            Code::Word(word) => match decode(word) {
                Some(instr) => write!(f, "{}", InstructionAt { instr, addr }),
                None => write!(f, ".word 0x{}", EightDigits(word)),
            },
        }
    }
}

/// An instruction at an address. Its text is its mnemonic and its operands.
#[derive(Clone, Copy)]
struct InstructionAt {
    instr: Instr,
    addr: u32,
}

impl fmt::Display for InstructionAt {
    ghost use Rattle.std.specs.Prelude.{Some};
    ghost use Rattle.rv_listing.specs.Statement.{instruction_text};

    ghost output = { λ s. Some (instruction_text s.addr s.instr) };

    fn fmt<W: fmt::Write>(&self, f: &mut fmt::Formatter<W>) -> fmt::Result {
        let name = mnemonic(&self.instr);
        let operands = operands_of(self.instr, self.addr);
        write!(f, "{name}{operands}")
    }
}

/// The operands of an instruction: its registers, and the last operand after them. Its text begins with a blank if it has any.
#[derive(Clone, Copy)]
enum Operands {
    None,
    Two(u8, Operand),
    Three(u8, u8, Operand),
}

impl fmt::Display for Operands {
    ghost use Rattle.std.specs.Prelude.{Some};
    ghost use Rattle.rv_listing.specs.Operands.{operand_texts};
    ghost use Rattle.rv_listing.specs.Statement.{operand_list};

    ghost output = { λ operands. Some (operand_list (operand_texts operands)) };

    fn fmt<W: fmt::Write>(&self, f: &mut fmt::Formatter<W>) -> fmt::Result {
        match *self {
            Operands::None => Ok(()),
            Operands::Two(first, last) => write!(f, " x{first},{last}"),
            Operands::Three(first, second, last) => write!(f, " x{first},x{second},{last}"),
        }
    }
}

/// The operands of an instruction at an address.
fn operands_of(instr: Instr, addr: u32) -> Operands
    ensures { operand_texts result ≡ operands_of instr addr }
{
    match instr {
        Instr::R { rd, rs1, rs2, .. } => Operands::Three(rd, rs1, Operand::Register(rs2)),
        Instr::I { rd, rs1, imm, .. } => Operands::Three(rd, rs1, Operand::Number(imm)),
        Instr::Shift { rd, rs1, shamt, .. } => {
            Operands::Three(rd, rs1, Operand::Number(i32::from(shamt)))
        }
        Instr::Load { rd, rs1, imm, .. } => Operands::Two(rd, Operand::Relative { imm, base: rs1 }),
        Instr::Jalr { rd, rs1, imm } => Operands::Two(rd, Operand::Relative { imm, base: rs1 }),
        Instr::Store { rs1, rs2, imm, .. } => {
            Operands::Two(rs2, Operand::Relative { imm, base: rs1 })
        }
        Instr::Branch { rs1, rs2, imm, .. } => {
            Operands::Three(rs1, rs2, Operand::Target(target(addr, imm)))
        }
        Instr::Upper { rd, imm, .. } => Operands::Two(rd, Operand::Upper(imm)),
        Instr::Jal { rd, imm } => Operands::Two(rd, Operand::Target(target(addr, imm))),
        Instr::Plain { .. } => Operands::None,
    }
}

/// The address that is `offset` bytes from `addr`, modulo 2^32.
fn target(addr: u32, offset: i32) -> u32
    ensures { result ≡ target_address addr offset }
{
    addr.wrapping_add_signed(offset)
}

/// An operand.
#[derive(Clone, Copy)]
pub(crate) enum Operand {
    Register(u8),
    Number(i32),
    /// The upper 20 bits of a word: `0x12345`.
    Upper(u32),
    /// An address relative to a register: `-4(x2)`.
    Relative { imm: i32, base: u8 },
    /// An address to which an instruction jumps: `0x0000000c`.
    Target(u32),
}

impl fmt::Display for Operand {
    ghost use Rattle.std.specs.Prelude.{Some};
    ghost use Rattle.rv_listing.specs.Operands.{operand_text};

    ghost output = { λ operand. Some (operand_text operand) };

    fn fmt<W: fmt::Write>(&self, f: &mut fmt::Formatter<W>) -> fmt::Result {
        match *self {
            Operand::Register(number) => write!(f, "x{number}"),
            Operand::Number(number) => write!(f, "{number}"),
            Operand::Upper(imm) => write!(f, "0x{imm:x}"),
            Operand::Relative { imm, base } => write!(f, "{imm}(x{base})"),
            Operand::Target(address) => write!(f, "0x{}", EightDigits(address)),
        }
    }
}

/// The text of the assembly statement with which a word begins, at an address: `list(alloc, 0x0000_0663, 0)` is `beq x0,x0,0x0000000c`. If
/// the word's low bits are not 11, the statement is that of its lower half.
///
/// It is an error only if memory is refused.
pub fn list<A: Allocator>(alloc: A, word: u32, addr: u32) -> Result<Vec<u8, A>, AllocError>
    ensures { IfOk result (λ text. text.items ≡ statement_of (code_in word) addr) }
{
    let code = Code::first_in(word);
    Ok(format!(in alloc; "{}", Statement { code, addr })?.into_bytes())
}
