//! Statements and lines in which instructions of extensions have their names.

use crate::atomics::AtomicInstruction;
use crate::floats::FloatInstruction;
use crate::lines::Line;
use crate::numerals::{EightDigits, FourDigits};
use crate::statement::Statement;
use rv_atomics::Extensions;
use rv_tables::Code;
use std::fmt;

/// A line of a listing. Instructions of these extensions have their names in its text, as `00000000: 02c5f553  fadd.d f10,f11,f12`; all
/// else in it is as in the text of the line.
#[derive(Clone, Copy, Debug, PartialEq, Eq)]
pub struct ShownLine {
    pub line: Line,
    pub extensions: Extensions,
}

impl fmt::Display for ShownLine {
    ghost use Rattle.std.specs.Prelude.{Some};
    ghost use Rattle.rv_listing.specs.Listing.{shown_text};

    ghost output = { λ shown. Some (shown_text shown.extensions shown.line) };

    fn fmt<W: fmt::Write>(&self, f: &mut fmt::Formatter<W>) -> fmt::Result {
        let Line::Code { addr, code } = self.line else {
            return write!(f, "{}", self.line);
        };
        let address = EightDigits(addr);
        let statement = NamedStatement {
            code,
            addr,
            extensions: self.extensions,
        };
        match code {
            Code::Half(half) => write!(f, "{address}: {}      {statement}", FourDigits(half)),
            Code::Word(word) => write!(f, "{address}: {}  {statement}", EightDigits(word)),
        }
    }
}

/// A code at an address. Its text is that of [`Statement`], but for an instruction of one of these extensions, which has its name:
/// `fadd.d f10,f11,f12`, `fld f15,8(x10) # compressed`, or `lr.w.aq x10,(x11)`.
#[derive(Clone, Copy, Debug, PartialEq, Eq)]
pub struct NamedStatement {
    pub code: Code,
    pub addr: u32,
    pub extensions: Extensions,
}

impl fmt::Display for NamedStatement {
    ghost use Rattle.std.specs.Prelude.{Some};
    ghost use Rattle.rv_listing.specs.Named.{named_statement_of};

    ghost output = { λ s. Some (named_statement_of s.extensions s.code s.addr) };

    #[tactic(auto, unfolding(crate::specs::Named::named_statement_of))]
    fn fmt<W: fmt::Write>(&self, f: &mut fmt::Formatter<W>) -> fmt::Result {
        let NamedStatement {
            code,
            addr,
            extensions,
        } = *self;
        if extensions.float
            && let Some(instr) = rv_float_tables::decode_code(code)
        {
            return match code {
                Code::Half(_) => write!(f, "{} # compressed", FloatInstruction(instr)),
                Code::Word(_) => write!(f, "{}", FloatInstruction(instr)),
            };
        }
        if extensions.atomic
            && let Some(instr) = rv_atomics::decode_code(code)
        {
            return write!(f, "{}", AtomicInstruction(instr));
        }
        write!(f, "{}", Statement { code, addr })
    }
}
