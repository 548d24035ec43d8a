//! The faults of a text.

ghost use Rattle.std.specs.Prelude.{◌≡◌};
ghost use Rattle.rv_asm.specs.ErrorTexts.{kind_name};
ghost use Rattle.rv_asm.specs.Faults.{IsErrorAt, kind_of};
ghost use Rattle.rv_asm.specs.declared.errors.AsmKind.TheVariants.{NoMemory};

use asm_syntax::LineError;
use std::alloc::{AllocError, AllocFailed};
use std::error::Error;
use std::fmt;

/// What is wrong with a line. Of several kinds the one that stands first here counts.
#[derive(Clone, Copy, Debug, PartialEq, Eq)]
pub enum AsmKind {
    /// Some byte of the line belongs to no token.
    BadToken,
    /// Its statement does not begin with a mnemonic.
    UnknownMnemonic,
    /// The number or the kind of its operands is not that of its statement.
    BadOperand,
    /// A number is not in the range that its statement asks for, or a jump does not reach its target.
    OutOfRange,
    /// A label stands already.
    DuplicateLabel,
    /// No line has a label that the line uses.
    UndefinedLabel,
    /// Its statement ends past 2^24.
    TooLarge,
    /// No fault of the text: memory was refused.
    NoMemory,
}

/// The first fault of a text: the number of its line, counted from 1, and what is wrong with it. If memory was refused the line is 0.
#[derive(Clone, Copy, Debug, PartialEq, Eq)]
pub struct AsmError {
    pub line: u32,
    pub kind: AsmKind,
}

impl AsmKind {
    fn name(self) -> &'static str
        ensures { result.now ≡ kind_name self }
    {
        match self {
            AsmKind::BadToken => "BadToken",
            AsmKind::UnknownMnemonic => "UnknownMnemonic",
            AsmKind::BadOperand => "BadOperand",
            AsmKind::OutOfRange => "OutOfRange",
            AsmKind::DuplicateLabel => "DuplicateLabel",
            AsmKind::UndefinedLabel => "UndefinedLabel",
            AsmKind::TooLarge => "TooLarge",
            AsmKind::NoMemory => "NoMemory",
        }
    }
}

impl From<LineError> for AsmKind {
    ghost from_gives = { λ fault kind. kind ≡ kind_of fault };

    fn from(fault: LineError) -> AsmKind {
        match fault {
            LineError::BadToken => AsmKind::BadToken,
            LineError::UnknownMnemonic => AsmKind::UnknownMnemonic,
            LineError::BadOperand => AsmKind::BadOperand,
            LineError::OutOfRange => AsmKind::OutOfRange,
            LineError::NoMemory => AsmKind::NoMemory,
        }
    }
}

impl From<AllocError> for AsmKind {
    ghost from_gives = { λ _ kind. kind ≡ NoMemory };

    fn from(_error: AllocError) -> AsmKind {
        AsmKind::NoMemory
    }
}

impl<T: Drop> From<AllocFailed<T>> for AsmKind {
    ghost from_gives = { λ _ kind. kind ≡ NoMemory };

    fn from(_error: AllocFailed<T>) -> AsmKind {
        AsmKind::NoMemory
    }
}

impl AsmError {
    /// What is wrong with the line of this number; lack of memory is no line's.
    pub(crate) fn at(number: u32, kind: AsmKind) -> AsmError
        ensures { IsErrorAt number kind result }
    {
        let line = match kind {
            AsmKind::NoMemory => 0,
            _ => number,
        };
        AsmError { line, kind }
    }
}

impl From<AllocError> for AsmError {
    ghost from_gives = { λ _ e. e ≡ record { line = 0; kind = NoMemory } };

    fn from(_error: AllocError) -> AsmError {
        AsmError {
            line: 0,
            kind: AsmKind::NoMemory,
        }
    }
}

impl fmt::Display for AsmKind {
    ghost use Rattle.std.specs.Prelude.{Some};
    ghost use Rattle.rv_asm.specs.ErrorTexts.{kind_name};

    ghost output = { λ kind. Some (kind_name kind) };

    fn fmt<W: fmt::Write>(&self, f: &mut fmt::Formatter<W>) -> fmt::Result {
        f.write_str(self.name())
    }
}

impl fmt::Display for AsmError {
    ghost use Rattle.std.specs.Prelude.{Some};
    ghost use Rattle.rv_asm.specs.ErrorTexts.{error_text};

    ghost output = { λ e. Some (error_text e) };

    fn fmt<W: fmt::Write>(&self, f: &mut fmt::Formatter<W>) -> fmt::Result {
        write!(f, "line {}: {}", self.line, self.kind)
    }
}

impl Error for AsmKind {}

impl Error for AsmError {}
