//! Why a session failed, and the exit status of each answer.

ghost use Rattle.std.specs.Prelude.{◌≡◌};
ghost use Rattle.bsp_session.specs.Outcome.{status_of};

use counted_io::{ReadError, WriteFault};
use elf_image::ElfError;
use machine_core::{MachineError, Outcome};
use node_core::State;
use rv_asm::{AsmError, AsmKind};
use std::alloc::AllocError;
use std::fmt;
use thiserror::Error;
use worker_pool::PoolError;

/// The setting that is out of its range. Of several the first in this order is named.
#[derive(Clone, Copy, Debug, PartialEq, Eq)]
pub enum BadSetting {
    /// The number of nodes is not 1 to 1,024.
    BadNodes,
    /// The bytes of a node's memory are not 4,096 to 16,777,216, or no multiple of 4,096.
    BadMemory,
    /// The limit of ticks is not 1 to 2^40.
    BadLimit,
    /// The number of workers is not 1 to 64.
    BadWorkers,
    /// The slice is not 1 to 1,048,576 steps.
    BadSlice,
}

impl fmt::Display for BadSetting {
    ghost use Rattle.std.specs.Prelude.{Some};
    ghost use Rattle.bsp_session.specs.Outcome.{name_of};

    ghost output = { λ setting. Some (name_of setting) };

    fn fmt<W: fmt::Write>(&self, f: &mut fmt::Formatter<W>) -> fmt::Result {
        f.write_str(match self {
            BadSetting::BadNodes => "BadNodes",
            BadSetting::BadMemory => "BadMemory",
            BadSetting::BadLimit => "BadLimit",
            BadSetting::BadWorkers => "BadWorkers",
            BadSetting::BadSlice => "BadSlice",
        })
    }
}

/// Why a session failed: the cause of the first of its stages that did. Each session says which stages it has, and in which order.
///
/// Its text is the line, without a program's name, that a user is shown.
#[derive(Clone, Copy, Debug, PartialEq, Eq, Error)]
pub enum SessionError {
    /// A setting is out of its range. Nothing was read or written.
    #[error("settings refused: {0}")]
    BadSettings(BadSetting),
    /// What was to be read has more bytes than its limit: an image, an input or a debugger's lines.
    #[error("too long")]
    TooLong,
    /// The image is a text with a fault.
    #[error("{0}")]
    Text(AsmError),
    /// The image is no ELF file that can be loaded.
    #[error("image refused: {0}")]
    BadImage(ElfError),
    /// The image reaches past the memory of a node.
    #[error("image refused: SegmentOutside")]
    SegmentOutside,
    /// A profile was asked for of a large machine with more than 1,024 nodes. Nothing was read or written.
    #[error("a run with a profile has at most 1024 nodes")]
    TooManyNodes,
    /// A call of a reader failed: of an image's, an input's or that of a debugger's lines.
    #[error("read failed")]
    ReadFault,
    /// A call of the writer failed. Some first bytes of what was to be written may have been.
    #[error("write failed")]
    WriteFault,
    /// A thread could not be started. Only the run of a program starts any.
    #[error("no worker")]
    NoWorker,
    /// A request for memory was refused.
    #[error("no memory")]
    NoMemory,
}

/// The exit status with which a program answers a session (own rule). The `Ok` of a session that has no outcome, as a listing or
/// a debugger's, counts as [`Outcome::Ended`].
///
/// | Status | Answer |
/// |---|---|
/// | 0 | every node ended |
/// | 1 | settings refused, or the number of nodes for a profile, or an image, an input or a debugger's lines |
/// | 2 | a node's fault or `abort` |
/// | 3 | a node's limit of ticks |
/// | 4 | nodes that wait for one that ended, or an exchange that is refused |
/// | 5 | memory or a thread refused |
/// | 6 | a read or a write failed |
///
/// Where nodes were stopped, the state of the lowest of their ranks decides.
pub fn status(answer: &Result<Outcome, SessionError>) -> u8
    ensures { result ≡ status_of answer.now }
{
    match answer {
        Ok(Outcome::Ended) => 0,
        Ok(Outcome::NodeStopped { state, .. }) => match state {
            State::Faulted(_) | State::Aborted => 2,
            State::Exhausted => 3,
            _ => 4,
        },
        Ok(Outcome::Desync { .. } | Outcome::Refused(_)) => 4,
        Err(
            SessionError::BadSettings(_)
            | SessionError::TooLong
            | SessionError::Text(_)
            | SessionError::BadImage(_)
            | SessionError::SegmentOutside
            | SessionError::TooManyNodes,
        ) => 1,
        Err(SessionError::ReadFault | SessionError::WriteFault) => 6,
        Err(SessionError::NoWorker | SessionError::NoMemory) => 5,
    }
}

impl From<MachineError> for SessionError {
    ghost use Rattle.std.specs.Prelude.{◌≡◌};
    ghost use Rattle.bsp_session.specs.Outcome.{error_of_machine};

    ghost from_gives = { λ cause e. e ≡ error_of_machine cause };

    fn from(cause: MachineError) -> SessionError {
        match cause {
            MachineError::BadNodes => SessionError::BadSettings(BadSetting::BadNodes),
            MachineError::BadMemory => SessionError::BadSettings(BadSetting::BadMemory),
            MachineError::BadLimit => SessionError::BadSettings(BadSetting::BadLimit),
            MachineError::SegmentOutside => SessionError::SegmentOutside,
            MachineError::NoMemory => SessionError::NoMemory,
        }
    }
}

impl From<PoolError> for SessionError {
    ghost use Rattle.std.specs.Prelude.{◌≡◌};
    ghost use Rattle.bsp_session.specs.Outcome.{error_of_pool};

    ghost from_gives = { λ cause e. e ≡ error_of_pool cause };

    fn from(cause: PoolError) -> SessionError {
        match cause {
            PoolError::BadWorkers => SessionError::BadSettings(BadSetting::BadWorkers),
            PoolError::BadSlice => SessionError::BadSettings(BadSetting::BadSlice),
            PoolError::NoWorker => SessionError::NoWorker,
            PoolError::NoMemory => SessionError::NoMemory,
        }
    }
}

impl From<AllocError> for SessionError {
    ghost use Rattle.std.specs.Prelude.{◌≡◌};
    ghost use Rattle.bsp_session.specs.declared.errors.SessionError.TheVariants.{NoMemory};

    ghost from_gives = { λ _ e. e ≡ NoMemory };

    fn from(_refused: AllocError) -> SessionError {
        SessionError::NoMemory
    }
}

impl From<WriteFault> for SessionError {
    ghost use Rattle.std.specs.Prelude.{◌≡◌};
    ghost use Rattle.bsp_session.specs.declared.errors.SessionError.TheVariants.{WriteFault};

    ghost from_gives = { λ _ e. e ≡ WriteFault };

    fn from(_fault: WriteFault) -> SessionError {
        SessionError::WriteFault
    }
}

impl From<ReadError> for SessionError {
    ghost use Rattle.std.specs.Prelude.{◌≡◌};
    ghost use Rattle.bsp_session.specs.Outcome.{error_of_read};

    ghost from_gives = { λ r e. e ≡ error_of_read r };

    fn from(error: ReadError) -> SessionError {
        match error {
            ReadError::TooLong => SessionError::TooLong,
            ReadError::ReadFault => SessionError::ReadFault,
            ReadError::NoMemory => SessionError::NoMemory,
        }
    }
}

impl From<AsmError> for SessionError {
    ghost use Rattle.std.specs.Prelude.{◌≡◌};
    ghost use Rattle.bsp_session.specs.Outcome.{error_of_text};

    ghost from_gives = { λ cause e. e ≡ error_of_text cause };

    fn from(cause: AsmError) -> SessionError {
        match cause.kind {
            AsmKind::NoMemory => SessionError::NoMemory,
            _ => SessionError::Text(cause),
        }
    }
}

impl From<ElfError> for SessionError {
    ghost use Rattle.std.specs.Prelude.{◌≡◌};
    ghost use Rattle.bsp_session.specs.Outcome.{error_of_file};

    ghost from_gives = { λ cause e. e ≡ error_of_file cause };

    fn from(cause: ElfError) -> SessionError {
        match cause {
            ElfError::NoMemory => SessionError::NoMemory,
            _ => SessionError::BadImage(cause),
        }
    }
}
