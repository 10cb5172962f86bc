//! How a run ends.
ghost use Rattle.std.specs.Prelude.{◌≡◌, Some};
ghost use Rattle.dw_tool.specs.Status.{refused_name, refused_read, refused_set, refused_type, refused_write};
ghost use Rattle.dw_tool.specs.declared.status.ToolError.TheVariants as tool;

use dw_ctype::TypeError;
use dw_leb::{Fault, ReadError, WriteError};
use dw_section::SetRefusal;
use std::alloc::AllocError;
use std::fmt;
use std::io::ErrorKind;
use thiserror::Error;

/// What a run that went through says. Its number is the program's exit status.
#[derive(Clone, Copy, Debug, PartialEq, Eq)]
pub enum Status {
    /// All is well.
    Good = 0,
    /// Something is wrong with the sections, or nothing was found.
    Bad,
}

/// Why a request is refused, though the sections may be right.
#[derive(Clone, Copy, Debug, PartialEq, Eq)]
pub enum Refused {
    /// No entry begins at the offset that was given.
    NoEntry,
    /// The text of the type needs too many visits of types.
    TypeTooBig,
    /// The entry has no attribute of the name.
    NoAttribute,
    /// The value of the first one is no number of at most 64 bits.
    NotANumber,
    /// The value stands in the abbreviation table.
    InTable,
    /// The bytes of the value don't hold the number.
    DoesNotFit,
    /// A reference would name no entry, or a DW_AT_sibling not what follows its entry.
    BadTarget,
}

/// The text is the refusal's name, as `NoEntry`.
impl fmt::Display for Refused {
    ghost output = { λ refused. Some (refused_name refused) };

    fn fmt<W: fmt::Write>(&self, f: &mut fmt::Formatter<W>) -> fmt::Result {
        match self {
            Refused::NoEntry => f.write_str("NoEntry"),
            Refused::TypeTooBig => f.write_str("TypeTooBig"),
            Refused::NoAttribute => f.write_str("NoAttribute"),
            Refused::NotANumber => f.write_str("NotANumber"),
            Refused::InTable => f.write_str("InTable"),
            Refused::DoesNotFit => f.write_str("DoesNotFit"),
            Refused::BadTarget => f.write_str("BadTarget"),
        }
    }
}

impl From<SetRefusal> for Refused {
    ghost from_gives = { λ e out. out ≡ refused_set e };

    fn from(refusal: SetRefusal) -> Refused {
        match refusal {
            SetRefusal::NoEntry => Refused::NoEntry,
            SetRefusal::NoAttribute => Refused::NoAttribute,
            SetRefusal::NotANumber => Refused::NotANumber,
            SetRefusal::InTable => Refused::InTable,
            SetRefusal::DoesNotFit => Refused::DoesNotFit,
            SetRefusal::BadTarget => Refused::BadTarget,
        }
    }
}

/// Why a run gave up.
#[derive(Clone, Copy, Debug, PartialEq, Eq, Error)]
pub enum ToolError {
    /// The sections are refused: the first fault.
    #[error("{0}")]
    Fault(Fault),
    /// The request is refused. Of the commands `type` and `set` refuse one.
    #[error("refused {0}")]
    Refused(Refused),
    /// The reader of `.debug_info` failed.
    #[error("read {0}")]
    Read(ErrorKind),
    /// The writer failed, or took no byte of some (`WriteZero`).
    #[error("write {0}")]
    Write(ErrorKind),
    /// A growth was refused.
    #[error("memory")]
    Memory,
}

impl From<ReadError> for ToolError {
    ghost from_gives = { λ e out. out ≡ refused_read e };

    fn from(error: ReadError) -> ToolError {
        match error {
            ReadError::Fault(fault) => ToolError::Fault(fault),
            ReadError::NoMemory => ToolError::Memory,
            ReadError::Io(kind) => ToolError::Read(kind),
        }
    }
}

impl From<WriteError> for ToolError {
    ghost from_gives = { λ e out. out ≡ refused_write e };

    fn from(error: WriteError) -> ToolError {
        match error {
            WriteError::Io(kind) => ToolError::Write(kind),
        }
    }
}

impl From<TypeError> for ToolError {
    ghost from_gives = { λ e out. out ≡ refused_type e };

    fn from(error: TypeError) -> ToolError {
        match error {
            TypeError::NoEntry => ToolError::Refused(Refused::NoEntry),
            TypeError::TypeTooBig => ToolError::Refused(Refused::TypeTooBig),
            TypeError::NoMemory => ToolError::Memory,
        }
    }
}

impl From<Refused> for ToolError {
    ghost from_gives = { λ r out. out ≡ tool.Refused r };

    fn from(refused: Refused) -> ToolError {
        ToolError::Refused(refused)
    }
}

impl From<AllocError> for ToolError {
    ghost from_gives = { λ _ out. out ≡ tool.Memory };

    fn from(_error: AllocError) -> ToolError {
        ToolError::Memory
    }
}
