//! How the program ends where it gives up: the line on standard error, and the exit status.
ghost use Rattle.std.specs.Prelude.{◌≡◌, Some};
ghost use Rattle.dw_tool.specs.Failure.{FailsAs, RunFails, exit_status, failure_line, failure_status};
ghost use Rattle.dw_tool.specs.declared.failure.Failure.TheVariants as failure;

use crate::status::{Refused, Status, ToolError};
use dw_leb::Fault;
use std::fmt;
use std::io::ErrorKind;

/// Why the program gives up. Its text is the line on standard error, without the line's end.
#[derive(Clone, Copy, Debug, PartialEq, Eq)]
pub enum Failure<'a> {
    /// The sections are refused: the first fault.
    Fault(Fault),
    /// The request is refused.
    Refused(Refused),
    /// The file with this path failed.
    File(&'a str),
    /// Standard output failed.
    Output,
    /// Memory was refused.
    Memory,
}

impl<'a> Failure<'a> {
    /// The file with this path failed with an error of this kind. If it failed because memory was
    /// refused, that is `Memory`.
    pub fn of_file(path: &'a str, kind: ErrorKind) -> Failure<'a>
        ensures { FailsAs kind (failure.File path.entry) result }
    {
        unless_memory(kind, Failure::File(path))
    }

    /// Standard output failed with an error of this kind. If it failed because memory was refused,
    /// that is `Memory`.
    pub fn of_output(kind: ErrorKind) -> Failure<'a>
        ensures { FailsAs kind failure.Output result }
    {
        unless_memory(kind, Failure::Output)
    }

    /// A run gave up, whose reader reads the file with the path `info` and whose writer writes to
    /// standard output.
    pub fn of_run(error: ToolError, info: &'a str) -> Failure<'a>
        ensures { RunFails error info.entry result }
    {
        match error {
            ToolError::Fault(fault) => Failure::Fault(fault),
            ToolError::Refused(refused) => Failure::Refused(refused),
            ToolError::Read(kind) => Failure::of_file(info, kind),
            ToolError::Write(kind) => Failure::of_output(kind),
            ToolError::Memory => Failure::Memory,
        }
    }

    /// The exit status: 1 for a fault or a refusal, 3 for a file or standard output, 4 for memory.
    pub fn status(self) -> u8
        ensures { result ≡ failure_status self.entry }
    {
        match self {
            Failure::Fault(_) | Failure::Refused(_) => 1,
            Failure::File(_) | Failure::Output => 3,
            Failure::Memory => 4,
        }
    }
}

fn unless_memory<'a>(kind: ErrorKind, device: Failure<'a>) -> Failure<'a>
    ensures { FailsAs kind device.entry result }
{
    if kind == ErrorKind::OutOfMemory {
        Failure::Memory
    } else {
        device
    }
}

/// The text is the line on standard error, without its end: `fault info 0x11 Truncated`, `refused
/// NoEntry`, `file PATH`, `file standard output` or `memory`.
impl fmt::Display for Failure<'_> {
    ghost output = { λ failure. Some (failure_line failure) };

    fn fmt<W: fmt::Write>(&self, f: &mut fmt::Formatter<W>) -> fmt::Result {
        match self {
            Failure::Fault(fault) => write!(f, "{fault}"),
            Failure::Refused(refused) => write!(f, "refused {refused}"),
            Failure::File(path) => write!(f, "file {path}"),
            Failure::Output => f.write_str("file standard output"),
            Failure::Memory => f.write_str("memory"),
        }
    }
}

/// The exit status of the program: 0 where all is well, 1 where a run went through and found something
/// wrong, and else that of the failure.
pub fn exit_status(ended: Result<Status, Failure<'_>>) -> u8
    ensures { result ≡ exit_status ended.entry }
{
    match ended {
        Ok(status) => status as u8,
        Err(failure) => failure.status(),
    }
}
