//! What a command line says, and why words say nothing.
ghost use Rattle.std.specs.Prelude.{◌≡◌, ◌≢◌, Ok};
ghost use Rattle.clap.specs.Words.{kind_of};
ghost use Rattle.dw_cli.specs.Line.{Converts, Ends, EndsHelp, IsHelp};
ghost use Rattle.dw_cli.specs.Run.{whole_files};
ghost use Rattle.clap.specs.declared.error.kind.ErrorKind.TheVariants.{DisplayHelp, DisplayVersion};
ghost use Rattle.dw_cli.specs.declared.outcome.LineError.TheVariants as outcome;

use crate::word::BadWord;
use clap::error::ErrorKind;
use dw_header::Versions;
use dw_leb::Order;
use dw_tool::command::Command;
use dw_tool::failure::Failure;
use std::alloc::AllocError;
use std::io;
use thiserror::Error;

/// A command line.
#[derive(Clone, Copy, Debug, PartialEq, Eq)]
pub struct Line<'a> {
    /// The subcommand.
    pub command: Command<'a>,
    /// The byte order of the sections: big-endian under `--big`.
    pub order: Order,
    /// The versions of the units that are read: 4 and 5 under `--v4`, and 5 alone without.
    pub versions: Versions,
    /// The path of the file that holds `.debug_info`.
    pub info: &'a str,
    /// The path of the file that holds `.debug_abbrev`.
    pub abbrev: &'a str,
    /// The path of the file that holds `.debug_str`, where one is named.
    pub str: Option<&'a str>,
    /// The path of the file that holds `.debug_line_str`, where one is named.
    pub line_str: Option<&'a str>,
    /// The path of the file that holds `.debug_str_offsets`, where one is named.
    pub str_offsets: Option<&'a str>,
}

impl<'a> Line<'a> {
    /// The paths of the files that are read whole, in the order in which they are opened: those that hold
    /// `.debug_abbrev`, `.debug_str`, `.debug_line_str` and `.debug_str_offsets`. The file that holds `.debug_info` is
    /// opened behind them.
    pub fn whole_files(&self) -> [Option<&'a str>; 4]
        ensures { result ≡ whole_files self.now }
    {
        [Some(self.abbrev), self.str, self.line_str, self.str_offsets]
    }
}

/// Why the words are no command line.
#[derive(Debug, Drop, Error)]
pub enum LineError<'a> {
    /// The words aren't taken, or ask for help. The error's text is the one for the user, and its
    /// `exit_code` is 0 for help that was asked for and 2 for a mistake.
    #[error("{0}")]
    Parse(clap::Error),
    /// The words are taken, but this one isn't what it may be. Its text is the one for the user.
    #[error("{0}")]
    BadWord(BadWord<'a>),
    /// A growth was refused.
    #[error("memory")]
    Memory,
}

impl LineError<'_> {
    /// How the program ends, once the text of `Parse` or `BadWord` was printed, or could not be: with the exit status
    /// 0 after help that was asked for, and 2 after a mistake.
    ///
    /// Errors: help that could not be printed is a failure of standard output. `Memory` is one of memory.
    pub fn ended(&self, printed: io::Result<()>) -> Result<u8, Failure<'static>>
        ensures { Ends self.now printed result }
    {
        match self {
            LineError::Parse(error) => parse_ended(error, printed),
            LineError::BadWord(_) => Ok(2),
            LineError::Memory => Err(Failure::Memory),
        }
    }
}

impl<'a> From<clap::Error> for LineError<'a> {
    ghost from_gives = { λ e out. Converts e out };

    fn from(error: clap::Error) -> LineError<'a> {
        if error.kind() == ErrorKind::OutOfMemory {
            LineError::Memory
        } else {
            LineError::Parse(error)
        }
    }
}

impl<'a> From<AllocError> for LineError<'a> {
    ghost from_gives = { λ _ out. out ≡ outcome.Memory };

    fn from(_error: AllocError) -> LineError<'a> {
        LineError::Memory
    }
}

impl<'a> From<BadWord<'a>> for LineError<'a> {
    ghost from_gives = { λ bad out. out ≡ outcome.BadWord bad };

    fn from(bad: BadWord<'a>) -> LineError<'a> {
        LineError::BadWord(bad)
    }
}

fn parse_ended(error: &clap::Error, printed: io::Result<()>) -> Result<u8, Failure<'static>>
    ensures help { IsHelp (kind_of error.now) → EndsHelp printed result }
    ensures mistake { (kind_of error.now ≢ DisplayHelp) → (kind_of error.now ≢ DisplayVersion) → result ≡ Ok 2 }
{
    if error.use_stderr() {
        return Ok(2);
    }
    match printed {
        Ok(()) => Ok(0),
        Err(failed) => Err(Failure::of_output(failed.kind())),
    }
}
