//! Whole runs: a section is read, and what a command says of it is written.
use crate::refusals::samples::{C_NOTATION, C_TYPES, no_strings};
use crate::refusals::told;
use dw_tool::command::Command;
use dw_tool::run::{Inputs, run};
use dw_tool::status::{Status, ToolError};
use rothelduf::{Order, ReadError, Versions, Watched};
use std::alloc::Global;

/// What a run answered, and what it had written.
type Ran = (Result<Status, ToolError>, Vec<u8>);

/// What was written before memory was refused is told too: a beginning of what the second run writes.
pub(crate) fn tell(
    alloc: Global,
    command: Command<'_>,
    text: &mut String,
) -> Result<(), ReadError> {
    let (answer, written) = ran(alloc, command)?;
    if answer == Err(ToolError::Memory) {
        told::bytes(text, "written", written.as_slice())?;
        told::refused(text, "run")?;
        return tell_again(alloc, command, text);
    }
    tell_ran(answer, written.as_slice(), text)
}

fn tell_again(alloc: Global, command: Command<'_>, text: &mut String) -> Result<(), ReadError> {
    let (answer, written) = ran(alloc, command)?;
    tell_ran(answer, written.as_slice(), text)
}

fn ran(alloc: Global, command: Command<'_>) -> Result<Ran, ReadError> {
    let mut writer = Watched::new(Vec::with_capacity(alloc, told::ROOM)?);
    let inputs = Inputs {
        order: Order::Little,
        versions: Versions::Five,
        info: &mut Watched::new(C_NOTATION.as_slice()),
        abbrev: &C_TYPES,
        strings: no_strings(),
    };
    let answer = run(alloc, command, inputs, &mut writer);
    Ok((answer, writer.into_inner()))
}

fn tell_ran(
    answer: Result<Status, ToolError>,
    written: &[u8],
    text: &mut String,
) -> Result<(), ReadError> {
    told::bytes(text, "output", written)?;
    match answer {
        Ok(status) => Ok(write!(text, "run {status:?}\n")?),
        Err(error) => Ok(write!(text, "run {error}\n")?),
    }
}
