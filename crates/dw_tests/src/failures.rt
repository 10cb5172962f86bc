//! How the program ends where memory is refused, or what it says can't be printed.
use dw_cli::line::{line, unreadable};
use dw_cli::outcome::LineError;
use dw_leb::{Fault, Reason, SectionId};
use dw_tool::failure::{Failure, exit_status};
use dw_tool::status::{Refused, ToolError};
use std::alloc::{AllocError, Global};
use std::io;
use std::io::ErrorKind;
use std::test::Fail;

fn fault(section: SectionId, offset: u64, reason: Reason) -> Fault {
    Fault {
        section,
        offset,
        reason,
    }
}

fn failure_text_is(alloc: Global, text: &str) -> Result<bool, AllocError> {
    let told = format!(in alloc; "{}", Failure::Memory)?;
    Ok(told.as_str() == text)
}

fn line_text_is(alloc: Global, text: &str) -> Result<bool, AllocError> {
    let told = format!(in alloc; "{}", LineError::Memory)?;
    Ok(told.as_str() == text)
}

#[test]
fn want_of_memory(rt: HostRuntime) -> Result<(), Fail> {
    assert!(rt; failure_text_is(rt.alloc(), "memory")?);
    assert!(rt; line_text_is(rt.alloc(), "memory")?);
    assert!(rt; exit_status(Err(Failure::Memory)) == 4);
    Ok(())
}

#[test]
fn a_device_that_wants_memory_has_not_failed(rt: HostRuntime) {
    assert!(rt; Failure::of_file("a", ErrorKind::NotFound) == Failure::File("a"));
    assert!(rt; Failure::of_file("a", ErrorKind::OutOfMemory) == Failure::Memory);
    assert!(rt; Failure::of_output(ErrorKind::StorageFull) == Failure::Output);
    assert!(rt; Failure::of_output(ErrorKind::OutOfMemory) == Failure::Memory);
}

#[test]
fn failures_of_runs(rt: HostRuntime) {
    let cut = fault(SectionId::Info, 13, Reason::Truncated);
    for (error, failure) in [
        (ToolError::Fault(cut), Failure::Fault(cut)),
        (
            ToolError::Refused(Refused::NoEntry),
            Failure::Refused(Refused::NoEntry),
        ),
        (ToolError::Read(ErrorKind::TimedOut), Failure::File("a")),
        (ToolError::Read(ErrorKind::OutOfMemory), Failure::Memory),
        (ToolError::Write(ErrorKind::WriteZero), Failure::Output),
        (ToolError::Write(ErrorKind::OutOfMemory), Failure::Memory),
        (ToolError::Memory, Failure::Memory),
    ] {
        assert!(rt; Failure::of_run(error, "a") == failure);
    }
}

// How the program ends where help is asked for, and its text was printed or could not be.
fn help_ends(alloc: Global, printed: io::Result<()>) -> Result<u8, Failure<'static>> {
    match line(alloc, &["--help"]) {
        Ok(_) => Ok(99),
        Err(help) => help.ended(printed),
    }
}

#[test]
fn help_that_is_not_printed_is_a_failed_output(rt: HostRuntime) {
    let full = io::Error::from(ErrorKind::StorageFull);
    let memory = io::Error::from(ErrorKind::OutOfMemory);
    assert!(rt; help_ends(rt.alloc(), Ok(())) == Ok(0));
    assert!(rt; help_ends(rt.alloc(), Err(full)) == Err(Failure::Output));
    assert!(rt; help_ends(rt.alloc(), Err(memory)) == Err(Failure::Memory));
}

// How the program ends with words that could not be read, where what it says of that could not be printed.
fn unreadable_ends(alloc: Global, kind: ErrorKind) -> Result<u8, Failure<'static>> {
    unreadable(alloc, kind).ended(Err(io::Error::from(ErrorKind::StorageFull)))
}

#[test]
fn words_that_are_no_text_are_a_mistake(rt: HostRuntime) {
    assert!(rt; unreadable_ends(rt.alloc(), ErrorKind::InvalidData) == Ok(2));
    assert!(rt; unreadable_ends(rt.alloc(), ErrorKind::OutOfMemory) == Err(Failure::Memory));
}
