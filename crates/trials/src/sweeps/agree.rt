//! That a section is read in pieces of one byte as in one piece, and is written as it was.
use crate::sweeps::input::Input;
use dw_leb::devices::Stepped;
use rothelduf::{Fault, ReadError, Section, Watched, read_section_as, write_section};
use std::alloc::Global;

/// Whether a reader that gives one byte a call gives a section that is written as it was, or this fault.
pub(crate) fn reads_as(alloc: Global, input: &Input<'_>, outcome: Result<(), Fault>) -> bool {
    let mut reader = Watched::new(Stepped::new(input.info, 1));
    let read = read_section_as(
        alloc,
        input.order,
        input.versions,
        input.abbrev,
        &mut reader,
    );
    match read {
        Ok(section) => outcome.is_ok() && is_written_as(alloc, &section, input.info),
        Err(ReadError::Fault(fault)) => outcome == Err(fault),
        Err(_) => false,
    }
}

/// Whether the section is written as these bytes.
pub(crate) fn is_written_as(alloc: Global, section: &Section, bytes: &[u8]) -> bool {
    let mut writer = Watched::new(Vec::new(alloc));
    write_section(section, &mut writer).is_ok() && writer.into_inner().as_slice() == bytes
}
