//! What is answered to an input, and what holds of every one:
//!
//! - a section is read of a reader that gives all bytes at once as of one that gives one a call, or has the same fault;
//! - a section that is read is written as it was;
//! - `show` and `check` say something of it, and `type_text` of each entry;
//! - its units are read as one piece as they are in pieces of one byte and by a reader (`units`).
use crate::sweeps::agree::{is_written_as, reads_as};
use crate::sweeps::input::Input;
use crate::sweeps::tally::Tally;
use crate::sweeps::units::are_units_alike;
use dw_tool::command::Command;
use dw_tool::run::{Inputs, run};
use rothelduf::{
    EntryId, Fault, ReadError, Reason, Section, SectionId, TypeError, Unit, Watched,
    read_section_as, type_text,
};
use std::alloc::{AllocError, Global};

/// The name with which types are told.
const NAME: &[u8] = b"x";

/// A fault that no input has.
const WRONG: Fault = Fault {
    section: SectionId::Abbrev,
    offset: u64::MAX,
    reason: Reason::BadVersion,
};

/// Judges an input, and counts what is answered to it.
pub(crate) fn judge(alloc: Global, input: &Input<'_>, tally: &mut Tally) -> Result<(), AllocError> {
    match read(alloc, input) {
        Ok(section) => judge_section(alloc, input, &section, tally)?,
        Err(ReadError::Fault(fault)) => {
            tally.count_fault(fault)?;
            tally.expect(reads_as(alloc, input, Err(fault)));
        }
        // (a reader of bytes at hand fails for want of memory alone)
        Err(_) => return Err(AllocError),
    }
    tally.expect(are_units_alike(alloc, input));
    Ok(())
}

/// Judges of an input what doesn't hold of it, which has to be counted as broken: that it is answered otherwise than it
/// is, and where it is read that it is written as no bytes.
pub(crate) fn judge_wrongly(alloc: Global, input: &Input<'_>, tally: &mut Tally) {
    match read(alloc, input) {
        Ok(section) => {
            tally.expect(reads_as(alloc, input, Err(WRONG)));
            tally.expect(is_written_as(alloc, &section, &[]));
        }
        Err(_) => tally.expect(reads_as(alloc, input, Ok(()))),
    }
}

fn read(alloc: Global, input: &Input<'_>) -> Result<Section, ReadError> {
    let mut reader = Watched::new(input.info);
    read_section_as(
        alloc,
        input.order,
        input.versions,
        input.abbrev,
        &mut reader,
    )
}

fn judge_section(
    alloc: Global,
    input: &Input<'_>,
    section: &Section,
    tally: &mut Tally,
) -> Result<(), AllocError> {
    tally.count_section();
    tally.expect(is_written_as(alloc, section, input.info));
    tally.expect(reads_as(alloc, input, Ok(())));
    tell(alloc, Command::Show, input, tally);
    tell(alloc, Command::Check, input, tally);
    for index in 0..section.items().len() {
        if let Some(unit) = section.unit(index) {
            tell_types(alloc, input, section, (index, unit), tally)?;
        }
    }
    Ok(())
}

/// What a command writes, which has to be something.
fn tell(alloc: Global, command: Command<'_>, input: &Input<'_>, tally: &mut Tally) {
    let mut writer = Watched::new(Vec::new(alloc));
    let inputs = Inputs {
        order: input.order,
        versions: input.versions,
        info: &mut Watched::new(input.info),
        abbrev: input.abbrev,
        strings: input.strings,
    };
    let is_told = run(alloc, command, inputs, &mut writer).is_ok();
    tally.expect(is_told);
    tally.add(writer.into_inner().as_slice());
}

/// The type of each entry of a unit, which is the item of this index.
fn tell_types(
    alloc: Global,
    input: &Input<'_>,
    section: &Section,
    (item, unit): (usize, &Unit),
    tally: &mut Tally,
) -> Result<(), AllocError> {
    for entry in unit.entries() {
        let id = EntryId {
            item,
            offset: entry.offset(),
        };
        tell_type(alloc, input, section, id, tally)?;
    }
    Ok(())
}

fn tell_type(
    alloc: Global,
    input: &Input<'_>,
    section: &Section,
    id: EntryId,
    tally: &mut Tally,
) -> Result<(), AllocError> {
    let mut text = Vec::new(alloc);
    match type_text(alloc, section, &input.strings, id, NAME, &mut text) {
        Ok(()) => tally.add(text.as_slice()),
        Err(TypeError::TypeTooBig) => tally.add(b"TypeTooBig"),
        Err(TypeError::NoEntry) => tally.expect(false),
        Err(TypeError::NoMemory) => return Err(AllocError),
    }
    tally.add(b"\n");
    Ok(())
}
