//! A unit that is read from bytes, and what is so of every one.
use crate::units::agree::from_a_reader;
use crate::units::show::{append_error, append_fault};
use crate::units::unit::append_said;
use dw_abbrev::Tables;
use dw_leb::{Order, ReadError, SectionId, Watched, WriteError};
use dw_unit::{Unit, Versions, read_header_as, write_unit};
use std::alloc::{AllocError, Global};

/// Bytes over a section of abbreviation tables, and how they are read.
#[derive(Clone, Copy)]
pub struct Input<'a> {
    pub order: Order,
    pub versions: Versions,
    pub section: &'a [u8],
    pub bytes: &'a [u8],
}

/// How many bytes the unit has that was read, or why none was.
pub type Outcome = Result<usize, ReadError>;

/// Appends the answer to a question about the unit at the front of the input, or why there is none.
pub fn append_read(
    alloc: Global,
    input: Input<'_>,
    question: &str,
    answer: &mut String,
) -> Result<(), AllocError> {
    match read(alloc, input) {
        Ok((mut unit, size)) => append_of_unit(alloc, input, (&mut unit, size), question, answer),
        Err(error) => append_refusal(alloc, input, error, answer),
    }
}

/// The unit at the front of the input, and how many bytes it has.
pub fn read(alloc: Global, input: Input<'_>) -> Result<(Unit, usize), ReadError> {
    let mut tables = Tables::new(alloc, input.section);
    dw_feed::read_unit_as(alloc, input.order, input.versions, &mut tables, input.bytes)
}

fn append_of_unit(
    alloc: Global,
    input: Input<'_>,
    (unit, size): (&mut Unit, usize),
    question: &str,
    answer: &mut String,
) -> Result<(), AllocError> {
    append_laws(alloc, input, unit, size, answer)?;
    append_said(alloc, question, unit, answer)?;
    append_agreement(alloc, input, Ok(size), answer)
}

fn append_refusal(
    alloc: Global,
    input: Input<'_>,
    error: ReadError,
    answer: &mut String,
) -> Result<(), AllocError> {
    append_error(error, answer)?;
    append_head_fault(input, error, answer)?;
    append_agreement(alloc, input, Err(error), answer)
}

/// Says where a unit breaks what is so of each one: it has the size that its reader tells, is written as it was, and
/// its header is the one that is read of its bytes, and of the header's bytes alone.
fn append_laws(
    alloc: Global,
    input: Input<'_>,
    unit: &Unit,
    size: usize,
    answer: &mut String,
) -> Result<(), AllocError> {
    if unit.size() != size as u64 {
        answer.push_str("of another size; ")?;
    }
    if !is_written_as(alloc, unit, front(input.bytes, size)) {
        answer.push_str("written otherwise; ")?;
    }
    if !has_its_header(input, unit) {
        answer.push_str("of another header; ")?;
    }
    Ok(())
}

/// The first so many bytes, and all where there are fewer.
pub fn front(bytes: &[u8], size: usize) -> &[u8] {
    bytes.get(..size).unwrap_or(bytes)
}

/// Whether the unit is written as these bytes.
pub fn is_written_as(alloc: Global, unit: &Unit, bytes: &[u8]) -> bool {
    let mut writer = Watched::new(Vec::new(alloc));
    write_unit(unit, &mut writer).is_ok() && writer.into_inner().as_slice() == bytes
}

/// The bytes of a unit, as it is written.
pub fn written(alloc: Global, unit: &Unit) -> Result<Vec<u8>, WriteError> {
    let mut writer = Watched::new(Vec::new(alloc));
    write_unit(unit, &mut writer)?;
    Ok(writer.into_inner())
}

fn has_its_header(input: Input<'_>, unit: &Unit) -> bool {
    let header = unit.header();
    let context = header.context();
    let is_context = context.order == header.order()
        && context.format == header.format()
        && context.address_size == header.address_size();
    let behind = unit
        .size()
        .saturating_sub(header.format().length_size() as u64);
    let want = Ok((header, behind));
    let alone = front(input.bytes, header.size() as usize);
    is_context
        && header.order() == input.order
        && read_header_as(input.order, input.versions, input.bytes) == want
        && read_header_as(input.order, input.versions, alone) == want
}

/// Says where a header is refused for another reason than the unit, and where it is read, though the unit is refused
/// for a field of it.
fn append_head_fault(
    input: Input<'_>,
    error: ReadError,
    answer: &mut String,
) -> Result<(), AllocError> {
    match read_header_as(input.order, input.versions, input.bytes) {
        Err(fault) if error == ReadError::Fault(fault) => Ok(()),
        Err(fault) => {
            answer.push_str("; for its header ")?;
            append_fault(fault, answer)
        }
        Ok((header, _)) if is_before(error, header.size()) => {
            answer.push_str("; but its header is read")
        }
        Ok(_) => Ok(()),
    }
}

/// Whether the field of a fault begins in `.debug_info` before this offset.
fn is_before(error: ReadError, offset: u64) -> bool {
    match error {
        ReadError::Fault(fault) => fault.section == SectionId::Info && fault.offset < offset,
        _ => false,
    }
}

/// Says where the bytes have another outcome from a reader.
fn append_agreement(
    alloc: Global,
    input: Input<'_>,
    outcome: Outcome,
    answer: &mut String,
) -> Result<(), AllocError> {
    if !from_a_reader(alloc, input, outcome) {
        answer.push_str("; otherwise from a reader")?;
    }
    Ok(())
}
