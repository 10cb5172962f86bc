//! Sections: read, made, judged, and the types in them.
use crate::refusals::samples::{C_NOTATION, C_TYPES, no_strings, section, table};
use crate::refusals::told;
use rothelduf::{
    EntryId, Order, ReadError, Section, SectionRefusal, Tables, TypeError, Unit, Versions, Watched,
    check, read_section_as, read_unit, type_text, write_section,
};
use std::alloc::{AllocError, Global};

pub(crate) fn tell_read(alloc: Global, text: &mut String) -> Result<(), ReadError> {
    let mut answer = section(alloc);
    if let Err(ReadError::NoMemory) = answer {
        told::refused(text, "read_section")?;
        answer = section(alloc);
    }
    match answer {
        Ok(section) => Ok(tell_bytes(alloc, &section, text)?),
        Err(_) => Ok(told::failed(text, "read_section")?),
    }
}

pub(crate) fn tell_read_as(alloc: Global, text: &mut String) -> Result<(), ReadError> {
    let mut answer = section_of_four(alloc);
    if let Err(ReadError::NoMemory) = answer {
        told::refused(text, "read_section_as")?;
        answer = section_of_four(alloc);
    }
    match answer {
        Ok(section) => Ok(tell_bytes(alloc, &section, text)?),
        Err(_) => Ok(told::failed(text, "read_section_as")?),
    }
}

/// A unit of version 4, and bytes that are no unit behind it.
const FOUR_AND_OTHER: [u8; 20] = [
    0x0a, 0x00, 0x00, 0x00, 0x04, 0x00, 0x00, 0x00, 0x00, 0x00, 0x08, 0x01, 0x00, 0x00, 0x02, 0x00,
    0x00, 0x00, 0x09, 0x00,
];

fn section_of_four(alloc: Global) -> Result<Section, ReadError> {
    let mut reader = Watched::new(FOUR_AND_OTHER.as_slice());
    read_section_as(
        alloc,
        Order::Little,
        Versions::FourAndFive,
        &C_TYPES,
        &mut reader,
    )
}

fn tell_bytes(alloc: Global, section: &Section, text: &mut String) -> Result<(), AllocError> {
    let mut writer = Watched::new(Vec::with_capacity(alloc, told::ROOM)?);
    if write_section(section, &mut writer).is_err() {
        return text.push_str("section FAILED\n");
    }
    told::bytes(text, "section", writer.into_inner().as_slice())
}

/// Twenty units that are put into a section.
pub(crate) fn tell_push(alloc: Global, text: &mut String) -> Result<(), ReadError> {
    let mut section = Section::new(alloc, Order::Little);
    for _ in 0..20 {
        push(&mut section, unit(alloc)?, text)?;
    }
    Ok(tell_bytes(alloc, &section, text)?)
}

fn unit(alloc: Global) -> Result<Unit, ReadError> {
    let mut tables = Tables::new(alloc, &C_TYPES);
    let (unit, _size) = read_unit(alloc, Order::Little, &mut tables, &C_NOTATION)?;
    Ok(unit)
}

/// A unit that is handed back is put into the section again.
fn push(section: &mut Section, unit: Unit, text: &mut String) -> Result<(), AllocError> {
    let before = section.items().len();
    match section.push(unit) {
        Err((SectionRefusal::NoMemory, again)) => {
            told::refused(text, "push")?;
            if section.items().len() != before {
                told::changed(text, "section")?;
            }
            let answer = section.push(again).map_err(|(refusal, _)| refusal);
            tell_answer(text, answer)
        }
        answer => tell_answer(text, answer.map_err(|(refusal, _)| refusal)),
    }
}

fn tell_answer(text: &mut String, answer: Result<(), SectionRefusal>) -> Result<(), AllocError> {
    match answer {
        Ok(()) => told::taken(text, "push"),
        Err(refusal) => write!(text, "push {refusal}\n"),
    }
}

/// The variable whose type is appended.
const VARIABLE: EntryId = EntryId {
    item: 0,
    offset: 37,
};

/// What the type is appended to.
const BEFORE: &[u8] = b"extern ";

pub(crate) fn tell_type(alloc: Global, text: &mut String) -> Result<(), ReadError> {
    let section = section(alloc)?;
    tell_type_in(alloc, &section, text)
}

fn tell_type_in(alloc: Global, section: &Section, text: &mut String) -> Result<(), ReadError> {
    let mut out = Vec::from_slice(alloc, BEFORE)?;
    let mut answer = type_text(alloc, section, &no_strings(), VARIABLE, b"f", &mut out);
    if answer == Err(TypeError::NoMemory) {
        told::refused(text, "type_text")?;
        if out.as_slice() != BEFORE {
            told::changed(text, "text")?;
        }
        answer = type_text(alloc, section, &no_strings(), VARIABLE, b"f", &mut out);
    }
    told::bytes(text, "text", out.as_slice())?;
    match answer {
        Ok(()) => Ok(told::taken(text, "type_text")?),
        Err(error) => Ok(write!(text, "type_text {error}\n")?),
    }
}

pub(crate) fn tell_check(alloc: Global, text: &mut String) -> Result<(), ReadError> {
    let section = section(alloc)?;
    tell_findings(alloc, &section, text)
}

fn tell_findings(alloc: Global, section: &Section, text: &mut String) -> Result<(), ReadError> {
    let strings = no_strings();
    let mut answer = check(alloc, section, &strings);
    if answer.is_err() {
        told::refused(text, "check")?;
        answer = check(alloc, section, &strings);
    }
    let Ok(found) = answer else {
        return Ok(told::failed(text, "check")?);
    };
    for finding in found.as_slice() {
        write!(text, "{finding:?}\n")?;
    }
    Ok(told::taken(text, "check")?)
}
