//! The units of a section one by one, with the places of numbers in them that other numbers take.
use crate::error::JobError;
use rothelduf::constants::form::*;
use rothelduf::{
    AttrRef, EntryId, EntryRef, Item, Kind, Order, Section, Unit, Watched, read_section,
};
use std::alloc::{AllocError, Global};

/// Of the numbers that may be any others, one of so many is changed.
const STEP: usize = 8;

/// Of the references in a unit, one of so many offsets may be wrong.
const RARE: u64 = 64;

/// A unit of a section, from its first byte to that behind its last one.
#[derive(Drop)]
pub(crate) struct Part {
    pub(crate) start: usize,
    pub(crate) end: usize,
    pub(crate) changes: Vec<Change>,
}

/// What of a unit is another in each of its copies. Places count from the unit's first byte.
#[derive(Clone, Copy)]
pub(crate) enum Change {
    /// The low bits of a byte.
    Number(usize),
    /// A reference to the entry at this offset of another unit.
    Target { at: usize, item: usize, offset: u64 },
    /// A signature, or a reference by one.
    Signature(usize),
    /// A reference in the unit that may be wrong.
    Reference(usize),
}

pub(crate) fn parts_of(alloc: Global, info: &[u8], abbrev: &[u8]) -> Result<Vec<Part>, JobError> {
    let mut reader = Watched::new(info);
    let section = read_section(alloc, Order::Little, abbrev, &mut reader)?;
    let mut parts = Vec::new(alloc);
    for (number, item) in section.items().iter().enumerate() {
        if let Item::Known(unit) = item {
            add_part(alloc, &section, number, unit, &mut parts)?;
        }
    }
    Ok(parts)
}

fn add_part(
    alloc: Global,
    section: &Section,
    number: usize,
    unit: &Unit,
    parts: &mut Vec<Part>,
) -> Result<(), AllocError> {
    let start = section.start(number).unwrap_or(0) as usize;
    let end = start.saturating_add(unit.size() as usize);
    let changes = changes_of(alloc, section, unit)?;
    parts.push(Part {
        start,
        end,
        changes,
    })?;
    Ok(())
}

fn changes_of(alloc: Global, section: &Section, unit: &Unit) -> Result<Vec<Change>, AllocError> {
    let mut changes = Vec::new(alloc);
    if let Kind::TypeUnit { .. } = unit.header().kind() {
        changes.push(Change::Signature(12))?;
    }
    let mut skipped = 0;
    for entry in unit.entries() {
        skipped = add_changes(section, &entry, skipped, &mut changes)?;
    }
    Ok(changes)
}

/// Adds those of an entry. `skipped` numbers came since the last one that is changed; the answer is as many.
fn add_changes(
    section: &Section,
    entry: &EntryRef<'_>,
    skipped: usize,
    changes: &mut Vec<Change>,
) -> Result<usize, AllocError> {
    let mut skipped = skipped;
    for attribute in entry.attrs() {
        if is_number(attribute.form) {
            skipped = (skipped % STEP + 1) % STEP;
        }
        if let Some(change) = change_of(section, &attribute, skipped) {
            changes.push(change)?;
        }
    }
    Ok(skipped)
}

fn change_of(section: &Section, attribute: &AttrRef<'_>, skipped: usize) -> Option<Change> {
    let at = attribute.offset as usize;
    match attribute.form {
        DW_FORM_REF_ADDR => {
            let EntryId { item, offset } = section.find(attribute.attr.as_number()?)?;
            Some(Change::Target { at, item, offset })
        }
        DW_FORM_REF_SIG8 => Some(Change::Signature(at)),
        DW_FORM_REF4 => (attribute.offset % RARE == 0).then_some(Change::Reference(at)),
        form => (skipped == 0 && is_number(form)).then_some(Change::Number(at)),
    }
}

/// Whether the values of a form are numbers that may be any others.
fn is_number(form: u64) -> bool {
    matches!(
        form,
        DW_FORM_DATA1 | DW_FORM_DATA2 | DW_FORM_DATA4 | DW_FORM_DATA8 | DW_FORM_UDATA
    )
}
