//! What no clause of `Section` says: sections whose bytes are known from the standard, each with memory to spare.
use crate::common::{FIFTEEN, REFERS, TWO_TABLES, spells, takes, unit};
use dw_leb::Order;
use dw_section::{EntryId, Section, SectionRefusal};
use dw_unit::Versions;
use std::alloc::Global;
use std::process::Abort;
use std::test::Fail;

/// A compile unit of version 4 over the first table, of the name "a".
const FOUR: [u8; 14] = [0x0a, 0, 0, 0, 0x04, 0, 0, 0, 0, 0, 0x08, 0x01, 0x61, 0];

/// The fifteen bytes twice.
const TWICE: [u8; 30] = [
    0x0b, 0, 0, 0, 0x05, 0, 0x01, 0x08, 0, 0, 0, 0, 0x01, 0x61, 0, 0x0b, 0, 0, 0, 0x05, 0, 0x01,
    0x08, 0, 0, 0, 0, 0x01, 0x61, 0,
];

/// Appends two units, which the section takes.
fn add_both(
    rt: &impl Abort,
    alloc: Global,
    section: &mut Section,
    units: [&[u8]; 2],
) -> Result<(), Fail> {
    for bytes in units {
        assert!(rt; takes(alloc, section, &TWO_TABLES, bytes)?);
    }
    Ok(())
}

#[test]
fn two_units_are_written_behind_each_other(rt: HostRuntime) -> Result<(), Fail> {
    let mut section = Section::new(rt.alloc(), Order::Little);
    has_nothing(&rt, &section);
    let units = [FIFTEEN.as_slice(), FIFTEEN.as_slice()];
    add_both(&rt, rt.alloc(), &mut section, units)?;
    is_twice(&rt, rt.alloc(), &section)
}

fn has_nothing(rt: &impl Abort, section: &Section) {
    assert!(rt; section.size() == 0 && section.items().is_empty());
}

fn is_twice(rt: &impl Abort, alloc: Global, section: &Section) -> Result<(), Fail> {
    assert!(rt; section.size() == 30 && section.items().len() == 2);
    assert!(rt; spells(alloc, section, &TWICE)?);
    Ok(())
}

#[test]
fn starts_and_entries(rt: HostRuntime) -> Result<(), Fail> {
    let mut section = Section::new(rt.alloc(), Order::Little);
    let units = [FIFTEEN.as_slice(), REFERS.as_slice()];
    add_both(&rt, rt.alloc(), &mut section, units)?;
    begins_twice(&rt, &section);
    has_entries(&rt, &section);
    Ok(())
}

/// The section has two units, the second of which begins at 15.
fn begins_twice(rt: &impl Abort, section: &Section) {
    assert!(rt; section.start(0) == Some(0) && section.start(1) == Some(15));
    assert!(rt; section.start(2) == None && section.unit(2).is_none());
}

/// The second unit has its one entry at 27 of the section, and where a unit begins or the section ends there is none.
fn has_entries(rt: &impl Abort, section: &Section) {
    let second = EntryId {
        item: 1,
        offset: 12,
    };
    assert!(rt; section.find(27) == Some(second) && section.entry(second).is_some());
    for offset in [0, 15, 32] {
        assert!(rt; section.find(offset) == None);
    }
}

/// Why the unit of these bytes isn't added.
fn refusal(
    alloc: Global,
    section: &mut Section,
    bytes: &[u8],
) -> Result<Option<SectionRefusal>, Fail> {
    let unit = unit(alloc, Order::Little, &TWO_TABLES, bytes)?;
    match section.push(unit) {
        Ok(()) => Ok(None),
        Err((refusal, _)) => Ok(Some(refusal)),
    }
}

#[test]
fn units_that_are_refused(rt: HostRuntime) -> Result<(), Fail> {
    let mut big = Section::new(rt.alloc(), Order::Big);
    assert!(rt; refusal(rt.alloc(), &mut big, &FIFTEEN)? == Some(SectionRefusal::WrongOrder));
    assert!(rt; refusal(rt.alloc(), &mut big, &FOUR)? == Some(SectionRefusal::WrongOrder));
    let mut five = Section::new(rt.alloc(), Order::Little);
    assert!(rt; refusal(rt.alloc(), &mut five, &FOUR)? == Some(SectionRefusal::WrongVersion));
    assert!(rt; five.items().is_empty());
    Ok(())
}

#[test]
fn version_four_where_it_is_asked_for(rt: HostRuntime) -> Result<(), Fail> {
    let mut section = Section::new_as(rt.alloc(), Order::Little, Versions::FourAndFive);
    assert!(rt; takes(rt.alloc(), &mut section, &TWO_TABLES, &FOUR)?);
    assert!(rt; takes(rt.alloc(), &mut section, &TWO_TABLES, &FIFTEEN)?);
    assert!(rt; section.start(1) == Some(14) && section.size() == 29);
    Ok(())
}
