//! References resolved where the entries of a unit are known, and where they aren't.
use crate::common::{FIFTEEN, REFERS, TWO_TABLES, takes};
use dw_leb::Order;
use dw_leb::constants::attribute::DW_AT_TYPE;
use dw_section::{EntryId, EntryOffsets, RefFault, Section};
use std::alloc::Global;
use std::process::Abort;
use std::test::Fail;

const fn at(item: usize) -> EntryId {
    EntryId { item, offset: 12 }
}

/// What the type of an entry resolves to. None where there is no entry, where it has none, and where it matters
/// whether entries of the unit are known.
fn type_of(alloc: Global, section: &Section, from: EntryId) -> Option<Result<EntryId, RefFault>> {
    let unit = section.unit(from.item)?;
    let entry = unit.entry_at(from.offset)?;
    let named = entry.attr(DW_AT_TYPE)?;
    let target = section.resolve(from, &named);
    let mut begins = EntryOffsets::new(alloc);
    let among_none = section.resolve_among(&begins, from, &named);
    begins.learn(unit);
    let among_all = section.resolve_among(&begins, from, &named);
    if among_none == target && among_all == target {
        Some(target)
    } else {
        None
    }
}

/// Whether the reference of the second unit resolves so, where it is this number.
fn names(alloc: Global, number: u8, target: Result<EntryId, RefFault>) -> Result<bool, Fail> {
    let mut refers = REFERS;
    refers[13] = number;
    let mut section = Section::new(alloc, Order::Little);
    let first = takes(alloc, &mut section, &TWO_TABLES, &FIFTEEN)?;
    let second = takes(alloc, &mut section, &TWO_TABLES, &refers)?;
    Ok(first && second && type_of(alloc, &section, at(1)) == Some(target))
}

#[test]
fn references_among_known_entries(rt: HostRuntime) -> Result<(), Fail> {
    for (number, target) in [
        (12, Ok(at(0))),
        (27, Ok(at(1))),
        (15, Err(RefFault::NotAnEntry)),
        (31, Err(RefFault::NotAnEntry)),
        (32, Err(RefFault::OutsideSection)),
    ] {
        assert!(rt; names(rt.alloc(), number, target)?);
    }
    Ok(())
}

/// Code 1, DW_TAG_compile_unit, no children, DW_AT_type as DW_FORM_data4.
const NUMBER: [u8; 8] = [0x01, 0x11, 0, 0x49, 0x06, 0, 0, 0];

/// A compile unit over it.
const TWELVE: [u8; 17] = [
    0x0d, 0, 0, 0, 0x05, 0, 0x01, 0x08, 0, 0, 0, 0, 0x01, 0x0c, 0, 0, 0,
];

#[test]
fn a_number_is_no_reference(rt: HostRuntime) -> Result<(), Fail> {
    let mut section = Section::new(rt.alloc(), Order::Little);
    assert!(rt; takes(rt.alloc(), &mut section, &NUMBER, &TWELVE)?);
    let answer = type_of(rt.alloc(), &section, at(0));
    assert!(rt; answer == Some(Err(RefFault::NotReference)));
    Ok(())
}
