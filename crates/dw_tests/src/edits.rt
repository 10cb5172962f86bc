//! What a section says of itself after a number of it was set.
use crate::common::{FIFTEEN, TWO_TABLES, takes};
use dw_leb::Order;
use dw_leb::constants::attribute::{DW_AT_NAME, DW_AT_STR_OFFSETS_BASE};
use dw_section::{EntryId, Section, SetRefusal};
use std::process::Abort;
use std::test::Fail;

/// The root of the first item.
const ROOT: EntryId = EntryId {
    item: 0,
    offset: 12,
};

/// Code 1, DW_TAG_compile_unit, no children, DW_AT_str_offsets_base as DW_FORM_sec_offset.
const BASED: [u8; 8] = [0x01, 0x11, 0, 0x72, 0x17, 0, 0, 0];

/// Over it a compile unit whose strings begin at 8.
const AT_EIGHT: [u8; 17] = [
    0x0d, 0, 0, 0, 0x05, 0, 0x01, 0x08, 0, 0, 0, 0, 0x01, 0x08, 0, 0, 0,
];

#[test]
fn the_base_of_strings_follows(rt: HostRuntime) -> Result<(), Fail> {
    let mut section = Section::new(rt.alloc(), Order::Little);
    let taken = takes(rt.alloc(), &mut section, &BASED, &AT_EIGHT)?;
    assert!(rt; taken && section.str_offsets_base(0) == Some(8));
    let answer = section.set_number(ROOT, DW_AT_STR_OFFSETS_BASE, 300);
    assert!(rt; answer == Ok(()));
    assert!(rt; section.str_offsets_base(0) == Some(300));
    assert!(rt; section.find(12) == Some(ROOT));
    Ok(())
}

#[test]
fn a_refusal_says_why(rt: HostRuntime) -> Result<(), Fail> {
    let mut section = Section::new(rt.alloc(), Order::Little);
    assert!(rt; takes(rt.alloc(), &mut section, &TWO_TABLES, &FIFTEEN)?);
    let answer = section.set_number(ROOT, DW_AT_NAME, 1);
    assert!(rt; answer == Err(SetRefusal::NotANumber));
    Ok(())
}
