//! Findings as a caller of `check` gets them.
use crate::common::takes;
use dw_check::{Finding, FindingKind, check};
use dw_leb::Order;
use dw_section::Section;
use dw_strings::Strings;
use std::alloc::{AllocError, Global};
use std::process::Abort;
use std::test::Fail;

/// Code 1, DW_TAG_base_type, no children, DW_AT_name twice as DW_FORM_string.
const TWO_NAMES: [u8; 10] = [0x01, 0x24, 0, 0x03, 0x08, 0x03, 0x08, 0, 0, 0];

/// A compile unit with one entry, whose names are "a" and then "b".
const A_AND_B: [u8; 17] = [
    0x0d, 0, 0, 0, 0x05, 0, 0x01, 0x08, 0, 0, 0, 0, 0x01, 0x61, 0, 0x62, 0,
];

const FOUND: [Finding; 2] = [
    Finding {
        offset: 12,
        position: 0,
        kind: FindingKind::RootTag,
    },
    Finding {
        offset: 12,
        position: 2,
        kind: FindingKind::RepeatedName,
    },
];

fn finds(alloc: Global, section: &Section, found: &[Finding]) -> Result<bool, AllocError> {
    let strings = Strings {
        str: &[],
        line_str: &[],
        str_offsets: &[],
    };
    let all = check(alloc, section, &strings)?;
    Ok(all.as_slice() == found)
}

#[test]
fn findings_in_their_order(rt: HostRuntime) -> Result<(), Fail> {
    let mut section = Section::new(rt.alloc(), Order::Little);
    assert!(rt; finds(rt.alloc(), &section, &[])?);
    assert!(rt; takes(rt.alloc(), &mut section, &TWO_NAMES, &A_AND_B)?);
    assert!(rt; finds(rt.alloc(), &section, &FOUND)?);
    Ok(())
}
