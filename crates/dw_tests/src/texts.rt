//! Where the texts of names begin, and the texts at these places (sections 7.5.5 and 7.26).
use crate::common::{FIFTEEN, TWO_TABLES, takes};
use dw_leb::Order;
use dw_leb::constants::attribute::DW_AT_NAME;
use dw_section::{EntryId, Section};
use dw_strings::{StrFault, Strings, TextPlace};
use std::alloc::Global;
use std::process::Abort;
use std::test::Fail;

/// Code 1, DW_TAG_compile_unit, no children, DW_AT_name as DW_FORM_strp, or as DW_FORM_line_strp.
const STRP: [u8; 8] = [0x01, 0x11, 0, 0x03, 0x0e, 0, 0, 0];

const LINE_STRP: [u8; 8] = [0x01, 0x11, 0, 0x03, 0x1f, 0, 0, 0];

/// Over either a compile unit whose name is at the offset 2 or 4.
const AT_2: [u8; 17] = [
    0x0d, 0, 0, 0, 0x05, 0, 0x01, 0x08, 0, 0, 0, 0, 0x01, 0x02, 0, 0, 0,
];

const AT_4: [u8; 17] = [
    0x0d, 0, 0, 0, 0x05, 0, 0x01, 0x08, 0, 0, 0, 0, 0x01, 0x04, 0, 0, 0,
];

/// Code 1, DW_TAG_compile_unit, no children, DW_AT_str_offsets_base as DW_FORM_sec_offset, DW_AT_name as
/// DW_FORM_strx1.
const STRX1: [u8; 10] = [0x01, 0x11, 0, 0x72, 0x17, 0x03, 0x25, 0, 0, 0];

/// Over it compile units of the base 8 and the index 1 or 2.
const INDEX_1: [u8; 18] = [
    0x0e, 0, 0, 0, 0x05, 0, 0x01, 0x08, 0, 0, 0, 0, 0x01, 0x08, 0, 0, 0, 0x01,
];

const INDEX_2: [u8; 18] = [
    0x0e, 0, 0, 0, 0x05, 0, 0x01, 0x08, 0, 0, 0, 0, 0x01, 0x08, 0, 0, 0, 0x02,
];

/// A header of 8 bytes and the offsets 0 and 3, in `.debug_str` the texts "ab" and "c".
const INDEXED: Strings<'static> = Strings {
    str: b"ab\0c\0",
    line_str: &[],
    str_offsets: &[0x0c, 0, 0, 0, 0x05, 0, 0, 0, 0, 0, 0, 0, 0x03, 0, 0, 0],
};

/// Whether the name of the root of the first unit begins there.
fn name_begins(
    section: &Section,
    strings: &Strings<'_>,
    place: Result<TextPlace<'_>, StrFault>,
) -> bool {
    let root = match section.unit(0) {
        Some(unit) => unit.root(),
        None => return false,
    };
    let id = EntryId {
        item: 0,
        offset: root.offset(),
    };
    match root.attr(DW_AT_NAME) {
        Some(attribute) => strings.place(section, id, &attribute) == place,
        None => false,
    }
}

fn begins(
    alloc: Global,
    table: &[u8],
    unit: &[u8],
    place: Result<TextPlace<'_>, StrFault>,
) -> Result<bool, Fail> {
    let mut section = Section::new(alloc, Order::Little);
    let taken = takes(alloc, &mut section, table, unit)?;
    Ok(taken && name_begins(&section, &INDEXED, place))
}

/// Those in `.debug_line_str` lie past its end: it is empty.
#[test]
fn places_of_texts(rt: HostRuntime) -> Result<(), Fail> {
    for (table, unit, place) in [
        (STRP.as_slice(), AT_2.as_slice(), Ok(TextPlace::Str(2))),
        (&LINE_STRP, &AT_2, Ok(TextPlace::LineStr(2))),
        (&LINE_STRP, &AT_4, Ok(TextPlace::LineStr(4))),
        (&STRX1, &INDEX_1, Ok(TextPlace::Str(3))),
        (&STRX1, &INDEX_2, Err(StrFault::PastOffsets)),
        (&TWO_TABLES, &FIFTEEN, Ok(TextPlace::Own(b"a"))),
    ] {
        assert!(rt; begins(rt.alloc(), table, unit, place)?);
    }
    Ok(())
}

#[test]
fn texts_in_their_places(rt: HostRuntime) {
    for (place, text) in [
        (TextPlace::Own(b"x"), Ok(b"x".as_slice())),
        (TextPlace::Str(0), Ok(b"ab")),
        (TextPlace::Str(4), Ok(b"")),
        (TextPlace::Str(5), Err(StrFault::PastSection)),
        (TextPlace::LineStr(0), Err(StrFault::PastSection)),
    ] {
        assert!(rt; INDEXED.text_at(place) == text);
    }
}
