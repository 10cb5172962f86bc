//! What several tests compare by, and tables, units and calls that they begin with, with sections made of these.
use dw_abbrev::Tables;
use dw_feed::{read_unit, read_unit_as};
use dw_leb::{Format, Order, ReadError, Watched, WriteError};
use dw_section::{Section, write_section};
use dw_strings::Strings;
use dw_unit::{Header, Kind, Refusal, Unit, UnitBuilder, Versions, write_unit};
use std::alloc::Global;
use std::process::Abort;
use std::test::Fail;

/// At 0: code 1, DW_TAG_compile_unit, no children, DW_AT_name as DW_FORM_string. At 8: the same with DW_AT_type as
/// DW_FORM_ref_addr.
pub const TWO_TABLES: [u8; 16] = [
    0x01, 0x11, 0, 0x03, 0x08, 0, 0, 0, 0x01, 0x11, 0, 0x49, 0x10, 0, 0, 0,
];

/// Over the first one a compile unit of the name "a".
pub const FIFTEEN: [u8; 15] = [
    0x0b, 0, 0, 0, 0x05, 0, 0x01, 0x08, 0, 0, 0, 0, 0x01, 0x61, 0,
];

/// Over the second one a compile unit with a reference into the section.
pub const REFERS: [u8; 17] = [
    0x0d, 0, 0, 0, 0x05, 0, 0x01, 0x08, 0x08, 0, 0, 0, 0x01, 0x0c, 0, 0, 0,
];

/// One declaration: code 1, DW_TAG_compile_unit, no children, DW_AT_name as DW_FORM_string.
pub const NAMED: [u8; 8] = [0x01, 0x11, 0, 0x03, 0x08, 0, 0, 0];

/// Code 1, DW_TAG_compile_unit, children, DW_AT_name as DW_FORM_string; code 2, DW_TAG_base_type, no
/// children, DW_AT_byte_size as DW_FORM_data1.
pub const TYPED: [u8; 15] = [
    0x01, 0x11, 1, 0x03, 0x08, 0, 0, 0x02, 0x24, 0, 0x0b, 0x0b, 0, 0, 0,
];

/// Over it a compile unit of the name "a" with a base type of 4 bytes: a padded code, a padded null of the children,
/// and nulls of 1 and 2 bytes behind it.
pub const PADDED: [u8; 23] = [
    0x13, 0, 0, 0, 0x05, 0, 0x01, 0x08, 0, 0, 0, 0, 0x81, 0, 0x61, 0, 0x02, 0x04, 0x80, 0, 0, 0x80,
    0,
];

/// Code 1, DW_TAG_compile_unit, children, no attributes.
pub const BARE: [u8; 6] = [0x01, 0x11, 1, 0, 0, 0];

/// No texts.
pub fn no_strings<'a>() -> Strings<'a> {
    Strings {
        str: &[],
        line_str: &[],
        str_offsets: &[],
    }
}

/// These are the same bytes. An assertion of two slices where it is made costs the prover far more.
pub fn same(rt: &impl Abort, got: &[u8], want: &[u8]) {
    assert_eq!(rt; got, want);
}

/// The unit of version 4 or 5 at the front of the bytes.
pub fn unit(alloc: Global, order: Order, abbreviations: &[u8], bytes: &[u8]) -> Result<Unit, Fail> {
    let mut tables = Tables::new(alloc, abbreviations);
    let (unit, _) = read_unit_as(alloc, order, Versions::FourAndFive, &mut tables, bytes)?;
    Ok(unit)
}

/// Appends the unit of these bytes, which are in the section's order. Whether the section takes it.
pub fn takes(
    alloc: Global,
    section: &mut Section,
    abbreviations: &[u8],
    bytes: &[u8],
) -> Result<bool, Fail> {
    let unit = unit(alloc, section.order(), abbreviations, bytes)?;
    Ok(section.push(unit).is_ok())
}

/// Whether the section is written as these bytes.
pub fn spells(alloc: Global, section: &Section, bytes: &[u8]) -> Result<bool, WriteError> {
    let mut writer = Watched::new(Vec::new(alloc));
    write_section(section, &mut writer)?;
    Ok(writer.into_inner().as_slice() == bytes)
}

/// The little-endian unit at the front of `b`, over the table that its header names in `section`, and the count of its
/// bytes.
pub fn little(alloc: Global, section: &[u8], b: &[u8]) -> Result<(Unit, usize), ReadError> {
    let mut tables = Tables::new(alloc, section);
    read_unit(alloc, Order::Little, &mut tables, b)
}

/// The bytes of a unit, as it is written.
pub fn written(alloc: Global, unit: &Unit) -> Result<Vec<u8>, WriteError> {
    let mut writer = Watched::new(Vec::new(alloc));
    write_unit(unit, &mut writer)?;
    Ok(writer.into_inner())
}

/// The unit is written as these bytes.
pub fn writes(rt: &impl Abort, alloc: Global, unit: &Unit, want: &[u8]) -> Result<(), WriteError> {
    let bytes = written(alloc, unit)?;
    same(rt, bytes.as_slice(), want);
    Ok(())
}

/// A builder of a little-endian compile unit of the 32-bit format over the table at the front of the section.
pub fn builder(alloc: Global, section: &[u8]) -> Result<UnitBuilder, Fail> {
    let header = Header::new(Order::Little, Format::Dwarf32, Kind::Compile, 8, 0).ok_or(
        "no header",
    )?;
    let table = Tables::new(alloc, section).get(0)?;
    Ok(UnitBuilder::new(alloc, header, table))
}

/// The unit of a builder, or why there is none.
pub fn finished(builder: UnitBuilder) -> Result<Unit, Refusal> {
    match builder.finish() {
        Ok(unit) => Ok(unit),
        Err((refusal, _)) => Err(refusal),
    }
}
