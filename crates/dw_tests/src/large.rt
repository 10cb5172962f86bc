//! A unit of more entries and texts than any list begins with, built, written and read. A limit there, told
//! as want of memory, would pass every contract.
use crate::common::{builder, finished, little, writes, written};
use dw_abbrev::Tables;
use dw_feed::read_unit_from;
use dw_form::{AttrValue, Value};
use dw_leb::devices::Stepped;
use dw_leb::{Order, ReadError, Uleb, Watched};
use dw_unit::{Refusal, Unit, UnitBuilder};
use std::alloc::Global;
use std::process::Abort;
use std::test::Fail;

/// Code 1: DW_TAG_compile_unit, children, no attributes. Code 2: DW_TAG_variable, no children, DW_AT_name
/// as DW_FORM_string.
const VARIABLES: [u8; 13] = [0x01, 0x11, 1, 0, 0, 0x02, 0x34, 0, 0x03, 0x08, 0, 0, 0];

/// A root with so many children.
fn fill(builder: &mut UnitBuilder, children: u32) -> Result<(), Refusal> {
    builder.open(Uleb::least(1), &[])?;
    let name = [AttrValue::from(Value::Text(b"name"))];
    for _ in 0..children {
        builder.open(Uleb::least(2), &name)?;
    }
    builder.close(1)
}

fn built(alloc: Global, children: u32) -> Result<Unit, Fail> {
    let mut builder = builder(alloc, &VARIABLES)?;
    fill(&mut builder, children)?;
    Ok(finished(builder)?)
}

/// How many entries of the unit are named "name".
fn named(unit: &Unit) -> u64 {
    let mut count = 0u64;
    for entry in unit.entries() {
        if let Some(attr) = entry.attr(0x03) {
            if attr.attr.value == Value::Text(b"name") {
                count = count.saturating_add(1);
            }
        }
    }
    count
}

/// The unit has 70,000 children. With a header of 12 bytes, the root's code, a code and a name of four
/// bytes with its zero for each child, and a null, these are 420,014 bytes.
fn is_large(rt: &impl Abort, unit: &Unit) {
    assert!(rt; unit.size() == 420_014);
    assert!(rt; named(unit) == 70_000);
    let last = unit.entry_at(420_007).map(|entry| entry.end_offset());
    assert!(rt; last == Some(420_013));
}

/// The bytes of the unit that is built.
fn bytes_of_large(rt: &impl Abort, alloc: Global) -> Result<Vec<u8>, Fail> {
    let unit = built(alloc, 70_000)?;
    is_large(rt, &unit);
    Ok(written(alloc, &unit)?)
}

fn is_read_and_written(rt: &impl Abort, alloc: Global, bytes: &[u8]) -> Result<(), Fail> {
    let (unit, _) = little(alloc, &VARIABLES, bytes)?;
    is_large(rt, &unit);
    Ok(writes(rt, alloc, &unit, bytes)?)
}

/// The unit of a reader that gives a thousand bytes a call.
fn fed(alloc: Global, bytes: &[u8]) -> Result<Unit, ReadError> {
    let mut tables = Tables::new(alloc, &VARIABLES);
    let mut reader = Watched::new(Stepped::new(bytes, 1000));
    read_unit_from(alloc, Order::Little, &mut tables, &mut reader)
}

fn is_fed(rt: &impl Abort, alloc: Global, bytes: &[u8]) -> Result<(), Fail> {
    let unit = fed(alloc, bytes)?;
    is_large(rt, &unit);
    Ok(())
}

#[test]
fn many_entries_and_texts(rt: HostRuntime) -> Result<(), Fail> {
    let bytes = bytes_of_large(&rt, rt.alloc())?;
    is_read_and_written(&rt, rt.alloc(), bytes.as_slice())?;
    is_fed(&rt, rt.alloc(), bytes.as_slice())
}
