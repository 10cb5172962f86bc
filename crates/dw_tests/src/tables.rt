//! What no case says of tables: that what was read is shared, and a writer that fails.
use crate::common::same;
use dw_abbrev::{FixedPrefix, Table, Tables};
use dw_form::FormSize;
use dw_leb::devices::Stepped;
use dw_leb::{ReadError, Watched, WriteError};
use std::alloc::Global;
use std::io::ErrorKind;
use std::process::Abort;
use std::rc::Rc;
use std::test::Fail;

/// One declaration: code 1, tag 0x11, no children, one pair of name 3 and form 8.
const ONE_PAIR: [u8; 8] = [0x01, 0x11, 0, 0x03, 0x08, 0, 0, 0];

/// Code 1 with a number of 2 bytes, an address, an offset into a section, a constant of its own, a text and a flag: the
/// first four have sizes that their forms tell.
const SIX_PAIRS: [u8; 19] = [
    0x01, 0x34, 0, 0x0b, 0x05, 0x11, 0x01, 0x02, 0x17, 0x1c, 0x21, 0x07, 0x03, 0x08, 0x3f, 0x19, 0,
    0, 0,
];

/// Whether the table there is this one.
fn is_shared(tables: &mut Tables<'_>, offset: u64, first: &Rc<Table>) -> Result<bool, ReadError> {
    let other = tables.get(offset)?;
    Ok(Rc::ptr_eq(first, &other))
}

/// The table at 0 is given again behind another and a refusal.
fn shares_the_first(
    rt: &impl Abort,
    tables: &mut Tables<'_>,
    first: &Rc<Table>,
) -> Result<(), ReadError> {
    assert!(rt; !is_shared(tables, 7, first)?);
    assert!(rt; tables.get(8).is_err());
    assert!(rt; is_shared(tables, 0, first)?);
    Ok(())
}

#[test]
fn shares_what_was_read(rt: HostRuntime) -> Result<(), Fail> {
    let mut tables = Tables::new(rt.alloc(), &ONE_PAIR);
    let first = tables.get(0)?;
    Ok(shares_the_first(&rt, &mut tables, &first)?)
}

/// A writer that fails behind four bytes gets these, and its error is told.
fn fails_behind_four(rt: &impl Abort, alloc: Global, table: &Table) {
    let device = Stepped::failing(Vec::new(alloc), 1, 4, ErrorKind::Other);
    let mut writer = Watched::new(device);
    let answer = table.write(&mut writer);
    assert!(rt; answer == Err(WriteError::Io(ErrorKind::Other)));
    assert!(rt; writer.fault() == Some(ErrorKind::Other));
    let device = writer.into_inner();
    same(rt, device.inner().as_slice(), &[0x01, 0x11, 0, 0x03]);
}

#[test]
fn keeps_a_writers_fault(rt: HostRuntime) -> Result<(), Fail> {
    let table = Table::read(rt.alloc(), &ONE_PAIR, 0)?;
    fails_behind_four(&rt, rt.alloc(), &table);
    Ok(())
}

/// The first values of an entry of six pairs, whose forms tell their sizes.
fn first_of_six(alloc: Global) -> Result<FixedPrefix, Fail> {
    let table = Table::read(alloc, &SIX_PAIRS, 0)?;
    let decl = table.get(1).ok_or("no declaration")?;
    Ok(decl.prefix())
}

#[test]
fn tells_the_size_of_the_first_values(rt: HostRuntime) -> Result<(), Fail> {
    let first = first_of_six(rt.alloc())?;
    assert!(rt; first.count == 4);
    assert!(rt; first.size(8, 4) == 14);
    assert!(rt; first.size(4, 8) == 14);
    assert!(rt; first.size(2, 8) == 12);
    Ok(())
}

#[test]
fn tells_the_sizes_of_forms(rt: HostRuntime) -> Result<(), Fail> {
    assert!(rt; FormSize::of(0x01) == Some(FormSize::Address));
    assert!(rt; FormSize::of(0x0e) == Some(FormSize::Offset));
    assert!(rt; FormSize::of(0x19) == Some(FormSize::Bytes(0)));
    assert!(rt; FormSize::of(0x1e) == Some(FormSize::Bytes(16)));
    assert!(rt; FormSize::of(0x08) == None);
    assert!(rt; FormSize::of(0x21) == None);
    assert!(rt; FormSize::of(0x02) == None);
    Ok(())
}
