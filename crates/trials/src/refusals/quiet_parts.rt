//! Calls on the parts of a unit that take no memory: numbers, devices, values, drafts, and all that makes something new.
use crate::refusals::drafts::{begin, close, end, give, lengthen, start};
use crate::refusals::samples::{ROOT_AND_CHILD, TYPED, header, table};
use dw_form::{fits, read_value, size_of, write_value};
use dw_leb::{read_fixed, read_length, write_all, write_fixed, write_length};
use rothelduf::constants::form::{DW_FORM_DATA1, DW_FORM_STRING};
use rothelduf::{
    AttrValue, BodyFeed, Decl, Draft, EntryOffsets, Format, HeadFeed, Header, Kind, Order,
    ReadError, Section, Shape, Sleb, Table, TableBuilder, Tables, Uleb, UnitBuilder, Value,
    Versions, Watched, read_header, read_header_as,
};
use std::alloc::Global;
use std::rc::Rc;

/// Numbers, read and spelled in several widths, and lengths.
pub(crate) fn of_numbers(count: u64) -> u64 {
    let mut sum = 0;
    for number in 0..count {
        sum ^= ask_unsigned(number).wrapping_add(ask_signed(number)) ^ ask_fixed();
    }
    sum
}

fn ask_unsigned(number: u64) -> u64 {
    let least = Uleb::least(number).bytes();
    match (
        Uleb::with_width(number, 10),
        Uleb::read(least.as_slice(), 16),
    ) {
        (Some(wide), Ok(read)) => wide.bytes().len() as u64 ^ read.value,
        _ => 1,
    }
}

fn ask_signed(number: u64) -> u64 {
    let least = Sleb::least(-7).bytes();
    match (Sleb::with_width(-7, 10), Sleb::read(least.as_slice(), 16)) {
        (Some(wide), Ok(read)) => number ^ wide.bytes().len() as u64 ^ read.width as u64,
        _ => 1,
    }
}

fn ask_fixed() -> u64 {
    let fixed = write_fixed(Order::Big, 4, 7);
    let length = write_length(Order::Little, Format::Dwarf64, 9);
    match (
        read_fixed(Order::Big, 4, fixed.as_slice(), 4),
        read_length(Order::Little, 0, length.as_slice()),
    ) {
        (Ok(number), Ok((format, length))) => number as u64 ^ length ^ format.length_size() as u64,
        _ => 1,
    }
}

/// A reader and a writer that are watched. Room for what is written is made before.
pub(crate) fn of_devices(alloc: Global, count: u64) -> Result<u64, ReadError> {
    let mut buffer = Vec::with_capacity(alloc, 64)?;
    let mut sum = 0;
    for _ in 0..count {
        sum ^= ask_reader();
        buffer = ask_writer(buffer);
    }
    Ok(sum ^ buffer.len() as u64)
}

fn ask_reader() -> u64 {
    let mut part = [0u8; 4];
    let mut reader = Watched::new(ROOT_AND_CHILD.as_slice());
    let got = reader.read(&mut part).unwrap_or(0);
    let failed = reader.fault().is_some();
    got as u64 ^ failed as u64 ^ reader.clear().into_inner().len() as u64
}

fn ask_writer(buffer: Vec<u8>) -> Vec<u8> {
    let mut writer = Watched::new(buffer);
    if write_all(&mut writer, b"ab").is_ok() {
        let _written = writer.write(b"c");
    }
    writer.into_inner()
}

/// Values that are kept, lent, measured and written.
pub(crate) fn of_values(alloc: Global, count: u64) -> Result<u64, ReadError> {
    let mut pool = Vec::new(alloc);
    let mut buffer = Vec::with_capacity(alloc, 64)?;
    let context = header()?.context();
    let Ok((stored, _)) = read_value(alloc, context, DW_FORM_STRING, None, b"a\0", 2, &mut pool)
    else {
        return Err(ReadError::NoMemory);
    };
    let mut sum: u64 = 0;
    for number in 0..count {
        if stored.lend(pool.as_slice()).as_text() == Some(b"a") {
            sum = sum.wrapping_add(1);
        }
        if Shape::of(DW_FORM_DATA1, 8, Format::Dwarf32).is_some() {
            sum = sum.wrapping_add(2);
        }
        buffer = ask_value(number % 256, buffer)?;
    }
    Ok(sum ^ buffer.len() as u64)
}

/// A number of one byte.
fn ask_value(number: u64, buffer: Vec<u8>) -> Result<Vec<u8>, ReadError> {
    let context = header()?.context();
    let value = AttrValue::from(Value::Num(number));
    let mut writer = Watched::new(buffer);
    if fits(context, DW_FORM_DATA1, None, &value) && size_of(context, DW_FORM_DATA1, &value) == 1 {
        let _written = write_value(context, DW_FORM_DATA1, &value, &mut writer);
    }
    Ok(writer.into_inner())
}

/// What is made new, one thing a function: each that is owned beside others doubles what a proof of these takes.
pub(crate) fn of_makers(alloc: Global, count: u64) -> Result<u64, ReadError> {
    let table = table(alloc)?;
    let mut sum: u64 = 0;
    for _ in 0..count {
        sum = sum.wrapping_add(make_tables(alloc) ^ make_header()?);
        sum = sum.wrapping_add(make_feed(alloc, &table)? ^ make_draft(alloc, &table)?);
        sum = sum.wrapping_add(make_builder(alloc, &table)? ^ make_sections(alloc));
    }
    Ok(sum)
}

fn make_tables(alloc: Global) -> u64 {
    drop(Tables::new(alloc, &TYPED));
    drop(TableBuilder::new(alloc));
    Decl::new(alloc, Uleb::least(1), Uleb::least(0x11), true, (1, 1)).is_ok() as u64
}

fn make_header() -> Result<u64, ReadError> {
    let header = Header::new(Order::Little, Format::Dwarf64, Kind::Partial, 8, 0);
    let (read, _) = read_header_as(Order::Little, Versions::FourAndFive, &ROOT_AND_CHILD)?;
    let wants = HeadFeed::new_as(Order::Big, Versions::FourAndFive).wants();
    Ok(header.is_some() as u64 ^ read.size() ^ wants as u64)
}

fn make_feed(alloc: Global, table: &Rc<Table>) -> Result<u64, ReadError> {
    let (header, unit_length) = read_header(Order::Little, &ROOT_AND_CHILD)?;
    Ok(BodyFeed::new(alloc, header, unit_length, table.clone()?).pending() as u64)
}

fn make_draft(alloc: Global, table: &Rc<Table>) -> Result<u64, ReadError> {
    Ok(Draft::new(alloc, header()?, table.clone()?).size())
}

fn make_builder(alloc: Global, table: &Rc<Table>) -> Result<u64, ReadError> {
    drop(UnitBuilder::new(alloc, header()?, table.clone()?));
    Ok(1)
}

fn make_sections(alloc: Global) -> u64 {
    drop(EntryOffsets::new(alloc));
    let sum = Section::new(alloc, Order::Little).size();
    sum ^ Section::new_as(alloc, Order::Big, Versions::FourAndFive)
        .items()
        .len() as u64
}

/// A text that is ended, where the count isn't 0.
pub(crate) fn of_end_value(alloc: Global, count: u64, text: &mut String) -> Result<u64, ReadError> {
    let mut draft = Draft::new(alloc, header()?, table(alloc)?);
    begin(&mut draft, 1, text)?;
    start(&mut draft, text)?;
    lengthen(&mut draft, b"a", text)?;
    if count > 0 {
        end(&mut draft, text)?;
    }
    Ok(draft.size())
}

/// An entry that is taken back and begun again: the room for it is there.
pub(crate) fn of_undo(alloc: Global, count: u64, text: &mut String) -> Result<u64, ReadError> {
    let mut draft = Draft::new(alloc, header()?, table(alloc)?);
    begin(&mut draft, 1, text)?;
    give(&mut draft, AttrValue::from(Value::Text(b"a")), text)?;
    begin(&mut draft, 2, text)?;
    for _ in 0..count {
        if draft.next_pair().is_some() {
            draft.undo();
        }
        begin(&mut draft, 2, text)?;
    }
    Ok(draft.size())
}

/// A unit that is finished, where the count isn't 0.
pub(crate) fn of_finished(alloc: Global, count: u64, text: &mut String) -> Result<u64, ReadError> {
    let mut draft = Draft::new(alloc, header()?, table(alloc)?);
    begin(&mut draft, 1, text)?;
    give(&mut draft, AttrValue::from(Value::Text(b"a")), text)?;
    close(&mut draft, 1, text)?;
    let is_whole = draft.next_pair().is_none() && draft.depth() == 0 && !draft.is_empty();
    if count == 0 || !is_whole {
        return Ok(0);
    }
    Ok(draft.finish().size())
}
