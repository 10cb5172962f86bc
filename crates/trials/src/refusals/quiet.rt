//! Calls that take no memory, made so often as they are asked for.
ghost use Rattle.std.specs.Prelude.{IsSome};
ghost use Rattle.dw_section.specs.Lookup.{unit_at};

use crate::refusals::quiet_parts::{
    of_devices, of_end_value, of_finished, of_makers, of_numbers, of_undo, of_values,
};
use crate::refusals::samples::{ROOT_AND_CHILD, header, no_strings, section, table};
use crate::refusals::told;
use rothelduf::{
    AttrValue, BodyFeed, Decl, EntryId, EntryRef, HeadFeed, Order, Progress, ReadError, Section,
    Strings, Table, TableBuilder, Uleb, Unit, UnitBuilder, Value, Watched, read_header,
    write_section, write_unit,
};
use std::alloc::Global;
use std::rc::Rc;

/// All that the calls need is made before, whatever the count is. What they say is summed up, so that none is left out.
pub(crate) fn tell(
    alloc: Global,
    calls: &str,
    count: u64,
    text: &mut String,
) -> Result<(), ReadError> {
    let sum = match calls {
        "unit" => of_unit(alloc, count)?,
        "section" => of_section(alloc, count)?,
        "feeds" => of_feeds(alloc, count)?,
        "tables" => of_tables(alloc, count)?,
        "finish" => of_finish(alloc, count)?,
        "numbers" => of_numbers(count),
        "devices" => of_devices(alloc, count)?,
        "values" => of_values(alloc, count)?,
        "makers" => of_makers(alloc, count)?,
        "end-value" => of_end_value(alloc, count, text)?,
        "undo" => of_undo(alloc, count, text)?,
        "finished" => of_finished(alloc, count, text)?,
        _ => 0,
    };
    Ok(write!(text, "{calls} {sum}\n")?)
}

/// The bytes that are written take no more room than is made for them.
fn of_unit(alloc: Global, count: u64) -> Result<u64, ReadError> {
    let section = section(alloc)?;
    let mut buffer = Vec::with_capacity(alloc, told::ROOM)?;
    let mut sum = 0;
    for _ in 0..count {
        if let Some(unit) = section.unit(0) {
            sum = ask_unit(unit, sum);
            buffer = unit_behind(unit, buffer);
        }
    }
    Ok(sum ^ buffer.len() as u64)
}

fn unit_behind(unit: &Unit, buffer: Vec<u8>) -> Vec<u8> {
    let mut writer = Watched::new(buffer);
    let _written = write_unit(unit, &mut writer);
    writer.into_inner()
}

fn ask_unit(unit: &Unit, sum: u64) -> u64 {
    let mut sum = sum ^ unit.size() ^ unit.root().offset() ^ unit.padding().len() as u64;
    sum ^= unit.header().size() ^ unit.tree().row_count() as u64;
    if let Some(entry) = unit.entries_from(unit.root().offset()).next() {
        sum ^= entry.end_offset();
    }
    for entry in unit.entries() {
        sum = ask_entry(unit, &entry, sum);
    }
    sum
}

fn ask_entry(unit: &Unit, entry: &EntryRef<'_>, sum: u64) -> u64 {
    let mut sum = sum.wrapping_mul(31) ^ entry.offset() ^ entry.end_offset() ^ entry.depth();
    sum ^= entry.tag() ^ entry.code().value;
    if let Some(found) = unit.entry_at(entry.offset()) {
        sum ^= found.end_offset();
    }
    if let Some(name) = entry.attr(0x03) {
        sum ^= name.offset;
    }
    for attribute in entry.attrs() {
        sum ^= attribute.form;
    }
    for child in entry.children() {
        sum ^= child.offset();
    }
    sum
}

fn of_section(alloc: Global, count: u64) -> Result<u64, ReadError> {
    let mut section = section(alloc)?;
    let mut buffer = Vec::with_capacity(alloc, told::ROOM)?;
    let mut sum = 0;
    for number in 0..count {
        sum = ask_section(&section, sum);
        let bounds = EntryId {
            item: 0,
            offset: 34,
        };
        if section
            .set_number(bounds, 0x2f, number as i128 % 256)
            .is_ok()
        {
            sum ^= 1;
        }
        buffer = section_behind(&section, buffer);
    }
    Ok(sum ^ buffer.len() as u64)
}

fn section_behind(section: &Section, buffer: Vec<u8>) -> Vec<u8> {
    let mut writer = Watched::new(buffer);
    let _written = write_section(section, &mut writer);
    writer.into_inner()
}

fn ask_section(section: &Section, sum: u64) -> u64 {
    let mut sum = sum ^ section.items().len() as u64 ^ section.start(0).unwrap_or(0);
    sum ^= section.size() ^ section.order() as u64 ^ section.versions() as u64;
    let strings = no_strings();
    if let Some(unit) = section.unit(0) {
        for entry in unit.entries() {
            sum = ask_named(section, &strings, &entry, sum);
        }
    }
    sum
}

/// What an entry of the first item names, and where it is.
fn ask_named<'a>(section: &'a Section, strings: &Strings<'a>, entry: &EntryRef<'a>, sum: u64) -> u64
    requires { IsSome (unit_at section.now.items 0) }
{
    let mut sum = sum.wrapping_mul(31);
    let id = EntryId {
        item: 0,
        offset: entry.offset(),
    };
    if section.find(entry.offset()) == Some(id) && section.entry(id).is_some() {
        sum ^= 1;
    }
    for attribute in entry.attrs() {
        match section.resolve(id, &attribute) {
            Ok(target) => sum ^= target.offset,
            Err(fault) => sum ^= fault as u64,
        }
        match strings.text(section, id, &attribute) {
            Ok(named) => sum ^= named.len() as u64,
            Err(fault) => sum ^= fault as u64,
        }
        if strings.place(section, id, &attribute).is_ok() {
            sum ^= 5;
        }
    }
    sum
}

fn of_feeds(alloc: Global, count: u64) -> Result<u64, ReadError> {
    let table = table(alloc)?;
    let mut sum = 0;
    for _ in 0..count {
        sum = ask_feeds(alloc, &table, sum)?;
    }
    Ok(sum)
}

/// A header that is pushed and one that is read, and feeds that are made and ended.
fn ask_feeds(alloc: Global, table: &Rc<Table>, sum: u64) -> Result<u64, ReadError> {
    let mut head = HeadFeed::new(Order::Little);
    let sum = sum ^ head.wants() as u64;
    let (taken, answer) = head.feed(&ROOT_AND_CHILD);
    let mut sum = sum ^ taken as u64;
    if let Progress::Done((header, _)) = answer {
        sum ^= header.size();
    }
    if head.end().is_none() {
        sum ^= 3;
    }
    let (header, unit_length) = read_header(Order::Little, &ROOT_AND_CHILD)?;
    let body = BodyFeed::new(alloc, header, unit_length, table.clone()?);
    Ok(sum ^ ask_body(body))
}

fn ask_body(body: BodyFeed) -> u64 {
    let held = body.held();
    let sum = (held.entries ^ held.pool ^ body.pending()) as u64;
    match body.end() {
        Some(fault) => sum ^ fault.offset,
        None => sum,
    }
}

fn of_tables(alloc: Global, count: u64) -> Result<u64, ReadError> {
    let table = table(alloc)?;
    let mut buffer = Vec::with_capacity(alloc, told::ROOM)?;
    let mut sum = 0;
    for code in 0..count {
        if let Some(decl) = table.get(code) {
            sum ^= decl.tag().value ^ decl.pairs().len() as u64;
        }
        buffer = table_behind(&table, buffer);
    }
    Ok(sum ^ buffer.len() as u64)
}

fn table_behind(table: &Table, buffer: Vec<u8>) -> Vec<u8> {
    let mut writer = Watched::new(buffer);
    let _written = table.write(&mut writer);
    writer.into_inner()
}

/// A unit and a table are made, and finished where the count isn't 0.
fn of_finish(alloc: Global, count: u64) -> Result<u64, ReadError> {
    Ok(finish_unit(alloc, count)? ^ finish_table(alloc, count)?)
}

fn finish_unit(alloc: Global, count: u64) -> Result<u64, ReadError> {
    let mut builder = UnitBuilder::new(alloc, header()?, table(alloc)?);
    let opened = builder.open(Uleb::least(1), &[AttrValue::from(Value::Text(b"a"))]);
    let closed = builder.close(1);
    if opened.is_err() || closed.is_err() {
        return Err(ReadError::NoMemory);
    }
    if count == 0 {
        return Ok(0);
    }
    match builder.finish() {
        Ok(unit) => Ok(unit.size()),
        Err((refusal, _builder)) => Ok(refusal as u64),
    }
}

fn finish_table(alloc: Global, count: u64) -> Result<u64, ReadError> {
    let mut builder = TableBuilder::new(alloc);
    let Ok(decl) = Decl::new(alloc, Uleb::least(1), Uleb::least(0x11), false, (1, 1)) else {
        return Ok(1);
    };
    if builder.add(decl).is_err() {
        return Err(ReadError::NoMemory);
    }
    if count == 0 {
        return Ok(0);
    }
    match builder.finish(2) {
        Ok(table) => Ok(u64::from(table.get(1).is_some())),
        Err((refusal, _builder)) => Ok(refusal as u64),
    }
}
