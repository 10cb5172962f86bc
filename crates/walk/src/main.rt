//! Examples of programs over the library: reads a unit from two files, walks its entries, looks one up, builds the same
//! unit again, and writes it; prints the names and types of a whole section; and pushes a unit in pieces.
//!
//! `walk ABBREV INFO` pushes the unit of these files in pieces of several sizes, and `walk ABBREV INFO SIZE` once in
//! pieces of so many bytes, or with 0 in none.
#![tactic(auto)]

mod names;
mod pieces;

use rothelduf::constants::attribute::{DW_AT_BYTE_SIZE, DW_AT_NAME};
use rothelduf::constants::form::{DW_FORM_DATA1, DW_FORM_STRING};
use rothelduf::constants::tag::{DW_TAG_BASE_TYPE, DW_TAG_COMPILE_UNIT};
use rothelduf::{
    AttrValue, Decl, EntryRef, Order, ReadError, Refusal, Table, TableBuilder, TableRefusal,
    Tables, TypeError, Uleb, Unit, UnitBuilder, Value, Watched, WriteError, read_unit, write_unit,
};
use std::alloc::{AllocError, Global};
use std::rc::Rc;
use std::rt::{Env, Files};
use std::{env, fs, io};
use thiserror::Error;

/// Why the example gives up.
#[derive(Debug, Drop, Error)]
enum WalkError {
    #[error("{0}")]
    Io(#[from] io::Error),
    #[error("{0}")]
    Read(#[from] ReadError),
    #[error("{0}")]
    Write(#[from] WriteError),
    #[error("table: {0}")]
    Table(#[from] TableRefusal),
    #[error("unit: {0}")]
    Unit(#[from] Refusal),
    #[error("type: {0}")]
    Type(#[from] TypeError),
    #[error("memory")]
    Memory(#[from] AllocError),
    #[error("usage: walk [ABBREV INFO [SIZE]]")]
    Usage,
}

fn main(rt: HostRuntime) -> Result<(), WalkError> {
    let words = env::args(&rt)?.skip(1).collect::<Vec<String>>(rt.alloc())?;
    match words.as_slice() {
        [] => each(&rt),
        [abbrev, info] => pieces::every_size(&rt, abbrev.as_str(), info.as_str()),
        [abbrev, info, size] => {
            let size = size.as_str().parse().map_err(|_| WalkError::Usage)?;
            pieces::one_size(&rt, abbrev.as_str(), info.as_str(), size)
        }
        _ => Err(WalkError::Usage),
    }
}

/// Each example over its own files.
fn each(rt: &(impl AllocGlobal + Files + Print)) -> Result<(), WalkError> {
    walk_and_build(rt)?;
    names::print_linked(rt)?;
    pieces::every_size(rt, "pieces_abbrev", "pieces_info")
}

fn walk_and_build(rt: &(impl AllocGlobal + Files + Print)) -> Result<(), WalkError> {
    let unit = read(rt)?;
    walk(rt, &unit)?;
    let built = build(rt.alloc(), &unit)?;
    compare(rt, &unit, &built)
}

/// The unit at the front of `debug_info`, over its table in `debug_abbrev`.
fn read(rt: &(impl AllocGlobal + Files)) -> Result<Unit, WalkError> {
    let abbreviations = fs::read(rt, "debug_abbrev")?;
    let info = fs::read(rt, "debug_info")?;
    let mut tables = Tables::new(rt.alloc(), abbreviations.as_slice());
    let (unit, _size) = read_unit(rt.alloc(), Order::Little, &mut tables, info.as_slice())?;
    Ok(unit)
}

/// Prints for each entry its offset, tag and level and whether it has a name, and the size of the
/// entry at 0xf.
fn walk(rt: &impl Print, unit: &Unit) -> io::Result<()> {
    for entry in unit.entries() {
        say(rt, &entry)?;
    }
    match unit.entry_at(0xf) {
        Some(entry) => println!(rt; "at 0xf: {} bytes", size_of(&entry)),
        None => println!(rt; "at 0xf: nothing"),
    }
}

fn say(rt: &impl Print, entry: &EntryRef<'_>) -> io::Result<()> {
    let named = entry.attr(DW_AT_NAME).is_some();
    println!(rt;
        "{:#x} tag {:#x} level {} named {named}",
        entry.offset(),
        entry.tag(),
        entry.depth()
    )
}

/// The size that an entry has as an attribute, 0 where it has none.
fn size_of(entry: &EntryRef<'_>) -> u64 {
    match entry.attr(DW_AT_BYTE_SIZE) {
        Some(size) => size.attr.as_number().unwrap_or(0),
        None => 0,
    }
}

/// The same unit, built entry by entry: a compile unit of the name "a", with a base type of four bytes.
fn build(alloc: Global, unit: &Unit) -> Result<Unit, WalkError> {
    let mut builder = UnitBuilder::new(alloc, unit.header(), table(alloc)?);
    builder.open(Uleb::least(1), &[AttrValue::from(Value::Text(b"a"))])?;
    builder.open(Uleb::least(2), &[AttrValue::from(Value::Num(4))])?;
    builder.close(1)?;
    match builder.finish() {
        Ok(unit) => Ok(unit),
        Err((refusal, _builder)) => Err(WalkError::Unit(refusal)),
    }
}

/// The table of its declarations.
fn table(alloc: Global) -> Result<Rc<Table>, WalkError> {
    let root = declaration(alloc, 1, DW_TAG_COMPILE_UNIT, (DW_AT_NAME, DW_FORM_STRING))?;
    let base = declaration(alloc, 2, DW_TAG_BASE_TYPE, (DW_AT_BYTE_SIZE, DW_FORM_DATA1))?;
    let mut builder = TableBuilder::new(alloc);
    builder.add(root).map_err(|(refusal, _)| refusal)?;
    builder.add(base).map_err(|(refusal, _)| refusal)?;
    match builder.finish(1) {
        Ok(table) => Ok(Rc::new(alloc, table).map_err(ReadError::from)?),
        Err((refusal, _builder)) => Err(WalkError::Table(refusal)),
    }
}

/// A declaration with one attribute, of its name and form. The first one has children.
fn declaration(alloc: Global, code: u64, tag: u64, pair: (u64, u64)) -> Result<Decl, TableRefusal> {
    let mut decl = Decl::new(
        alloc,
        Uleb::least(code),
        Uleb::least(tag),
        code == 1,
        (1, 1),
    )?;
    decl.pair(Uleb::least(pair.0), Uleb::least(pair.1), None)?;
    Ok(decl)
}

/// Says whether both units are written as the same bytes.
fn compare(rt: &(impl AllocGlobal + Print), read: &Unit, built: &Unit) -> Result<(), WalkError> {
    let first = written(rt.alloc(), read)?;
    let second = written(rt.alloc(), built)?;
    let same = first.as_slice() == second.as_slice();
    println!(rt; "{} bytes, built the same: {same}", first.len())?;
    Ok(())
}

fn written(alloc: Global, unit: &Unit) -> Result<Vec<u8>, WriteError> {
    let mut writer = Watched::new(Vec::new(alloc));
    write_unit(unit, &mut writer)?;
    Ok(writer.into_inner())
}
