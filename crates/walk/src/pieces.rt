//! A unit that is pushed in pieces of several sizes, and whether the unit that comes is written as the bytes that were
//! pushed.

use crate::WalkError;
use rothelduf::{
    BodyFeed, Fault, HeadFeed, Order, Progress, ReadError, Tables, Unit, Versions, Watched,
    WriteError, read_unit_as, write_unit,
};
use std::alloc::Global;
use std::fs;
use std::rt::Files;

/// Pushes the unit in pieces of several sizes, and says of each whether it is the same.
pub(crate) fn every_size(
    rt: &(impl AllocGlobal + Files + Print),
    abbrev: &str,
    info: &str,
) -> Result<(), WalkError> {
    let abbreviations = fs::read(rt, abbrev)?;
    let info = fs::read(rt, info)?;
    let mut tables = Tables::new(rt.alloc(), abbreviations.as_slice());
    push_in_every_size(rt, &mut tables, info.as_slice())
}

fn push_in_every_size(
    rt: &(impl AllocGlobal + Print),
    tables: &mut Tables<'_>,
    info: &[u8],
) -> Result<(), WalkError> {
    for size in [1, 2, 3, 7, 16, 17, 4096] {
        let unit = pushed(rt.alloc(), tables, info, size)?;
        tell_whether_same(rt, &unit, info, size)?;
    }
    Ok(())
}

fn tell_whether_same(
    rt: &(impl AllocGlobal + Print),
    unit: &Unit,
    info: &[u8],
    size: usize,
) -> Result<(), WalkError> {
    let same = is_front(rt.alloc(), unit, info)?;
    Ok(println!(rt; "{size}: {same}")?)
}

/// Pushes the unit in pieces of one size, and says how many bytes it has; with 0 by the call that takes the bytes at
/// hand.
pub(crate) fn one_size(
    rt: &(impl AllocGlobal + Files + Print),
    abbrev: &str,
    info: &str,
    size: usize,
) -> Result<(), WalkError> {
    let abbreviations = fs::read(rt, abbrev)?;
    let info = fs::read(rt, info)?;
    let mut tables = Tables::new(rt.alloc(), abbreviations.as_slice());
    let unit = unit_of(rt.alloc(), &mut tables, info.as_slice(), size)?;
    Ok(println!(rt; "{} bytes", unit.size())?)
}

/// The unit in pieces of so many bytes, or with 0 at hand.
fn unit_of(
    alloc: Global,
    tables: &mut Tables<'_>,
    info: &[u8],
    size: usize,
) -> Result<Unit, WalkError> {
    match size {
        0 => at_hand(alloc, tables, info),
        size => pushed(alloc, tables, info, size),
    }
}

fn at_hand(alloc: Global, tables: &mut Tables<'_>, bytes: &[u8]) -> Result<Unit, WalkError> {
    let (unit, _size) = read_unit_as(alloc, Order::Little, Versions::FourAndFive, tables, bytes)?;
    Ok(unit)
}

/// The unit at the front of the bytes, which are pushed in pieces of so many: first its header, and then the rest.
fn pushed(
    alloc: Global,
    tables: &mut Tables<'_>,
    bytes: &[u8],
    size: usize,
) -> Result<Unit, WalkError> {
    let mut feed = HeadFeed::new_as(Order::Little, Versions::FourAndFive);
    let mut left = bytes;
    for _ in 0..bytes.len() {
        let (count, answer) = feed.feed(&left[..left.len().min(size)]);
        left = &left[count..];
        match answer {
            Progress::Done((header, unit_length)) => {
                let table = tables.get(header.abbrev_offset())?;
                let body = BodyFeed::new(alloc, header, unit_length, table);
                return pushed_behind(body, left, size);
            }
            Progress::Fault(fault) => return Err(WalkError::Read(ReadError::Fault(fault))),
            _ => {}
        }
    }
    ended(feed.end())
}

/// The rest of the unit, behind its header.
fn pushed_behind(mut feed: BodyFeed, bytes: &[u8], size: usize) -> Result<Unit, WalkError> {
    let mut left = bytes;
    for _ in 0..bytes.len() {
        let (piece, behind) = left.split_at(left.len().min(size));
        left = behind;
        match feed.feed(piece).1 {
            Progress::More => {}
            Progress::Done(unit) => return Ok(unit),
            Progress::Fault(fault) => return Err(WalkError::Read(ReadError::Fault(fault))),
            Progress::NoMemory | Progress::Spent => {
                return Err(WalkError::Read(ReadError::NoMemory));
            }
        }
    }
    ended(feed.end())
}

fn ended<T>(end: Option<Fault>) -> Result<T, WalkError> {
    match end {
        Some(fault) => Err(WalkError::Read(ReadError::Fault(fault))),
        None => Err(WalkError::Read(ReadError::NoMemory)),
    }
}

/// Whether the unit is written as the front of the bytes.
fn is_front(alloc: Global, unit: &Unit, bytes: &[u8]) -> Result<bool, WriteError> {
    let mut writer = Watched::new(Vec::new(alloc));
    write_unit(unit, &mut writer)?;
    Ok(bytes.starts_with(writer.into_inner().as_slice()))
}
