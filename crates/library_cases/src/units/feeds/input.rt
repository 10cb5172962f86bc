//! Bytes over a section of tables, how they are read, and what came of it.
use crate::units::reading::{front, is_written_as};
use dw_abbrev::{Table, Tables};
use dw_feed::BodyFeed;
use dw_leb::{Order, ReadError};
use dw_unit::{Unit, Versions, read_header_as};
use std::alloc::Global;
use std::rc::Rc;

/// How bytes are read.
#[derive(Clone, Copy)]
pub struct Setting {
    pub order: Order,
    pub versions: Versions,
}

/// Bytes over a section of abbreviation tables.
#[derive(Clone, Copy)]
pub struct Input<'a> {
    pub setting: Setting,
    pub section: &'a [u8],
    pub bytes: &'a [u8],
}

/// What came of reading a unit.
#[derive(Clone, Copy, PartialEq, Eq)]
pub enum Outcome {
    /// A unit of so many bytes, which is written as they are.
    Unit(u64),
    /// A unit that is written otherwise, or a reader that has a fault.
    Otherwise,
    Refused(ReadError),
}

impl Outcome {
    /// The outcome of a unit that was read of the input.
    pub fn of_unit(alloc: Global, input: Input<'_>, unit: &Unit) -> Outcome {
        let size = unit.size();
        if is_written_as(alloc, unit, front(input.bytes, size as usize)) {
            Outcome::Unit(size)
        } else {
            Outcome::Otherwise
        }
    }
}

/// A feed of the unit whose header is at the front of the input.
pub fn feed_behind(alloc: Global, input: Input<'_>) -> Option<BodyFeed> {
    let Setting { order, versions } = input.setting;
    let (header, length) = read_header_as(order, versions, input.bytes).ok()?;
    let table = table_at(alloc, input.section, header.abbrev_offset())?;
    Some(BodyFeed::new(alloc, header, length, table))
}

fn table_at(alloc: Global, section: &[u8], offset: u64) -> Option<Rc<Table>> {
    let mut tables = Tables::new(alloc, section);
    tables.get(offset).ok()
}

/// What the input has behind the header at its front.
pub fn behind_header(input: Input<'_>) -> &[u8] {
    let Setting { order, versions } = input.setting;
    let size = match read_header_as(order, versions, input.bytes) {
        Ok((header, _)) => header.size() as usize,
        Err(_) => 0,
    };
    input.bytes.get(size..).unwrap_or(input.bytes)
}
