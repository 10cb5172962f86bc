//! That the unit at the front of bytes is the same one, or has the same fault, as one piece, in pieces of one byte, and
//! of a reader.
ghost use Rattle.std.specs.Prelude.{IfOk};
ghost use Rattle.dw_header.specs.Laws.{HasHeaderBytes};

use crate::sweeps::input::Input;
use dw_leb::devices::Stepped;
use dw_leb::read_length;
use rothelduf::{
    BodyFeed, Fault, HeadFeed, Header, Order, Progress, ReadError, Tables, Unit, Watched,
    read_unit_as, read_unit_from_as, write_unit,
};
use std::alloc::Global;

/// How many bytes the unit has, or its fault; `NoMemory` where something is not as it has to be.
type Outcome = Result<usize, ReadError>;

/// Whether this holds at the beginning of each item of the section, also of items that are no unit.
pub(crate) fn are_units_alike(alloc: Global, input: &Input<'_>) -> bool {
    let mut rest = input.info;
    for _ in 0..input.info.len() {
        if !is_unit_alike(alloc, input, rest) {
            return false;
        }
        rest = behind_item(input.order, rest);
        if rest.is_empty() {
            return true;
        }
    }
    true
}

/// The bytes behind the item at the front of these, and none where its length isn't read.
fn behind_item(order: Order, bytes: &[u8]) -> &[u8] {
    match read_length(order, 0, bytes) {
        Ok((format, length)) => {
            let size = (format.length_size() as usize).saturating_add(length as usize);
            bytes.get(size..).unwrap_or(&[])
        }
        Err(_) => &[],
    }
}

fn is_unit_alike(alloc: Global, input: &Input<'_>, bytes: &[u8]) -> bool {
    let outcome = at_hand(alloc, input, bytes);
    outcome != Err(ReadError::NoMemory)
        && pushed(alloc, input, bytes) == outcome
        && of_reader(alloc, input, bytes) == outcome
}

fn at_hand(alloc: Global, input: &Input<'_>, bytes: &[u8]) -> Outcome {
    let mut tables = Tables::new(alloc, input.abbrev);
    let (unit, size) = read_unit_as(alloc, input.order, input.versions, &mut tables, bytes)?;
    written(alloc, &unit, bytes, size)
}

/// The size of the unit, if it is that and the unit is written as so many bytes.
fn written(alloc: Global, unit: &Unit, bytes: &[u8], size: usize) -> Outcome {
    let mut writer = Watched::new(Vec::new(alloc));
    let is_written = write_unit(unit, &mut writer).is_ok();
    let front = bytes.get(..size).unwrap_or(&[]);
    if is_written && writer.into_inner().as_slice() == front && unit.size() == size as u64 {
        Ok(size)
    } else {
        Err(ReadError::NoMemory)
    }
}

fn of_reader(alloc: Global, input: &Input<'_>, bytes: &[u8]) -> Outcome {
    let mut reader = Watched::new(Stepped::new(bytes, 1));
    let mut tables = Tables::new(alloc, input.abbrev);
    let unit = read_unit_from_as(alloc, input.order, input.versions, &mut tables, &mut reader)?;
    let left = reader.into_inner().inner().len();
    written(alloc, &unit, bytes, bytes.len().saturating_sub(left))
}

fn pushed(alloc: Global, input: &Input<'_>, bytes: &[u8]) -> Outcome {
    let (header, unit_length, rest) = match pushed_header(input, bytes) {
        Ok(head) => head,
        Err(end) => return ended(end),
    };
    let table = Tables::new(alloc, input.abbrev).get(header.abbrev_offset())?;
    let mut feed = BodyFeed::new(alloc, header, unit_length, table);
    match push_body(&mut feed, rest) {
        Some((answer, left)) => written(alloc, &answer?, bytes, bytes.len().saturating_sub(left)),
        None => ended(feed.end()),
    }
}

/// The header at the front of the bytes, its unit_length, and the bytes behind it; or the fault at their end.
fn pushed_header<'a>(
    input: &Input<'_>,
    bytes: &'a [u8],
) -> Result<(Header, u64, &'a [u8]), Option<Fault>>
    ensures { IfOk result (λ x. HasHeaderBytes x.0 x.1) }
{
    let mut feed = HeadFeed::new_as(input.order, input.versions);
    let mut left = bytes;
    for _ in 0..bytes.len() {
        let (count, answer) = feed.feed(&left[..left.len().min(1)]);
        left = &left[count..];
        match answer {
            Progress::Done((header, unit_length)) => return Ok((header, unit_length, left)),
            Progress::Fault(fault) => return Err(Some(fault)),
            _ => {}
        }
    }
    Err(feed.end())
}

/// The unit or its fault, with how many bytes are left; None where they end before.
fn push_body(feed: &mut BodyFeed, bytes: &[u8]) -> Option<(Result<Unit, ReadError>, usize)> {
    let mut left = bytes;
    for _ in 0..bytes.len() {
        let (count, answer) = feed.feed(&left[..left.len().min(1)]);
        left = &left[count..];
        match answer {
            Progress::More => {}
            Progress::Done(unit) => return Some((Ok(unit), left.len())),
            Progress::Fault(fault) => return Some((Err(ReadError::Fault(fault)), left.len())),
            Progress::NoMemory | Progress::Spent => {
                return Some((Err(ReadError::NoMemory), left.len()));
            }
        }
    }
    None
}

fn ended(end: Option<Fault>) -> Outcome {
    match end {
        Some(fault) => Err(ReadError::Fault(fault)),
        None => Err(ReadError::NoMemory),
    }
}
