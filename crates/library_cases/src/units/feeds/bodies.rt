//! Units that are pushed behind their headers: `body of LENGTH over TABLE: PIECE | PIECE | ..`, of a little-endian
//! compile unit of this unit_length in the 32-bit format. It is answered for each piece with the count of its bytes
//! that were taken and what was said, and with the fault at the end of the input. `held body of ..` is answered with
//! what the feed holds after each piece too.
use crate::units::feeds::input::{Input, Setting, feed_behind};
use crate::units::reading::{front, is_written_as};
use crate::units::show::{append_end, append_fault, separate};
use case_file::append_named;
use dw_feed::{BodyFeed, Progress};
use dw_leb::Order;
use dw_unit::{Unit, Versions};
use std::alloc::{AllocError, Global};

pub fn append_body(
    alloc: Global,
    file: &str,
    section: &[u8],
    (held, length): (&str, &str),
    pieces: &str,
    answer: &mut String,
) -> Result<(), AllocError> {
    let length: u16 = length.parse().unwrap_or(0);
    let (low, high) = ((length % 256) as u8, (length / 256) as u8);
    let head = [low, high, 0, 0, 0x05, 0, 0x01, 0x08, 0, 0, 0, 0];
    let input = Input {
        setting: Setting {
            order: Order::Little,
            versions: Versions::Five,
        },
        section,
        bytes: &head,
    };
    match feed_behind(alloc, input) {
        Some(mut feed) => {
            let pieces = (pieces, held == "held ");
            append_pieces(alloc, file, (&mut feed, &head), pieces, answer)?;
            append_end(feed.end(), answer)
        }
        None => answer.push_str("no such body"),
    }
}

fn append_pieces(
    alloc: Global,
    file: &str,
    (feed, head): (&mut BodyFeed, &[u8]),
    (pieces, is_held): (&str, bool),
    answer: &mut String,
) -> Result<(), AllocError> {
    let mut bytes = Vec::from_slice(alloc, head)?;
    for words in pieces.split('|') {
        let before = bytes.len();
        if !append_named(file, words, &mut bytes)? {
            return answer.push_str("no such bytes");
        }
        append_piece(alloc, feed, (bytes.as_slice(), before), is_held, answer)?;
    }
    Ok(())
}

/// Pushes what the bytes have behind those before, and appends what is said and held.
fn append_piece(
    alloc: Global,
    feed: &mut BodyFeed,
    (bytes, before): (&[u8], usize),
    is_held: bool,
    answer: &mut String,
) -> Result<(), AllocError> {
    separate(answer)?;
    append_said(alloc, feed, bytes, before, answer)?;
    if is_held {
        append_held(feed, answer)?;
    }
    Ok(())
}

fn append_said(
    alloc: Global,
    feed: &mut BodyFeed,
    bytes: &[u8],
    before: usize,
    answer: &mut String,
) -> Result<(), AllocError> {
    let (count, said) = feed.feed(bytes.get(before..).unwrap_or(bytes));
    write!(answer, "{count} ")?;
    match said {
        Progress::More => answer.push_str("more"),
        Progress::Done(unit) => {
            let taken = front(bytes, before.saturating_add(count));
            append_unit(alloc, &unit, taken, answer)
        }
        Progress::Fault(fault) => append_fault(fault, answer),
        Progress::NoMemory => answer.push_str("no memory"),
        Progress::Spent => answer.push_str("spent"),
    }
}

/// Appends that a unit is there, which has to be written as all that was taken.
fn append_unit(
    alloc: Global,
    unit: &Unit,
    taken: &[u8],
    answer: &mut String,
) -> Result<(), AllocError> {
    write!(answer, "done, {} bytes", unit.size())?;
    if is_written_as(alloc, unit, taken) {
        Ok(())
    } else {
        answer.push_str(", but written otherwise")
    }
}

fn append_held(feed: &BodyFeed, answer: &mut String) -> Result<(), AllocError> {
    let held = feed.held();
    write!(answer, ", {held:?}")?;
    if feed.pending() == held.pending {
        Ok(())
    } else {
        write!(answer, ", but pending {}", feed.pending())
    }
}
