//! That all readers agree, on bytes that need be no unit:
//!
//! - `fronts over TABLE: BYTES`, on each front of the bytes, answered with how many these are;
//! - `changes over TABLE: BYTES`, on the bytes with each one changed to every value, answered with how many these are.
//!
//! They are one of bytes at hand, one over a reader that gives a byte a call, and a feed in pieces of one byte and in
//! one piece.
use crate::units::feeds::cuts::{at_once, is_pushed, pushed};
use crate::units::feeds::input::{Input, Outcome, Setting};
use crate::units::feeds::readers::read_by;
use crate::units::reading::front;
use dw_abbrev::Tables;
use std::alloc::{AllocError, Global};

fn at_hand(alloc: Global, input: Input<'_>) -> Outcome {
    let mut tables = Tables::new(alloc, input.section);
    at_hand_over(alloc, input, &mut tables)
}

fn at_hand_over(alloc: Global, input: Input<'_>, tables: &mut Tables<'_>) -> Outcome {
    let Setting { order, versions } = input.setting;
    match dw_feed::read_unit_as(alloc, order, versions, tables, input.bytes) {
        Ok((unit, _)) => Outcome::of_unit(alloc, input, &unit),
        Err(error) => Outcome::Refused(error),
    }
}

/// Whether all readers come to the same outcome, and the feed after the same bytes.
fn agree(alloc: Global, input: Input<'_>) -> bool {
    let outcome = at_hand(alloc, input);
    are_fed_to(alloc, input, outcome) && read_by(alloc, input, 1).0 == outcome
}

/// Whether a feed comes to the outcome, if there is a header and a table for one.
fn are_fed_to(alloc: Global, input: Input<'_>, outcome: Outcome) -> bool {
    match at_once(alloc, input) {
        Some(whole) => whole.0 == outcome && is_pushed(alloc, input, (0, 1), whole),
        None => pushed(alloc, input, 0, 1).is_none(),
    }
}

pub fn append_fronts(
    alloc: Global,
    input: Input<'_>,
    answer: &mut String,
) -> Result<(), AllocError> {
    let size = input.bytes.len();
    for count in 0..=size {
        let front = Input {
            bytes: front(input.bytes, count),
            ..input
        };
        if !agree(alloc, front) {
            write!(answer, "other outcomes of {count} bytes, ")?;
        }
    }
    write!(answer, "{} fronts", size.saturating_add(1))
}

pub fn append_changes(
    alloc: Global,
    input: Input<'_>,
    answer: &mut String,
) -> Result<(), AllocError> {
    for (at, byte) in input.bytes.iter().enumerate() {
        if !agree_at(alloc, input, at)? {
            write!(answer, "other outcomes in place of {byte:02x} at {at}, ")?;
        }
    }
    write!(answer, "{} changes", input.bytes.len().saturating_mul(256))
}

/// Whether they agree on the bytes with the one at this place changed to every value.
fn agree_at(alloc: Global, input: Input<'_>, at: usize) -> Result<bool, AllocError> {
    let mut bytes = Vec::from_slice(alloc, input.bytes)?;
    let mut all = true;
    for value in 0..=255u8 {
        if let Some(byte) = bytes.as_mut_slice().get_mut(at) {
            *byte = value;
        }
        let changed = Input {
            bytes: bytes.as_slice(),
            ..input
        };
        all = agree(alloc, changed) && all;
    }
    Ok(all)
}
