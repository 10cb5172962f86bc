//! Made units, each of which goes out by the calls that the rule says.
//!
//! A unit has a row before the one in question, that one twice, a null and a row of three bytes between. The row has
//! its size on both sides of each bound, or 30 to 33 or 1,024 values, and a code of one byte, two or three.
use crate::units::calls::written_by;
use crate::units::made::{append_table, append_unit};
use crate::units::reading::{Input, read};
use crate::units::rule::{Kind, MadeRow, Values, append_ends};
use dw_leb::Order;
use dw_unit::{Unit, Versions};
use std::alloc::{AllocError, Global};
use std::io;

/// The sizes of the row in question.
const SIZES: [usize; 13] = [31, 32, 33, 34, 127, 128, 129, 135, 511, 512, 513, 514, 1025];

/// How many values the row before it has, of one byte each.
const FILLS: [usize; 5] = [0, 100, 380, 381, 382];

/// The kinds of values of a row, one behind the other.
#[derive(Clone, Copy)]
pub enum Shape {
    Told,
    Numbers,
    NumbersBetween,
    TextBehind,
    TextBefore,
    NumberAndText,
    Text,
}

impl Shape {
    fn name(self) -> &'static str {
        match self {
            Shape::Told => "told sizes",
            Shape::Numbers => "numbers",
            Shape::NumbersBetween => "numbers between",
            Shape::TextBehind => "a text behind",
            Shape::TextBefore => "a text before",
            Shape::NumberAndText => "a number before and a text behind",
            Shape::Text => "a text",
        }
    }

    /// Values of so many bytes.
    fn values(self, size: usize) -> [Values; 3] {
        let none = Values::Told(0);
        match self {
            Shape::Told => [Values::Told(size), none, none],
            Shape::Numbers => [Values::Numbers(size / 2), Values::Told(size % 2), none],
            Shape::NumbersBetween => [
                Values::Told(size.saturating_sub(8)),
                Values::Numbers(2),
                Values::Told(4),
            ],
            Shape::TextBehind => [
                Values::Told(size.saturating_sub(11)),
                Values::Text(10),
                none,
            ],
            Shape::TextBefore => [
                Values::Text(10),
                Values::Told(size.saturating_sub(11)),
                none,
            ],
            Shape::NumberAndText => [
                Values::Numbers(1),
                Values::Told(size.saturating_sub(13)),
                Values::Text(10),
            ],
            Shape::Text => [Values::Text(size.saturating_sub(1)), none, none],
        }
    }
}

/// Judges the units of each shape, and prints how many there are, or the first that goes out otherwise.
pub fn judge_calls(rt: &(impl AllocGlobal + Print)) -> io::Result<()> {
    for shape in [
        Shape::Told,
        Shape::Numbers,
        Shape::NumbersBetween,
        Shape::TextBehind,
        Shape::TextBefore,
        Shape::NumberAndText,
        Shape::Text,
    ] {
        judge_shape(rt, shape)?;
    }
    Ok(())
}

fn judge_shape(rt: &(impl AllocGlobal + Print), shape: Shape) -> io::Result<()> {
    let mut calls = 0usize;
    for index in 0..195usize {
        match calls_of(rt.alloc(), &rows_of(shape, index))? {
            Ok(count) => calls = calls.saturating_add(count),
            Err(call) => {
                return println!(rt;
                    "calls, {}: unit {index} differs at call {call}",
                    shape.name()
                );
            }
        }
    }
    println!(rt; "calls, {}: 195 units, {calls} calls, same", shape.name())
}

/// The rows of a unit by its number.
fn rows_of(shape: Shape, index: usize) -> [MadeRow; 8] {
    let fill = FILLS[index % 5];
    let size = SIZES[index / 5 % 13];
    let width = index / 65 % 3 + 1;
    let null = (index / 5).wrapping_add(index) % 2 + 1;
    let row = made(Kind::Leaf, width, shape.values(size.saturating_sub(width)));
    [
        bare(Kind::Branch, 1),
        made(Kind::Leaf, 1, Shape::Told.values(fill)),
        bare(Kind::Branch, 1),
        row,
        bare(Kind::Null, null),
        made(Kind::Leaf, 1, Shape::Told.values(2)),
        row,
        bare(Kind::Null, 1),
    ]
}

fn made(kind: Kind, width: usize, values: [Values; 3]) -> MadeRow {
    MadeRow {
        kind,
        width,
        values,
    }
}

fn bare(kind: Kind, width: usize) -> MadeRow {
    made(kind, width, Shape::Told.values(0))
}

/// How many calls the unit of these rows goes out by, or the first that ends elsewhere than the rule says.
fn calls_of(alloc: Global, rows: &[MadeRow]) -> Result<Result<usize, usize>, AllocError> {
    let mut section = Vec::new(alloc);
    append_table(rows, &mut section)?;
    let mut bytes = Vec::new(alloc);
    append_unit(rows, &mut bytes)?;
    let mut ends = Vec::new(alloc);
    append_ends(rows, &mut ends)?;
    let input = Input {
        order: Order::Little,
        versions: Versions::Five,
        section: section.as_slice(),
        bytes: bytes.as_slice(),
    };
    Ok(match read(alloc, input) {
        Ok((unit, _)) => compared(alloc, &unit, ends.as_slice()),
        Err(_) => Err(0),
    })
}

/// A writer that takes so many calls whole and fails at the next has as many bytes as the rule says, until it fails at
/// none.
fn compared(alloc: Global, unit: &Unit, ends: &[usize]) -> Result<usize, usize> {
    let mut before = 0usize;
    let mut calls = 0usize;
    for end in ends {
        if written_by(alloc, unit, calls as u64) != (before, false) {
            return Err(calls);
        }
        before = *end;
        calls = calls.saturating_add(1);
    }
    if written_by(alloc, unit, calls as u64) == (before, true) {
        Ok(calls)
    } else {
        Err(calls)
    }
}
