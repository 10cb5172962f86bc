//! Questions about a unit.
//!
//! - `unit`: its header, its size, where its root begins and ends, and its padding;
//! - `entries`, `last entry`, `entry at OFFSET`, `children of OFFSET`, `attributes of OFFSET`,
//!   `attribute NAME of OFFSET`, `numbers of OFFSET`, `bare values of OFFSET`: as `entries` says;
//! - `calls`: by how many calls it goes out, as `calls` says;
//! - `printed`: as `Debug` prints it;
//! - `put NUMBER as NAME of OFFSET`: as `put` says.
use crate::units::calls::append_calls;
use crate::units::entries::append_entries;
use crate::units::put::append_put;
use crate::units::show::{append_header, append_padding};
use dw_unit::Unit;
use std::alloc::{AllocError, Global};

/// Appends the answer to a question about a unit.
pub fn append_said(
    alloc: Global,
    question: &str,
    unit: &mut Unit,
    answer: &mut String,
) -> Result<(), AllocError> {
    let words: Vec<&str> = question.split_whitespace().collect(alloc)?;
    append_to_words(alloc, words.as_slice(), unit, answer)
}

fn append_to_words(
    alloc: Global,
    words: &[&str],
    unit: &mut Unit,
    answer: &mut String,
) -> Result<(), AllocError> {
    match words {
        ["unit"] => append_unit(unit, answer),
        ["calls"] => append_calls(alloc, unit, answer),
        ["printed"] => write!(answer, "{unit:?}"),
        ["put", number, "as", name, "of", offset] => {
            append_put(alloc, unit, (offset, name, number), answer)
        }
        words => append_entries(unit, words, answer),
    }
}

fn append_unit(unit: &Unit, answer: &mut String) -> Result<(), AllocError> {
    append_header(&unit.header(), answer)?;
    answer.push_str("; ")?;
    append_size(unit, answer)
}

/// Appends `N bytes, root BEGIN to END, PADDING`.
pub fn append_size(unit: &Unit, answer: &mut String) -> Result<(), AllocError> {
    let root = unit.root();
    let (begin, end) = (root.offset(), root.end_offset());
    write!(answer, "{} bytes, root {begin} to {end}, ", unit.size())?;
    append_padding(unit.padding(), answer)
}

/// A number in decimal, or in hexadecimal behind `0x`.
pub fn number_of(word: &str) -> Option<u64> {
    match word.strip_prefix("0x") {
        Some(digits) => u64::from_str_radix(digits, 16).ok(),
        None => word.parse().ok(),
    }
}
