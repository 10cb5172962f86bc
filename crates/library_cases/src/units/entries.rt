//! Questions about the entries of a unit:
//!
//! - `entries`, all in their order, and `last entry`;
//! - `entry at OFFSET`, the one that begins there, and `children of OFFSET`, where the entries just below it begin;
//! - `attributes of OFFSET`, all of the entry that begins there, and `attribute NAME of OFFSET`, its first one of a
//!   name;
//! - `numbers of OFFSET` and `bare values of OFFSET`, those that `next_number` gives until it gives none, and what
//!   `next_bare` gives, with `other` for each attribute at which it gives none.
use crate::units::show::{append_attribute, append_entry, separate};
use crate::units::unit::number_of;
use dw_unit::{AttrRef, EntryRef, NumberRef, Unit};
use std::alloc::AllocError;

pub fn append_entries(unit: &Unit, words: &[&str], answer: &mut String) -> Result<(), AllocError> {
    match words {
        ["entries"] => append_all(unit, answer),
        ["last", "entry"] => append_last(unit, answer),
        ["entry", "at", offset] => match entry_at(unit, offset) {
            Some(entry) => append_entry(&entry, answer),
            None => answer.push_str("nothing"),
        },
        [question @ .., "of", offset] => match entry_at(unit, offset) {
            Some(entry) => append_of(&entry, question, answer),
            None => answer.push_str("no such entry"),
        },
        _ => answer.push_str("no such case"),
    }
}

fn entry_at<'a>(unit: &'a Unit, offset: &str) -> Option<EntryRef<'a>> {
    unit.entry_at(number_of(offset)?)
}

fn append_all(unit: &Unit, answer: &mut String) -> Result<(), AllocError> {
    for entry in unit.entries() {
        append_next_entry(&entry, answer)?;
    }
    Ok(())
}

fn append_next_entry(entry: &EntryRef<'_>, answer: &mut String) -> Result<(), AllocError> {
    separate(answer)?;
    append_entry(entry, answer)
}

fn append_last(unit: &Unit, answer: &mut String) -> Result<(), AllocError> {
    let mut last = unit.root();
    for entry in unit.entries() {
        last = entry;
    }
    append_entry(&last, answer)
}

/// Appends the answer to a question about one entry.
fn append_of(
    entry: &EntryRef<'_>,
    question: &[&str],
    answer: &mut String,
) -> Result<(), AllocError> {
    match question {
        ["children"] => append_children(entry, answer),
        ["attributes"] => append_attributes(entry, answer),
        ["attribute", name] => append_named(entry, name, answer),
        ["numbers"] => append_numbers(entry, answer),
        ["bare", "values"] => append_bare(entry, answer),
        _ => answer.push_str("no such case"),
    }
}

fn append_children(entry: &EntryRef<'_>, answer: &mut String) -> Result<(), AllocError> {
    for child in entry.children() {
        append_next_offset(child.offset(), answer)?;
    }
    if answer.is_empty() {
        answer.push_str("none")?;
    }
    Ok(())
}

fn append_next_offset(offset: u64, answer: &mut String) -> Result<(), AllocError> {
    separate(answer)?;
    write!(answer, "{offset}")
}

fn append_attributes(entry: &EntryRef<'_>, answer: &mut String) -> Result<(), AllocError> {
    for attr in entry.attrs() {
        append_next(&attr, answer)?;
    }
    Ok(())
}

fn append_next(attr: &AttrRef<'_>, answer: &mut String) -> Result<(), AllocError> {
    separate(answer)?;
    append_attribute(attr, answer)
}

fn append_named(entry: &EntryRef<'_>, name: &str, answer: &mut String) -> Result<(), AllocError> {
    let Some(name) = number_of(name) else {
        return answer.push_str("no such case");
    };
    match entry.attr(name) {
        Some(attr) => append_attribute(&attr, answer),
        None => answer.push_str("nothing"),
    }
}

fn append_numbers(entry: &EntryRef<'_>, answer: &mut String) -> Result<(), AllocError> {
    let mut attrs = entry.attrs();
    for _ in entry.attrs() {
        let Some(number) = attrs.next_number() else {
            return Ok(());
        };
        append_number(&number, answer)?;
    }
    append_more(attrs.next_number().is_some(), answer)
}

/// Says that there is more where nothing is left.
fn append_more(is_more: bool, answer: &mut String) -> Result<(), AllocError> {
    if is_more {
        answer.push_str("; and one more")?;
    }
    Ok(())
}

/// Appends a number as an attribute, which has to be the same one.
fn append_number(number: &NumberRef, answer: &mut String) -> Result<(), AllocError> {
    let attr = number.attribute();
    let is_same = (attr.name, attr.form, attr.offset) == (number.name, number.form, number.offset)
        && attr.attr.as_number() == Some(number.number);
    separate(answer)?;
    if !is_same {
        answer.push_str("another ")?;
    }
    append_attribute(&attr, answer)
}

fn append_bare(entry: &EntryRef<'_>, answer: &mut String) -> Result<(), AllocError> {
    let mut attrs = entry.attrs();
    for _ in entry.attrs() {
        let bare = attrs.next_bare();
        if bare.is_none() {
            let _other = attrs.next();
        }
        append_bare_or_other(bare, answer)?;
    }
    append_more(attrs.next_bare().is_some(), answer)
}

fn append_bare_or_other(bare: Option<AttrRef<'_>>, answer: &mut String) -> Result<(), AllocError> {
    separate(answer)?;
    match bare {
        Some(bare) => append_attribute(&bare, answer),
        None => answer.push_str("other"),
    }
}
