//! The values that an entry is opened with, each as
//!
//! - `N`, a fixed number of at most eight bytes, and `wide N`, one of sixteen;
//! - `N in WIDTH` and `signed N in WIDTH`, LEB128 numbers, and `constant N in WIDTH`, that of a declaration;
//! - `text BYTES`, `block WIDTH of BYTES`, `present`;
//! - `through FORM VALUE`, a value that names its form.
use crate::units::steps::Said;
use crate::units::unit::number_of;
use case_file::append_bytes;
use dw_form::{AttrValue, Value};
use dw_leb::{Sleb, Uleb};
use dw_unit::UnitBuilder;
use std::alloc::{AllocError, Global};

/// Opens an entry with the values that the words spell.
pub fn open_with(
    alloc: Global,
    builder: &mut UnitBuilder,
    code: Uleb,
    values: &str,
) -> Result<Said, AllocError> {
    let mut pool = Vec::new(alloc);
    if !append_contents(values, &mut pool)? {
        return Ok(Said::NoStep);
    }
    open_over(alloc, builder, code, values, pool.as_slice())
}

/// Appends the bytes of all texts and blocks, from which the values are lent.
fn append_contents(values: &str, pool: &mut Vec<u8>) -> Result<bool, AllocError> {
    for value in values.split(',') {
        if !append_bytes(content_of(value), pool)? {
            return Ok(false);
        }
    }
    Ok(true)
}

/// The words of the bytes of a text or a block.
fn content_of(value: &str) -> &str {
    match (value.split_once("text"), value.split_once(" of ")) {
        (Some((_, content)), _) | (None, Some((_, content))) => content,
        (None, None) => "",
    }
}

fn open_over(
    alloc: Global,
    builder: &mut UnitBuilder,
    code: Uleb,
    words: &str,
    pool: &[u8],
) -> Result<Said, AllocError> {
    let mut values = Vec::new(alloc);
    let mut left = pool;
    for word in words.split(',') {
        let size = content_of(word).split_whitespace().count();
        let (content, rest) = left.split_at(size.min(left.len()));
        match value_of(alloc, word, content)? {
            Some(value) => values.push(value)?,
            None => return Ok(Said::NoStep),
        }
        left = rest;
    }
    Ok(Said::of(builder.open(code, values.as_slice())))
}

/// The value that the words spell, a text or a block with this content.
fn value_of<'a>(
    alloc: Global,
    words: &str,
    content: &'a [u8],
) -> Result<Option<AttrValue<'a>>, AllocError> {
    let words: Vec<&str> = words.split_whitespace().collect(alloc)?;
    Ok(match words.as_slice() {
        ["through", form, rest @ ..] => through(form, plain(rest, content)),
        words => plain(words, content).map(AttrValue::from),
    })
}

fn through<'a>(form: &str, value: Option<Value<'a>>) -> Option<AttrValue<'a>> {
    Some(AttrValue {
        via: Some(Uleb::least(number_of(form)?)),
        value: value?,
    })
}

fn plain<'a>(words: &[&str], content: &'a [u8]) -> Option<Value<'a>> {
    match words {
        ["text", ..] => Some(Value::Text(content)),
        ["block", width, "of", ..] => Some(Value::Block {
            width: width.parse().ok()?,
            bytes: content,
        }),
        ["present"] => Some(Value::Present),
        words => number(words),
    }
}

fn number(words: &[&str]) -> Option<Value<'static>> {
    match words {
        [number] => Some(Value::Num(number_of(number)?)),
        ["wide", number] => Some(Value::Wide(number.parse().ok()?)),
        [number, "in", width] => {
            let number = number_of(number)?;
            Some(Value::Uleb(Uleb::with_width(number, width.parse().ok()?)?))
        }
        ["signed", number, "in", width] => Some(Value::Sleb(signed(number, width)?)),
        ["constant", number, "in", width] => Some(Value::Implicit(signed(number, width)?)),
        _ => None,
    }
}

fn signed(number: &str, width: &str) -> Option<Sleb> {
    Sleb::with_width(number.parse().ok()?, width.parse().ok()?)
}
