//! Values in words: `number 7`, `wide 7` in sixteen bytes, `uleb 7/2` and `sleb -7/2` in two, `block in 1: 07` behind a
//! length in one, `text 68 69`, `present`, and `implicit -7/1`, a constant of a declaration.
use crate::parts::error::CaseError;
use crate::parts::numbers::{sleb_of, uleb_of};
use crate::parts::words::{clause, number_of, small_of, wide_of};
use case_file::{append_bytes, append_hexadecimal};
use dw_form::{AttrValue, Value};
use dw_leb::{Sleb, Uleb};

/// The unsigned number that the clause of this key tells, if there is such a clause.
pub fn unsigned(input: &str, key: &str) -> Result<Option<Uleb>, CaseError> {
    match clause(input, key) {
        Some(word) => Ok(Some(uleb_of(word)?)),
        None => Ok(None),
    }
}

/// The same, signed.
pub fn signed(input: &str, key: &str) -> Result<Option<Sleb>, CaseError> {
    match clause(input, key) {
        Some(word) => Ok(Some(sleb_of(word)?)),
        None => Ok(None),
    }
}

/// Appends the content of the text or the block that the case tells, if it tells one.
pub fn append_content(input: &str, bytes: &mut Vec<u8>) -> Result<(), CaseError> {
    let words = match clause(input, "block") {
        Some(words) => block_of(words)?.1,
        None => clause(input, "text").unwrap_or(""),
    };
    if append_bytes(words, bytes)? {
        Ok(())
    } else {
        Err(CaseError::NoSuchCase)
    }
}

/// The count of bytes of a block's length, and the words of its content.
fn block_of(words: &str) -> Result<(u8, &str), CaseError> {
    let words = words.strip_prefix("in ").ok_or(CaseError::NoSuchCase)?;
    let (width, content) = words.split_once(':').ok_or(CaseError::NoSuchCase)?;
    Ok((small_of(width)?, content))
}

/// The value that the case tells, whose content is there already.
pub fn value_of<'a>(input: &str, content: &'a [u8]) -> Result<Value<'a>, CaseError> {
    if let Some(words) = clause(input, "block") {
        let width = block_of(words)?.0;
        return Ok(Value::Block {
            width,
            bytes: content,
        });
    }
    if clause(input, "text").is_some() {
        return Ok(Value::Text(content));
    }
    if clause(input, "present").is_some() {
        return Ok(Value::Present);
    }
    number_in(input)
}

/// The value that the case tells, which is a number.
fn number_in(input: &str) -> Result<Value<'static>, CaseError> {
    if let Some(words) = clause(input, "number") {
        return Ok(Value::Num(number_of(words)?));
    }
    if let Some(words) = clause(input, "wide") {
        return Ok(Value::Wide(wide_of(words)?));
    }
    if let Some(number) = unsigned(input, "uleb")? {
        return Ok(Value::Uleb(number));
    }
    if let Some(number) = signed(input, "sleb")? {
        return Ok(Value::Sleb(number));
    }
    match signed(input, "implicit")? {
        Some(number) => Ok(Value::Implicit(number)),
        None => Err(CaseError::NoSuchCase),
    }
}

/// Appends a value in the same words, behind the form that an indirect one names.
pub fn append_attribute(value: &AttrValue<'_>, text: &mut String) -> Result<(), CaseError> {
    if let Some(via) = value.via {
        write!(text, "via {:#x}/{}, ", via.value, via.width)?;
    }
    append_value(&value.value, text)
}

/// Appends a value in the same words.
pub fn append_value(value: &Value<'_>, text: &mut String) -> Result<(), CaseError> {
    match *value {
        Value::Num(number) => append_fixed("number", number as u128, text),
        Value::Wide(number) => append_fixed("wide", number, text),
        Value::Uleb(number) => append_leb("uleb", number.value as i128, number.width, text),
        Value::Sleb(number) => append_leb("sleb", number.value as i128, number.width, text),
        Value::Implicit(number) => append_leb("implicit", number.value as i128, number.width, text),
        Value::Present => Ok(text.push_str("present")?),
        Value::Block { width, bytes } => append_block(width, bytes, text),
        Value::Text(bytes) => append_text(bytes, text),
    }
}

fn append_fixed(name: &str, number: u128, text: &mut String) -> Result<(), CaseError> {
    Ok(write!(text, "{name} {number:#x}")?)
}

fn append_leb(name: &str, value: i128, width: u8, text: &mut String) -> Result<(), CaseError> {
    Ok(write!(text, "{name} {value}/{width}")?)
}

fn append_block(width: u8, bytes: &[u8], text: &mut String) -> Result<(), CaseError> {
    write!(text, "block in {width}: ")?;
    Ok(append_hexadecimal(bytes, text)?)
}

fn append_text(bytes: &[u8], text: &mut String) -> Result<(), CaseError> {
    text.push_str("text ")?;
    Ok(append_hexadecimal(bytes, text)?)
}
