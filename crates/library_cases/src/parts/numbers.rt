//! Numbers of LEB128 and of fixed sizes: read, made and spelled (section 7.6).
use crate::parts::error::CaseError;
use crate::parts::words::{
    allow, append_clause, number, number_of, order, remark, signed_of, small_of, verb, words,
};
use case_file::append_hexadecimal;
use dw_leb::{Reason, Sleb, Uleb, read_fixed, write_fixed};
use std::alloc::Global;

/// Appends the answer to a case.
pub fn answer(alloc: Global, input: &str, text: &mut String) -> Result<(), CaseError> {
    match verb(input) {
        "spell-uleb" => spelled_unsigned(input, text),
        "spell-sleb" => spelled_signed(input, text),
        _ => read(alloc, input, text),
    }
}

/// The unsigned number of a word: `128/3` is 128 in three bytes, and `128` is it in the fewest.
pub fn uleb_of(word: &str) -> Result<Uleb, CaseError> {
    match word.split_once('/') {
        Some((value, width)) => Uleb::with_width(number_of(value)?, small_of(width)?).ok_or(
            CaseError::NoSuchNumber,
        ),
        None => Ok(Uleb::least(number_of(word)?)),
    }
}

/// The same, signed.
pub fn sleb_of(word: &str) -> Result<Sleb, CaseError> {
    match word.split_once('/') {
        Some((value, width)) => Sleb::with_width(integer_of(value)?, small_of(width)?).ok_or(
            CaseError::NoSuchNumber,
        ),
        None => Ok(Sleb::least(integer_of(word)?)),
    }
}

fn integer_of(word: &str) -> Result<i64, CaseError> {
    i64::try_from(signed_of(word)?)
        .ok()
        .ok_or(CaseError::NoSuchCase)
}

fn spelled_unsigned(input: &str, text: &mut String) -> Result<(), CaseError> {
    allow(input, &["spell-uleb"])?;
    let number = uleb_of(words(input, "spell-uleb")?)?;
    write!(text, "{}/{}: ", number.value, number.width)?;
    Ok(append_hexadecimal(number.bytes().as_slice(), text)?)
}

fn spelled_signed(input: &str, text: &mut String) -> Result<(), CaseError> {
    allow(input, &["spell-sleb"])?;
    let number = sleb_of(words(input, "spell-sleb")?)?;
    write!(text, "{}/{}: ", number.value, number.width)?;
    Ok(append_hexadecimal(number.bytes().as_slice(), text)?)
}

/// A number at the front of bytes.
fn read(alloc: Global, input: &str, text: &mut String) -> Result<(), CaseError> {
    let mut bytes = Vec::new(alloc);
    append_clause(input, key_of_bytes(input), &mut bytes)?;
    read_front(input, bytes.as_slice(), text)
}

/// The key of the clause that spells the bytes.
fn key_of_bytes(input: &str) -> &'static str {
    match verb(input) {
        "uleb" => "uleb",
        "sleb" => "sleb",
        _ => "bytes",
    }
}

fn read_front(input: &str, b: &[u8], text: &mut String) -> Result<(), CaseError> {
    let lim = number(input, "within")?;
    match verb(input) {
        "uleb" => read_unsigned(input, b, lim, text),
        "sleb" => read_signed(input, b, lim, text),
        _ => read_of_size(input, b, lim, text),
    }
}

fn read_unsigned(input: &str, b: &[u8], lim: u64, text: &mut String) -> Result<(), CaseError> {
    allow(input, &["uleb", "within"])?;
    match Uleb::read(b, lim) {
        Ok(number) => {
            write!(text, "{}/{}", number.value, number.width)?;
            remark(is_spelled(number, b), ", spelled otherwise", text)
        }
        Err(reason) => refused(reason, text),
    }
}

/// Whether a number is spelled as the bytes at the front, and made of its value and width.
fn is_spelled(number: Uleb, b: &[u8]) -> bool {
    b.starts_with(number.bytes().as_slice())
        && Uleb::with_width(number.value, number.width) == Some(number)
}

fn read_signed(input: &str, b: &[u8], lim: u64, text: &mut String) -> Result<(), CaseError> {
    allow(input, &["sleb", "within"])?;
    match Sleb::read(b, lim) {
        Ok(number) => {
            write!(text, "{}/{}", number.value, number.width)?;
            remark(is_spelled_signed(number, b), ", spelled otherwise", text)
        }
        Err(reason) => refused(reason, text),
    }
}

/// The same, of a signed number.
fn is_spelled_signed(number: Sleb, b: &[u8]) -> bool {
    b.starts_with(number.bytes().as_slice())
        && Sleb::with_width(number.value, number.width) == Some(number)
}

fn read_of_size(input: &str, b: &[u8], lim: u64, text: &mut String) -> Result<(), CaseError> {
    allow(input, &["fixed", "order", "bytes", "within"])?;
    let n = small_of(words(input, "fixed")?)?;
    if n < 1 || n > 16 {
        return Err(CaseError::NoSuchCase);
    }
    let order = order(input)?;
    match read_fixed(order, n, b, lim) {
        Ok(number) => {
            let is_spelled = b.starts_with(write_fixed(order, n, number).as_slice());
            write!(text, "{number}")?;
            remark(is_spelled, ", spelled otherwise", text)
        }
        Err(reason) => refused(reason, text),
    }
}

/// Appends why something is refused.
pub fn refused(reason: Reason, text: &mut String) -> Result<(), CaseError> {
    write!(text, "{reason}")?;
    Ok(())
}
