//! The words of a case. Its input is clauses, apart by commas: each is a key, and what it says.
use crate::parts::error::CaseError;
use case_file::append_bytes;
use dw_leb::Order;

/// The key of the first clause, which says what is called.
pub fn verb(input: &str) -> &str {
    let (first, _rest) = input.split_once(", ").unwrap_or((input, ""));
    let (verb, _words) = first.split_once(' ').unwrap_or((first, ""));
    verb
}

/// What the first clause of this key says, `None` where there is none.
pub fn clause<'a>(input: &'a str, key: &str) -> Option<&'a str> {
    for clause in input.split(", ") {
        let (first, words) = clause.split_once(' ').unwrap_or((clause, ""));
        if first == key {
            return Some(words);
        }
    }
    None
}

/// What the clause of this key says, which has to be there.
pub fn words<'a>(input: &'a str, key: &str) -> Result<&'a str, CaseError> {
    clause(input, key).ok_or(CaseError::NoSuchCase)
}

/// Refuses a clause of any other key, so that no clause is passed over.
pub fn allow(input: &str, keys: &[&str]) -> Result<(), CaseError> {
    for clause in input.split(", ") {
        let (key, _words) = clause.split_once(' ').unwrap_or((clause, ""));
        if !is_among(key, keys) {
            return Err(CaseError::NoSuchCase);
        }
    }
    Ok(())
}

fn is_among(key: &str, keys: &[&str]) -> bool {
    for other in keys {
        if *other == key {
            return true;
        }
    }
    false
}

/// The number that the clause of this key says.
pub fn number(input: &str, key: &str) -> Result<u64, CaseError> {
    number_of(words(input, key)?)
}

/// A number, in decimal or, behind `0x`, in hexadecimal digits.
pub fn number_of(word: &str) -> Result<u64, CaseError> {
    u64::try_from(wide_of(word)?)
        .ok()
        .ok_or(CaseError::NoSuchCase)
}

/// The same, of a byte.
pub fn small_of(word: &str) -> Result<u8, CaseError> {
    u8::try_from(wide_of(word)?)
        .ok()
        .ok_or(CaseError::NoSuchCase)
}

/// The same, of sixteen bytes.
pub fn wide_of(word: &str) -> Result<u128, CaseError> {
    let read = match word.strip_prefix("0x") {
        Some(digits) => u128::from_str_radix(digits, 16),
        None => word.parse(),
    };
    read.ok().ok_or(CaseError::NoSuchCase)
}

/// The same, with a sign or without.
pub fn signed_of(word: &str) -> Result<i128, CaseError> {
    match word.strip_prefix("-") {
        Some(digits) => negative(wide_of(digits)?),
        None => i128::try_from(wide_of(word)?)
            .ok()
            .ok_or(CaseError::NoSuchCase),
    }
}

fn negative(magnitude: u128) -> Result<i128, CaseError> {
    if magnitude < 1 << 127 {
        Ok(-(magnitude as i128))
    } else {
        Err(CaseError::NoSuchCase)
    }
}

/// The order that the clause `order` says.
pub fn order(input: &str) -> Result<Order, CaseError> {
    match words(input, "order")? {
        "little" => Ok(Order::Little),
        "big" => Ok(Order::Big),
        _ => Err(CaseError::NoSuchCase),
    }
}

/// Appends the bytes that the clause of this key spells.
pub fn append_clause(input: &str, key: &str, bytes: &mut Vec<u8>) -> Result<(), CaseError> {
    if append_bytes(words(input, key)?, bytes)? {
        Ok(())
    } else {
        Err(CaseError::NoSuchCase)
    }
}

/// Appends what stands between two parts of an answer, if there is one already.
pub fn separate(between: &str, text: &mut String) -> Result<(), CaseError> {
    if !text.is_empty() {
        text.push_str(between)?;
    }
    Ok(())
}

/// Appends a remark, unless all is well.
pub fn remark(is_well: bool, remark: &str, text: &mut String) -> Result<(), CaseError> {
    if !is_well {
        text.push_str(remark)?;
    }
    Ok(())
}
