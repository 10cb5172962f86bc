//! Initial lengths, the sizes of the formats, and fields behind others (sections 7.2.2 and 7.4).
use crate::parts::error::CaseError;
use crate::parts::numbers::refused;
use crate::parts::words::{allow, append_clause, number, number_of, order, remark, verb, words};
use dw_leb::{Bad, Format, Order, Reason, read_length, write_length};
use std::alloc::Global;

/// Appends the answer to a case.
pub fn answer(alloc: Global, input: &str, text: &mut String) -> Result<(), CaseError> {
    match verb(input) {
        "length" => read(alloc, input, text),
        "sizes" => sizes(input, text),
        "behind" => behind(input, text),
        _ => Err(CaseError::NoSuchCase),
    }
}

fn read(alloc: Global, input: &str, text: &mut String) -> Result<(), CaseError> {
    allow(input, &["length", "order", "at"])?;
    let mut bytes = Vec::new(alloc);
    append_clause(input, "length", &mut bytes)?;
    let start = number(input, "at")?;
    read_at(order(input)?, start, bytes.as_slice(), text)
}

fn read_at(order: Order, start: u64, b: &[u8], text: &mut String) -> Result<(), CaseError> {
    match read_length(order, start, b) {
        Ok((format, n)) => {
            write!(text, "{n} in {}", name_of(format))?;
            remark(is_spelled(order, format, n, b), ", spelled otherwise", text)
        }
        Err(reason) => refused(reason, text),
    }
}

/// Whether a length is spelled as the bytes at the front.
fn is_spelled(order: Order, format: Format, n: u64, b: &[u8]) -> bool {
    if format == Format::Dwarf64 || n < 0xffff_fff0 {
        b.starts_with(write_length(order, format, n).as_slice())
    } else {
        false
    }
}

/// The name of a format.
pub fn name_of(format: Format) -> &'static str {
    match format {
        Format::Dwarf32 => "32-bit",
        Format::Dwarf64 => "64-bit",
    }
}

/// The format of this name.
pub fn format_of(word: &str) -> Result<Format, CaseError> {
    match word {
        "32-bit" => Ok(Format::Dwarf32),
        "64-bit" => Ok(Format::Dwarf64),
        _ => Err(CaseError::NoSuchCase),
    }
}

fn sizes(input: &str, text: &mut String) -> Result<(), CaseError> {
    allow(input, &["sizes"])?;
    let format = format_of(words(input, "sizes")?)?;
    write!(
        text,
        "length {}, offset {}",
        format.length_size(),
        format.offset_size()
    )?;
    Ok(())
}

/// A field of a version that is refused, behind others of so many bytes.
fn behind(input: &str, text: &mut String) -> Result<(), CaseError> {
    allow(input, &["behind"])?;
    let mut field = Bad::here(Reason::BadVersion);
    for word in words(input, "behind")?.split_whitespace() {
        field = moved(field, number_of(word)? as usize);
    }
    write!(text, "{} at {}", field.reason, field.offset)?;
    Ok(())
}

/// The field behind another, if their sizes have a sum.
fn moved(field: Bad, size: usize) -> Bad {
    match size.checked_add(field.offset) {
        Some(_) => field.behind(size),
        None => field,
    }
}
