//! Unit headers (section 7.5.1, and of version 4 section 7.5.1.1 of DWARF 4): read, made and written.
ghost use Rattle.std.specs.Prelude.{◌≡◌, IfSome};

use crate::parts::error::CaseError;
use crate::parts::lengths::{format_of, name_of};
use crate::parts::words::{
    allow, append_clause, number, number_of, order, remark, small_of, verb, words,
};
use dw_header::{Header, Kind, Versions, read_header, read_header_as, write_header};
use dw_leb::{Fault, Format, Order, Watched};
use std::alloc::Global;

/// Appends the answer to a case.
pub fn answer(alloc: Global, input: &str, text: &mut String) -> Result<(), CaseError> {
    match verb(input) {
        "header" => read(alloc, input, Versions::Five, text),
        "header-of-4-or-5" => read(alloc, input, Versions::FourAndFive, text),
        "make" => make(input, text),
        _ => Err(CaseError::NoSuchCase),
    }
}

/// The header at the front of bytes.
fn read(
    alloc: Global,
    input: &str,
    versions: Versions,
    text: &mut String,
) -> Result<(), CaseError> {
    allow(input, &["header", "header-of-4-or-5", "order"])?;
    let mut bytes = Vec::new(alloc);
    append_clause(input, verb(input), &mut bytes)?;
    read_front(alloc, order(input)?, versions, bytes.as_slice(), text)
}

fn read_front(
    alloc: Global,
    order: Order,
    versions: Versions,
    b: &[u8],
    text: &mut String,
) -> Result<(), CaseError> {
    let answer = read_header_as(order, versions, b);
    remark(
        versions != Versions::Five || answer == read_header(order, b),
        "otherwise alone, ",
        text,
    )?;
    append_read(alloc, answer, b, text)
}

fn append_read(
    alloc: Global,
    answer: Result<(Header, u64), Fault>,
    b: &[u8],
    text: &mut String,
) -> Result<(), CaseError> {
    match answer {
        Ok((header, unit_length)) => {
            append_header(header, text)?;
            write!(text, ", unit_length {unit_length}, {} bytes", header.size())?;
            remark(made_again(header) == Some(header), ", made otherwise", text)?;
            remark(
                is_written(alloc, header, unit_length, b)?,
                ", written otherwise",
                text,
            )
        }
        Err(fault) => Ok(write!(text, "{fault}")?),
    }
}

/// The header of its own fields.
fn made_again(header: Header) -> Option<Header> {
    Header::new(
        header.order(),
        header.format(),
        header.kind(),
        header.address_size(),
        header.abbrev_offset(),
    )
}

/// Whether a header is written as the bytes at the front, as many as it says.
fn is_written(
    alloc: Global,
    header: Header,
    unit_length: u64,
    b: &[u8],
) -> Result<bool, CaseError> {
    if header.format() == Format::Dwarf32 && unit_length >= 0xffff_fff0 {
        return Ok(false);
    }
    let mut writer = Watched::new(Vec::new(alloc));
    write_header(header, unit_length, &mut writer)?;
    let bytes = writer.into_inner();
    Ok(b.starts_with(bytes.as_slice()) && bytes.len() as u64 == header.size())
}

/// Appends the fields of a header in words.
fn append_header(header: Header, text: &mut String) -> Result<(), CaseError> {
    append_kind(header.kind(), text)?;
    write!(
        text,
        ", order {}, format {}, address {}, table {:#x}",
        order_name(header.order()),
        name_of(header.format()),
        header.address_size(),
        header.abbrev_offset()
    )?;
    Ok(())
}

fn order_name(order: Order) -> &'static str {
    match order {
        Order::Little => "little",
        Order::Big => "big",
    }
}

fn append_kind(kind: Kind, text: &mut String) -> Result<(), CaseError> {
    match kind {
        Kind::Compile => text.push_str("compile")?,
        Kind::Partial => text.push_str("partial")?,
        Kind::TypeUnit {
            signature,
            type_offset,
        } => write!(text, "type {signature:#x} at {type_offset:#x}")?,
        Kind::Skeleton { dwo_id } => write!(text, "skeleton {dwo_id:#x}")?,
        Kind::Four => text.push_str("version 4")?,
    }
    Ok(())
}

/// A header of fields.
fn make(input: &str, text: &mut String) -> Result<(), CaseError> {
    allow(input, &["make", "order", "format", "address", "table"])?;
    make_of(kind_of(words(input, "make")?)?, input, text)
}

fn make_of(kind: Kind, input: &str, text: &mut String) -> Result<(), CaseError> {
    let format = format_of(words(input, "format")?)?;
    let address_size = small_of(words(input, "address")?)?;
    let table = number(input, "table")?;
    match Header::new(order(input)?, format, kind, address_size, table) {
        Some(header) => append_header(header, text),
        None => Ok(text.push_str("no header")?),
    }
}

/// The kind that words tell, as `append_kind` does.
fn kind_of(words: &str) -> Result<Kind, CaseError> {
    match words {
        "compile" => Ok(Kind::Compile),
        "partial" => Ok(Kind::Partial),
        "version 4" => Ok(Kind::Four),
        _ => kind_with_fields(words),
    }
}

fn kind_with_fields(words: &str) -> Result<Kind, CaseError> {
    if let Some(id) = words.strip_prefix("skeleton ") {
        return Ok(Kind::Skeleton {
            dwo_id: number_of(id)?,
        });
    }
    let fields = words.strip_prefix("type ").ok_or(CaseError::NoSuchCase)?;
    let (signature, type_offset) = fields.split_once(" at ").ok_or(CaseError::NoSuchCase)?;
    Ok(Kind::TypeUnit {
        signature: number_of(signature)?,
        type_offset: number_of(type_offset)?,
    })
}
