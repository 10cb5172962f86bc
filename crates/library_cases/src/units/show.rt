//! Headers, entries and values as text.
use case_file::append_hexadecimal;
use dw_form::{AttrValue, Value};
use dw_leb::{Fault, ReadError, SectionId};
use dw_unit::{AttrRef, EntryRef, Header, Kind};
use std::alloc::AllocError;

/// Appends `; ` where something stands before.
pub fn separate(answer: &mut String) -> Result<(), AllocError> {
    if answer.is_empty() {
        Ok(())
    } else {
        answer.push_str("; ")
    }
}

/// Appends a fault as `REASON at OFFSET of SECTION`.
pub fn append_fault(fault: Fault, answer: &mut String) -> Result<(), AllocError> {
    let section = match fault.section {
        SectionId::Info => "info",
        SectionId::Abbrev => "abbrev",
    };
    write!(answer, "{} at {} of {section}", fault.reason, fault.offset)
}

/// Appends a fault, or what else ended a reader.
pub fn append_error(error: ReadError, answer: &mut String) -> Result<(), AllocError> {
    match error {
        ReadError::Fault(fault) => append_fault(fault, answer),
        error => write!(answer, "{error}"),
    }
}

/// Appends what a feed answers at the end of the input.
pub fn append_end(end: Option<Fault>, answer: &mut String) -> Result<(), AllocError> {
    answer.push_str("; end ")?;
    match end {
        Some(fault) => append_fault(fault, answer),
        None => answer.push_str("none"),
    }
}

/// Appends `KIND FORMAT ORDER, addresses of N, table at N`.
pub fn append_header(header: &Header, answer: &mut String) -> Result<(), AllocError> {
    append_kind(header.kind(), answer)?;
    write!(
        answer,
        " {:?} {:?}, addresses of {}, table at {:#x}",
        header.format(),
        header.order(),
        header.address_size(),
        header.abbrev_offset()
    )
}

fn append_kind(kind: Kind, answer: &mut String) -> Result<(), AllocError> {
    match kind {
        Kind::TypeUnit {
            signature,
            type_offset,
        } => write!(answer, "TypeUnit {signature:#x} at {type_offset:#x}"),
        Kind::Skeleton { dwo_id } => write!(answer, "Skeleton {dwo_id:#x}"),
        other => write!(answer, "{other:?}"),
    }
}

/// Appends the widths of the nulls behind the root.
pub fn append_padding(widths: &[u8], answer: &mut String) -> Result<(), AllocError> {
    if widths.is_empty() {
        return answer.push_str("no padding");
    }
    answer.push_str("padding")?;
    for width in widths {
        write!(answer, " {width}")?;
    }
    Ok(())
}

/// Appends `BEGIN to END, depth N, code N in WIDTH, tag N`.
pub fn append_entry(entry: &EntryRef<'_>, answer: &mut String) -> Result<(), AllocError> {
    write!(
        answer,
        "{} to {}, depth {}, code {} in {}, tag {:#x}",
        entry.offset(),
        entry.end_offset(),
        entry.depth(),
        entry.code().value,
        entry.code().width,
        entry.tag()
    )
}

/// Appends `NAME form FORM at OFFSET: VALUE`.
pub fn append_attribute(attr: &AttrRef<'_>, answer: &mut String) -> Result<(), AllocError> {
    write!(
        answer,
        "{:#x} form {:#x} at {}: ",
        attr.name, attr.form, attr.offset
    )?;
    append_value(&attr.attr, answer)
}

/// Appends a value: a number that it is, or a text, as its own methods tell them.
fn append_value(value: &AttrValue<'_>, answer: &mut String) -> Result<(), AllocError> {
    if let Some(form) = value.via {
        write!(answer, "through {:#x} in {}, ", form.value, form.width)?;
    }
    if let Some(number) = value.as_number() {
        return append_number(number, &value.value, answer);
    }
    match value.as_text() {
        Some(text) => append_text(text, answer),
        None => append_other(&value.value, answer),
    }
}

fn append_text(text: &[u8], answer: &mut String) -> Result<(), AllocError> {
    answer.push_str("text")?;
    if text.is_empty() {
        return Ok(());
    }
    answer.push_str(" ")?;
    append_hexadecimal(text, answer)
}

fn append_number(number: u64, value: &Value<'_>, answer: &mut String) -> Result<(), AllocError> {
    match value {
        Value::Uleb(uleb) => write!(answer, "{number} in {}", uleb.width),
        _ => write!(answer, "{number}"),
    }
}

/// A value that is no number of at most eight bytes and no text.
fn append_other(value: &Value<'_>, answer: &mut String) -> Result<(), AllocError> {
    match value {
        Value::Wide(number) => write!(answer, "wide {number}"),
        Value::Sleb(number) => write!(answer, "{} in {}", number.value, number.width),
        Value::Implicit(number) => {
            write!(answer, "constant {} in {}", number.value, number.width)
        }
        Value::Block { width, bytes } => {
            write!(answer, "block in {width}: ")?;
            append_hexadecimal(bytes, answer)
        }
        Value::Present => answer.push_str("present"),
        Value::Num(_) | Value::Uleb(_) | Value::Text(_) => answer.push_str("no such value"),
    }
}
