//! Units that are made of rows, with their tables, in the 32-bit format of version 5, little-endian. Each row has a
//! declaration of its own, and the number of its place for a code.
use crate::units::rule::{Kind, MadeRow, Values};
use std::alloc::AllocError;

/// Appends the table of these rows.
pub fn append_table(rows: &[MadeRow], section: &mut Vec<u8>) -> Result<(), AllocError> {
    let mut code = 0u8;
    for row in rows {
        code = code.saturating_add(1);
        if row.kind != Kind::Null {
            section.extend_from_slice(&[code, 0x34, (row.kind == Kind::Branch) as u8])?;
            append_pairs(row, section)?;
            section.extend_from_slice(&[0, 0])?;
        }
    }
    section.push(0)?;
    Ok(())
}

fn append_pairs(row: &MadeRow, section: &mut Vec<u8>) -> Result<(), AllocError> {
    for values in row.values {
        let (form, count) = match values {
            Values::Told(count) => (0x0b, count),
            Values::Numbers(count) => (0x0f, count),
            Values::Text(_) => (0x08, 1),
        };
        append_times(&[0x03, form], count, section)?;
    }
    Ok(())
}

/// Appends the unit of these rows.
pub fn append_unit(rows: &[MadeRow], bytes: &mut Vec<u8>) -> Result<(), AllocError> {
    let mut size = 8u32;
    for row in rows {
        size = size.saturating_add(u32::try_from(row.size()).unwrap_or(0));
    }
    bytes.extend_from_slice(&size.to_le_bytes())?;
    bytes.extend_from_slice(&[5, 0, 1, 8, 0, 0, 0, 0])?;
    let mut code = 0u8;
    for row in rows {
        code = code.saturating_add(1);
        append_code(
            if row.kind == Kind::Null { 0 } else { code },
            row.width,
            bytes,
        )?;
        append_values(row, bytes)?;
    }
    Ok(())
}

/// Appends a code below 128 in so many bytes.
fn append_code(code: u8, width: usize, bytes: &mut Vec<u8>) -> Result<(), AllocError> {
    if width < 2 {
        bytes.push(code)?;
        return Ok(());
    }
    bytes.push(code | 0x80)?;
    append_times(&[0x80], width.saturating_sub(2), bytes)?;
    bytes.push(0)?;
    Ok(())
}

fn append_values(row: &MadeRow, bytes: &mut Vec<u8>) -> Result<(), AllocError> {
    for values in row.values {
        match values {
            Values::Told(count) => append_times(&[7], count, bytes)?,
            Values::Numbers(count) => append_times(&[0x80, 1], count, bytes)?,
            Values::Text(size) => {
                append_times(b"a", size, bytes)?;
                bytes.push(0)?;
            }
        }
    }
    Ok(())
}

fn append_times(piece: &[u8], count: usize, bytes: &mut Vec<u8>) -> Result<(), AllocError> {
    for _ in 0..count {
        bytes.extend_from_slice(piece)?;
    }
    Ok(())
}
