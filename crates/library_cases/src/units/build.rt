//! Units that are built: `build KIND FORMAT over TABLE: STEP; STEP; ..`, little-endian, with addresses of 8 bytes, over
//! the table at the front of `TABLE`. The answer has one part for each step, as `steps` says.
use crate::units::steps::append_steps;
use case_file::append_named;
use dw_abbrev::Tables;
use dw_leb::{Format, Order};
use dw_unit::{Header, Kind, UnitBuilder};
use std::alloc::{AllocError, Global};

/// A script in its parts.
#[derive(Clone, Copy)]
struct Script<'a> {
    header: Header,
    table: &'a str,
    steps: &'a str,
}

fn script_of(script: &str) -> Option<Script<'_>> {
    let (head, steps) = script.split_once(':')?;
    let (head, table) = head.split_once(" over ")?;
    let (kind, format) = head.split_once(' ')?;
    Some(Script {
        header: Header::new(Order::Little, format_of(format)?, kind_of(kind)?, 8, 0)?,
        table,
        steps,
    })
}

fn format_of(word: &str) -> Option<Format> {
    match word {
        "Dwarf32" => Some(Format::Dwarf32),
        "Dwarf64" => Some(Format::Dwarf64),
        _ => None,
    }
}

fn kind_of(word: &str) -> Option<Kind> {
    match word {
        "Compile" => Some(Kind::Compile),
        "Four" => Some(Kind::Four),
        _ => None,
    }
}

/// Appends what each step of a script is answered.
pub fn append_built(
    alloc: Global,
    file: &str,
    script: &str,
    answer: &mut String,
) -> Result<(), AllocError> {
    let Some(script) = script_of(script) else {
        return answer.push_str("no such case");
    };
    let mut section = Vec::new(alloc);
    if !append_named(file, script.table, &mut section)? {
        return answer.push_str("no such table");
    }
    append_over(alloc, file, &script, section.as_slice(), answer)
}

/// Appends it over the bytes of the tables.
fn append_over(
    alloc: Global,
    file: &str,
    script: &Script<'_>,
    section: &[u8],
    answer: &mut String,
) -> Result<(), AllocError> {
    match Tables::new(alloc, section).get(0) {
        Ok(table) => {
            let mut builder = Some(UnitBuilder::new(alloc, script.header, table));
            append_steps(alloc, file, &mut builder, script.steps, answer)
        }
        Err(error) => write!(answer, "{error}"),
    }
}
