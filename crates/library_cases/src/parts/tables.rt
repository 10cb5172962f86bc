//! Abbreviation tables in a section (section 7.5.3): read at an offset, and asked for in an order. In the words of
//! tables and declarations a number alone is in the fewest bytes, and `3/2` is 3 in two bytes.
use crate::parts::error::CaseError;
use crate::parts::words::{
    allow, append_clause, clause, number, number_of, remark, separate, verb, words,
};
use case_file::append_bytes;
use dw_abbrev::{Decl, Pair, Table, Tables};
use dw_leb::{Sleb, Uleb, Watched, WriteError};
use std::alloc::Global;

/// Appends the answer to a case.
pub fn answer(alloc: Global, input: &str, text: &mut String) -> Result<(), CaseError> {
    allow(
        input,
        &[
            "table", "ask", "anew", "pairs", "end", "at", "codes", "times",
        ],
    )?;
    let mut section = Vec::new(alloc);
    append_clause(input, verb(input), &mut section)?;
    append_pairs(input, &mut section)?;
    let section = section.as_slice();
    match verb(input) {
        "table" => read(alloc, input, section, text),
        "ask" => ask_all(alloc, input, section, text),
        "anew" => ask_anew(alloc, input, section, text),
        _ => Err(CaseError::NoSuchCase),
    }
}

/// Appends the bytes of many pairs, as `pairs 1024 of 03 08`, and those behind them.
fn append_pairs(input: &str, section: &mut Vec<u8>) -> Result<(), CaseError> {
    let Some(words) = clause(input, "pairs") else {
        return Ok(());
    };
    let (count, pair) = words.split_once(" of ").ok_or(CaseError::NoSuchCase)?;
    for _ in 0..number_of(count)? {
        if !append_bytes(pair, section)? {
            return Err(CaseError::NoSuchCase);
        }
    }
    append_clause(input, "end", section)
}

/// The table at an offset.
fn read(alloc: Global, input: &str, section: &[u8], text: &mut String) -> Result<(), CaseError> {
    let offset = number(input, "at")?;
    match Table::read(alloc, section, offset) {
        Ok(table) => append_table(alloc, input, section, offset, &table, text),
        Err(error) => Ok(write!(text, "{error}")?),
    }
}

/// Each table for which one keeper of tables is asked.
fn ask_all(alloc: Global, input: &str, section: &[u8], text: &mut String) -> Result<(), CaseError> {
    let mut tables = Tables::new(alloc, section);
    ask_each(alloc, input, section, &mut tables, text)
}

fn ask_each(
    alloc: Global,
    input: &str,
    section: &[u8],
    tables: &mut Tables<'_>,
    text: &mut String,
) -> Result<(), CaseError> {
    for word in words(input, "at")?.split_whitespace() {
        ask(alloc, input, section, word, tables, text)?;
    }
    Ok(())
}

fn ask(
    alloc: Global,
    input: &str,
    section: &[u8],
    word: &str,
    tables: &mut Tables<'_>,
    text: &mut String,
) -> Result<(), CaseError> {
    separate(" | ", text)?;
    let offset = number_of(word)?;
    match tables.get(offset) {
        Ok(table) => append_table(alloc, input, section, offset, &table, text),
        Err(error) => Ok(write!(text, "{error}")?),
    }
}

/// How many of the tables for which one keeper is asked, the list of offsets so often, are as if read anew.
fn ask_anew(
    alloc: Global,
    input: &str,
    section: &[u8],
    text: &mut String,
) -> Result<(), CaseError> {
    let mut tables = Tables::new(alloc, section);
    let count = count_anew(alloc, input, section, &mut tables)?;
    Ok(write!(text, "{count} as read anew")?)
}

fn count_anew(
    alloc: Global,
    input: &str,
    section: &[u8],
    tables: &mut Tables<'_>,
) -> Result<u64, CaseError> {
    let mut count = 0u64;
    for _ in 0..number(input, "times")? {
        let alike = count_anew_once(alloc, words(input, "at")?, section, tables)?;
        count = count.saturating_add(alike);
    }
    Ok(count)
}

fn count_anew_once(
    alloc: Global,
    offsets: &str,
    section: &[u8],
    tables: &mut Tables<'_>,
) -> Result<u64, CaseError> {
    let mut count = 0u64;
    for word in offsets.split_whitespace() {
        let is_alike = is_as_anew(alloc, section, number_of(word)?, tables)?;
        count = count.saturating_add(u64::from(is_alike));
    }
    Ok(count)
}

/// Whether the table there is the one that is read anew, or refused as that is.
fn is_as_anew(
    alloc: Global,
    section: &[u8],
    offset: u64,
    tables: &mut Tables<'_>,
) -> Result<bool, CaseError> {
    match Table::read(alloc, section, offset) {
        Ok(own) => is_given(alloc, offset, &own, tables),
        Err(error) => Ok(tables.get(offset).err() == Some(error)),
    }
}

fn is_given(
    alloc: Global,
    offset: u64,
    own: &Table,
    tables: &mut Tables<'_>,
) -> Result<bool, CaseError> {
    match tables.get(offset) {
        Ok(table) => are_written_alike(alloc, &table, own),
        Err(_) => Ok(false),
    }
}

fn are_written_alike(alloc: Global, one: &Table, other: &Table) -> Result<bool, CaseError> {
    let bytes = written(alloc, one)?;
    is_written(alloc, other, bytes.as_slice())
}

/// Whether a table is written as these bytes.
pub fn is_written(alloc: Global, table: &Table, want: &[u8]) -> Result<bool, CaseError> {
    Ok(written(alloc, table)?.as_slice() == want)
}

/// The bytes of a table.
pub fn written(alloc: Global, table: &Table) -> Result<Vec<u8>, WriteError> {
    let mut writer = Watched::new(Vec::new(alloc));
    table.write(&mut writer)?;
    Ok(writer.into_inner())
}

/// Appends the declarations for whose codes the case asks, and how many bytes the table has that was read at an
/// offset.
fn append_table(
    alloc: Global,
    input: &str,
    section: &[u8],
    offset: u64,
    table: &Table,
    text: &mut String,
) -> Result<(), CaseError> {
    append_codes(input, table, text)?;
    let bytes = written(alloc, table)?;
    append_size(section, offset, bytes.as_slice(), text)
}

fn append_codes(input: &str, table: &Table, text: &mut String) -> Result<(), CaseError> {
    for word in clause(input, "codes").unwrap_or("").split_whitespace() {
        append_code(table, number_of(word)?, text)?;
        text.push_str("; ")?;
    }
    Ok(())
}

/// Appends how many bytes a table has, which stand at an offset of the section.
fn append_size(
    section: &[u8],
    offset: u64,
    bytes: &[u8],
    text: &mut String,
) -> Result<(), CaseError> {
    write!(text, "{} bytes", bytes.len())?;
    let is_there = stands_at(section, offset, bytes);
    remark(is_there, ", written otherwise", text)
}

/// Whether bytes stand at an offset of a section.
fn stands_at(section: &[u8], offset: u64, bytes: &[u8]) -> bool {
    match section.get(offset as usize..) {
        Some(rest) => rest.starts_with(bytes),
        None => false,
    }
}

/// Appends the declaration of a code.
pub fn append_code(table: &Table, code: u64, text: &mut String) -> Result<(), CaseError> {
    match table.get(code) {
        Some(decl) => append_decl(decl, text),
        None => Ok(write!(text, "no code {code}")?),
    }
}

/// Appends a declaration: its code, its tag, whether it has children, its pairs or, if they are many, how many, and the
/// widths of the two zeros behind them.
pub fn append_decl(decl: &Decl, text: &mut String) -> Result<(), CaseError> {
    text.push_str("code ")?;
    append_number(decl.code(), text)?;
    text.push_str(" tag ")?;
    append_number(decl.tag(), text)?;
    text.push_str(if decl.has_children() { " yes" } else { " no" })?;
    append_pairs_of(decl.pairs(), text)?;
    let (first, second) = decl.zeros();
    write!(text, " zeros {first} {second}")?;
    Ok(())
}

fn append_pairs_of(pairs: &[Pair], text: &mut String) -> Result<(), CaseError> {
    if pairs.len() > 4 {
        write!(text, ", {} pairs,", pairs.len())?;
        return Ok(());
    }
    for pair in pairs {
        text.push_str(" pair ")?;
        append_number(pair.name, text)?;
        text.push_str(" ")?;
        append_number(pair.form, text)?;
        append_constant(pair.constant, text)?;
    }
    Ok(())
}

fn append_constant(constant: Option<Sleb>, text: &mut String) -> Result<(), CaseError> {
    if let Some(number) = constant {
        write!(text, " {}/{}", number.value, number.width)?;
    }
    Ok(())
}

fn append_number(number: Uleb, text: &mut String) -> Result<(), CaseError> {
    write!(text, "{:#x}", number.value)?;
    if number != Uleb::least(number.value) {
        write!(text, "/{}", number.width)?;
    }
    Ok(())
}
