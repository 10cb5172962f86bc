//! Abbreviation tables that are built: a case is a row of calls, and its answer what they refuse and what is built.
use crate::parts::error::CaseError;
use crate::parts::numbers::{sleb_of, uleb_of};
use crate::parts::tables::{append_code, append_decl, is_written, written};
use crate::parts::words::{allow, clause, number_of, remark, separate, small_of, verb, words};
use case_file::append_hexadecimal;
use dw_abbrev::{Decl, Table, TableBuilder, TableRefusal, Tables};
use dw_leb::Uleb;
use std::alloc::Global;

/// Appends the answer to a case.
pub fn answer(alloc: Global, input: &str, text: &mut String) -> Result<(), CaseError> {
    match verb(input) {
        "decl" => declare(alloc, input, text),
        "debug" | "debug-lines" | "debug-table" | "debug-builder" => print(alloc, input, text),
        _ => {
            let table = built(alloc, input, text)?;
            append_built(alloc, input, &table, text)
        }
    }
}

/// A declaration, and its pairs.
fn declare(alloc: Global, input: &str, text: &mut String) -> Result<(), CaseError> {
    allow(input, &["decl", "pair"])?;
    let mut decl = decl_of(alloc, words(input, "decl")?)?;
    put_pairs(&mut decl, input, text)?;
    append_decl(&decl, text)
}

/// A declaration and its pairs, in one line or in several, or a table or its builder, as `Debug` prints them.
fn print(alloc: Global, input: &str, text: &mut String) -> Result<(), CaseError> {
    match verb(input) {
        "debug" => print_decl(alloc, input, text),
        "debug-lines" => print_lines(alloc, input, text),
        "debug-table" => print_table(alloc, input, text),
        _ => print_builder(alloc, input, text),
    }
}

fn print_decl(alloc: Global, input: &str, text: &mut String) -> Result<(), CaseError> {
    allow(input, &["debug", "pair"])?;
    let mut decl = decl_of(alloc, words(input, "debug")?)?;
    print_with_pairs(&mut decl, input, text)
}

fn print_with_pairs(decl: &mut Decl, input: &str, text: &mut String) -> Result<(), CaseError> {
    put_pairs(decl, input, text)?;
    Ok(write!(text, "{decl:?}")?)
}

/// The same by `{:#?}`, whose lines are put behind one another with a `|` behind each.
fn print_lines(alloc: Global, input: &str, text: &mut String) -> Result<(), CaseError> {
    allow(input, &["debug-lines", "pair"])?;
    let mut decl = decl_of(alloc, words(input, "debug-lines")?)?;
    put_pairs(&mut decl, input, text)?;
    append_lines(&decl, alloc, text)
}

fn append_lines(decl: &Decl, alloc: Global, text: &mut String) -> Result<(), CaseError> {
    let printed = format!(in alloc; "{decl:#?}")?;
    append_each_line(printed.as_str(), text)
}

fn append_each_line(printed: &str, text: &mut String) -> Result<(), CaseError> {
    for line in printed.lines() {
        write!(text, "{line}|")?;
    }
    Ok(())
}

fn print_table(alloc: Global, input: &str, text: &mut String) -> Result<(), CaseError> {
    append_debug(&built(alloc, input, text)?, text)
}

fn append_debug(table: &Table, text: &mut String) -> Result<(), CaseError> {
    Ok(write!(text, "{table:?}")?)
}

fn print_builder(alloc: Global, input: &str, text: &mut String) -> Result<(), CaseError> {
    let mut builder = TableBuilder::new(alloc);
    print_with_decls(alloc, input, &mut builder, text)
}

fn print_with_decls(
    alloc: Global,
    input: &str,
    builder: &mut TableBuilder,
    text: &mut String,
) -> Result<(), CaseError> {
    add_all(alloc, input, builder, text)?;
    Ok(write!(text, "{builder:?}")?)
}

/// `1 0x11 no 1 1`: a code, a tag, whether there are children, and the widths of the zeros.
fn decl_of(alloc: Global, words: &str) -> Result<Decl, CaseError> {
    let code = uleb_of(word_at(words, 0))?;
    let tag = uleb_of(word_at(words, 1))?;
    let children = word_at(words, 2) == "yes";
    let zeros = (small_of(word_at(words, 3))?, small_of(word_at(words, 4))?);
    Ok(Decl::new(alloc, code, tag, children, zeros)?)
}

fn word_at(words: &str, index: usize) -> &str {
    words.split_whitespace().nth(index).unwrap_or("")
}

/// Puts the pairs of the case, and says which ones are refused.
fn put_pairs(decl: &mut Decl, input: &str, text: &mut String) -> Result<(), CaseError> {
    for clause in input.split(", ") {
        if let Some(words) = clause.strip_prefix("pair ") {
            put_or_say(decl, words, text)?;
        }
    }
    Ok(())
}

fn put_or_say(decl: &mut Decl, words: &str, text: &mut String) -> Result<(), CaseError> {
    match put(decl, words) {
        Err(CaseError::Refused(refusal)) => {
            write!(text, "{refusal} behind {} pairs; ", decl.pairs().len())?;
            Ok(())
        }
        other => other,
    }
}

/// `3 8`, or `3 0x21 -1/2` with a constant.
fn put(decl: &mut Decl, words: &str) -> Result<(), CaseError> {
    let mut words = words.split_whitespace();
    let name = uleb_of(words.next().unwrap_or(""))?;
    let form = uleb_of(words.next().unwrap_or(""))?;
    let constant = match words.next() {
        Some(word) => Some(sleb_of(word)?),
        None => None,
    };
    Ok(decl.pair(name, form, constant)?)
}

/// The table that the case builds.
fn built(alloc: Global, input: &str, text: &mut String) -> Result<Table, CaseError> {
    let mut builder = TableBuilder::new(alloc);
    add_all(alloc, input, &mut builder, text)?;
    finished(builder, words(input, "end")?, text)
}

/// Adds the declarations of the case.
fn add_all(
    alloc: Global,
    input: &str,
    builder: &mut TableBuilder,
    text: &mut String,
) -> Result<(), CaseError> {
    let words = [
        "add",
        "add-each",
        "end",
        "code",
        "codes",
        "debug-table",
        "debug-builder",
    ];
    allow(input, &words)?;
    add_words(alloc, input, builder, text)?;
    match clause(input, "add-each") {
        Some(words) => add_each(alloc, words, builder, text),
        None => Ok(()),
    }
}

/// Adds the declarations that the case spells one by one.
fn add_words(
    alloc: Global,
    input: &str,
    builder: &mut TableBuilder,
    text: &mut String,
) -> Result<(), CaseError> {
    for clause in input.split(", ") {
        if let Some(words) = clause.strip_prefix("add ") {
            add(decl_with_pairs(alloc, words)?, builder, text)?;
        }
    }
    Ok(())
}

/// `1 0x11 no 1 1 with 3 of 3 8`: a declaration with three pairs.
fn decl_with_pairs(alloc: Global, words: &str) -> Result<Decl, CaseError> {
    let (head, pairs) = words.split_once(" with ").unwrap_or((words, "0 of "));
    let mut decl = decl_of(alloc, head)?;
    put_often(&mut decl, pairs)?;
    Ok(decl)
}

/// Puts the same pair so often.
fn put_often(decl: &mut Decl, pairs: &str) -> Result<(), CaseError> {
    let (count, pair) = pairs.split_once(" of ").ok_or(CaseError::NoSuchCase)?;
    for _ in 0..number_of(count)? {
        put(decl, pair)?;
    }
    Ok(())
}

/// Adds a declaration, or says why it is handed back.
fn add(decl: Decl, builder: &mut TableBuilder, text: &mut String) -> Result<(), CaseError> {
    match builder.add(decl) {
        Ok(()) => Ok(()),
        Err((refusal, back)) => say_back(refusal, &back, text),
    }
}

fn say_back(refusal: TableRefusal, back: &Decl, text: &mut String) -> Result<(), CaseError> {
    let (code, count) = (back.code().value, back.pairs().len());
    Ok(write!(text, "{refusal} of {code} with {count} pairs; ")?)
}

/// `1 400`: declarations of these codes, each with one pair.
fn add_each(
    alloc: Global,
    words: &str,
    builder: &mut TableBuilder,
    text: &mut String,
) -> Result<(), CaseError> {
    let (first, behind) = codes_of(words)?;
    for code in first..behind {
        add_one(alloc, code, builder, text)?;
    }
    Ok(())
}

/// `1 400`: the first of some codes, and the one behind the last.
fn codes_of(words: &str) -> Result<(u64, u64), CaseError> {
    let (first, last) = words.split_once(' ').ok_or(CaseError::NoSuchCase)?;
    Ok((number_of(first)?, number_of(last)?.saturating_add(1)))
}

fn add_one(
    alloc: Global,
    code: u64,
    builder: &mut TableBuilder,
    text: &mut String,
) -> Result<(), CaseError> {
    add(one_pair(alloc, code)?, builder, text)
}

/// A declaration of this code with one pair.
fn one_pair(alloc: Global, code: u64) -> Result<Decl, TableRefusal> {
    let mut decl = Decl::new(alloc, Uleb::least(code), Uleb::least(0x11), false, (1, 1))?;
    decl.pair(Uleb::least(3), Uleb::least(8), None)?;
    Ok(decl)
}

/// The table that a zero of one of these widths ends, the first that isn't refused.
fn finished(
    mut builder: TableBuilder,
    widths: &str,
    text: &mut String,
) -> Result<Table, CaseError> {
    for word in widths.split_whitespace() {
        match finish_or_say(builder, small_of(word)?, text)? {
            Ok(table) => return Ok(table),
            Err(back) => builder = back,
        }
    }
    Err(CaseError::NoSuchCase)
}

/// The table, or its builder, that is handed back.
fn finish_or_say(
    builder: TableBuilder,
    width: u8,
    text: &mut String,
) -> Result<Result<Table, TableBuilder>, CaseError> {
    match builder.finish(width) {
        Ok(table) => Ok(Ok(table)),
        Err((refusal, back)) => {
            write!(text, "{refusal}; ")?;
            Ok(Err(back))
        }
    }
}

/// Appends the bytes of a table and what the case asks it for, and the same of the table that is read of them.
fn append_built(
    alloc: Global,
    input: &str,
    table: &Table,
    text: &mut String,
) -> Result<(), CaseError> {
    let bytes = written(alloc, table)?;
    append_spelling(bytes.as_slice(), text)?;
    append_asked(input, table, text)?;
    append_again(alloc, input, bytes.as_slice(), text)
}

/// Appends the bytes of a table or, where they are many, how many they are.
fn append_spelling(bytes: &[u8], text: &mut String) -> Result<(), CaseError> {
    if bytes.len() <= 64 {
        Ok(append_hexadecimal(bytes, text)?)
    } else {
        Ok(write!(text, "{} bytes", bytes.len())?)
    }
}

/// Appends the declaration of a code, and how many of some codes have one with one pair.
fn append_asked(input: &str, table: &Table, text: &mut String) -> Result<(), CaseError> {
    if let Some(word) = clause(input, "code") {
        separate("; ", text)?;
        append_code(table, number_of(word)?, text)?;
    }
    match clause(input, "codes") {
        Some(words) => append_count(words, table, text),
        None => Ok(()),
    }
}

fn append_count(words: &str, table: &Table, text: &mut String) -> Result<(), CaseError> {
    let (first, behind) = codes_of(words)?;
    let count = count_one_pair(table, first, behind);
    Ok(write!(text, "; {count} of one pair")?)
}

/// How many of the codes have a declaration with one pair.
fn count_one_pair(table: &Table, first: u64, behind: u64) -> u64 {
    let mut count = 0u64;
    for code in first..behind {
        if has_one_pair(table, code) {
            count = count.saturating_add(1);
        }
    }
    count
}

fn has_one_pair(table: &Table, code: u64) -> bool {
    match table.get(code) {
        Some(decl) => decl.code().value == code && decl.pairs().len() == 1,
        None => false,
    }
}

/// Appends what the case asks the table of these bytes for, which is read by a keeper of tables and alone.
fn append_again(
    alloc: Global,
    input: &str,
    bytes: &[u8],
    text: &mut String,
) -> Result<(), CaseError> {
    text.push_str("; again")?;
    remark(is_read(alloc, bytes)?, ", read otherwise alone", text)?;
    match Tables::new(alloc, bytes).get(0) {
        Ok(table) => append_kept(alloc, input, bytes, &table, text),
        Err(error) => Ok(write!(text, ", {error}")?),
    }
}

/// Whether the table that is read of these bytes is written as them.
fn is_read(alloc: Global, bytes: &[u8]) -> Result<bool, CaseError> {
    match Table::read(alloc, bytes, 0) {
        Ok(table) => is_written(alloc, &table, bytes),
        Err(_) => Ok(false),
    }
}

fn append_kept(
    alloc: Global,
    input: &str,
    bytes: &[u8],
    table: &Table,
    text: &mut String,
) -> Result<(), CaseError> {
    remark(
        is_written(alloc, table, bytes)?,
        ", written otherwise",
        text,
    )?;
    append_asked(input, table, text)
}
