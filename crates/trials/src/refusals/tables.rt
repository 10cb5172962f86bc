//! Tables that are read, and tables that are built.
use crate::refusals::samples::TYPED;
use crate::refusals::told;
use rothelduf::{Decl, ReadError, Table, TableBuilder, TableRefusal, Tables, Uleb, Watched};
use std::alloc::{AllocError, Global};

/// A table at its offset, and one of the declarations behind its first one, which both have in common.
pub(crate) fn tell_tables(alloc: Global, text: &mut String) -> Result<(), ReadError> {
    let mut tables = Tables::new(alloc, &TYPED);
    for offset in [0, 7, 0, 14] {
        tell_table(alloc, &mut tables, offset, text)?;
    }
    Ok(())
}

fn tell_table(
    alloc: Global,
    tables: &mut Tables<'_>,
    offset: u64,
    text: &mut String,
) -> Result<(), ReadError> {
    let mut answer = tables.get(offset);
    if let Err(ReadError::NoMemory) = answer {
        told::refused(text, "get")?;
        answer = tables.get(offset);
    }
    match answer {
        Ok(table) => Ok(bytes(alloc, &table, text)?),
        Err(_) => Ok(told::failed(text, "get")?),
    }
}

/// The bytes of a table.
fn bytes(alloc: Global, table: &Table, text: &mut String) -> Result<(), AllocError> {
    let mut writer = Watched::new(Vec::with_capacity(alloc, told::ROOM)?);
    if table.write(&mut writer).is_err() {
        return text.push_str("table FAILED\n");
    }
    told::bytes(text, "table", writer.into_inner().as_slice())
}

/// A declaration with twenty pairs.
pub(crate) fn tell_declaration(alloc: Global, text: &mut String) -> Result<(), ReadError> {
    let Ok(mut decl) = Decl::new(alloc, Uleb::least(1), Uleb::least(0x11), false, (1, 1)) else {
        return Ok(text.push_str("declaration FAILED\n")?);
    };
    for name in 1..21 {
        pair(&mut decl, name, text)?;
    }
    Ok(())
}

fn pair(decl: &mut Decl, name: u64, text: &mut String) -> Result<(), AllocError> {
    let (name, form) = (Uleb::least(name), Uleb::least(0x0b));
    let before = decl.pairs().len();
    let mut answer = decl.pair(name, form, None);
    if answer == Err(TableRefusal::NoMemory) {
        told::refused(text, "pair")?;
        if decl.pairs().len() != before {
            told::changed(text, "declaration")?;
        }
        answer = decl.pair(name, form, None);
    }
    tell_answer(text, "pair", answer)
}

fn tell_answer(
    text: &mut String,
    call: &str,
    answer: Result<(), TableRefusal>,
) -> Result<(), AllocError> {
    match answer {
        Ok(()) => told::taken(text, call),
        Err(refusal) => write!(text, "{call} {refusal}\n"),
    }
}

/// A table of twenty declarations.
pub(crate) fn tell_builder(alloc: Global, text: &mut String) -> Result<(), ReadError> {
    let mut builder = TableBuilder::new(alloc);
    for code in 1..21 {
        let Ok(decl) = Decl::new(alloc, Uleb::least(code), Uleb::least(0x24), false, (1, 1)) else {
            return Ok(text.push_str("declaration FAILED\n")?);
        };
        add(&mut builder, decl, text)?;
    }
    match builder.finish(1) {
        Ok(table) => Ok(bytes(alloc, &table, text)?),
        Err((refusal, _builder)) => Ok(write!(text, "finish {refusal}\n")?),
    }
}

/// A declaration that is handed back is added again.
fn add(builder: &mut TableBuilder, decl: Decl, text: &mut String) -> Result<(), AllocError> {
    match builder.add(decl) {
        Err((TableRefusal::NoMemory, again)) => {
            told::refused(text, "add")?;
            tell_answer(text, "add", without_decl(builder.add(again)))
        }
        answer => tell_answer(text, "add", without_decl(answer)),
    }
}

fn without_decl(answer: Result<(), (TableRefusal, Decl)>) -> Result<(), TableRefusal> {
    match answer {
        Ok(()) => Ok(()),
        Err((refusal, _)) => Err(refusal),
    }
}
