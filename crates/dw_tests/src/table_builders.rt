//! What no case says of tables that are built: the same call again after a growth was refused.
use crate::common::same;
use dw_abbrev::{Decl, Table, TableBuilder, TableRefusal};
use dw_leb::{Sleb, Uleb, Watched, WriteError};
use std::alloc::Global;
use std::process::Abort;
use std::test::Fail;

/// Code 1, tag 0x11, no children, and a pair of the form implicit_const, whose constant is -1 in two bytes.
const CONSTANT: [u8; 10] = [0x01, 0x11, 0, 0x0b, 0x21, 0xff, 0x7f, 0, 0, 0];

/// A declaration of one pair with a constant, each growth asked for again where it was refused once.
fn patient_declaration(alloc: Global) -> Result<Decl, TableRefusal> {
    let mut decl = Decl::new(alloc, Uleb::least(1), Uleb::least(0x11), false, (1, 1))?;
    let constant = Sleb::with_width(-1, 2);
    let name = Uleb::least(0x0b);
    let form = Uleb::least(0x21);
    if decl.pair(name, form, constant) == Err(TableRefusal::NoMemory) {
        decl.pair(name, form, constant)?;
    }
    Ok(decl)
}

/// The same for a declaration that is added.
fn patiently_added(builder: &mut TableBuilder, decl: Decl) -> Result<(), TableRefusal> {
    match builder.add(decl) {
        Ok(_) => Ok(()),
        Err((_, back)) => builder.add(back).map_err(|(refusal, _)| refusal),
    }
}

fn patiently_built(alloc: Global) -> Result<Table, TableRefusal> {
    let mut builder = TableBuilder::new(alloc);
    patiently_added(&mut builder, patient_declaration(alloc)?)?;
    builder.finish(1).map_err(|(refusal, _)| refusal)
}

/// The table is written as these bytes.
fn writes(rt: &impl Abort, alloc: Global, table: &Table, want: &[u8]) -> Result<(), WriteError> {
    let mut writer = Watched::new(Vec::new(alloc));
    table.write(&mut writer)?;
    same(rt, writer.into_inner().as_slice(), want);
    Ok(())
}

#[test]
fn a_refused_growth_is_asked_again(rt: HostRuntime) -> Result<(), Fail> {
    let table = patiently_built(rt.alloc())?;
    Ok(writes(&rt, rt.alloc(), &table, &CONSTANT)?)
}
