//! Small units of generated code, each with a table of its own: built, put into a section, changed, written, and
//! checked.
use crate::digest::Digest;
use crate::error::JobError;
use crate::random::Random;
use crate::table::table_of;
use crate::whole::of_bytes;
use dw_tool::command::Command;
use rothelduf::constants::attribute::{DW_AT_BYTE_SIZE, DW_AT_LOW_PC};
use rothelduf::{
    AttrValue, EntryId, Format, Header, Kind, Order, Refusal, Section, Sleb, Strings, Table, Uleb,
    Unit, UnitBuilder, Value, Watched, WriteError, write_section,
};
use std::alloc::Global;
use std::rc::Rc;

/// Where the entries of a unit begin: its root, its base type and its structure. The unit's name has nine bytes.
const ROOT: u64 = 12;

const BASE: u64 = 37;

const STRUCTURE: u64 = 40;

pub(crate) fn units(
    alloc: Global,
    count: usize,
    random: &mut Random,
    digest: &mut Digest,
) -> Result<(), JobError> {
    let mut abbrev = Vec::new(alloc);
    let info = info_of(alloc, count, &mut abbrev, random, digest)?;
    digest.add_text(info.as_slice());
    digest.add_text(abbrev.as_slice());
    let none = Strings {
        str: &[],
        line_str: &[],
        str_offsets: &[],
    };
    of_bytes(
        alloc,
        info.as_slice(),
        abbrev.as_slice(),
        none,
        Command::Check,
        digest,
    )
}

/// The bytes of so many units. Their tables are put behind one another.
fn info_of(
    alloc: Global,
    count: usize,
    abbrev: &mut Vec<u8>,
    random: &mut Random,
    digest: &mut Digest,
) -> Result<Vec<u8>, JobError> {
    let mut section = Section::new(alloc, Order::Little);
    for number in 0..count {
        add_unit(alloc, number, abbrev, &mut section, random)?;
    }
    change(&mut section, random, digest);
    Ok(written(alloc, &section)?)
}

/// Adds a unit with a table of its own, which is written behind the others. No two units have the same constant in
/// their tables.
fn add_unit(
    alloc: Global,
    number: usize,
    abbrev: &mut Vec<u8>,
    section: &mut Section,
    random: &mut Random,
) -> Result<(), JobError> {
    let constant = Sleb::least((number % 0x100_0000) as i64 * 256 + i64::from(random.byte()));
    let table = table_of(alloc, constant)?;
    let offset = abbrev.len() as u64;
    put_table(alloc, &table, abbrev)?;
    let unit = built(alloc, offset, table, constant, random)?;
    section.push(unit).map_err(|(refusal, _)| refusal)?;
    Ok(())
}

fn put_table(alloc: Global, table: &Table, abbrev: &mut Vec<u8>) -> Result<(), JobError> {
    let mut writer = Watched::new(Vec::new(alloc));
    table.write(&mut writer)?;
    abbrev.extend_from_slice(writer.into_inner().as_slice())?;
    Ok(())
}

fn built(
    alloc: Global,
    offset: u64,
    table: Rc<Table>,
    constant: Sleb,
    random: &mut Random,
) -> Result<Unit, JobError> {
    let Some(header) = Header::new(Order::Little, Format::Dwarf32, Kind::Compile, 8, offset) else {
        return Err(JobError::Piece);
    };
    let mut builder = UnitBuilder::new(alloc, header, table);
    fill(&mut builder, constant, random)?;
    match builder.finish() {
        Ok(unit) => Ok(unit),
        Err((refusal, _builder)) => Err(JobError::Unit(refusal)),
    }
}

fn fill(builder: &mut UnitBuilder, constant: Sleb, random: &mut Random) -> Result<(), Refusal> {
    let values = [
        text(b"generated"),
        number(0x1d),
        number(u64::from(random.byte())),
        number(random.number()),
    ];
    builder.open(Uleb::least(1), &values)?;
    builder.open(Uleb::least(2), &[number(4), number(5)])?;
    fill_structure(builder, random)?;
    fill_function(builder, constant, random)?;
    builder.close(1)
}

fn fill_structure(builder: &mut UnitBuilder, random: &mut Random) -> Result<(), Refusal> {
    let values = [text(b"record"), leb(12), leb(random.number() % 9000)];
    builder.open(Uleb::least(3), &values)?;
    for name in [b"first", b"other", b"third"] {
        let values = [text(name), leb(BASE), leb(random.number() % 300)];
        builder.open(Uleb::least(4), &values)?;
    }
    builder.close(1)
}

fn fill_function(
    builder: &mut UnitBuilder,
    constant: Sleb,
    random: &mut Random,
) -> Result<(), Refusal> {
    let values = [
        AttrValue::from(Value::Present),
        text(b"generated_function"),
        leb(random.number() % 9000),
        number(BASE),
        AttrValue::from(Value::Block {
            width: 1,
            bytes: &[0x91, 0x6c],
        }),
    ];
    builder.open(Uleb::least(5), &values)?;
    for name in [b"left", b"next", b"size"] {
        let values = [
            text(name),
            number(STRUCTURE),
            AttrValue::from(Value::Sleb(Sleb::least(i64::from(random.byte()) - 100))),
            AttrValue::from(Value::Implicit(constant)),
        ];
        builder.open(Uleb::least(6), &values)?;
    }
    builder.close(1)
}

fn text(bytes: &[u8]) -> AttrValue<'_> {
    AttrValue::from(Value::Text(bytes))
}

fn number(number: u64) -> AttrValue<'static> {
    AttrValue::from(Value::Num(number))
}

fn leb(number: u64) -> AttrValue<'static> {
    AttrValue::from(Value::Uleb(Uleb::least(number)))
}

/// Puts other numbers into each unit.
fn change(section: &mut Section, random: &mut Random, digest: &mut Digest) {
    for item in 0..section.items().len() {
        let size = i128::from(random.byte());
        let address = i128::from(random.number());
        let base = EntryId { item, offset: BASE };
        let root = EntryId { item, offset: ROOT };
        let sized = section.set_number(base, DW_AT_BYTE_SIZE, size);
        let placed = section.set_number(root, DW_AT_LOW_PC, address);
        digest.add_number(u64::from(sized.is_ok()) + u64::from(placed.is_ok()));
    }
}

fn written(alloc: Global, section: &Section) -> Result<Vec<u8>, WriteError> {
    let mut writer = Watched::new(Vec::new(alloc));
    write_section(section, &mut writer)?;
    Ok(writer.into_inner())
}
