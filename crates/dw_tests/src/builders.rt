//! What needs more than a script of calls: values of more bytes than a unit may have, the same call again after a
//! growth was refused, and the numbers of refusals. Units that are built call by call are cases of `library_cases`.
use crate::common::{TYPED, builder, finished, writes};
use dw_form::{AttrValue, Value};
use dw_leb::Uleb;
use dw_unit::{Refusal, Unit, UnitBuilder, most_levels};
use std::alloc::{AllocError, Global};
use std::process::Abort;
use std::test::Fail;

/// A builder over the table of a root and a child.
fn typed(alloc: Global) -> Result<UnitBuilder, Fail> {
    builder(alloc, &TYPED)
}

/// The builder isn't finished for this reason, and is handed back.
fn handed_back(rt: &impl Abort, builder: UnitBuilder, want: Refusal) -> Result<UnitBuilder, Fail> {
    match builder.finish() {
        Ok(_) => Err("it is finished".into()),
        Err((refusal, builder)) => {
            assert!(rt; refusal == want);
            Ok(builder)
        }
    }
}

/// The values are refused to an entry of this code.
fn refuses_values(rt: &impl Abort, builder: &mut UnitBuilder, code: u64, values: &[AttrValue<'_>]) {
    assert!(rt; builder.open(Uleb::least(code), values) == Err(Refusal::WrongValues));
}

/// One declaration: code 1, DW_TAG_compile_unit, no children, and 1,024 times DW_AT_const_value as
/// DW_FORM_block4.
fn many_blocks(alloc: Global) -> Result<Vec<u8>, AllocError> {
    let mut section = Vec::from_slice(alloc, &[0x01, 0x11, 0])?;
    for _i in 0..1024 {
        section.extend_from_slice(&[0x1c, 0x04])?;
    }
    section.extend_from_slice(&[0, 0, 0])?;
    Ok(section)
}

fn over_many_blocks(alloc: Global) -> Result<UnitBuilder, Fail> {
    let section = many_blocks(alloc)?;
    builder(alloc, section.as_slice())
}

/// 4 MiB of zeros.
fn zeros(alloc: Global) -> Result<Vec<u8>, AllocError> {
    let mut bytes = Vec::new(alloc);
    for _i in 0..0x40_0000 {
        bytes.push(0)?;
    }
    Ok(bytes)
}

/// 1,024 blocks over the same bytes.
fn blocks<'a>(alloc: Global, bytes: &'a [u8]) -> Result<Vec<AttrValue<'a>>, AllocError> {
    let mut values = Vec::new(alloc);
    for _i in 0..1024 {
        values.push(AttrValue::from(Value::Block { width: 4, bytes }))?;
    }
    Ok(values)
}

fn is_too_long(rt: &impl Abort, alloc: Global, values: &[AttrValue<'_>]) -> Result<(), Fail> {
    let mut builder = over_many_blocks(alloc)?;
    assert!(rt; builder.open(Uleb::least(1), values) == Err(Refusal::TooLong));
    // After its values are judged.
    refuses_values(rt, &mut builder, 1, &[]);
    handed_back(rt, builder, Refusal::NoRoot)?;
    Ok(())
}

fn are_too_long(rt: &impl Abort, alloc: Global, bytes: &[u8]) -> Result<(), Fail> {
    let values = blocks(alloc, bytes)?;
    is_too_long(rt, alloc, values.as_slice())
}

/// The values have more than 2^32 bytes together: they are refused before one of them is kept.
#[test]
fn too_long(rt: HostRuntime) -> Result<(), Fail> {
    let bytes = zeros(rt.alloc())?;
    are_too_long(&rt, rt.alloc(), bytes.as_slice())
}

/// The same call again where a growth was refused.
fn opened(builder: &mut UnitBuilder, code: u64, value: AttrValue<'_>) -> Result<(), Refusal> {
    match builder.open(Uleb::least(code), &[value]) {
        Err(Refusal::NoMemory) => builder.open(Uleb::least(code), &[value]),
        other => other,
    }
}

fn closed(builder: &mut UnitBuilder) -> Result<(), Refusal> {
    match builder.close(1) {
        Err(Refusal::NoMemory) => builder.close(1),
        other => other,
    }
}

fn padded(builder: &mut UnitBuilder) -> Result<(), Refusal> {
    match builder.pad(1) {
        Err(Refusal::NoMemory) => builder.pad(1),
        other => other,
    }
}

fn builds_patiently(builder: &mut UnitBuilder) -> Result<(), Refusal> {
    opened(builder, 1, AttrValue::from(Value::Text(&[0x61])))?;
    opened(builder, 2, AttrValue::from(Value::Num(4)))?;
    closed(builder)?;
    padded(builder)
}

/// A root with a child, and a null behind it.
const PADDED_ONCE: [u8; 19] = [
    0x0f, 0, 0, 0, 0x05, 0, 0x01, 0x08, 0, 0, 0, 0, 0x01, 0x61, 0, 0x02, 0x04, 0, 0,
];

fn is_padded_once(rt: &impl Abort, alloc: Global, unit: &Unit) -> Result<(), Fail> {
    assert!(rt; unit.size() == 19);
    assert!(rt; unit.padding() == [1].as_slice());
    Ok(writes(rt, alloc, unit, &PADDED_ONCE)?)
}

#[test]
fn a_refused_growth_is_asked_again(rt: HostRuntime) -> Result<(), Fail> {
    let mut builder = typed(rt.alloc())?;
    builds_patiently(&mut builder)?;
    let unit = finished(builder)?;
    is_padded_once(&rt, rt.alloc(), &unit)
}

#[test]
fn numbers_and_names_of_refusals(rt: HostRuntime) -> Result<(), Fail> {
    let refusals = [
        (1, Refusal::UnknownCode, "UnknownCode"),
        (2, Refusal::WrongValues, "WrongValues"),
        (3, Refusal::NotOpen, "NotOpen"),
        (4, Refusal::Open, "Open"),
        (5, Refusal::TooDeep, "TooDeep"),
        (6, Refusal::TooLong, "TooLong"),
        (7, Refusal::SecondRoot, "SecondRoot"),
        (8, Refusal::NoRoot, "NoRoot"),
        (9, Refusal::BadWidth, "BadWidth"),
        (10, Refusal::NoMemory, "NoMemory"),
    ];
    for (number, refusal, name) in refusals {
        assert!(rt; refusal as u8 == number);
        let text = format!(in rt.alloc(); "{}", refusal)?;
        assert!(rt; text.as_str() == name);
    }
    Ok(())
}

#[test]
fn levels_of_a_unit(rt: HostRuntime) {
    assert!(rt; most_levels() == 4096);
}
