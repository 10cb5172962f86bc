//! What needs more than bytes at hand: names of each length around what a writer has room for, and writers that take
//! little or fail. Units whose values are known from the standard are cases of `library_cases`.
use crate::common::{FIFTEEN, NAMED, little, same, writes};
use dw_leb::devices::Stepped;
use dw_leb::{Watched, WriteError};
use dw_unit::{Unit, write_unit};
use std::alloc::Global;
use std::io::ErrorKind;
use std::process::Abort;
use std::test::Fail;

/// A type unit of the name "a", of a signature, whose type stands at 24.
const TYPE_UNIT: [u8; 27] = [
    0x17, 0, 0, 0, 0x05, 0, 0x02, 0x08, 0, 0, 0, 0, 0x88, 0x77, 0x66, 0x55, 0x44, 0x33, 0x22, 0x11,
    0x18, 0, 0, 0, 0x01, 0x61, 0,
];

/// A name as a string, a size in one byte, and a size in two.
const THREE_VALUES: [u8; 12] = [0x01, 0x11, 0, 0x03, 0x08, 0x0b, 0x0b, 0x0b, 0x05, 0, 0, 0];

/// A compile unit over the same: a name of so many bytes, and both sizes. Its header announces 13 bytes more.
fn of_a_name(alloc: Global, size: u16) -> Result<Vec<u8>, Fail> {
    let mut bytes = Vec::from_slice(alloc, &size.saturating_add(13).to_le_bytes())?;
    bytes.extend_from_slice(&[0, 0, 0x05, 0, 0x01, 0x08, 0, 0, 0, 0, 0x01])?;
    for _ in 0..size {
        bytes.push(0x61)?;
    }
    bytes.extend_from_slice(&[0, 0x04, 0x01, 0x02])?;
    Ok(bytes)
}

fn is_read_and_written(rt: &impl Abort, alloc: Global, size: u16) -> Result<(), Fail> {
    let bytes = of_a_name(alloc, size)?;
    let (unit, taken) = little(alloc, &THREE_VALUES, bytes.as_slice())?;
    assert!(rt; taken == bytes.len());
    Ok(writes(rt, alloc, &unit, bytes.as_slice())?)
}

/// A writer that gathers the bytes of an entry has room for so many only: some of these names fill it, and some are
/// longer.
#[test]
fn names_of_each_length(rt: HostRuntime) -> Result<(), Fail> {
    for size in 0..600 {
        is_read_and_written(&rt, rt.alloc(), size)?;
    }
    Ok(())
}

/// A writer that takes one byte a call gets these.
fn steps(rt: &impl Abort, alloc: Global, unit: &Unit, want: &[u8]) -> Result<(), WriteError> {
    let mut writer = Watched::new(Stepped::new(Vec::new(alloc), 1));
    write_unit(unit, &mut writer)?;
    assert!(rt; writer.fault() == None);
    let device = writer.into_inner();
    same(rt, device.inner().as_slice(), want);
    Ok(())
}

#[test]
fn writes_byte_by_byte(rt: HostRuntime) -> Result<(), Fail> {
    let (unit, _) = little(rt.alloc(), &NAMED, &TYPE_UNIT)?;
    Ok(steps(&rt, rt.alloc(), &unit, &TYPE_UNIT)?)
}

/// A writer that fails behind so many bytes gets these, and its error is told.
fn fails_behind(rt: &impl Abort, alloc: Global, unit: &Unit, taken: &[u8]) {
    let after = taken.len() as u64;
    let device = Stepped::failing(Vec::new(alloc), 1, after, ErrorKind::Other);
    let mut writer = Watched::new(device);
    let answer = write_unit(unit, &mut writer);
    assert!(rt; answer == Err(WriteError::Io(ErrorKind::Other)));
    assert!(rt; writer.fault() == Some(ErrorKind::Other));
    let device = writer.into_inner();
    same(rt, device.inner().as_slice(), taken);
}

/// A writer that takes nothing.
fn is_stuck(rt: &impl Abort, alloc: Global, unit: &Unit) {
    let mut stuck = Watched::new(Stepped::new(Vec::new(alloc), 0));
    let answer = write_unit(unit, &mut stuck);
    assert!(rt; answer == Err(WriteError::Io(ErrorKind::WriteZero)));
}

fn fails_with_its_writer(rt: &impl Abort, alloc: Global, unit: &Unit) {
    for taken in [
        &FIFTEEN[..0],
        &FIFTEEN[..3],
        &FIFTEEN[..4],
        &FIFTEEN[..12],
        &FIFTEEN[..13],
        &FIFTEEN[..14],
    ] {
        fails_behind(rt, alloc, unit, taken);
    }
    is_stuck(rt, alloc, unit);
}

#[test]
fn keeps_a_writers_fault(rt: HostRuntime) -> Result<(), Fail> {
    let (unit, _) = little(rt.alloc(), &NAMED, &FIFTEEN)?;
    fails_with_its_writer(&rt, rt.alloc(), &unit);
    Ok(())
}
