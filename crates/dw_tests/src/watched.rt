//! What no clause of `dw_leb` says of readers and writers: each call once with memory to spare, and
//! devices that fail.
ghost use Rattle.std.specs.Prelude.{◌≡◌, None, IfOk};
ghost use Rattle.dw_leb.specs.Watch.{fault_of};

use crate::common::same;
use dw_leb::devices::Stepped;
use dw_leb::{Watched, WriteError, write_all};
use std::alloc::Global;
use std::io::{ErrorKind, Read, Write};
use std::process::Abort;
use std::test::Fail;

#[test]
fn reads_a_slice(rt: HostRuntime) -> Result<(), Fail> {
    let bytes = [1, 2, 3, 4, 5];
    let mut reader = Watched::new(bytes.as_slice());
    let mut front = [0; 3];
    assert!(rt; reader.read(&mut front)? == 3);
    same(&rt, &front, &[1, 2, 3]);
    assert!(rt; reader.read(&mut front)? == 2);
    same(&rt, &front, &[4, 5, 3]);
    assert!(rt; reader.read(&mut front)? == 0);
    assert!(rt; reader.fault() == None);
    assert!(rt; reader.into_inner() == [].as_slice());
    Ok(())
}

#[test]
fn reads_byte_by_byte(rt: HostRuntime) -> Result<(), Fail> {
    let bytes = [7, 8];
    let mut reader = Watched::new(Stepped::new(bytes.as_slice(), 1));
    let mut first = [0, 0];
    assert!(rt; reader.read(&mut first)? == 1);
    assert!(rt; first == [7, 0]);
    assert!(rt; reader.read(&mut first)? == 1);
    assert!(rt; first == [8, 0]);
    assert!(rt; reader.read(&mut first)? == 0);
    assert!(rt; reader.fault() == None);
    Ok(())
}

/// A read of a byte.
fn reads_a_byte<R: Read>(reader: &mut Watched<R>) -> Result<u8, ErrorKind>
    requires { fault_of reader.old ≡ None }
    ensures { IfOk result (λ _. fault_of reader.new ≡ None) }
{
    let mut byte = [0];
    match reader.read(&mut byte) {
        Ok(_) => Ok(byte[0]),
        Err(e) => Err(e.kind()),
    }
}

/// A reader of three bytes that fails once, behind two of them. Whoever owns it may go on.
fn goes_on_reading(rt: &impl Abort, kind: ErrorKind) -> Result<(), ErrorKind> {
    let stepped = Stepped::failing([1, 2, 3].as_slice(), 1, 2, kind);
    let mut reader = Watched::new(stepped);
    assert!(rt; (reads_a_byte(&mut reader)?, reads_a_byte(&mut reader)?) == (1, 2));
    assert!(rt; reads_a_byte(&mut reader) == Err(kind));
    assert!(rt; reader.fault() == Some(kind));
    let mut reader = reader.clear();
    assert!(rt; reader.fault() == None);
    assert!(rt; reads_a_byte(&mut reader)? == 3);
    Ok(())
}

#[test]
fn keeps_a_read_fault(rt: HostRuntime) {
    for kind in [ErrorKind::TimedOut, ErrorKind::Interrupted] {
        assert!(rt; goes_on_reading(&rt, kind).is_ok());
    }
}

/// A writer that takes one byte a call.
fn writes_in_steps(rt: &impl Abort, alloc: Global) -> Result<(), WriteError> {
    let mut steps = Watched::new(Stepped::new(Vec::new(alloc), 1));
    write_all(&mut steps, &[1, 2, 3])?;
    assert!(rt; steps.fault() == None);
    same(rt, steps.into_inner().inner().as_slice(), &[1, 2, 3]);
    Ok(())
}

#[test]
fn writes_into_a_vector(rt: HostRuntime) -> Result<(), Fail> {
    writes_in_steps(&rt, rt.alloc())?;
    let mut writer = Watched::new(Vec::new(rt.alloc()));
    write_all(&mut writer, &[1, 2, 3])?;
    write_all(&mut writer, &[])?;
    assert!(rt; writer.write(&[4])? == 1);
    assert!(rt; writer.fault() == None);
    same(&rt, writer.into_inner().as_slice(), &[1, 2, 3, 4]);
    Ok(())
}

#[test]
fn fills_a_slice(rt: HostRuntime) {
    let mut cells = [0; 2];
    let mut writer = Watched::new(cells.as_mut_slice());
    let full = write_all(&mut writer, &[1, 2, 3]);
    assert!(rt; full.err() == Some(WriteError::Io(ErrorKind::WriteZero)));
    assert!(rt; writer.fault() == Some(ErrorKind::WriteZero));
    let _done = writer;
    assert!(rt; cells == [1, 2]);
}

/// A writer that fails behind two bytes, and goes on once the fault is cleared.
fn goes_on_writing(rt: &impl Abort, alloc: Global, kind: ErrorKind) -> Result<(), WriteError> {
    let mut writer = Watched::new(Stepped::failing(Vec::new(alloc), 1, 2, kind));
    let broken = write_all(&mut writer, &[1, 2, 3, 4, 5]);
    assert!(rt; broken.err() == Some(WriteError::Io(kind)));
    assert!(rt; writer.fault() == Some(kind));
    let mut writer = writer.clear();
    assert!(rt; writer.fault() == None);
    write_all(&mut writer, &[6])?;
    let inner = writer.into_inner();
    same(rt, inner.inner().as_slice(), &[1, 2, 6]);
    Ok(())
}

/// A writer that takes nothing.
fn is_stuck(rt: &impl Abort, alloc: Global) -> Result<(), Fail> {
    let mut stuck = Watched::new(Stepped::new(Vec::new(alloc), 0));
    let broken = write_all(&mut stuck, &[1]);
    assert!(rt; broken.err() == Some(WriteError::Io(ErrorKind::WriteZero)));
    assert!(rt; stuck.fault() == Some(ErrorKind::WriteZero));
    let mut stuck = stuck.clear();
    assert!(rt; stuck.write(&[1])? == 0);
    assert!(rt; stuck.fault() == Some(ErrorKind::WriteZero));
    Ok(())
}

#[test]
fn keeps_a_write_fault(rt: HostRuntime) -> Result<(), Fail> {
    for kind in [ErrorKind::TimedOut, ErrorKind::Interrupted] {
        goes_on_writing(&rt, rt.alloc(), kind)?;
    }
    is_stuck(&rt, rt.alloc())
}

fn reads_in_steps(rt: &impl Abort) -> Result<(), Fail> {
    let mut reader = Stepped::failing([1, 2, 3].as_slice(), 2, 1, ErrorKind::BrokenPipe);
    let mut cells = [0; 3];
    assert!(rt; reader.read(&mut cells)? == 2);
    assert!(rt; reader.read(&mut cells).map_err(|e| e.kind()) == Err(ErrorKind::BrokenPipe));
    assert!(rt; reader.read(&mut cells)? == 1);
    assert!(rt; cells == [3, 2, 0]);
    Ok(())
}

#[test]
fn steps_alone(rt: HostRuntime) -> Result<(), Fail> {
    reads_in_steps(&rt)?;
    let mut writer = Stepped::new(Vec::new(rt.alloc()), 2);
    assert!(rt; writer.write(&[1, 2, 3])? == 2);
    writer.flush()?;
    same(&rt, writer.inner().as_slice(), &[1, 2]);
    Ok(())
}
