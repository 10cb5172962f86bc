//! Texts that are longer than the buffer through which they are written.
ghost use Rattle.dw_tool.specs.Output.{IsClear};

use crate::common::no_strings;
use dw_leb::devices::Stepped;
use dw_leb::{Order, Watched, WriteError};
use dw_tool::command::Command;
use dw_tool::output::Output;
use dw_tool::run::{Inputs, run};
use dw_tool::status::{Status, ToolError};
use dw_unit::Versions;
use std::alloc::{AllocError, Global};
use std::io::{ErrorKind, Write};
use std::test::Fail;

// Code 1: DW_TAG_compile_unit, children, DW_AT_name as DW_FORM_string. Code 2: DW_TAG_variable, no
// children, DW_AT_name as DW_FORM_string.
const TABLE: [u8; 15] = [
    0x01, 0x11, 1, 0x03, 0x08, 0, 0, 0x02, 0x34, 0, 0x03, 0x08, 0, 0, 0,
];

// A compile unit with a name of so many bytes `a`, and so many children named "b".
fn unit(alloc: Global, name: u16, children: u16) -> Result<Vec<u8>, AllocError> {
    let length = 11 + u32::from(name) + 3 * u32::from(children);
    let mut info = Vec::from_slice(alloc, &length.to_le_bytes())?;
    info.extend_from_slice(&[5, 0, 1, 8, 0, 0, 0, 0, 0x01])?;
    for _ in 0..name {
        info.push(b'a')?;
    }
    info.push(0)?;
    for _ in 0..children {
        info.extend_from_slice(b"\x02b\0")?;
    }
    info.push(0)?;
    Ok(info)
}

// The text of that unit.
fn text(alloc: Global, name: u16, children: u16) -> Result<String, AllocError> {
    let size = 15 + u32::from(name) + 3 * u32::from(children);
    let mut text = format!(in alloc; "unit 0x0 compile 32 size {size} abbrev 0x0 addr 8\n")?;
    text.push_str("<1> 0xc DW_TAG_compile_unit\n  DW_AT_name \"")?;
    for _ in 0..name {
        text.push('a')?;
    }
    text.push_str("\"\n")?;
    for child in 0..children {
        let at = 14 + u32::from(name) + 3 * u32::from(child);
        write!(text, "<2> 0x{at:x} DW_TAG_variable\n  DW_AT_name \"b\"\n")?;
    }
    Ok(text)
}

// Whether a run over the unit writes exactly this, to a writer that takes at most 1,000 bytes a call.
fn shows(alloc: Global, info: &[u8], text: &[u8]) -> bool {
    let mut reader = Watched::new(info);
    let mut writer = Watched::new(Stepped::new(Vec::new(alloc), 1_000));
    let strings = no_strings();
    let inputs = Inputs {
        order: Order::Little,
        versions: Versions::Five,
        info: &mut reader,
        abbrev: &TABLE,
        strings,
    };
    let answer = run(alloc, Command::Show, inputs, &mut writer);
    answer == Ok(Status::Good) && writer.into_inner().inner().as_slice() == text
}

// Whether a run over the unit whose writer fails at its eighth call tells so, and wrote a beginning of
// the text that is longer than the buffer.
fn stops(alloc: Global, info: &[u8], text: &[u8]) -> bool {
    let mut reader = Watched::new(info);
    let failing = Stepped::failing(Vec::new(alloc), 4_000, 7, ErrorKind::StorageFull);
    let mut writer = Watched::new(failing);
    let strings = no_strings();
    let inputs = Inputs {
        order: Order::Little,
        versions: Versions::Five,
        info: &mut reader,
        abbrev: &TABLE,
        strings,
    };
    let answer = run(alloc, Command::Show, inputs, &mut writer);
    let stopped = writer.into_inner();
    let written = stopped.inner().as_slice();
    answer == Err(ToolError::Write(ErrorKind::StorageFull))
        && written.len() > 16_384
        && written.len() < text.len()
        && text.starts_with(written)
}

// One long value, many short ones, and both.
const UNITS: [(u16, u16); 3] = [(60_000, 0), (1, 1_000), (40_000, 600)];

#[test]
fn texts_longer_than_the_buffer(rt: HostRuntime) -> Result<(), Fail> {
    let alloc = rt.alloc();
    for (name, children) in UNITS {
        let info = unit(alloc, name, children)?;
        let text = text(alloc, name, children)?;
        assert!(rt; shows(alloc, info.as_slice(), text.as_bytes()));
        assert!(rt; stops(alloc, info.as_slice(), text.as_bytes()));
    }
    Ok(())
}

fn put_around<W: Write>(out: &mut Output<'_, W>, piece: &[u8]) -> Result<(), WriteError>
    requires { IsClear out.old }
{
    out.append(b"<")?;
    out.append(piece)?;
    out.append(b">")?;
    out.flush()
}

// Whether a piece of so many bytes stands between what was appended before it and after it.
fn keeps(alloc: Global, length: u16) -> Result<bool, Fail> {
    let mut piece = Vec::new(alloc);
    for _ in 0..length {
        piece.push(b'a')?;
    }
    let mut writer = Watched::new(Vec::new(alloc));
    put_around(&mut Output::new(&mut writer), piece.as_slice())?;
    let written = writer.into_inner();
    let inner = written.as_slice().strip_prefix(b"<");
    Ok(inner.and_then(|rest| rest.strip_suffix(b">")) == Some(piece.as_slice()))
}

#[test]
fn pieces_as_long_as_the_buffer(rt: HostRuntime) -> Result<(), Fail> {
    for length in [0, 1, 16_382, 16_383, 16_384, 16_385, 20_000] {
        assert!(rt; keeps(rt.alloc(), length)?);
    }
    Ok(())
}
