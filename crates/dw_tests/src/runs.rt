//! Runs whose devices fail, and what is said of it.
use crate::common::no_strings;
use dw_leb::devices::Stepped;
use dw_leb::{Fault, Order, Reason, SectionId, Watched};
use dw_tool::command::Command;
use dw_tool::run::{Inputs, run};
use dw_tool::status::{Refused, ToolError};
use dw_unit::Versions;
use std::alloc::Global;
use std::io::ErrorKind;
use std::test::Fail;

/// Code 1, DW_TAG_compile_unit, no children, DW_AT_name as DW_FORM_string.
const TABLE: [u8; 8] = [0x01, 0x11, 0x00, 0x03, 0x08, 0x00, 0x00, 0x00];

/// A compile unit of the name "a".
const UNIT: [u8; 15] = [
    0x0b, 0x00, 0x00, 0x00, 0x05, 0x00, 0x01, 0x08, 0x00, 0x00, 0x00, 0x00, 0x01, 0x61, 0x00,
];

/// Where a device fails: it passes on so many bytes a call, and after so many calls fails with this kind.
#[derive(Clone, Copy)]
struct Failing {
    size: usize,
    calls: u64,
    kind: ErrorKind,
}

/// Whether a run whose reader fails so tells it, and writes nothing.
fn tells_of_its_reader(alloc: Global, command: Command<'_>, failing: Failing) -> bool {
    let Failing { size, calls, kind } = failing;
    let mut reader = Watched::new(Stepped::failing(UNIT.as_slice(), size, calls, kind));
    let mut writer = Watched::new(Vec::new(alloc));
    let inputs = Inputs {
        order: Order::Little,
        versions: Versions::Five,
        info: &mut reader,
        abbrev: &TABLE,
        strings: no_strings(),
    };
    let unread = run(alloc, command, inputs, &mut writer);
    unread == Err(ToolError::Read(kind)) && writer.into_inner().is_empty()
}

/// Whether a run whose writer fails so tells it, and has written these bytes before.
fn tells_of_its_writer(
    alloc: Global,
    command: Command<'_>,
    failing: Failing,
    before: &[u8],
) -> bool {
    let Failing { size, calls, kind } = failing;
    let mut reader = Watched::new(UNIT.as_slice());
    let mut writer = Watched::new(Stepped::failing(Vec::new(alloc), size, calls, kind));
    let inputs = Inputs {
        order: Order::Little,
        versions: Versions::Five,
        info: &mut reader,
        abbrev: &TABLE,
        strings: no_strings(),
    };
    let unwritten = run(alloc, command, inputs, &mut writer);
    unwritten == Err(ToolError::Write(kind)) && writer.into_inner().inner().as_slice() == before
}

/// At their third call.
const THIRD: Failing = Failing {
    size: 4,
    calls: 2,
    kind: ErrorKind::TimedOut,
};

#[test]
fn tells_a_reader_that_fails(rt: HostRuntime) {
    assert!(rt; tells_of_its_reader(rt.alloc(), Command::Show, THIRD));
    assert!(rt; tells_of_its_reader(rt.alloc(), Command::Copy, THIRD));
}

#[test]
fn tells_a_writer_that_fails(rt: HostRuntime) {
    assert!(rt; tells_of_its_writer(rt.alloc(), Command::Show, THIRD, b"unit 0x0"));
    assert!(rt; tells_of_its_writer(rt.alloc(), Command::Copy, THIRD, &UNIT[..8]));
}

/// At its 14th call, of which each gives a byte. What was interrupted isn't asked again.
#[test]
fn tells_a_reader_that_fails_near_the_end(rt: HostRuntime) {
    for kind in [ErrorKind::TimedOut, ErrorKind::Interrupted] {
        let failing = Failing {
            size: 1,
            calls: 13,
            kind,
        };
        for command in [Command::Show, Command::Copy, Command::Check] {
            assert!(rt; tells_of_its_reader(rt.alloc(), command, failing));
        }
    }
}

/// At its third call, of which each takes a byte.
#[test]
fn tells_a_writer_that_fails_near_the_front(rt: HostRuntime) {
    for kind in [ErrorKind::StorageFull, ErrorKind::Interrupted] {
        let failing = Failing {
            size: 1,
            calls: 2,
            kind,
        };
        assert!(rt; tells_of_its_writer(rt.alloc(), Command::Copy, failing, &UNIT[..2]));
    }
}

/// It takes no byte at its first call.
#[test]
fn tells_a_writer_that_takes_nothing(rt: HostRuntime) {
    let failing = Failing {
        size: 0,
        calls: 9,
        kind: ErrorKind::WriteZero,
    };
    for command in [Command::Show, Command::Copy] {
        assert!(rt; tells_of_its_writer(rt.alloc(), command, failing, &[]));
    }
}

#[test]
fn printed_errors(rt: HostRuntime) -> Result<(), Fail> {
    let fault = Fault {
        section: SectionId::Abbrev,
        offset: 13,
        reason: Reason::Truncated,
    };
    for (error, want) in [
        (ToolError::Fault(fault), "fault abbrev 0xd Truncated"),
        (ToolError::Refused(Refused::NoEntry), "refused NoEntry"),
        (ToolError::Read(ErrorKind::TimedOut), "read timed out"),
        (ToolError::Write(ErrorKind::WriteZero), "write write zero"),
        (ToolError::Memory, "memory"),
    ] {
        let text = format!(in rt.alloc(); "{}", error)?;
        assert!(rt; text.as_str() == want);
    }
    Ok(())
}
