//! What needs more than a reader of given bytes: two units of one reader, how much memory is taken, and readers that
//! fail. Units of readers that give few bytes a call are cases of `library_cases`.
ghost use Rattle.std.specs.Prelude.{◌≡◌, None};
ghost use Rattle.dw_leb.specs.Watch.{fault_of, reader_fault};

use crate::common::{FIFTEEN, NAMED, same};
use dw_abbrev::Tables;
use dw_feed::{read_field, read_unit_from, read_up_to};
use dw_leb::devices::Stepped;
use dw_leb::{Fault, Order, ReadError, Reason, SectionId, Watched};
use dw_unit::Unit;
use std::alloc::Global;
use std::io::{ErrorKind, Read};
use std::process::Abort;
use std::test::Fail;

fn little<R: Read>(
    alloc: Global,
    section: &[u8],
    reader: &mut Watched<R>,
) -> Result<Unit, ReadError>
    requires { fault_of reader.old ≡ None }
    ensures { fault_of reader.new ≡ reader_fault result }
{
    let mut tables = Tables::new(alloc, section);
    read_unit_from(alloc, Order::Little, &mut tables, reader)
}

const TWICE: [u8; 30] = [
    0x0b, 0, 0, 0, 0x05, 0, 0x01, 0x08, 0, 0, 0, 0, 0x01, 0x61, 0, 0x0b, 0, 0, 0, 0x05, 0, 0x01,
    0x08, 0, 0, 0, 0, 0x01, 0x61, 0,
];

#[test]
fn reads_one_unit_and_then_the_next(rt: HostRuntime) -> Result<(), Fail> {
    let mut reader = Watched::new(Stepped::new(TWICE.as_slice(), 4));
    assert!(rt; little(rt.alloc(), &NAMED, &mut reader)?.size() == 15);
    assert!(rt; little(rt.alloc(), &NAMED, &mut reader)?.size() == 15);
    assert!(rt; reader.into_inner().inner().len() == 0);
    Ok(())
}

/// A length of almost 4 GB, of which 15 bytes come.
const ALMOST_FOUR_GIGABYTES: [u8; 15] = [
    0xef, 0xff, 0xff, 0xff, 0x05, 0, 0x01, 0x08, 0, 0, 0, 0, 0x01, 0x61, 0,
];

/// No more room is made for a count of bytes than for a piece of what comes.
#[test]
fn believes_no_announced_length(rt: HostRuntime) -> Result<(), Fail> {
    let bytes = ALMOST_FOUR_GIGABYTES.as_slice();
    let mut reader = Watched::new(bytes);
    let mut taken = Vec::new(rt.alloc());
    read_field(&mut reader, &mut taken)?;
    same(&rt, taken.as_slice(), &bytes[..4]);
    read_up_to(&mut reader, 0xffff_ffef, &mut taken)?;
    same(&rt, taken.as_slice(), bytes);
    assert!(rt; taken.capacity() < 10_000);
    Ok(())
}

/// A reader of the fifteen bytes fails after so many of them, takes no more, and its error is told.
fn fails_after(rt: &impl Abort, alloc: Global, after: u64, kind: ErrorKind) {
    let device = Stepped::failing(FIFTEEN.as_slice(), 1, after, kind);
    let mut reader = Watched::new(device);
    let told = little(alloc, &NAMED, &mut reader).err();
    assert!(rt; told == Some(ReadError::Io(kind)));
    assert!(rt; reader.fault() == Some(kind));
    let left = reader.into_inner().inner().len() as u64;
    assert!(rt; after <= 15 && left == 15 - after);
}

#[test]
fn tells_a_readers_fault(rt: HostRuntime) -> Result<(), Fail> {
    for after in [0, 1, 3, 4, 5, 12, 14] {
        for kind in [ErrorKind::TimedOut, ErrorKind::Interrupted] {
            fails_after(&rt, rt.alloc(), after, kind);
        }
    }
    let device = Stepped::failing(FIFTEEN.as_slice(), 1, 15, ErrorKind::TimedOut);
    let mut reader = Watched::new(device);
    assert!(rt; little(rt.alloc(), &NAMED, &mut reader)?.size() == 15);
    Ok(())
}

/// What is told by a reader that gives these bytes, one a call, and fails when it is asked for more, and
/// whether it was.
fn told_of(alloc: Global, section: &[u8], b: &[u8]) -> (Option<ReadError>, bool) {
    let device = Stepped::failing(b, 1, b.len() as u64, ErrorKind::TimedOut);
    let mut reader = Watched::new(device);
    let told = little(alloc, section, &mut reader).err();
    (told, reader.fault() != None)
}

/// A second root in the unit's last byte.
const SECOND_ROOT: [u8; 16] = [
    0x0c, 0, 0, 0, 0x05, 0, 0x01, 0x08, 0, 0, 0, 0, 0x01, 0x61, 0, 0x01,
];

/// The same where the unit has a byte more.
const SECOND_ROOT_WITHIN: [u8; 16] = [
    0x0d, 0, 0, 0, 0x05, 0, 0x01, 0x08, 0, 0, 0, 0, 0x01, 0x61, 0, 0x01,
];

const NO_SUCH_CODE: [u8; 13] = [0x0d, 0, 0, 0, 0x05, 0, 0x01, 0x08, 0, 0, 0, 0, 0x02];

/// The unit ends with its header.
const NO_ROOM_FOR_A_ROOT: [u8; 12] = [0x08, 0, 0, 0, 0x05, 0, 0x01, 0x08, 0, 0, 0, 0];

const OF_VERSION_FOUR: [u8; 6] = [0x0b, 0, 0, 0, 0x04, 0];

const RESERVED: [u8; 4] = [0xf0, 0xff, 0xff, 0xff];

#[test]
fn tells_a_fault_before_it_asks_for_more(rt: HostRuntime) {
    for (bytes, offset, reason) in [
        (SECOND_ROOT.as_slice(), 15, Reason::SecondRoot),
        (SECOND_ROOT_WITHIN.as_slice(), 15, Reason::SecondRoot),
        (NO_SUCH_CODE.as_slice(), 12, Reason::UnknownCode),
        (NO_ROOM_FOR_A_ROOT.as_slice(), 12, Reason::PastUnit),
        (OF_VERSION_FOUR.as_slice(), 4, Reason::BadVersion),
        (RESERVED.as_slice(), 0, Reason::ReservedLength),
    ] {
        let fault = ReadError::Fault(Fault {
            section: SectionId::Info,
            offset,
            reason,
        });
        assert!(rt; told_of(rt.alloc(), &NAMED, bytes) == (Some(fault), false));
    }
}
