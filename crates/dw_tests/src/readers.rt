//! What no clause of `read_section` says: sections whose bytes are known from the standard, from readers that give
//! few bytes a call, each with memory to spare.
use crate::common::{FIFTEEN, TWO_TABLES, spells};
use dw_leb::devices::Stepped;
use dw_leb::{Fault, Order, ReadError, Reason, SectionId, Watched};
use dw_section::{Section, read_section, read_section_as};
use dw_unit::Versions;
use std::alloc::Global;
use std::io::ErrorKind;
use std::process::Abort;
use std::test::Fail;

/// The section of these bytes, of which the reader gives `step` a call.
fn stepped(
    alloc: Global,
    versions: Versions,
    bytes: &[u8],
    step: usize,
) -> Result<Section, ReadError> {
    let mut reader = Watched::new(Stepped::new(bytes, step));
    read_section_as(alloc, Order::Little, versions, &TWO_TABLES, &mut reader)
}

/// Whether the bytes, one a call, are a section of one item that isn't read.
fn is_one_other(alloc: Global, versions: Versions, bytes: &[u8]) -> Result<bool, Fail> {
    let section = stepped(alloc, versions, bytes, 1)?;
    Ok(section.items().len() == 1 && section.unit(0).is_none() && spells(alloc, &section, bytes)?)
}

/// No room for a version or for a unit type, and versions that aren't asked for.
#[test]
fn items_that_are_kept_as_their_bytes(rt: HostRuntime) -> Result<(), Fail> {
    let five: [&[u8]; 4] = [
        &[0x02, 0, 0, 0, 0x05, 0],
        &[0x03, 0, 0, 0, 0x05, 0, 0x05],
        &[0, 0, 0, 0],
        &[0x02, 0, 0, 0, 0x04, 0],
    ];
    for bytes in five {
        assert!(rt; is_one_other(rt.alloc(), Versions::Five, bytes)?);
    }
    let four: [&[u8]; 2] = [&[0x02, 0, 0, 0, 0x03, 0], &[0x02, 0, 0, 0, 0x05, 0]];
    for bytes in four {
        assert!(rt; is_one_other(rt.alloc(), Versions::FourAndFive, bytes)?);
    }
    Ok(())
}

#[test]
fn nothing_is_a_section_without_items(rt: HostRuntime) -> Result<(), Fail> {
    let section = stepped(rt.alloc(), Versions::Five, &[], 1)?;
    assert!(rt; section.items().is_empty() && section.size() == 0);
    Ok(())
}

/// The fault in `.debug_info` of these bytes, one a call.
fn refused(alloc: Global, versions: Versions, bytes: &[u8]) -> Option<(u64, Reason)> {
    match stepped(alloc, versions, bytes, 1) {
        Err(
            ReadError::Fault(
                Fault {
                    section: SectionId::Info,
                    offset,
                    reason,
                },
            ),
        ) => Some((offset, reason)),
        _ => None,
    }
}

/// An item that ends with byte 2^63 - 2 of the section, and one that ends a byte behind it.
const AT_THE_LIMIT: [u8; 14] = [
    0xff, 0xff, 0xff, 0xff, 0xf3, 0xff, 0xff, 0xff, 0xff, 0xff, 0xff, 0x7f, 0x04, 0,
];

const PAST_THE_LIMIT: [u8; 14] = [
    0xff, 0xff, 0xff, 0xff, 0xf4, 0xff, 0xff, 0xff, 0xff, 0xff, 0xff, 0x7f, 0x04, 0,
];

/// The type of the unit is missing; the item is cut, or ends too far away; a unit of version 4 has no room for its
/// other fields.
#[test]
fn items_that_are_refused(rt: HostRuntime) {
    for (bytes, versions, offset, reason) in [
        (
            [0x03, 0, 0, 0, 0x05, 0].as_slice(),
            Versions::Five,
            6,
            Reason::Truncated,
        ),
        (
            AT_THE_LIMIT.as_slice(),
            Versions::Five,
            12,
            Reason::Truncated,
        ),
        (
            PAST_THE_LIMIT.as_slice(),
            Versions::Five,
            0,
            Reason::LengthTooBig,
        ),
        (
            [0x02, 0, 0, 0, 0x04, 0].as_slice(),
            Versions::FourAndFive,
            6,
            Reason::PastUnit,
        ),
    ] {
        assert!(rt; refused(rt.alloc(), versions, bytes) == Some((offset, reason)));
    }
}

/// A compile unit of version 4 of the name "a", and behind it the fifteen bytes.
const FOUR_THEN_FIVE: [u8; 29] = [
    0x0a, 0, 0, 0, 0x04, 0, 0, 0, 0, 0, 0x08, 0x01, 0x61, 0, 0x0b, 0, 0, 0, 0x05, 0, 0x01, 0x08, 0,
    0, 0, 0, 0x01, 0x61, 0,
];

/// Whether these are two items, the second one a unit, and the first one where version 4 was asked for.
fn are_two(section: &Section, first_is_known: bool) -> bool {
    section.items().len() == 2
        && section.start(1) == Some(14)
        && section.unit(0).is_some() == first_is_known
        && section.unit(1).is_some()
}

#[test]
fn two_items_in_whatever_pieces(rt: HostRuntime) -> Result<(), Fail> {
    for step in [1, 2, 13, 29, 4096] {
        let section = stepped(rt.alloc(), Versions::Five, &FOUR_THEN_FIVE, step)?;
        assert!(rt; are_two(&section, false));
        assert!(rt; spells(rt.alloc(), &section, &FOUR_THEN_FIVE)?);
    }
    let both = stepped(rt.alloc(), Versions::FourAndFive, &FOUR_THEN_FIVE, 1)?;
    assert!(rt; are_two(&both, true));
    Ok(())
}

/// A second root in the unit's last byte, and the first byte of what follows.
const SECOND_ROOT: [u8; 17] = [
    0x0c, 0, 0, 0, 0x05, 0, 0x01, 0x08, 0, 0, 0, 0, 0x01, 0x61, 0, 0x01, 0,
];

/// The same where the unit has a byte more.
const SECOND_ROOT_WITHIN: [u8; 16] = [
    0x0d, 0, 0, 0, 0x05, 0, 0x01, 0x08, 0, 0, 0, 0, 0x01, 0x61, 0, 0x01,
];

/// A header whose addresses have nine bytes.
const NINE_BYTES_OF_ADDRESS: [u8; 8] = [0x0c, 0, 0, 0, 0x05, 0, 0x01, 0x09];

/// A unit that ends with its header.
const NO_ROOM_FOR_A_ROOT: [u8; 12] = [0x08, 0, 0, 0, 0x05, 0, 0x01, 0x08, 0, 0, 0, 0];

/// What is told of bytes of which the reader gives one a call, and fails after so many calls, and the fault that it
/// keeps.
fn told_of(alloc: Global, b: &[u8], after: u64) -> (Option<ReadError>, Option<ErrorKind>) {
    let mut reader = Watched::new(Stepped::failing(b, 1, after, ErrorKind::TimedOut));
    let told = read_section(alloc, Order::Little, &TWO_TABLES, &mut reader).err();
    (told, reader.fault())
}

#[test]
fn a_fault_comes_before_the_readers(rt: HostRuntime) {
    let fault = ReadError::Fault(Fault {
        section: SectionId::Info,
        offset: 15,
        reason: Reason::SecondRoot,
    });
    assert!(rt; told_of(rt.alloc(), &SECOND_ROOT, 16) == (Some(fault), None));
    let kind = ErrorKind::TimedOut;
    assert!(rt; told_of(rt.alloc(), &SECOND_ROOT, 15) == (Some(ReadError::Io(kind)), Some(kind)));
    assert!(rt; told_of(rt.alloc(), &FIFTEEN, 15) == (Some(ReadError::Io(kind)), Some(kind)));
}

/// What was taken of a unit is looked at before the reader is asked for more, which would fail.
#[test]
fn a_section_tells_a_fault_before_it_asks_for_more(rt: HostRuntime) {
    for (bytes, offset, reason) in [
        (SECOND_ROOT_WITHIN.as_slice(), 15, Reason::SecondRoot),
        (NINE_BYTES_OF_ADDRESS.as_slice(), 7, Reason::BadAddressSize),
        (NO_ROOM_FOR_A_ROOT.as_slice(), 12, Reason::PastUnit),
    ] {
        let fault = ReadError::Fault(Fault {
            section: SectionId::Info,
            offset,
            reason,
        });
        assert!(rt; told_of(rt.alloc(), bytes, bytes.len() as u64) == (Some(fault), None));
    }
}
