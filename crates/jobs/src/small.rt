//! The smallest units that there are: a header and a root, with a table of their own or one for all.
use crate::bytes::put_word;
use crate::digest::Digest;
use crate::error::JobError;
use crate::random::Random;
use crate::whole::of_bytes;
use dw_tool::command::Command;
use rothelduf::Strings;
use std::alloc::{AllocError, Global};

/// A table of one declaration, whose entries have a name.
const TABLE: [u8; 8] = [0x01, 0x11, 0x00, 0x03, 0x08, 0x00, 0x00, 0x00];

/// A unit of seventeen bytes, whose root has a name of three.
const UNIT: [u8; 17] = [
    0x0d, 0x00, 0x00, 0x00, 0x05, 0x00, 0x01, 0x08, 0x00, 0x00, 0x00, 0x00, 0x01, 0x61, 0x61, 0x61,
    0x00,
];

pub(crate) fn units(
    alloc: Global,
    count: usize,
    random: &mut Random,
    digest: &mut Digest,
) -> Result<(), JobError> {
    copied(alloc, count, 1, random, digest)?;
    copied(alloc, count, count, random, digest)
}

/// So many units over so many tables are copied.
fn copied(
    alloc: Global,
    count: usize,
    tables: usize,
    random: &mut Random,
    digest: &mut Digest,
) -> Result<(), JobError> {
    let info = info_of(alloc, count, tables, random)?;
    let abbrev = abbrev_of(alloc, tables)?;
    let none = Strings {
        str: &[],
        line_str: &[],
        str_offsets: &[],
    };
    of_bytes(
        alloc,
        info.as_slice(),
        abbrev.as_slice(),
        none,
        Command::Copy,
        digest,
    )
}

fn info_of(
    alloc: Global,
    count: usize,
    tables: usize,
    random: &mut Random,
) -> Result<Vec<u8>, AllocError> {
    let mut info = Vec::new(alloc);
    for number in 0..count {
        let mut unit = UNIT;
        let table = number.min(tables.saturating_sub(1));
        put_word(&mut unit, 8, (table % 0x1000_0000) as u32 * 8);
        for at in 13..16 {
            unit[at] = b'a' + random.byte() % 26;
        }
        info.extend_from_slice(&unit)?;
    }
    Ok(info)
}

fn abbrev_of(alloc: Global, tables: usize) -> Result<Vec<u8>, AllocError> {
    let mut abbrev = Vec::new(alloc);
    for _ in 0..tables {
        abbrev.extend_from_slice(&TABLE)?;
    }
    Ok(abbrev)
}
