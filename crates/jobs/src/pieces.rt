//! Units that come in pieces.
ghost use Rattle.std.specs.Prelude.{IfOk};
ghost use Rattle.dw_header.specs.Laws.{HasHeaderBytes};

use crate::bytes::{between, word_at};
use crate::corpus::Corpus;
use crate::digest::Digest;
use crate::error::JobError;
use crate::joined::Joined;
use crate::random::Random;
use rothelduf::{BodyFeed, Format, HeadFeed, Header, Kind, Order, Progress, Tables, Unit};
use std::alloc::Global;
use std::fs;
use std::rt::Files;

/// Of 32 units in a row, the most bytes of a piece: of a file or a socket, of a decompressor, and at worst one.
const SIZES: [usize; 32] = [
    65536, 4096, 64, 65536, 16, 4096, 65536, 64, 4096, 65536, 4096, 64, 65536, 4096, 16, 65536,
    4096, 64, 65536, 4096, 65536, 4096, 64, 65536, 4096, 16, 65536, 64, 4096, 65536, 1, 4096,
];

pub(crate) fn of_corpus(
    alloc: Global,
    corpus: &Corpus,
    rounds: usize,
    random: &mut Random,
    digest: &mut Digest,
) -> Result<(), JobError> {
    let joined = Joined::of(alloc, corpus, rounds, false, random)?;
    each_unit(
        alloc,
        joined.info.as_slice(),
        joined.abbrev.as_slice(),
        &SIZES,
        digest,
    )
}

/// The units of the files `info` and `abbrev`, in pieces of so many bytes.
pub(crate) fn of_files(
    rt: &(impl AllocGlobal + Files),
    size: usize,
    digest: &mut Digest,
) -> Result<(), JobError> {
    let abbrev = fs::read(rt, "abbrev")?;
    let info = fs::read(rt, "info")?;
    each_unit(
        rt.alloc(),
        info.as_slice(),
        abbrev.as_slice(),
        &[size],
        digest,
    )
}

/// Pushes each unit of a section, in pieces of these sizes in turn.
fn each_unit(
    alloc: Global,
    info: &[u8],
    abbrev: &[u8],
    sizes: &[usize],
    digest: &mut Digest,
) -> Result<(), JobError> {
    let mut tables = Tables::new(alloc, abbrev);
    let mut left = info;
    for number in 0..info.len() {
        if left.is_empty() {
            return Ok(());
        }
        let size = (word_at(left, 0) as usize)
            .saturating_add(4)
            .min(left.len());
        let piece = sizes.get(number % sizes.len().max(1)).copied().unwrap_or(1);
        let unit = pushed(alloc, &mut tables, &left[..size], piece)?;
        add_unit(&unit, digest);
        left = between(left, size, left.len());
    }
    Ok(())
}

/// What was read: its header, how many bytes and rows it has, its values with their texts, its entries, and its
/// padding.
fn add_unit(unit: &Unit, digest: &mut Digest) {
    add_header(unit.header(), digest);
    digest.add_number(unit.size());
    digest.add_number(unit.tree().row_count() as u64);
    digest.add_text(unit.tree().heads());
    digest.add_text(unit.tree().content());
    for entry in unit.entries() {
        digest.add_number(entry.offset() ^ (entry.depth() << 40));
        digest.add_number(entry.code().value ^ (u64::from(entry.code().width) << 56));
    }
    digest.add_text(unit.padding());
}

fn add_header(header: Header, digest: &mut Digest) {
    digest.add_number(u64::from(header.format() == Format::Dwarf64));
    digest.add_number(u64::from(header.address_size()));
    digest.add_number(header.abbrev_offset());
    match header.kind() {
        Kind::Compile => digest.add_number(1),
        Kind::TypeUnit {
            signature,
            type_offset,
        } => {
            digest.add_number(signature);
            digest.add_number(type_offset);
        }
        Kind::Partial => digest.add_number(3),
        Kind::Skeleton { dwo_id } => digest.add_number(dwo_id),
        Kind::Four => digest.add_number(4),
    }
}

/// The unit that these bytes are, in pieces of so many.
fn pushed(
    alloc: Global,
    tables: &mut Tables<'_>,
    bytes: &[u8],
    size: usize,
) -> Result<Unit, JobError> {
    let (header, unit_length, rest) = match head(bytes, size) {
        Ok(head) => head,
        Err(error) => return Err(error),
    };
    let table = tables.get(header.abbrev_offset())?;
    let mut feed = BodyFeed::new(alloc, header, unit_length, table);
    body(&mut feed, rest, size)
}

/// The header at the front of the bytes, its unit_length, and the bytes behind it.
fn head(bytes: &[u8], size: usize) -> Result<(Header, u64, &[u8]), JobError>
    ensures { IfOk result (λ x. HasHeaderBytes x.0 x.1) }
{
    let mut feed = HeadFeed::new(Order::Little);
    let mut left = bytes;
    for _ in 0..bytes.len() {
        let (count, answer) = feed.feed(&left[..left.len().min(size)]);
        left = &left[count..];
        if let Progress::Done((header, unit_length)) = answer {
            return Ok((header, unit_length, left));
        }
    }
    Err(JobError::Piece)
}

fn body(feed: &mut BodyFeed, bytes: &[u8], size: usize) -> Result<Unit, JobError> {
    let mut left = bytes;
    for _ in 0..bytes.len() {
        let (piece, behind) = left.split_at(left.len().min(size));
        left = behind;
        match feed.feed(piece) {
            (_, Progress::More) => {}
            (_, Progress::Done(unit)) => return Ok(unit),
            _ => return Err(JobError::Piece),
        }
    }
    Err(JobError::Piece)
}
